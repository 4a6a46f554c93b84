//! The tokens of a text.

/// A mark of the format: one byte that is a token by itself.
#[derive(Clone, Copy, PartialEq, Eq, Debug)]
pub enum Mark {
    OpenBracket,
    CloseBracket,
    OpenBrace,
    CloseBrace,
    OpenParen,
    CloseParen,
    Not,
    And,
    Or,
}

/// A token of a text. A word and a name are the bytes of the text itself, a name without its quotes.
#[derive(Clone, Copy, PartialEq, Eq, Debug)]
pub enum Token<'a> {
    Word(&'a [u8]),
    Number(u32),
    Name(&'a [u8]),
    Mark(Mark),
    /// The text's end.
    End,
}

/// A token, the place of its first byte, and the place behind its last.
#[derive(Clone, Copy, PartialEq, Eq, Debug)]
pub struct Placed<'a> {
    pub token: Token<'a>,
    pub place: usize,
    pub next: usize,
}

/// A value that has been read, and the token behind it.
#[derive(Clone, Copy)]
pub struct Read<'a, T> {
    pub value: T,
    pub head: Placed<'a>,
}

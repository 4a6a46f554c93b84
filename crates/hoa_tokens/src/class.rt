//! Classes of bytes.
ghost use Rattle.std.specs.Prelude.{◌≡◌};
ghost use Rattle.hoa_tokens.specs.Bytes.{letter, digit, member, sign, MarkRead};

use crate::fault::Refusal;
use crate::token::Mark;

/// A class of bytes of which a run is taken.
// An enum and no closure, so that a clause can say exactly which bytes a run holds.
#[derive(Clone, Copy)]
pub enum Class {
    Blank,
    /// What a word goes on with.
    Word,
    Digit,
    /// What stands between the quotes of a name.
    Name,
}

/// Whether a byte begins a word.
pub fn is_letter(b: u8) -> bool
    ensures { result ≡ letter b }
{
    matches!(b, b'a'..=b'z' | b'A'..=b'Z' | b'-')
}

pub fn is_digit(b: u8) -> bool
    ensures { result ≡ digit b }
{
    b.is_ascii_digit()
}

impl From<Mark> for u8 {
    ghost from_gives = { λ mark b. b ≡ sign mark };

    fn from(mark: Mark) -> u8 {
        match mark {
            Mark::OpenBracket => b'[',
            Mark::CloseBracket => b']',
            Mark::OpenBrace => b'{',
            Mark::CloseBrace => b'}',
            Mark::OpenParen => b'(',
            Mark::CloseParen => b')',
            Mark::Not => b'!',
            Mark::And => b'&',
            Mark::Or => b'|',
        }
    }
}

impl TryFrom<u8> for Mark {
    type Error = Refusal;

    ghost try_from_gives = { MarkRead };

    fn try_from(b: u8) -> Result<Mark, Refusal> {
        match b {
            b'[' => Ok(Mark::OpenBracket),
            b']' => Ok(Mark::CloseBracket),
            b'{' => Ok(Mark::OpenBrace),
            b'}' => Ok(Mark::CloseBrace),
            b'(' => Ok(Mark::OpenParen),
            b')' => Ok(Mark::CloseParen),
            b'!' => Ok(Mark::Not),
            b'&' => Ok(Mark::And),
            b'|' => Ok(Mark::Or),
            _ => Err(Refusal::BadByte),
        }
    }
}

impl Class {
    /// Whether the class holds a byte.
    pub fn holds(self, b: u8) -> bool
        ensures { result ≡ member self b }
    {
        match self {
            Class::Blank => matches!(b, b' ' | b'\t' | b'\n' | b'\r'),
            Class::Word => is_letter(b) || is_digit(b),
            Class::Digit => is_digit(b),
            Class::Name => matches!(b, b' '..=b'~') && b != b'"' && b != b'\\',
        }
    }
}

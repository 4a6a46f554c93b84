//! Reading a label, through its terms and factors.
ghost use Rattle.std.specs.Prelude.{◌≡◌, ◌+◌, ◌<◌, ◌≤◌, MatchResult};
ghost use Rattle.hoa_tokens.specs.declared.fault.Refusal.TheVariants.{TooDeep, OutOfRange};
ghost use Rattle.hoa_tokens.specs.Scanning.{lexeme, mark as mark_of};
ghost use Rattle.hoa_grammar.specs.Labels.{on, deepest};
ghost use Rattle.hoa_grammar.specs.Machine.{is_token};
ghost use Rattle.hoa_grammar.specs.Verdicts.{fault_at};
ghost use Rattle.hoa_labels.specs.Letters.{Means};
ghost use Rattle.hoa_labels.specs.Parts.{WordRead, Passed, ClosedBy, FactorRead, TermRead, LabelRead, BracketedRead};

use crate::letters::{Signals, both, either};
use hoa_tokens::{Fault, Mark, Placed, Read, Refusal, Text, Token};

/// The most `(` and `!` that may be open at once.
const DEEPEST: u32 = 16;

/// The room inside a `(` or `!`, or the fault of one too many that are open at once.
fn room_inside(room: u32, place: usize) -> Result<u32, Fault>
    ensures { MatchResult result (λ inside. room ≡ inside + 1) (λ f. (room ≡ 0) × (f ≡ fault_at TooDeep place)) }
{
    room.checked_sub(1).ok_or(Refusal::TooDeep.at(place))
}

/// The letters of `t` or `f`, or the fault of another word.
fn letters_of_word(signals: Signals, word: &[u8], place: usize) -> Result<u16, Fault>
    ensures { WordRead signals.count word.now place result }
{
    match word {
        b"t" => Ok(signals.all_letters()),
        b"f" => Ok(0),
        _ => Err(Refusal::Unexpected.at(place)),
    }
}

/// The letters in which a signal is on, or the fault of one that there is not.
fn letters_of_signal(signals: Signals, signal: u32, place: usize) -> Result<u16, Fault>
    ensures { MatchResult result (λ letters. (signal < signals.count) × Means signals.count (on signal) letters) (λ f. (signals.count ≤ signal) × (f ≡ fault_at OutOfRange place)) }
{
    if signal >= signals.count {
        return Err(Refusal::OutOfRange.at(place));
    }
    Ok(signals.letters_with(signal))
}

/// Whether a token is this mark.
// No `==` of tokens, which stands ready to compare the bytes of words too.
fn is_mark(token: Token<'_>, mark: Mark) -> bool
    ensures { result ≡ is_token (mark_of mark) (lexeme token.entry) }
{
    matches!(token, Token::Mark(m) if m == mark)
}

/// What labels are read from: a text, and the signals that it has.
#[derive(Clone, Copy)]
struct Reader<'a> {
    text: Text<'a>,
    signals: Signals,
}

impl<'a> Reader<'a> {
    /// The letters, with the token behind the one in hand.
    fn passed(&self, head: Placed<'a>, letters: u16) -> Result<Read<'a, u16>, Fault>
        ensures { Passed self.now.text.bytes.now head.entry letters result }
    {
        let behind = self.text.scan(head.next)?;
        Ok(Read {
            value: letters,
            head: behind,
        })
    }

    /// The part with the token behind the mark that has to end it.
    fn closed(&self, part: Read<'a, u16>, mark: Mark) -> Result<Read<'a, u16>, Fault>
        ensures { ClosedBy mark self.now.text.bytes.now part.entry result }
    {
        if !is_mark(part.head.token, mark) {
            return Err(Refusal::Unexpected.at(part.head.place));
        }
        self.passed(part.head, part.value)
    }

    // `label` and `term` stay two functions. One for both would be handed the reading of a part as a closure, which leads back to it,
    // and could promise only something about whatever the closure reads.

    /// Terms joined by `|`, from the token in hand on.
    #[cycle(factor_label_term)]
    fn label(&self, head: Placed<'a>, room: u32) -> Result<Read<'a, u16>, Fault>
        ensures { LabelRead self.now.text.bytes.now head.entry self.now.signals.count room result }
    {
        let Read {
            value: mut letters,
            mut head,
        } = self.term(head, room)?;
        while is_mark(head.token, Mark::Or) {
            let behind = self.text.scan(head.next)?;
            let more = self.term(behind, room)?;
            letters = either(letters, more.value);
            head = more.head;
        }
        Ok(Read {
            value: letters,
            head,
        })
    }

    /// Factors joined by `&`, from the token in hand on.
    #[cycle(factor_label_term)]
    fn term(&self, head: Placed<'a>, room: u32) -> Result<Read<'a, u16>, Fault>
        ensures { TermRead self.now.text.bytes.now head.entry self.now.signals.count room result }
    {
        let Read {
            value: mut letters,
            mut head,
        } = self.factor(head, room)?;
        while is_mark(head.token, Mark::And) {
            let behind = self.text.scan(head.next)?;
            let more = self.factor(behind, room)?;
            letters = both(letters, more.value);
            head = more.head;
        }
        Ok(Read {
            value: letters,
            head,
        })
    }

    /// `t`, `f`, a signal, `!` and a factor, or a label in parentheses, with room for so many more `(` and `!`.
    #[cycle(factor_label_term)]
    fn factor(&self, head: Placed<'a>, room: u32) -> Result<Read<'a, u16>, Fault>
        ensures { FactorRead self.now.text.bytes.now head.entry self.now.signals.count room result }
    {
        match head.token {
            Token::Word(word) => {
                let letters = letters_of_word(self.signals, word, head.place)?;
                self.passed(head, letters)
            }
            Token::Number(signal) => {
                let letters = letters_of_signal(self.signals, signal, head.place)?;
                self.passed(head, letters)
            }
            Token::Mark(mark) => match mark {
                Mark::Not => {
                    let inside = room_inside(room, head.place)?;
                    let behind = self.text.scan(head.next)?;
                    let part = self.factor(behind, inside)?;
                    Ok(Read {
                        value: self.signals.others(part.value),
                        head: part.head,
                    })
                }
                Mark::OpenParen => {
                    let inside = room_inside(room, head.place)?;
                    let behind = self.text.scan(head.next)?;
                    let group = self.label(behind, inside)?;
                    self.closed(group, Mark::CloseParen)
                }
                _ => Err(Refusal::Unexpected.at(head.place)),
            },
            Token::Name(_) | Token::End => Err(Refusal::Unexpected.at(head.place)),
        }
    }

    /// The label of an edge, from behind its `[` to behind its `]`, with room for so many `(` and `!`.
    fn bracketed(&self, head: Placed<'a>, room: u32) -> Result<Read<'a, u16>, Fault>
        ensures { room ≡ deepest → BracketedRead self.now.text.bytes.now head.entry self.now.signals.count result }
    {
        let part = self.label(head, room)?;
        self.closed(part, Mark::CloseBracket)
    }
}

/// The label of an edge, from behind its `[` to behind its `]`.
pub fn read_label<'a>(
    text: Text<'a>,
    head: Placed<'a>,
    signals: Signals,
) -> Result<Read<'a, u16>, Fault>
    ensures { BracketedRead text.entry.bytes.now head.entry signals.count result }
{
    let reader = Reader { text, signals };
    reader.bracketed(head, DEEPEST)
}

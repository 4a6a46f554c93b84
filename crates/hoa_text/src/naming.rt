//! The names of a text's signals.
ghost use Rattle.std.specs.Prelude.{◌≡◌, ◌<◌, ◌≤◌, MatchOption, MatchResult};
ghost use Rattle.hoa_grammar.specs.Documents.{most_signals};
ghost use Rattle.hoa_document.specs.Naming.{name_at};
ghost use Rattle.hoa_text.specs.Naming.{NameGiven, NoName};

use crate::refusal::NameRefusal;
use automaton::PartsRefusal;
use hoa_document::{Names, read_names};

/// The name at place `i` of those that a text has, or none past them.
fn name_at<'a>(names: &Names<'a>, i: u32) -> Option<&'a [u8]>
    requires { names.now.count ≤ most_signals }
    ensures { MatchOption result (names.now.count ≤ i) (λ w. (i < names.now.count) × (w.now ≡ name_at names.now.list i)) }
{
    names.as_slice().get(i as usize).copied()
}

/// The part of the text that is the name of signal `i`, without its quotes.
///
/// Refused, in this order: a text that is refused when it is read, and a signal that there is not.
pub fn name(bytes: &[u8], i: u32) -> Result<&[u8], NameRefusal>
    ensures { MatchResult result (λ w. NameGiven bytes.now i w.now) (NoName bytes.now i) }
{
    let names = read_names(bytes)?;
    let name = name_at(&names, i).ok_or(PartsRefusal::NoSuchSignal)?;
    Ok(name)
}

//! Whether two texts name their signals alike.
ghost use Rattle.std.specs.Prelude.{◌≡◌, MatchResult};
ghost use Rattle.hoa_text.specs.Naming.{same_names, NamesAlike, Unmatched};

use crate::refusal::MatchRefusal;
use automaton::PartsRefusal;
use hoa_document::read_names;

/// Whether two lists of names are alike.
// A name for `==`: what slices that are equal say of two rows of names is said once.
fn alike(first: &[&[u8]], second: &[&[u8]]) -> bool
    ensures { result ≡ same_names first.now second.now }
{
    first == second
}

/// Accepts two texts whose names are alike, byte for byte and in order.
///
/// Refused, in this order: a fault of the first text, one of the second, numbers of signals that differ, and names that differ.
pub fn match_names(first: &[u8], second: &[u8]) -> Result<(), MatchRefusal>
    ensures { MatchResult result (λ _. NamesAlike first.now second.now) (Unmatched first.now second.now) }
{
    let left = read_names(first).map_err(MatchRefusal::First)?;
    let right = read_names(second).map_err(MatchRefusal::Second)?;
    if left.count != right.count {
        return Err(MatchRefusal::Parts(PartsRefusal::SignalsDiffer));
    }
    if !alike(left.as_slice(), right.as_slice()) {
        return Err(MatchRefusal::Parts(PartsRefusal::NamesDiffer));
    }
    Ok(())
}

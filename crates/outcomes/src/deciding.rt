//! From the files' bytes to what the two come to.
ghost use Rattle.std.specs.Prelude.{◌≡◌, vec_items, Some, None, MatchResult};
ghost use Rattle.std.specs.Option.{option_map};
ghost use Rattle.hoa_tokens.specs.declared.fault.Refusal.TheVariants.{Unreadable};
ghost use Rattle.hoa_tokens.specs.Faults.{fault_at};
ghost use Rattle.hoa_document.specs.Denoting.{TextRefused};
ghost use Rattle.outcomes.specs.Outcomes.{TextCounted, Decided};

use census::{Census, take_census};
use hoa_text::{MatchRefusal, ReadRefusal, match_names, read};
use hoa_tokens::{Fault, Refusal};
use tables::{TABLE_CELLS, Table};

/// The counts of the automaton that a text denotes, or why the text is refused.
fn read_census(bytes: &[u8]) -> Result<Census, Fault>
    ensures { MatchResult result (TextCounted bytes.now) (TextRefused bytes.now) }
{
    let mut cells = [0; TABLE_CELLS];
    let mut table = Table::blank(&mut cells);
    // The cells are enough, so what is left is the fault; `?` would need a fault for the lender too.
    match read(&mut table, bytes) {
        Ok(()) => Ok(take_census(&table)),
        Err(ReadRefusal::Text(fault)) => Err(fault),
        Err(ReadRefusal::Lender(_)) => unreachable!(),
    }
}

/// The fault of a file that could not be read.
fn unreadable() -> Fault
    ensures { result ≡ fault_at Unreadable 0 }
{
    Refusal::Unreadable.at(0)
}

/// The counts of two readable texts, if the two name their signals alike.
fn count_both(
    sheet: &[u8],
    rule: &[u8],
    first: Census,
    second: Census,
) -> Result<(Census, Census), MatchRefusal>
    requires sheet { TextCounted sheet.now first }
    requires rule { TextCounted rule.now second }
    ensures { Decided (Some sheet.now) (Some rule.now) result }
{
    match_names(sheet, rule)?;
    Ok((first, second))
}

/// The counts of a sheet and a rule. A file that could not be read is none.
///
/// The first refusal counts, in this order: the sheet's file, its text, the rule's file, its text, and then whether the two name their signals alike.
pub fn decide(
    sheet: &Option<Vec<u8>>,
    rule: &Option<Vec<u8>>,
) -> Result<(Census, Census), MatchRefusal>
    ensures { Decided (option_map vec_items sheet.now) (option_map vec_items rule.now) result }
{
    let sheet = sheet.as_ref().ok_or(MatchRefusal::First(unreadable()))?;
    let first = read_census(sheet.as_slice()).map_err(MatchRefusal::First)?;
    let rule = rule.as_ref().ok_or(MatchRefusal::Second(unreadable()))?;
    let second = read_census(rule.as_slice()).map_err(MatchRefusal::Second)?;
    count_both(sheet.as_slice(), rule.as_slice(), first, second)
}

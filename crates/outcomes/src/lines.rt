//! From what two files come to, to the lines that are printed.
ghost use Rattle.std.specs.Prelude.{◌≡◌, ◌++◌, IfOk, string_bytes};
ghost use Rattle.outcomes.specs.Lines.{line_of_pair_refusal, line_of_census, outcome_text};

use automaton::PartsRefusal;
use census::Census;
use hoa_text::MatchRefusal;
use report::{Source, refused_line};
use std::alloc::{AllocError, Global};

/// The line that says that the pair is refused: with its number.
fn pair_line(heap: Global, refusal: PartsRefusal) -> Result<String, AllocError>
    ensures { IfOk result (λ s. string_bytes s ≡ line_of_pair_refusal refusal) }
{
    let number = u8::from(refusal);
    format!(in heap; "refused pair {number}\n")
}

/// The line of the counts of a text.
fn census_line(heap: Global, source: Source, census: Census) -> Result<String, AllocError>
    ensures { IfOk result (λ s. string_bytes s ≡ line_of_census source census) }
{
    let Census {
        states,
        signals,
        starts,
        goods,
        steps,
    } = census;
    format!(in heap;
        "{source} states {states} signals {signals} starts {starts} good {goods} steps {steps}\n"
    )
}

/// The lines that are printed of a sheet and a rule: the counts of both, or why they are refused.
pub fn outcome_lines(
    heap: Global,
    outcome: Result<(Census, Census), MatchRefusal>,
) -> Result<String, AllocError>
    ensures { IfOk result (λ s. string_bytes s ≡ outcome_text outcome) }
{
    match outcome {
        Ok((sheet, rule)) => {
            let mut lines = census_line(heap, Source::Sheet, sheet)?;
            let second = census_line(heap, Source::Rule, rule)?;
            lines.push_str(second.as_str())?;
            Ok(lines)
        }
        Err(MatchRefusal::First(fault)) => refused_line(heap, Source::Sheet, fault),
        Err(MatchRefusal::Second(fault)) => refused_line(heap, Source::Rule, fault),
        Err(MatchRefusal::Parts(refusal)) => pair_line(heap, refusal),
    }
}

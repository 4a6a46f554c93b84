//! Whether a strip is evidence for the pair of a sheet and a rule.
ghost use Rattle.std.specs.Prelude.{ℕ, List, ◌∷◌};
ghost use Rattle.sheet.specs.Sheets.{sheet_meaning};
ghost use Rattle.sheet.specs.Rechecks.{RightRecheck, AnswerWorth};
ghost use Rattle.sheet.specs.Calls.{Event, rechecked, Reached};

use crate::sheet::Sheet;
use automaton::{Automaton, Pair, PartsRefusal};

/// Whether the strip is evidence for the pair of two automata.
fn recheck_pair<A: Automaton, B: Automaton>(
    first: &A,
    second: &B,
    strip: &[u32],
) -> Result<bool, PartsRefusal>
    ensures right { RightRecheck (A.Automaton.meaning first.now) (B.Automaton.meaning second.now) strip.now result }
    ensures worth { AnswerWorth (A.Automaton.meaning first.now) (B.Automaton.meaning second.now) strip.now result }
{
    let pair = Pair::new(first, second)?;
    Ok(evidence::recheck(&pair, strip))
}

impl Sheet<'_, '_> {
    /// Whether the strip is evidence for the pair of this sheet and a rule, in this order.
    ///
    /// A yes to a lasso shows an endless word that both accept, and a yes to a ranking rules out every one.
    /// Refused, in this order: a rule with another number of signals, and a pair of more than 65,536 states.
    pub fn recheck<R: Automaton>(&self, rule: &R, strip: &[u32]) -> Result<bool, PartsRefusal>
        ensures right { RightRecheck (sheet_meaning self.now) (R.Automaton.meaning rule.now) strip.now result }
        ensures worth { AnswerWorth (sheet_meaning self.now) (R.Automaton.meaning rule.now) strip.now result }
        ensures listed { (text : List ℕ) (es : List Event) → Reached text es (sheet_meaning self.now) self.now.count → Reached text (rechecked (R.Automaton.meaning rule.now) strip.now strip.now result ∷ es) (sheet_meaning self.now) self.now.count }
    {
        recheck_pair(&*self.table, rule, strip)
    }
}

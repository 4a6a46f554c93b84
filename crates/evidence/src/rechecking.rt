//! Whether a strip is evidence for an automaton.
ghost use Rattle.std.specs.Prelude.{T, ◌↔◌};
ghost use Rattle.evidence.specs.Strips.{Evidence, Worth};

use crate::lasso::is_lasso;
use crate::ranking::is_ranking;
use crate::verdict::Verdict;
use automaton::Automaton;

/// Whether the strip is evidence for the automaton: it opens with a lasso or with a ranking of it.
///
/// A yes to a lasso shows an endless word that is accepted, and a yes to a ranking rules out every one.
/// Words behind those of the lasso or ranking are not read, and a strip that is too short for what it claims is no evidence.
pub fn recheck<A: Automaton>(automaton: &A, strip: &[u32]) -> bool
    ensures evidence { T result ↔ Evidence (A.Automaton.meaning automaton.now) strip.now }
    ensures worth { T result → Worth (A.Automaton.meaning automaton.now) strip.now }
{
    let [word, ..] = strip else {
        return false;
    };
    match Verdict::try_from(*word) {
        Ok(Verdict::Lasso) => is_lasso(automaton, strip),
        Ok(Verdict::Ranking) => is_ranking(automaton, strip),
        Err(_) => false,
    }
}

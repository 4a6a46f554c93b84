//! The least ranking, or that there is a lasso.
ghost use Rattle.std.specs.Prelude.{◌≡◌, ◌≤◌, length, replicate, MatchResult, OnErr, OnOk};
ghost use Rattle.lending.specs.Lending.{Enough, TooShort, strip_words};
ghost use Rattle.rankings.specs.Deciding.{RankingFound};

use crate::raising::rank_states;
use automaton::Automaton;
use evidence::Verdict;
use lending::{check_words, clear};
use tables::LenderRefusal;

/// Decides whether the automaton has a lasso, and leaves its least ranking in the strip where it has none.
///
/// Refused, in this order: a strip of fewer than 4n + 4 words, and a work list of fewer than 8n words, for n states; nothing changes then.
pub fn least_ranking<A: Automaton>(
    automaton: &A,
    strip: &mut [u32],
    work: &mut [u32],
) -> Result<Verdict, LenderRefusal>
    ensures decided { MatchResult result (RankingFound (A.Automaton.meaning automaton.now) strip.new) (TooShort (A.Automaton.meaning automaton.now).states (length strip.old) (length work.old)) }
    ensures room { OnOk result (Enough (A.Automaton.meaning automaton.now).states (length strip.old) (length work.old)) }
    ensures strip { OnErr result (strip.new ≡ strip.old) }
    ensures work { MatchResult result (λ _. work.new ≡ replicate (length work.old) 0) (λ _. work.new ≡ work.old) }
{
    let n = automaton.states();
    check_words(n, strip.len(), work.len())?;
    clear(work);
    clear(strip);
    Ok(decide(automaton, n, strip))
}

/// Decides an automaton of `n` states, with a strip that is all 0 and long enough.
fn decide<A: Automaton>(automaton: &A, n: u32, strip: &mut [u32]) -> Verdict
    requires states { n ≡ (A.Automaton.meaning automaton.now).states }
    requires long { strip_words n ≤ length strip.old }
    requires clear { strip.old ≡ replicate (length strip.old) 0 }
    ensures { RankingFound (A.Automaton.meaning automaton.now) strip.new result }
{
    strip[0] = Verdict::Ranking.into();
    strip[1] = n;
    if rank_states(automaton, &mut strip[3..3 + n as usize]) {
        return Verdict::Ranking;
    }
    clear(strip);
    Verdict::Lasso
}

//! Whether a strip tells a ranking of an automaton.
ghost use Rattle.std.specs.Prelude.{◌≡◌, ℕ, ◌+◌, ◌^◌, ◌<◌, ◌≤◌, T, ◌↔◌, length, slice_index};
ghost use Rattle.omega.specs.Words.{SomeWord};
ghost use Rattle.evidence.specs.Strips.{TellsRanking, verdict_number, word_at, outside};
ghost use Rattle.evidence.specs.Asking.{Allowed, AllowedBy, Ranked};
ghost use Rattle.evidence.specs.declared.verdict.Verdict.TheVariants as verdict;

use automaton::{Automaton, letters, successors};

/// The word for a state outside.
// A strip is lent words, so a rank in it is a word and no option.
pub const OUTSIDE: u32 = u32::MAX;

/// Whether a strip whose first word is that of a ranking tells one, which then rules out every accepted word.
pub(crate) fn is_ranking<A: Automaton>(automaton: &A, strip: &[u32]) -> bool
    requires { word_at strip.now 0 ≡ verdict_number verdict.Ranking }
    ensures tells { T result ↔ TellsRanking (A.Automaton.meaning automaton.now) strip.now }
    ensures worth { T result → SomeWord (A.Automaton.meaning automaton.now) → ⊥ }
{
    let [_, states, zero, ..] = strip else {
        return false;
    };
    let n = automaton.states();
    if *states != n || *zero != 0 || !has_ranks(strip, n) {
        return false;
    }
    let ranks = &strip[3..3 + n as usize];
    Ranks { automaton, ranks }.are_ranked()
}

/// Whether a strip is long enough for the ranks of `n` states.
fn has_ranks(strip: &[u32], n: u32) -> bool
    ensures { T result ↔ (3 + n ≤ length strip.now) }
{
    3 + n as usize <= strip.len()
}

/// The ranks of an automaton's states, one for each.
#[derive(Drop)]
struct Ranks<'a, A: Automaton> {
    automaton: &'a A,
    ranks: &'a [u32],
    ghost whole: { length ranks.now ≡ (A.Automaton.meaning automaton.now).states },
}

impl<A: Automaton> Ranks<'_, A> {
    /// Whether every state's rank is one that a ranking may give it.
    fn are_ranked(&self) -> bool
        ensures { T result ↔ ((s : ℕ) → s < length self.now.ranks.now → Ranked (A.Automaton.meaning self.now.automaton.now) self.now.ranks.now s) }
    {
        (0..self.automaton.states()).all(|s| self.is_ranked(s))
    }

    /// Whether the rank of the state `s` is one that a ranking may give it.
    fn is_ranked(&self, s: u32) -> bool
        requires { s < length self.now.ranks.now }
        ensures { T result ↔ Ranked (A.Automaton.meaning self.now.automaton.now) self.now.ranks.now s }
    {
        if is_outside(self.ranks[s as usize]) {
            !self.automaton.is_start(s)
        } else {
            self.allows_all(s)
        }
    }

    /// Whether the ranks allow every step from the state `s`.
    fn allows_all(&self, s: u32) -> bool
        requires { s < length self.now.ranks.now }
        ensures { T result ↔ ((a : ℕ) → AllowedBy (A.Automaton.meaning self.now.automaton.now) self.now.ranks.now s a) }
    {
        (0..letters(self.automaton)).all(|letter| self.allows_by(s, letter))
    }

    /// Whether the ranks allow every step from the state `s` by the letter.
    fn allows_by(&self, s: u32, letter: u32) -> bool
        requires { s < length self.now.ranks.now }
        ensures { T result ↔ AllowedBy (A.Automaton.meaning self.now.automaton.now) self.now.ranks.now s letter }
    {
        let good = self.automaton.is_good(s);
        let rank = self.ranks[s as usize];
        for t in successors(self.automaton, s, letter) {
            if !allows(good, rank, self.ranks[t as usize]) {
                return false;
            }
        }
        true
    }
}

/// Whether a step may lead from a state of rank `from`, good or not, to one of rank `to`.
fn allows(good: bool, from: u32, to: u32) -> bool
    ensures { T result ↔ Allowed good from to }
{
    !is_outside(to) && if good { to < from } else { to <= from }
}

/// Whether a rank is that of a state outside.
fn is_outside(rank: u32) -> bool
    ensures { T result ↔ (rank ≡ outside) }
{
    rank == OUTSIDE
}

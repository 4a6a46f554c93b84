//! Whether a strip tells a lasso of an automaton.
ghost use Rattle.std.specs.Prelude.{◌≡◌, ℕ, ◌+◌, ◌*◌, ◌<◌, ◌≤◌, T, ◌↔◌, length, MatchOption};
ghost use Rattle.omega.specs.Words.{SomeWord};
ghost use Rattle.evidence.specs.Strips.{TellsLasso, verdict_number, word_at, stem_of, loop_of, state_at};
ghost use Rattle.evidence.specs.Asking.{StepAt};
ghost use Rattle.evidence.specs.declared.verdict.Verdict.TheVariants as verdict;

use automaton::{Automaton, has_step};

/// Whether a strip whose first word is that of a lasso tells one, which then shows an accepted word.
pub(crate) fn is_lasso<A: Automaton>(automaton: &A, strip: &[u32]) -> bool
    requires { word_at strip.now 0 ≡ verdict_number verdict.Lasso }
    ensures tells { T result ↔ TellsLasso (A.Automaton.meaning automaton.now) strip.now }
    ensures worth { T result → SomeWord (A.Automaton.meaning automaton.now) }
{
    let Some(claim) = Claim::read(automaton, strip) else {
        return false;
    };
    claim.round != 0 && claim.begins() && claim.ends_good() && claim.closes() && claim.goes()
}

/// The lasso that a strip claims to tell, with its stem and its loop of so many steps, for which the strip is long enough.
#[derive(Drop)]
struct Claim<'a, A: Automaton> {
    automaton: &'a A,
    strip: &'a [u32],
    stem: usize,
    round: usize,
    ghost stem_is: { stem ≡ stem_of strip.now },
    ghost round_is: { round ≡ loop_of strip.now },
    ghost long: { 4 + 2 * (stem + round) ≤ length strip.now },
}

impl<'a, A: Automaton> Claim<'a, A> {
    /// What the strip claims, or nothing where it is too short for that.
    fn read(automaton: &'a A, strip: &'a [u32]) -> Option<Claim<'a, A>>
        ensures { MatchOption result (length strip.now < 4 + 2 * (stem_of strip.now + loop_of strip.now)) (λ x. (x.automaton.now ≡ automaton.now) × (x.strip.now ≡ strip.now)) }
    {
        let [_, stem, round, ..] = strip else {
            return None;
        };
        let stem = *stem as usize;
        let round = *round as usize;
        if strip.len() < 4 + 2 * (stem + round) {
            return None;
        }
        Some(Claim {
            automaton,
            strip,
            stem,
            round,
        })
    }

    /// Whether the first state is a start.
    fn begins(&self) -> bool
        ensures { T result ↔ T ((A.Automaton.meaning self.now.automaton.now).start (state_at self.now.strip.now 0)) }
    {
        self.automaton.is_start(self.strip[3])
    }

    /// Whether the state at the stem's end is good.
    fn ends_good(&self) -> bool
        ensures { T result ↔ T ((A.Automaton.meaning self.now.automaton.now).good (state_at self.now.strip.now self.now.stem)) }
    {
        self.automaton.is_good(self.strip[3 + 2 * self.stem])
    }

    /// Whether the loop's last state is the one at the stem's end.
    fn closes(&self) -> bool
        ensures { T result ↔ (state_at self.now.strip.now (self.now.stem + self.now.round) ≡ state_at self.now.strip.now self.now.stem) }
    {
        self.strip[3 + 2 * (self.stem + self.round)] == self.strip[3 + 2 * self.stem]
    }

    /// Whether every step of the stem and of the loop is a step of the automaton.
    fn goes(&self) -> bool
        ensures { T result ↔ ((i : ℕ) → i < self.now.stem + self.now.round → StepAt (A.Automaton.meaning self.now.automaton.now) self.now.strip.now i) }
    {
        (0..self.stem + self.round).all(|i| self.has_step_at(i))
    }

    /// Whether step `i` is a step of the automaton.
    fn has_step_at(&self, i: usize) -> bool
        requires { i < self.now.stem + self.now.round }
        ensures { T result ↔ StepAt (A.Automaton.meaning self.now.automaton.now) self.now.strip.now i }
    {
        let strip = self.strip;
        let at = 3 + 2 * i;
        has_step(self.automaton, strip[at], strip[at + 1], strip[at + 2])
    }
}

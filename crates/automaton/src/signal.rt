//! One signal of a letter.
ghost use Rattle.std.specs.Prelude.{◌≡◌, ◌^◌, ◌<◌, ◌≤◌, MatchResult, nat_lt};
ghost use Rattle.omega.specs.Automata.{most_signals};
ghost use Rattle.omega.specs.Signals.{bit};
ghost use Rattle.automaton.specs.Parts.{Watches, Unwatchable};

use crate::automaton::MOST_SIGNALS;
use crate::refusal::PartsRefusal;

/// A signal among at most four.
#[derive(Clone, Copy)]
pub struct Signal {
    pub(crate) index: u32,
    pub(crate) count: u32,
    ghost watches: { index < count },
    ghost narrow: { count ≤ most_signals },
}

impl Signal {
    /// Signal `index` of `count`, or a refusal where there is none.
    pub(crate) fn new(index: u32, count: u32) -> Result<Signal, PartsRefusal>
        ensures { MatchResult result (λ x. Watches index count x.index x.count) (Unwatchable index count) }
    {
        if index < count && count <= MOST_SIGNALS {
            return Ok(Signal { index, count });
        }
        Err(PartsRefusal::NoSuchSignal)
    }

    /// Whether a number is a letter.
    pub(crate) fn has_letter(&self, letter: u32) -> bool
        ensures { result ≡ nat_lt letter (2 ^ self.now.count) }
    {
        letter < 1 << self.count
    }

    /// Whether the signal is on in a letter.
    pub(crate) fn is_on(&self, letter: u32) -> bool
        ensures { result ≡ bit self.now.index letter }
    {
        (letter >> self.index) % 2 == 1
    }
}

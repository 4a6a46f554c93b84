//! The automata that watch one signal.
ghost use Rattle.std.specs.Prelude.{◌≡◌, ℕ, ◌<◌, Bool, T, IfOk, MatchResult};
ghost use Rattle.omega.specs.Automata.{Lowest};
ghost use Rattle.omega.specs.Signals.{watching};
ghost use Rattle.omega.specs.Laws.{WatchingAccepts};
ghost use Rattle.omega.proofs.Soundness.{watching_sound};
ghost use Rattle.automaton.specs.Parts.{Watches, Unwatchable};

use crate::automaton::Automaton;
use crate::refusal::PartsRefusal;
use crate::signal::Signal;
use std::marker::PhantomData;

/// How many states there are: one to start in, and a good one.
const STATES: u32 = 2;

/// The state to start in.
pub(crate) const START: u32 = 0;

/// The good state.
pub(crate) const GOOD: u32 = 1;

/// What is watched for in a signal.
///
/// An implementor says how letters with the signal on and off lead from state to state, and shows which words are
/// accepted so.
pub trait Watch {
    ghost leads: { Bool → ℕ → ℕ → Bool };

    ghost holds: { (ℕ → Bool) → Type 0 };

    ghost enters: { (on : Bool) (s t : ℕ) → T (leads on s t) → t < 2 };

    ghost accepts: { (i p : ℕ) → WatchingAccepts leads holds i p };

    /// The lowest state, not below `from`, to which letters lead from `s` that have the signal on, or off; or none.
    fn next(on: bool, s: u32, from: u32) -> Option<u32>
        ensures { Lowest (leads on s) from result };
}

/// Accepts the words in which a signal is as `W` watches for.
#[derive(Clone, Copy)]
pub struct Watcher<W> {
    signal: Signal,
    watch: PhantomData<W>,
}

impl<W: Watch> Watcher<W> {
    /// The automaton for signal `index` of `count`; refused where there is no such signal, or `count` is above 4.
    pub fn new(index: u32, count: u32) -> Result<Watcher<W>, PartsRefusal>
        ensures made { MatchResult result (λ x. Watches index count x.signal.index x.signal.count) (Unwatchable index count) }
        ensures accepts { IfOk result (λ x. WatchingAccepts W.leads W.holds x.signal.index x.signal.count) }
    {
        let signal = Signal::new(index, count)?;
        Ok(Watcher {
            signal,
            watch: PhantomData,
        })
    }
}

impl<W: Watch> Automaton for Watcher<W> {
    ghost meaning = { λ x. watching W.leads x.signal.index x.signal.count };

    ghost sound = { λ x. watching_sound W.leads x.signal.index x.signal.count x.signal.narrow W.enters };

    fn states(&self) -> u32 {
        STATES
    }

    fn signals(&self) -> u32 {
        self.signal.count
    }

    fn is_start(&self, s: u32) -> bool {
        s == START
    }

    fn is_good(&self, s: u32) -> bool {
        s == GOOD
    }

    fn next(&self, s: u32, a: u32, f: u32) -> Option<u32> {
        if s >= STATES || !self.signal.has_letter(a) {
            return None;
        }
        W::next(self.signal.is_on(a), s, f)
    }
}

//! The automaton of a signal that comes on again and again.
ghost use Rattle.omega.specs.Words.{Often};
ghost use Rattle.omega.specs.Signals.{again_leads};
ghost use Rattle.omega.proofs.Watching.{again_enters, again_accepts};

use crate::watcher::{GOOD, START, Watch, Watcher};

/// That a signal is on infinitely often: state 1 is entered when it is on, state 0 when it is off.
#[derive(Clone, Copy)]
pub struct Repeated;

impl Watch for Repeated {
    ghost leads = { again_leads };

    ghost holds = { Often };

    ghost enters = { again_enters };

    ghost accepts = { again_accepts };

    fn next(on: bool, _s: u32, from: u32) -> Option<u32> {
        let t = if on { GOOD } else { START };
        (from <= t).then_some(t)
    }
}

/// Accepts the words in which a signal is on infinitely often.
pub type Again = Watcher<Repeated>;

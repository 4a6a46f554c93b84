//! The automaton of a signal that settles: that stays off from some moment on.
ghost use Rattle.omega.specs.Words.{Seldom};
ghost use Rattle.omega.specs.Signals.{settles_leads};
ghost use Rattle.omega.proofs.Watching.{settles_enters, settles_accepts};

use crate::watcher::{GOOD, START, Watch, Watcher};

/// That a signal is on only finitely often: state 1 is entered at some moment, and left no more while it is off.
#[derive(Clone, Copy)]
pub struct Settled;

impl Watch for Settled {
    ghost leads = { settles_leads };

    ghost holds = { Seldom };

    ghost enters = { settles_enters };

    ghost accepts = { settles_accepts };

    fn next(on: bool, s: u32, from: u32) -> Option<u32> {
        if s == START && from <= START {
            return Some(START);
        }
        (from <= GOOD && !on).then_some(GOOD)
    }
}

/// Accepts the words in which a signal is on only finitely often.
pub type Settles = Watcher<Settled>;

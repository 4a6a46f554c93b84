//! Automata that are asked five questions, two that watch a signal, and the pair of any two.
//!
//! `Automaton` says what an implementor owes: a meaning within the limits, and answers that fit it.
#![tactic(auto)]

mod automaton;
mod pair;
mod refusal;
mod repeated;
mod settled;
mod signal;
mod stepping;
mod watcher;

pub use automaton::{Automaton, MOST_SIGNALS, MOST_STATES, has_step, letters, successors};
pub use pair::Pair;
pub use refusal::PartsRefusal;
pub use repeated::{Again, Repeated};
pub use settled::{Settled, Settles};
pub use stepping::Successors;
pub use watcher::{Watch, Watcher};

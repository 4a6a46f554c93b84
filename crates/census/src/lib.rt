//! How many states, signals, starts, good states and steps an automaton has.
#![tactic(auto)]

mod census;
mod counting;

pub use census::Census;
pub use counting::take_census;

//! The search for a lasso of an automaton.
#![tactic(auto)]

mod breadth;
mod letters;
mod returning;
mod shortest;
mod telling;

pub use shortest::shortest_lasso;

//! Whether an automaton accepts some endless word, and its least ranking where it accepts none.
#![tactic(auto)]

mod deciding;
mod raising;
#[cfg(test)]
mod tests;

pub use deciding::least_ranking;

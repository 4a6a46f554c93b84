//! A kind of automaton that a user of the library adds, and tests of all kinds.
#![tactic(auto)]

mod ring;
#[cfg(test)]
mod tests;

pub use ring::Ring;

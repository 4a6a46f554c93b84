//! Evidence: strips of words that tell a lasso or a ranking, and the call that rechecks one for any automaton.
#![tactic(auto)]

mod lasso;
mod ranking;
mod rechecking;
#[cfg(test)]
mod tests;
mod verdict;

pub use ranking::OUTSIDE;
pub use rechecking::recheck;
pub use verdict::{UnknownVerdict, Verdict};

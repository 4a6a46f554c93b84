//! Ranks that are raised until they make the least ranking: the theory of it.
//!
//! There is no code here to run.
#![tactic(auto)]

//! Words that are lent to a search: whether they are enough, and making them 0.
#![tactic(auto)]

mod words;

pub use words::{check_words, clear};

//! A sheet: a table with a count of its edits, and the calls on it.
#![tactic(auto)]

mod reading;
mod rechecking;
mod sheet;
#[cfg(test)]
mod tests;

pub use sheet::Sheet;

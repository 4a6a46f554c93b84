//! What the program says of a sheet and a rule: from the files' bytes to an outcome, and from an outcome to the lines that are printed.
#![tactic(auto)]

mod deciding;
mod lines;

pub use deciding::decide;
pub use lines::outcome_lines;

//! What the program says of the texts that it is given: from the files' bytes to the lines that it prints.
#![tactic(auto)]

mod file;
mod listing;
mod refusal;
mod report;
mod source;
#[cfg(test)]
mod tests;

pub use file::read_text;
pub use refusal::refused_line;
pub use report::{Report, report_file};
pub use source::Source;

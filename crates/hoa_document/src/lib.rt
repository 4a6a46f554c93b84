//! What a text says: the table that its document denotes, and its names; or the text's first fault.
#![tactic(auto)]

mod body;
mod document;
mod expect;
mod header;
mod names;

pub use document::{read_draft, read_names};
pub use names::Names;

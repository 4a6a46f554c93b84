//! Labels of edges: terms joined by `|`, factors joined by `&`; each label is a set of letters.
#![tactic(auto)]

mod label;
mod letters;

pub use label::read_label;
pub use letters::Signals;

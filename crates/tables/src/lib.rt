//! Automata as tables over lent cells, and drafts that fill them.
#![tactic(auto)]

mod draft;
mod frame;
mod questions;
mod refusal;
mod table;

pub use draft::{Draft, TABLE_CELLS};
pub use frame::{Frame, MOST_TABLE_STATES};
pub use refusal::LenderRefusal;
pub use table::Table;

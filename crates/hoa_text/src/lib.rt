//! Reading a text into a table, handing out its names, and matching the names of two texts.
#![tactic(auto)]

mod differing;
mod matching;
mod naming;
mod reading;
mod refusal;
#[cfg(test)]
mod tests;

pub use differing::difference;
pub use matching::match_names;
pub use naming::name;
pub use reading::read;
pub use refusal::{MatchRefusal, NameRefusal, ReadRefusal};

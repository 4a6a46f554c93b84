//! The bottom layer of the text reader: bytes to tokens, each with its place.
//!
//! `Text::new` takes a text within the size limit, `Text::scan` finds the token at or behind a position,
//! and `Text::count` goes through the whole text. What is wrong with a text is a `Fault`.
#![tactic(auto)]

mod class;
mod count;
mod fault;
mod scan;
#[cfg(test)]
mod tests;
mod text;
mod token;

pub use fault::{Fault, Layer, Refusal};
pub use text::{LONGEST_TEXT, Text};
pub use token::{Mark, Placed, Read, Token};

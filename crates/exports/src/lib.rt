//! Functions that other languages call.
#![tactic(auto)]

mod reading;

pub use reading::zinniahoe_read;

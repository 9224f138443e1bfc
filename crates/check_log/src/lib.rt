//! Checks that contracts compose: calls of the log of notes, one after the other, proved from
//! nothing but what the contracts of these calls say.
#![tactic(auto)]

mod chained;
mod real_file;

pub use chained::append_two;
pub use real_file::{append_to_file, write_or_look};

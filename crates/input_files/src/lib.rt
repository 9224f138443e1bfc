//! Reading traces and builds from texts and files.
#![tactic(auto)]

mod builds;
mod trace;

pub use crate::builds::{builds_of_file, builds_of_name, builds_of_text};
pub use crate::trace::{trace_of_name, trace_of_text};

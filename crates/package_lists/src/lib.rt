//! A list of packages as a text, in the order in which they were built: its parser, and its writer.
#![tactic(auto)]

mod laws;
mod list;
mod list_line;
mod signatures;
mod text;

pub use crate::laws::lists_and_faults;
pub use crate::list::{ListFault, read_list};
pub use crate::text::{list_text, put_list};

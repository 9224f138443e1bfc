//! Positions that name each other in lists: the reversed lists, and where the lists lead.
#![tactic(auto)]

mod naming;
mod reversed;
mod walk;

pub use crate::naming::Naming;
pub use crate::reversed::Reversed;
pub use crate::walk::Walk;

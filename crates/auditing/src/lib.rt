//! The audit of a list of packages: whether it was built in order, each package on earlier ones in
//! the list.
#![tactic(auto)]

mod dependencies;
mod entry;
mod judging;
mod laws;
mod standing;
mod verdict;

pub use crate::entry::Entry;
pub use crate::judging::audit;
pub use crate::laws::{allowed_lists, only_one_verdict, packages_that_fit};
pub use crate::verdict::{Reason, Verdict};

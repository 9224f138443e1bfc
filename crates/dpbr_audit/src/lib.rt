//! What `dpbr audit` does: it finds the verdict on a list of packages, given a listing.
#![tactic(auto)]

mod files;
mod text;
mod texts;

pub use crate::files::audit_of_files;
pub use crate::text::{audit_list, verdict_text};
pub use crate::texts::audit_of_texts;
pub use auditing::{Entry, Reason, Verdict, audit};
pub use package_lists::{ListFault, list_text, lists_and_faults, read_list};

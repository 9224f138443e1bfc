//! What `dpbr status` does: it finds the letters of a listing's packages, given a text of held
//! package paths.
#![tactic(auto)]

mod files;
mod held;
mod pieces;
mod text;
mod texts;

pub use crate::files::status_of_files;
pub use crate::held::HeldFault;
pub use crate::text::{held_letters, status};
pub use crate::texts::status_of_texts;

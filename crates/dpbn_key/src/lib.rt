//! A key in a file: how it is made, and how it is read.
#![tactic(auto)]

mod fault;
mod key_files;
mod making;
mod reading;

pub use crate::fault::KeyFault;
pub use crate::key_files::{KeyFile, KeyFiles, SystemKeys};
pub use crate::making::{make_key, new_key_text};
pub use crate::reading::{key_in, key_of_file, test_mode};

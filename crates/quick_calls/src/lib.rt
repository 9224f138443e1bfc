//! The calls of `dpbr` that need no node: `status`, `audit`, `explain` and `--version`. The small
//! program that makes them is built long before the whole one.
#![tactic(auto)]

mod calls;

pub use crate::calls::{explained, quick_call, quick_main, release};
pub use program_io::SystemFiles;

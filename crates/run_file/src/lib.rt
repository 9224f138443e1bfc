//! The run file, which says what run a member's log belongs to, and what a start does with the
//! files that it finds.
#![tactic(auto)]

mod difference;
mod fault;
mod files;
mod folder_mode;
mod found;
mod judging;
mod laws;
mod log_folder;
mod start;
mod supposed;
mod system_folder;
mod text;

pub use crate::difference::first_difference;
pub use crate::fault::{RunFault, StartFault};
pub use crate::files::{read_run, write_run};
pub use crate::folder_mode::{test_folder, test_folder_mode};
pub use crate::found::{found_in, is_blank};
pub use crate::judging::{LogFound, Plan, judge};
pub use crate::laws::{fresh_logs_have_no_notes, runs_are_told_apart};
pub use crate::log_folder::LogFolder;
pub use crate::start::{Start, start_on};
pub use crate::supposed::{Supposed, SupposedEmpty};
pub use crate::system_folder::SystemFolder;
pub use crate::text::run_text;

//! The folder through which a node gives jobs and gets builds: tasks, which say what is to be built
//! on what, as texts with names, and the files with these names.
#![tactic(auto)]

mod answer;
mod fault;
mod folder;
mod laws;
mod lock;
mod name;
mod text;

pub use crate::answer::Answer;
pub use crate::fault::WorkFault;
pub use crate::folder::Folder;
pub use crate::laws::{
    name_tells_the_task, task_text_is_first, text_tells_the_job, text_tells_the_task,
    text_tells_the_tree,
};
pub use crate::lock::Lock;
pub use crate::name::Name;
pub use crate::text::{job_text, task_text};

/// The maximum length of a result in bytes: four times that of the largest build, because its text
/// has two digits for each byte of a file.
pub const LONGEST_ANSWER: usize = 16_777_216;

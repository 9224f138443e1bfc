//! The rules of a member: what it may be asked, what it answers, and what may happen to its node.
//!
//! Here a member is a value: its tree and units, the weights, its number, what it knows of each
//! unit, and its open claim. What it notes and says is, unit by unit, what a member of the
//! agreement theory does, with at most one open claim overall. The rules say who gets a message,
//! what a host has to build, and which inputs are refused. The crates above have the code that
//! keeps such a value.
#![tactic(auto)]

mod by_path;
mod event;
mod input;
mod laws;
mod outcome;
mod packages;
mod refusal;
mod sends;

pub use crate::by_path::ByPath;
pub use crate::event::{Event, Left, Torn};
pub use crate::input::Input;
pub use crate::laws::{
    jobs_stay, members_answer, members_follow_the_theory, notes_restore_members,
};
pub use crate::outcome::Outcome;
pub use crate::packages::Packages;
pub use crate::refusal::Refusal;
pub use crate::sends::{Send, Sends};

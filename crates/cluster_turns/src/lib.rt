//! A cluster: the nodes of all members in one process, over any disks and any port, turn by turn.
//!
//! A turn chooses which node does what, prepares that step and the event that it is, and takes it.
#![tactic(auto)]

mod chosen;
mod cluster;
mod opening;
mod recording;
mod taking;
mod turning;

pub use crate::chosen::{Chosen, choose, told};
pub use crate::cluster::Cluster;
pub use crate::recording::{ReservedStep, events_of};

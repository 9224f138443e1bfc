//! What `dpbn cluster` does: it runs all members' nodes in one process, each on its log.
#![tactic(auto)]

mod answering;
mod turning;

pub use crate::answering::cluster_of_words;
pub use cluster_turns::Cluster;

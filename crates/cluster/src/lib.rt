//! What `dpbn` does: the calls that its arguments make. Each has a crate of its own.
#![tactic(auto)]

mod calls;

pub use crate::calls::dpbn_main;
pub use dpbn_build::{MemPort, Port, Solo, UdpPort};
pub use dpbn_cli::{Call, dpbn_words};
pub use dpbn_cluster::Cluster;

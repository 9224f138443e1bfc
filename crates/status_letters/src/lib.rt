//! The letters of a tree's packages, given which are held, computed in one pass.
#![tactic(auto)]

mod counting;
mod lacking;
mod lettering;
mod snapshot;

pub use crate::snapshot::Snapshot;

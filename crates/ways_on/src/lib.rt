//! A way: events after which a node of a world holds a build of a unit.
#![tactic(auto)]

mod fault;
mod files;
mod laws;
mod lengths;
mod plan;
mod route;
mod survey;
mod ways;

pub use crate::fault::WayFault;
pub use crate::laws::{each_has_a_way, ways_arrive};
pub use crate::ways::way_on;
pub use simulator::{World, run};

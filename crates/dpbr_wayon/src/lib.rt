//! What `dpbr wayon` does: given a listing, a trace and files, it extends the trace with further
//! events, which lead to a world where a node holds the packages of a path.
#![tactic(auto)]

mod files;
mod handed;
mod reading;
mod target;
mod text;
mod writable;

pub use crate::files::wayon_of_files;
pub use crate::target::Target;
pub use crate::text::way_of_events;
pub use ways_on::{WayFault, way_on};

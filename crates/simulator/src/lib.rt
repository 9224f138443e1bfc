//! Worlds of nodes on disks in memory, run by events.
#![tactic(auto)]

mod digested_tree;
mod event_effects;
mod event_kind;
mod event_queue;
mod node_steps;
mod opening;
mod run_fault;
mod running_world;
mod slot;
mod stops;
mod tables;
mod votes;
mod whole_run;
mod world_state;
mod world_steps;

pub use crate::event_effects::{EventEffects, MessageKind, NoteKind};
pub use crate::event_kind::node_of;
pub use crate::run_fault::RunFault;
pub use crate::running_world::World;
pub use crate::whole_run::run;

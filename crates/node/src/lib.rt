//! A member over its log. The note of a step is on the disk before any bytes of the step are given
//! out.
#![tactic(auto)]

mod fault;
mod kept;
mod laws;
mod node;
mod noted;
mod opening;
mod parcels;
mod prepared_step;
mod step_end;
mod stepping;
mod written;

pub use crate::fault::{Foreign, NodeFault};
pub use crate::laws::{
    only_running_nodes_take, steps_are_the_members, what_is_said_can_be_written,
};
pub use crate::node::Node;
pub use crate::noted::Noted;
pub use crate::parcels::Parcels;
pub use crate::prepared_step::{Change, Effects, PreparedStep};
pub use member::MemberStep;
pub use protocol::{Event, Left, Torn};

//! A turn of nodes: what it is by definition, and one node's part in it, with its step prepared.
//!
//! The definition says which node does what in a turn (`specs/Choice`); the calls prepare that step
//! for one node. The turns of a lone node and of a cluster take them. What a scheduler wishes, and
//! when, is not decided here.
#![tactic(auto)]

mod act;
mod answering;
mod caused_step;
mod fault;
mod initiative;
mod last_step;
mod laws;
mod nays;
mod offering;
mod owning;
mod pending;
mod scheduled;
mod unfailed;
mod wish;

pub use crate::act::Act;
pub use crate::answering::{answer, answer_if};
pub use crate::caused_step::{CausedStep, make_ready, take_in};
pub use crate::fault::TurnFault;
pub use crate::initiative::Initiative;
pub use crate::last_step::LastStep;
pub use crate::laws::{
    nobody_answers_what_is_not_made, there_is_one_choice, what_is_answered_is_made,
};
pub use crate::offering::offer;
pub use crate::owning::{own, own_from, renewed};
pub use crate::pending::{Before, Pending};
pub use crate::scheduled::do_scheduled;
pub use crate::unfailed::{unfailed_after, unfailed_from};
pub use crate::wish::Wish;

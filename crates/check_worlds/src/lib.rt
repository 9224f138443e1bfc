//! Checks that contracts compose: calls of nodes, worlds and ways on, one after the other, proved
//! from nothing but what the contracts of these calls say.
#![tactic(auto)]

mod audits;
mod chained;
mod going;
mod hearing;
mod laws;
mod nodes;
mod passed_on;
mod prepared;
mod refused;
mod reopened;
mod steps;

pub use crate::audits::audit_of_printed;
pub use crate::chained::{receive_two, take_then_receive};
pub use crate::going::{Stopped, arrive, go};
pub use crate::hearing::{deliver, deliver_piece, offer};
pub use crate::laws::{
    installable_is_listed, never_differ, printed_runs_are_allowed, sent_votes_bind_later_proposals,
};
pub use crate::nodes::{both, in_closure};
pub use crate::passed_on::pass_on;
pub use crate::prepared::{let_go, let_go_then_receive, take};
pub use crate::refused::{receive_either, take_or_receive, take_when_stopped};
pub use crate::reopened::{
    crash_behind, crash_in_opening, crash_inside, receive_after_reopening, reopen,
};
pub use crate::steps::{run_and_take, take_two, take_two_alike};

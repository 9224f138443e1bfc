//! Laws that no program calls: lone nodes on hosts of their own are one world, and a node that was
//! away catches up by questions.
//!
//! Functions with an empty body carry laws.
#![tactic(auto)]

mod catching_up;
mod from_start;
mod heard;
mod on_hosts;
mod one_world;
mod over_udp;
mod programs;
mod recorded;
mod reopening;
mod turns;

pub use crate::catching_up::what_is_missing_is_queued;
pub use crate::from_start::{build_from_start, node_from_start, others_stay_down};
pub use crate::heard::turn_if_heard;
pub use crate::on_hosts::{
    stopped_nodes_stay, turns_are_of_a_run, turns_leave_logs, vouched_turns_are_of_a_run,
};
pub use crate::one_world::{lone_nodes_hold_alike, lone_nodes_make_a_world};
pub use crate::over_udp::send_first;
pub use crate::programs::{
    build_among_programs, build_turns_are_of_programs, exchanges_are_notices,
    node_turns_are_of_programs, programs_make_a_world,
};
pub use crate::recorded::Recorded;
pub use crate::reopening::{open_turn_open, turn_then_open};
pub use crate::turns::turn_on_host;

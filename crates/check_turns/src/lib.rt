//! Checks that contracts compose: turns of a cluster and of a lone node, one after the other,
//! proved from nothing but what the contracts of these calls say.
#![tactic(auto)]

mod first_sent;
mod handing;
mod heard;
mod in_memory;
pub mod lone_turns;
mod reopened;
mod run;
mod shown;
mod two;

pub use crate::first_sent::send_first;
pub use crate::handing::hand_on;
pub use crate::heard::hear_next;
pub use crate::in_memory::{hear_what_was_offered, turn_in_memory};
pub use crate::reopened::{Reopened, turn_then_crash, turn_then_reopen};
pub use crate::run::{run_until_nothing, take_turns};
pub use crate::shown::turn_then_count;
pub use crate::two::two_turns;

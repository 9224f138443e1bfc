//! One member of the agreement, over all units of a tree, without a disk.
//!
//! Crate `protocol` defines its inputs and answers, and states what holds of them; here is the
//! code. A step is first prepared: that allocates all that it needs and changes nothing. Once its
//! note is on a log the step is committed: that allocates nothing and can't fail.
#![tactic(auto)]

mod building;
mod change;
mod claiming;
mod facts;
mod hearing;
mod held;
mod jobs;
mod known;
mod member;
mod messages;
mod naming;
mod nudging;
mod open_claim;
mod packages;
mod receivers;
mod state;
mod step;
mod texts;

pub use crate::member::Member;
pub use crate::open_claim::OpenClaim;
pub use crate::step::{ClaimChange, MemberStep};
pub use protocol::{Input, Outcome, Packages, Refusal, Send, Sends};

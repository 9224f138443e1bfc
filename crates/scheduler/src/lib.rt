//! What a node that builds with others should try next: which jobs are out, which builds failed
//! here and elsewhere, what it claims or asks for, and when.
#![tactic(auto)]

mod desk;
mod eligibility;
mod failures;
mod heard;
mod notices;
mod pace;
mod posted;
mod reading;
mod seen;
mod sought;
mod wishing;

pub use crate::desk::Desk;
pub use crate::eligibility::{is_away, is_spent, least_claim, next_ask};
pub use crate::pace::Pace;
pub use crate::reading::Look;
pub use turn_rules::Wish;

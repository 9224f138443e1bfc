//! One node of a cluster whose other nodes run elsewhere, turn by turn.
#![tactic(auto)]

mod choosing;
mod solo;
mod taking;

pub use crate::solo::Solo;
pub use turn_rules::{Act, Initiative, TurnFault};

//! The ballots of one unit: how a voter answers offers and proposals, and what a claimer does with
//! the answers.
//!
//! They are generic in the value that is agreed. The rules are not repeated here: contracts say
//! that a step is the one that a member of the agreement theory takes.
#![tactic(auto)]

mod claimer;
mod message;
mod tally;
mod value;
mod voter;
mod weights;

pub use crate::claimer::{Claimer, ClaimerChange, ClaimerStep, Next};
pub use crate::message::{Body, Fact, Message, Note};
pub use crate::tally::Tally;
pub use crate::value::Value;
pub use crate::voter::{Voter, VoterStep};
pub use crate::weights::{BadWeights, GREATEST_WEIGHT, Weights};

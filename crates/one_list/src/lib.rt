//! The main theorem: each world of nodes has exactly one list of packages at each moment, since a
//! world does, unit by unit, what the agreement theory allows.
//!
//! Functions with an empty body carry laws. The proofs are in folders, in the order of the steps
//! that docs/PROOF.md explains.
#![tactic(auto)]

mod theorem;

pub use crate::theorem::{
    anything_may_be_left, events_are_acts, events_have_one_answer, matched_worlds_are_safe,
    needs_are_monotone, sent_was_said, worlds_have_one_list,
};

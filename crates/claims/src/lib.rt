//! The agreement theory and its claims.
//!
//! The theory is why no two quorums ever choose differently. Its rule is that of Lamport's synod.
//! The value that is agreed on is of any type; a quorum is whatever a test accepts, as long as two
//! quorums share a member, as majorities by weight do. Functions with an empty body carry laws.
//! A claim is a ballot number. This crate also has how claims compare, the rounds that are left,
//! and the job that a claim leads to, with the dependencies that its build stands on.
#![tactic(auto)]

ghost use Rattle.std.specs.Prelude.{◌≡◌, ◌+◌, ◌≤◌, ◌↔◌, None, Option, Some, IfOk, IsErr};
ghost use Rattle.std.specs.Cmp.{IsTotalOrder};
ghost use Rattle.std.specs.Ordering.{is_eq, is_gt, is_lt};
ghost use Rattle.claims.specs.Claims.{claim_below, claim_same, is_above, is_below};
ghost use Rattle.claims.specs.Claim.{claim_cmp, greatest_round, promised_cmp};

mod all_paths;
mod claim;
mod deps;
mod job;
mod one_path;
mod quorum;
mod report;

pub use crate::all_paths::{agrees_on_one_list, node_does_agree, nodes_have_one_list};
pub use crate::claim::{Claim, claims_in_order, is_above, is_below, is_promised};
pub use crate::deps::{Dep, Deps, Texts};
pub use crate::job::Job;
pub use crate::one_path::{
    agrees_on_one_value, chosen_stays, majorities_agree, members_are_careful, members_do_agree,
    notes_restore_facts, steps_are_noted,
};
pub use crate::quorum::{is_majority, majorities_meet, members_join};
pub use crate::report::keep;
use faults::Fault;
pub use pkgname::{NameFault, PkgName};
pub use pkgpath::{PathFault, PkgPath};
use thiserror::Error;

/// The greatest round of a claim. The least is 1.
pub const GREATEST_ROUND: u64 = 9_223_372_036_854_775_807;

/// The maximum number of members. They are numbered from 0.
pub const MEMBERS: u8 = 9;

/// No round is left above the given one.
#[derive(Clone, Copy, Debug, PartialEq, Eq, Error)]
#[error("no round is left")]
pub struct RoundsSpent;

impl Fault for RoundsSpent {
    ghost number_of = { λ _. 601 };

    ghost place_of = { λ _. None };

    fn number(&self) -> u32 {
        601
    }

    fn place(&self) -> Option<u64> {
        None
    }
}

/// The next round, which is one greater. Fails for the greatest round, and for any number above it.
pub fn next_round(round: u64) -> Result<u64, RoundsSpent>
    ensures above { IfOk result (λ next. next ≡ round + 1) }
    ensures spent { IsErr result ↔ (greatest_round ≤ round) }
{
    if round >= GREATEST_ROUND {
        return Err(RoundsSpent);
    }
    Ok(round + 1)
}

/// Claims compare by round, and then by member. The order is total, and promises and reports are
/// compared by it. Having promised nothing is below every claim.
pub fn claims_compare()
    ensures same { (a b : _) → ⟦<Claim as Ord>⟧.cmp a b ≡ claim_cmp a b }
    ensures same_claim { (a b : _) → ⟦<Claim as PartialEq>⟧.eq a b ≡ claim_same a b }
    ensures same_promised { (p q : _) → ⟦<Option<Claim> as Ord>⟧.cmp p q ≡ promised_cmp p q }
    ensures total { IsTotalOrder claim_cmp }
    ensures below { (c d : _) → is_lt (claim_cmp c d) ≡ claim_below c d }
    ensures equal { (c d : _) → is_eq (claim_cmp c d) ≡ claim_same c d }
    ensures above_promised { (c : _) (promised : Option _)
        → is_lt (promised_cmp promised (Some c)) ≡ is_above c promised }
    ensures below_promised { (c : _) (promised : Option _)
        → is_gt (promised_cmp promised (Some c)) ≡ is_below c promised }
{}

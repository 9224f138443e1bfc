//! At which other members builds of units failed.
ghost use Rattle.std.specs.Prelude.{◌≡◌, ◌<◌, ℕ, OnErr, OnOk, false, nat_eq, set};
ghost use Rattle.scheduler.specs.Hearing.{put};
ghost use Rattle.scheduler.specs.Tries.{after_notice, after_offer, members_of, tries_at};
ghost use Rattle.indexmap.specs.IndexMap.{get};

use claims::{Claim, is_above, is_promised};
use faults::Memory;
use indexmap::IndexMap;

/// The other members at which a build of a unit failed, as far as their notices say.
#[derive(Clone, Copy)]
pub(crate) struct Failures {
    /// Whether a build failed there, by member.
    pub members: [bool; 9],
    /// What this member had promised for the unit when the last of them was added.
    pub promised: Option<Claim>,
}

/// At how many other members a build of the unit failed.
pub(crate) fn count_at(all: &IndexMap<u32, Failures>, unit: u32) -> usize
    ensures { result ≡ tries_at (get nat_eq all.now unit) }
{
    match all.get(&unit) {
        Some(failures) => failures
            .members
            .iter()
            .filter(|has_failed| **has_failed)
            .count(),
        None => 0,
    }
}

/// Adds the member to those at which a build of the unit failed, with what is promised for the unit
/// now. If it is among them, all stays.
pub(crate) fn add_member(
    all: &mut IndexMap<u32, Failures>,
    unit: u32,
    member: u8,
    promised: Option<Claim>,
) -> Result<(), Memory>
    requires { member < 9 }
    ensures added { OnOk result ((v : ℕ) → get nat_eq all.new v
        ≡ put (get nat_eq all.old) unit
        (after_notice member promised (get nat_eq all.old unit)) v) }
    ensures left { OnErr result (all.new.entries ≡ all.old.entries) }
{
    let mut members = members_at(all, unit);
    if members[member as usize] {
        return Ok(());
    }
    members[member as usize] = true;
    all.insert(unit, Failures { members, promised })?;
    Ok(())
}

/// Whether a build of the unit failed there, by member.
fn members_at(all: &IndexMap<u32, Failures>, unit: u32) -> [bool; 9]
    ensures { result ≡ members_of (get nat_eq all.now unit) }
{
    match all.get(&unit) {
        Some(failures) => failures.members,
        None => [false; 9],
    }
}

/// Removes the claim's member from those at which a build of the unit failed, if the claim is
/// promised now, and wasn't yet when the last of them was added.
pub(crate) fn remove_claimer(
    all: &mut IndexMap<u32, Failures>,
    unit: u32,
    claim: Claim,
    promised: Option<Claim>,
) -> Result<(), Memory>
    ensures removed { OnOk result ((v : ℕ) → get nat_eq all.new v
        ≡ put (get nat_eq all.old) unit
        (after_offer promised claim (get nat_eq all.old unit)) v) }
    ensures left { OnErr result (all.new.entries ≡ all.old.entries) }
{
    let Some(failures) = all.get(&unit) else {
        return Ok(());
    };
    let before = *failures;
    if !is_promised(claim, promised) || !is_above(claim, before.promised) {
        return Ok(());
    }
    all.insert(unit, without_member(before, claim.member))?;
    Ok(())
}

/// These failures without the member's.
fn without_member(failures: Failures, member: u8) -> Failures
    ensures { result ≡ record failures { members = set failures.members member false } }
{
    let mut members = failures.members;
    if (member as usize) < members.len() {
        members[member as usize] = false;
    }
    Failures {
        members,
        promised: failures.promised,
    }
}

//! When a unit is claimed, above which round, and what is asked for.
ghost use Rattle.std.specs.Prelude.{◌≡◌, ◌<◌, IfOk, Some, length, max};
ghost use Rattle.scheduler.specs.Wishing.{
  has_rounds,
  is_for,
  is_mine,
  may_claim,
  turn_after,
  turn_of,
  waits_for,
};
ghost use Rattle.engine.specs.Division.{number_of};
ghost use Rattle.listing.specs.Tree.{path_at};
ghost use Rattle.turn_rules.specs.Wishes.{ask_at, round_of};
ghost use Rattle.turn_rules.specs.declared.wish.Wish.TheVariants.{Ask, Claim as ClaimWish};
ghost use Rattle.protocol.specs.State.{facts_at, name_at};

use crate::is_spent;
use ballots::Claimer;
use claims::Claim;
use faults::Memory;
use member::Member;
use turn_rules::Wish;

/// Whether a claim may be opened: none is open that gathers promises or votes, unless it gives way.
pub(crate) fn may_claim(member: &Member<'_>, gives_way: bool) -> bool
    ensures { result ≡ may_claim member.now.claim gives_way }
{
    match member.open_claim() {
        None => true,
        Some(open) => match &open.claimer {
            Claimer::Building { .. } => true,
            Claimer::Gathering { .. } => gives_way,
            Claimer::Voting { .. } => false,
        },
    }
}

/// Whether the open claim is for the unit.
pub(crate) fn is_for(member: &Member<'_>, unit: u32) -> bool
    ensures { result ≡ is_for member.now.claim unit }
{
    match member.open_claim() {
        Some(open) => open.unit == unit,
        None => false,
    }
}

/// Whether the open claim is for the unit, and waits for its build.
pub(crate) fn waits_for(member: &Member<'_>, unit: u32) -> bool
    ensures { result ≡ waits_for member.now.claim unit }
{
    match member.open_claim() {
        Some(open) => match &open.claimer {
            Claimer::Building { .. } => open.unit == unit,
            Claimer::Gathering { .. } | Claimer::Voting { .. } => false,
        },
        None => false,
    }
}

/// Whether there is such a unit, and a round is left for it.
pub(crate) fn has_rounds(member: &Member<'_>, unit: u32) -> bool
    ensures { result ≡ has_rounds member.now unit }
{
    unit < member.units().len() && !is_spent(member, unit)
}

/// The claim for the unit of this number, above what the member promised and above this round.
pub(crate) fn claim_of(member: &Member<'_>, unit: u32, above: u64) -> Result<Wish, Memory>
    requires { unit < length member.now.division.units }
    ensures { IfOk result (λ wish. wish ≡ ClaimWish (name_at member.now unit)
        (max (round_of (facts_at member.now unit).promised) above)) }
{
    let above = round_promised(member, unit).max(above);
    let path = member.units().name(unit).copy()?;
    Ok(Wish::Claim { path, above })
}

/// The claim for the unit of the package at the position, above what the member promised and above
/// this round.
pub(crate) fn claim_at(
    member: &Member<'_>,
    position: u32,
    unit: u32,
    above: u64,
) -> Result<Wish, Memory>
    requires there { position < length member.now.division.tree }
    requires unit { unit < length member.now.division.units }
    ensures { IfOk result (λ wish. wish ≡ ClaimWish (path_at member.now.division.tree position)
        (max (round_of (facts_at member.now unit).promised) above)) }
{
    let above = round_promised(member, unit).max(above);
    let path = member.tree().path(position).copy()?;
    Ok(Wish::Claim { path, above })
}

/// The round of the last claim that the member promised for the unit, or 0.
fn round_promised(member: &Member<'_>, unit: u32) -> u64
    requires { unit < length member.now.division.units }
    ensures { result ≡ round_of (facts_at member.now unit).promised }
{
    match promised(member, unit) {
        Some(claim) => claim.round,
        None => 0,
    }
}

/// The last claim that the member promised for the unit.
pub(crate) fn promised(member: &Member<'_>, unit: u32) -> Option<Claim>
    requires { unit < length member.now.division.units }
    ensures { result ≡ (facts_at member.now unit).promised }
{
    member.promised(member.units().name(unit))
}

/// Whether the member promised the unit to its own claim last.
pub(crate) fn is_mine(member: &Member<'_>, unit: u32) -> bool
    requires { unit < length member.now.division.units }
    ensures { result ≡ is_mine member.now unit }
{
    match promised(member, unit) {
        Some(claim) => claim.member == member.me(),
        None => false,
    }
}

/// The question for the package at the position.
pub(crate) fn ask_at(member: &Member<'_>, position: u32) -> Result<Wish, Memory>
    requires { position < length member.now.division.tree }
    ensures { IfOk result (λ wish. wish ≡ ask_at member.now position) }
{
    let path = member.tree().path(position).copy()?;
    Ok(Wish::Ask { path })
}

/// The question for the unit of this number.
pub(crate) fn ask_for(member: &Member<'_>, unit: u32) -> Result<Wish, Memory>
    requires { unit < length member.now.division.units }
    ensures { IfOk result (λ wish. wish ≡ Ask (name_at member.now unit)) }
{
    let path = member.units().name(unit).copy()?;
    Ok(Wish::Ask { path })
}

/// The member's place among those that may claim the unit, counted from 0: each unit begins with
/// another member.
pub(crate) fn turn_of(member: &Member<'_>, unit: u32) -> u32
    ensures { result ≡ turn_of member.now unit }
{
    let members = member.weights().len() as u32;
    (u32::from(member.me()) + unit % members) % members
}

/// Its place once this member gave the unit back, who comes last then.
pub(crate) fn turn_after(member: &Member<'_>, unit: u32, giver: u8) -> u32
    ensures { result ≡ turn_after member.now unit giver }
{
    let members = member.weights().len() as u32;
    let me = member.me();
    if members < 2 {
        return 0;
    }
    if me == giver {
        return members - 1;
    }
    let distance = (u32::from(me) + members).saturating_sub(u32::from(giver) + 1);
    (distance % members + unit % (members - 1)) % (members - 1)
}

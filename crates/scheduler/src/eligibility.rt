//! Which units a node may claim, and which it asks for.
ghost use Rattle.std.specs.Prelude.{◌≡◌, ◌<◌, IfOk, length};
ghost use Rattle.turn_rules.specs.Own.{IsLeastFree, is_barred};
ghost use Rattle.engine.specs.Division.{number_of};
ghost use Rattle.protocol.specs.State.{facts_at};
ghost use Rattle.turn_rules.specs.Wishes.{
  IsLeastClaim,
  IsNextAsk,
  barred_by,
  is_away,
  is_spent,
  promised_round,
  round_of,
};

use claims::{Claim, GREATEST_ROUND};
use faults::Memory;
use member::Member;
use turn_rules::Wish;

/// The wish to claim the first queued package whose unit may be claimed: it is not among these, a
/// round is left for it, and it is not away, or is to be taken over. Fails only if memory runs out.
pub fn least_claim(
    member: &Member<'_>,
    barred: &[u32],
    over: &[u32],
) -> Result<Option<Wish>, Memory>
    ensures { IfOk result
        (IsLeastClaim member.now (barred_by member.now barred.now over.now)) }
{
    match least_free(member, barred, over) {
        Some(position) => {
            let path = member.tree().path(position).copy()?;
            let above = promised_round(member, position);
            Ok(Some(Wish::Claim { path, above }))
        }
        None => Ok(None),
    }
}

/// The wish to ask for the first package that is queued, at this position or after it, with its
/// position. Fails only if memory runs out.
pub fn next_ask(member: &Member<'_>, from: u32) -> Result<Option<(u32, Wish)>, Memory>
    ensures { IfOk result (IsNextAsk member.now from) }
{
    match member.queued_from(from) {
        Some(position) => {
            let path = member.tree().path(position).copy()?;
            Ok(Some((position, Wish::Ask { path })))
        }
        None => Ok(None),
    }
}

/// The first queued position whose unit may be claimed.
fn least_free(member: &Member<'_>, barred: &[u32], over: &[u32]) -> Option<u32>
    ensures { IsLeastFree member.now (barred_by member.now barred.now over.now) result }
{
    let mut from = 0;
    for _ in 0..member.tree().len() {
        let position = member.queued_from(from)?;
        if !is_barred(member, barred, over, position) {
            return Some(position);
        }
        from = position + 1;
    }
    None
}

/// Whether the unit of the package at the position may not be claimed.
fn is_barred(member: &Member<'_>, barred: &[u32], over: &[u32], position: u32) -> bool
    requires { position < length member.now.division.tree }
    ensures { result ≡ is_barred (barred_by member.now barred.now over.now)
        (number_of member.now.division position) }
{
    match member.units().unit_of(position) {
        Some(unit) => is_barred_by(member, barred, over, unit),
        None => true,
    }
}

/// Whether the unit is barred; or is away and not to be taken over; or no round is left for it.
fn is_barred_by(member: &Member<'_>, barred: &[u32], over: &[u32], unit: u32) -> bool
    requires { unit < length member.now.division.units }
    ensures { result ≡ barred_by member.now barred.now over.now unit }
{
    barred.contains(&unit)
        || (is_away(member, unit) && !over.contains(&unit))
        || is_spent(member, unit)
}

/// The round of the last claim that the member promised for the package's unit, or 0.
fn promised_round(member: &Member<'_>, position: u32) -> u64
    requires { position < length member.now.division.tree }
    ensures { result ≡ promised_round member.now (number_of member.now.division position) }
{
    match member.units().unit_of(position) {
        Some(unit) => round_promised(member, unit),
        None => 0,
    }
}

/// Whether the last claim that the member promised for the unit is another member's, who builds it
/// or did.
pub fn is_away(member: &Member<'_>, unit: u32) -> bool
    requires { unit < length member.now.division.units }
    ensures { result ≡ is_away member.now unit }
{
    match promised(member, unit) {
        Some(claim) => claim.member != member.me(),
        None => false,
    }
}

/// Whether the last claim that the member promised for the unit has the greatest possible round, so
/// that nobody can claim the unit any more.
pub fn is_spent(member: &Member<'_>, unit: u32) -> bool
    requires { unit < length member.now.division.units }
    ensures { result ≡ is_spent member.now unit }
{
    round_promised(member, unit) >= GREATEST_ROUND
}

/// The round of the last claim that the member promised for the unit, or 0.
fn round_promised(member: &Member<'_>, unit: u32) -> u64
    requires { unit < length member.now.division.units }
    ensures { result ≡ round_of (facts_at member.now unit).promised }
{
    match promised(member, unit) {
        Some(claim) => claim.round,
        None => 0,
    }
}

/// The last claim that the member promised for the unit.
fn promised(member: &Member<'_>, unit: u32) -> Option<Claim>
    requires { unit < length member.now.division.units }
    ensures { result ≡ (facts_at member.now unit).promised }
{
    member.promised(member.units().name(unit))
}

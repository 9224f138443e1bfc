//! What a node does on its own initiative.
ghost use Rattle.std.specs.List.{list_any};
ghost use Rattle.std.specs.Prelude.{◌≡◌, ◌<◌, ◌==◌, ◌||◌, IfErr, IfOk, OnErr, Option, Some, false, length};
ghost use Rattle.turn_rules.specs.Own.{IsLeastFree, IsOwn, claim_of, is_barred, renewed};
ghost use Rattle.turn_rules.specs.Pending.{has_failed};
ghost use Rattle.protocol.specs.State as members;
ghost use Rattle.protocol.specs.declared.input.Input.{Input as Asks};
ghost use Rattle.engine.specs.Division.{number_of};
ghost use Rattle.turn_rules.specs.CausedSteps.{IsNoPart, IsPart};
ghost use Rattle.turn_rules.specs.Unfailed.{AllFailedBelow};

use crate::caused_step::make_ready;
use crate::{CausedStep, Pending};
use faults::Memory;
use member::{Input, Member};
use node::{Node, NodeFault};
use stable_record::Disk;

/// What the node does on its own initiative, if anything. The units in `elsewhere` are claimed by
/// other nodes, and `above` is the greatest round of the claims that block the node's open one.
///
/// # Errors
///
/// `Memory`, if there is something to do; or why the node refuses to open a new claim.
pub fn own<D: Disk>(
    node: &mut Node<'_, D>,
    above: Option<u64>,
    pending: &Pending,
    elsewhere: &[u32],
) -> Result<Option<CausedStep>, NodeFault>
    requires { node.old.node.stopped ≡ false }
    ensures same { node.new ≡ node.old }
    ensures part { IfOk result (λ r. (own : Option Asks)
        × IsOwn node.old.node.member above
        (λ u. has_failed pending.now u || list_any (λ v. v == u) elsewhere.now) own
        × IsPart node.new own r) }
    ensures refused { IfErr result (λ f. (own : Option Asks)
        × IsOwn node.old.node.member above
        (λ u. has_failed pending.now u || list_any (λ v. v == u) elsewhere.now) own
        × IsNoPart node.new own f) }
{
    own_from(node, above, pending, elsewhere, 0)
}

/// Like `own`, but searches only from this position on. Below it the only queued packages are those
/// whose units failed.
///
/// # Errors
///
/// Those of `own`.
pub fn own_from<D: Disk>(
    node: &mut Node<'_, D>,
    above: Option<u64>,
    pending: &Pending,
    elsewhere: &[u32],
    from: u32,
) -> Result<Option<CausedStep>, NodeFault>
    requires up { node.old.node.stopped ≡ false }
    requires below { AllFailedBelow node.old.node.member pending.now from }
    ensures same { node.new ≡ node.old }
    ensures part { IfOk result (λ r. (own : Option Asks)
        × IsOwn node.old.node.member above
        (λ u. has_failed pending.now u || list_any (λ v. v == u) elsewhere.now) own
        × IsPart node.new own r) }
    ensures refused { IfErr result (λ f. (own : Option Asks)
        × IsOwn node.old.node.member above
        (λ u. has_failed pending.now u || list_any (λ v. v == u) elsewhere.now) own
        × IsNoPart node.new own f) }
{
    match input_of(node.member(), above, pending, elsewhere, from)? {
        Some(input) => Ok(Some(make_ready(node, input)?)),
        None => Ok(None),
    }
}

/// What the member does on its own initiative, if anything.
fn input_of(
    member: &Member<'_>,
    above: Option<u64>,
    pending: &Pending,
    elsewhere: &[u32],
    from: u32,
) -> Result<Option<Input>, Memory>
    requires { AllFailedBelow member.now pending.now from }
    ensures own { IfOk result (IsOwn member.now above
        (λ u. has_failed pending.now u || list_any (λ v. v == u) elsewhere.now)) }
    ensures due { OnErr result ((own : Asks) × IsOwn member.now above
        (λ u. has_failed pending.now u || list_any (λ v. v == u) elsewhere.now) (Some own)) }
{
    if let Some(open) = member.open_claim() {
        return Ok(Some(renewed(member, open.unit, above)?));
    }
    match least_free(member, pending, elsewhere, from) {
        Some(position) => Ok(Some(claim_of(member, position)?)),
        None => Ok(None),
    }
}

/// A new claim for the unit above this round if a greater claim blocks the open one, and otherwise
/// a nudge.
///
/// # Errors
///
/// Out of memory.
pub fn renewed(member: &Member<'_>, unit: u32, above: Option<u64>) -> Result<Input, Memory>
    requires { unit < length member.now.division.units }
    ensures { IfOk result (λ input. (o : members.OpenClaim) → o.unit ≡ unit
        → input ≡ renewed member.now o above) }
{
    let Some(above) = above else {
        return Ok(Input::Nudge);
    };
    let path = member.units().name(unit).copy()?;
    let host = u16::from(member.me());
    Ok(Input::Claim { path, host, above })
}

/// The member's own claim for the package at the position.
fn claim_of(member: &Member<'_>, position: u32) -> Result<Input, Memory>
    requires { position < length member.now.division.tree }
    ensures { IfOk result (λ input. input ≡ claim_of member.now position) }
{
    let path = member.tree().path(position).copy()?;
    let host = u16::from(member.me());
    Ok(Input::Claim {
        path,
        host,
        above: 0,
    })
}

/// The least queued position whose unit may be claimed. It is searched for from this position on.
pub(crate) fn least_free(
    member: &Member<'_>,
    pending: &Pending,
    elsewhere: &[u32],
    mut from: u32,
) -> Option<u32>
    requires { AllFailedBelow member.now pending.now from }
    ensures { IsLeastFree member.now
        (λ u. has_failed pending.now u || list_any (λ v. v == u) elsewhere.now) result }
{
    for _ in 0..member.tree().len() {
        let position = member.queued_from(from)?;
        if !is_barred(member, pending, elsewhere, position) {
            return Some(position);
        }
        from = position + 1;
    }
    None
}

/// Whether the unit of the package at the position may not be claimed.
fn is_barred(member: &Member<'_>, pending: &Pending, elsewhere: &[u32], position: u32) -> bool
    requires { position < length member.now.division.tree }
    ensures { result ≡ is_barred
        (λ u. has_failed pending.now u || list_any (λ v. v == u) elsewhere.now)
        (number_of member.now.division position) }
{
    match member.units().unit_of(position) {
        Some(unit) => pending.has_failed(unit) || elsewhere.contains(&unit),
        None => true,
    }
}

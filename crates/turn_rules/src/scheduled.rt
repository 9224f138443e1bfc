//! What a node does for a scheduler.
ghost use Rattle.std.specs.Prelude.{◌≡◌, ◌⊎◌, Err, IfErr, IfOk, OnErr, Some, false};
ghost use Rattle.turn_rules.specs.Scheduled.{asked_for, going_on, scheduled};
ghost use Rattle.node.specs.Step.{Does, Takes};
ghost use Rattle.node.specs.declared.fault.NodeFault.TheVariants.{Memory as out_of_memory};
ghost use Rattle.protocol.specs.declared.input.Input.{Input as Asks};
ghost use Rattle.turn_rules.specs.CausedSteps.{IsNoPart, IsPart, IsCausedStep};

use crate::{CausedStep, Wish, make_ready, renewed};
use ballots::Claimer;
use faults::Memory;
use member::{Input, Member};
use node::{Node, NodeFault};
use stable_record::Disk;

/// What the node does for its scheduler, if anything: what is wished, or else what it does about
/// its open claim. Greater claims with rounds up to `above` block that claim.
///
/// # Errors
///
/// `Memory`, if there is something to do; or why the node refuses to do so.
pub fn do_scheduled<D: Disk>(
    node: &mut Node<'_, D>,
    above: Option<u64>,
    wish: Option<Wish>,
) -> Result<Option<CausedStep>, NodeFault>
    requires { node.old.node.stopped ≡ false }
    ensures same { node.new ≡ node.old }
    ensures part { IfOk result (IsPart node.old (scheduled wish above node.old.node.member)) }
    ensures refused { IfErr result
        (IsNoPart node.old (scheduled wish above node.old.node.member)) }
{
    match wish {
        Some(wish) => Ok(Some(do_wish(node, wish)?)),
        None => go_on(node, above),
    }
}

/// What the node is wished to do, with its step prepared.
///
/// # Errors
///
/// `Memory`, or why the node refuses to do so.
fn do_wish<D: Disk>(node: &mut Node<'_, D>, wish: Wish) -> Result<CausedStep, NodeFault>
    requires up { node.old.node.stopped ≡ false }
    ensures same { node.new ≡ node.old }
    ensures readied { IfOk result
        (IsCausedStep node.new (Does (asked_for wish node.old.node.member))) }
    ensures refused { IfErr result (λ f. (f ≡ out_of_memory)
        ⊎ Takes node.old.node (Does (asked_for wish node.old.node.member)) (Err f)) }
{
    let host = u16::from(node.me());
    match wish {
        Wish::Claim { path, above } => make_ready(node, Input::Claim { path, host, above }),
        Wish::Ask { path } => make_ready(node, Input::Ask { path }),
    }
}

/// What the node does about its open claim, if anything. Greater claims with rounds up to `above`
/// block that claim.
///
/// # Errors
///
/// `Memory`, if there is something to do; or why the node opens no new claim.
fn go_on<D: Disk>(
    node: &mut Node<'_, D>,
    above: Option<u64>,
) -> Result<Option<CausedStep>, NodeFault>
    requires { node.old.node.stopped ≡ false }
    ensures same { node.new ≡ node.old }
    ensures part { IfOk result (IsPart node.new (going_on above node.old.node.member)) }
    ensures refused { IfErr result (IsNoPart node.new (going_on above node.old.node.member)) }
{
    match going_on(node.member(), above)? {
        Some(input) => Ok(Some(make_ready(node, input)?)),
        None => Ok(None),
    }
}

/// What the member does about its open claim, if anything.
fn going_on(member: &Member<'_>, above: Option<u64>) -> Result<Option<Input>, Memory>
    ensures input { IfOk result (λ input. input ≡ going_on above member.now) }
    ensures due { OnErr result ((input : Asks) × (going_on above member.now ≡ Some input)) }
{
    let Some(open) = member.open_claim() else {
        return Ok(None);
    };
    match &open.claimer {
        Claimer::Gathering { .. } if above.is_none() => Ok(Some(Input::Nudge)),
        Claimer::Voting { .. } => Ok(Some(renewed(member, open.unit, above)?)),
        _ => Ok(None),
    }
}

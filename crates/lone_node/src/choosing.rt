//! What a node does in a turn.
ghost use Rattle.std.specs.Prelude.{
  ◌≡◌,
  ◌≢◌,
  ◌<◌,
  ◌||◌,
  ◌⊎◌,
  [],
  IfErr,
  IfOk,
  None,
  Option,
  false,
  length,
  option_and_then,
  option_map,
};
ghost use Rattle.turn_rules.specs.Answering.{answer_if};
ghost use Rattle.turn_rules.specs.Choice.{IsDoneBy, IsDoneIf, comes_to};
ghost use Rattle.turn_rules.specs.Pending.{has_failed};
ghost use Rattle.turn_rules.specs.declared.fault.TurnFault.TheVariants as refused;
ghost use Rattle.node.specs.declared.fault.NodeFault.{NodeFault as Fault};
ghost use Rattle.node.specs.Calls.{left_by};
ghost use Rattle.node.specs.OnLog.{IsLogged};
ghost use Rattle.node.specs.Step.{Comes, Does};
ghost use Rattle.datagram_ports.specs.Kept.{GoesOnBy, KeepsVouching};
ghost use Rattle.protocol.specs.declared.input.Input.{Input as Asks};
ghost use Rattle.turn_rules.specs.CausedSteps.{IsNoPart, IsPart};
ghost use Rattle.turn_rules.specs.Unfailed.{AllFailedBelow};
ghost use Rattle.lone_node.specs.Faults.{IsTurnFault};
ghost use Rattle.lone_node.specs.Handed.{handed};
ghost use Rattle.lone_node.specs.State.{member_up, only};
ghost use Rattle.lone_node.specs.inside.Turning.{HasChosen, HasCome, IsMade, IsNotTaken, solo_of, told};

use datagram_ports::Port;
use node::{Node, NodeFault};
use protocol::Packages;
use stable_record::Disk;
use turn_rules::{
    CausedStep, Initiative, Pending, TurnFault, answer_if, do_scheduled, own_from, take_in,
    unfailed_from,
};

/// What the node does in the turn, if anything, with its step prepared. It does the first of these
/// that applies:
/// 1. It answers its job, if the files for it are made.
/// 2. It takes a received datagram that is for it; the port is asked once.
/// 3. It does something on its initiative.
///
/// Below `unfailed` the only queued packages are those whose units failed.
///
/// # Errors
///
/// `Memory`; `Node`, why the node refuses the choice. If it refuses bytes as foreign, pieces that
/// join to no message are dropped.
pub(crate) fn choose<D: Disk, P: Port>(
    node: &mut Node<'_, D>,
    port: &mut P,
    pending: &Pending,
    unfailed: &mut u32,
    made: Option<&Packages>,
    initiative: Initiative,
) -> Result<Option<CausedStep>, TurnFault>
    requires { AllFailedBelow node.old.node.member pending.now unfailed.old }
    ensures logged { IsLogged node.old }
    ensures log { node.new.log ≡ node.old.log }
    ensures offered { GoesOnBy [] (P.offered port.old) (P.offered port.new) }
    ensures chosen { IfOk result (HasChosen P.Port
        (solo_of node.old pending.now port.old) (solo_of node.new pending.now port.new)
        (handed (option_map (λ b. b.now) made.entry) initiative)) }
    ensures refused { IfErr result (IsTurnFault P.Port
        (solo_of node.old pending.now port.old) (solo_of node.new pending.now port.new)
        (handed (option_map (λ b. b.now) made.entry) initiative) (λ asked. ⊥)) }
    ensures vouches_on { KeepsVouching P.vouches port.old port.new }
    ensures below { AllFailedBelow node.old.node.member pending.now unfailed.new }
{
    let me = node.member().me();
    if let Some(readied) = answered(node, made)? {
        return Ok(Some(readied));
    }
    let came = received(port);
    if let Some(readied) = taken_in(node, me, came)? {
        return Ok(Some(readied));
    }
    done(node, me, pending, unfailed, initiative)
}

/// The node's answer to its job, if it is up and the files for it are made.
fn answered<D: Disk>(
    node: &mut Node<'_, D>,
    made: Option<&Packages>,
) -> Result<Option<CausedStep>, TurnFault>
    ensures same { node.new ≡ node.old }
    ensures part { IfOk result (IsPart node.old
        (option_and_then (answer_if (option_map (λ b. b.now) made.entry))
        (member_up node.old.node))) }
    ensures refused { IfErr result (λ f. (f ≡ refused.Memory)
        × (option_and_then (answer_if (option_map (λ b. b.now) made.entry))
        (member_up node.old.node) ≢ None)) }
{
    if node.is_stopped() {
        return Ok(None);
    }
    match answer_if(node.allocator(), node, made) {
        Ok(readied) => Ok(readied),
        Err(fault) => Err(told(fault)),
    }
}

/// Receives a datagram. A receive that fails counts as one that returned nothing.
fn received<P: Port>(port: &mut P) -> Option<(u8, Vec<u8>)>
    ensures came { HasCome P.Port port.old port.new
        (option_map (λ d. (d.0, d.1.items)) result) }
    ensures offered { GoesOnBy [] (P.offered port.old) (P.offered port.new) }
    ensures vouches_on { KeepsVouching P.vouches port.old port.new }
{
    match port.receive() {
        Ok(came) => came,
        Err(_) => None,
    }
}

/// Prepares the step on the received datagram, if that is for the node and the node is up. `me` is
/// the node's number.
fn taken_in<D: Disk>(
    node: &mut Node<'_, D>,
    me: u8,
    came: Option<(u8, Vec<u8>)>,
) -> Result<Option<CausedStep>, TurnFault>
    requires { me ≡ node.old.node.member.me }
    ensures log { node.new.log ≡ node.old.log }
    ensures made { IfOk result (λ r. (node.new ≡ node.old) × IsMade node.old
        (comes_to (only node.old.node) (option_map (λ d. (d.0, d.1.items)) came)) r) }
    ensures refused { IfErr result (IsNotTaken node.old node.new
        (comes_to (only node.old.node) (option_map (λ d. (d.0, d.1.items)) came))) }
{
    match came {
        Some((to, bytes)) if to == me && !node.is_stopped() => match take_in(node, bytes) {
            Ok(readied) => Ok(Some(readied)),
            Err(fault) => Err(told(fault)),
        },
        _ => Ok(None),
    }
}

/// What the node does on its initiative, if it is up and does anything. No unit is claimed by
/// another node here. `me` is the node's number.
fn done<D: Disk>(
    node: &mut Node<'_, D>,
    me: u8,
    pending: &Pending,
    unfailed: &mut u32,
    initiative: Initiative,
) -> Result<Option<CausedStep>, TurnFault>
    requires me { me ≡ node.old.node.member.me }
    requires few { me < 9 }
    requires below { AllFailedBelow node.old.node.member pending.now unfailed.old }
    ensures same { node.new ≡ node.old }
    ensures part { IfOk result (λ r. (done : Option Asks)
        × IsDoneIf (only node.old.node) (length node.old.node.member.weights) pending.now
        (λ k. initiative) me (member_up node.old.node) done
        × IsPart node.old done r) }
    ensures refused { IfErr result (λ f. (done : Option Asks) × (g : Fault)
        × IsDoneIf (only node.old.node) (length node.old.node.member.weights) pending.now
        (λ k. initiative) me (member_up node.old.node) done
        × (f ≡ told g) × IsNoPart node.old done g) }
    ensures below { AllFailedBelow node.old.node.member pending.now unfailed.new }
{
    if node.is_stopped() {
        return Ok(None);
    }
    match done_by(node, pending.above(me), pending, unfailed, initiative) {
        Ok(readied) => Ok(readied),
        Err(fault) => Err(told(fault)),
    }
}

/// Like `done`, for a node that is up. `above` is the greatest round of the claims that block its
/// open one.
fn done_by<D: Disk>(
    node: &mut Node<'_, D>,
    above: Option<u64>,
    pending: &Pending,
    unfailed: &mut u32,
    initiative: Initiative,
) -> Result<Option<CausedStep>, NodeFault>
    requires up { node.old.node.stopped ≡ false }
    requires below { AllFailedBelow node.old.node.member pending.now unfailed.old }
    ensures same { node.new ≡ node.old }
    ensures part { IfOk result (λ r. (done : Option Asks)
        × IsDoneBy initiative node.old.node.member above
        (λ u. has_failed pending.now u || false) done
        × IsPart node.old done r) }
    ensures refused { IfErr result (λ g. (done : Option Asks)
        × IsDoneBy initiative node.old.node.member above
        (λ u. has_failed pending.now u || false) done
        × IsNoPart node.old done g) }
    ensures below { AllFailedBelow node.old.node.member pending.now unfailed.new }
{
    match initiative {
        Initiative::Own => {
            *unfailed = unfailed_from(node.member(), pending, *unfailed);
            own_from(node, above, pending, &[], *unfailed)
        }
        Initiative::Scheduled(wish) => do_scheduled(node, above, wish),
    }
}

/// The node's refusal as that of a turn.
pub(crate) fn told(fault: NodeFault) -> TurnFault
    ensures { result ≡ told fault }
{
    match fault {
        NodeFault::Memory => TurnFault::Memory,
        other => TurnFault::Node(other),
    }
}

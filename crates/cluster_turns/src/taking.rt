//! The choice is carried out.
ghost use Rattle.std.specs.Prelude.{
  ◌≡◌,
  ◌≤◌,
  ◌<◌,
  ◌++◌,
  ◌∷◌,
  [],
  IfErr,
  IfOk,
  OnErr,
  OnOk,
  Some,
  is_some,
  length,
  slice_get,
  take,
  true,
  vec_capacity,
  vec_len,
};
ghost use Rattle.turn_rules.specs.Acts.{asked_by};
ghost use Rattle.turn_rules.specs.Pending.{kept_after};
ghost use Rattle.turn_rules.specs.PuttingBack.{put_back};
ghost use Rattle.cluster_turns.specs.Choosing.{IsReadiedAt};
ghost use Rattle.cluster_turns.specs.Events.{event_of};
ghost use Rattle.cluster_turns.specs.Recording.{IsRecorded};
ghost use Rattle.cluster_turns.specs.Unfailed.{EachFailedBelow};
ghost use Rattle.world.specs.Growing.{HasGrown};
ghost use Rattle.node.specs.OnLog.{IsLogged};
ghost use Rattle.node.specs.Parcels.{datagrams_to};
ghost use Rattle.node.specs.Step.{IsAsked, IsReadyFor, sends_in};
ghost use Rattle.turn_rules.specs.Offered.{WasOffered, parcels_from};
ghost use Rattle.datagram_ports.specs.Kept.{GoesOnBy};
ghost use Rattle.cluster_turns.specs.inside.Turning.{
  HasNotTaken,
  HasTaken,
  IsTakenAs,
  IsTakenByCalls,
  KeepsStop,
  StopsAs,
  as_turning,
};
ghost use Rattle.world.specs.Sent.{with_sends};

use crate::{Chosen, ReservedStep, events_of, told};
use datagram_ports::Port;
use faults::Memory;
use member::Input;
use node::{Node, NodeFault, PreparedStep};
use protocol::Event;
use stable_record::{Disk, LogFault};
use std::alloc::Global;
use turn_rules::{Act, Before, CausedStep, Pending, TurnFault, offer, unfailed_after};
use world::Datagrams;

/// What was added for a step: its events; and, to undo the rest, the state between turns from
/// before and the number of datagrams.
#[derive(Drop)]
struct Grown {
    recorded: ReservedStep,
    before: Before,
    count: usize,
}

/// Carries out the choice. First everything that its step needs is allocated and entered; then the
/// node takes the step; then the step's sends are offered to the port. If it is refused, this
/// happens before the step is taken, or the node goes down. Below its position in `unfailed`, each
/// node's only queued packages are those whose units failed.
pub(crate) fn take<D: Disk, P: Port>(
    alloc: Global,
    nodes: &mut Vec<Node<'_, D>>,
    port: &mut P,
    sent: &mut Datagrams,
    events: &mut Vec<Event>,
    pending: &mut Pending,
    unfailed: &mut [u32; 9],
    chosen: Chosen,
) -> Result<Event, TurnFault>
    requires few { length nodes.old.items ≤ 9 }
    requires readied { IsReadiedAt nodes.old.items chosen.node (asked_by chosen.readied.act)
        chosen.readied }
    requires event { is_some (event_of sent.old (chosen.node, asked_by chosen.readied.act))
        ≡ true }
    requires below { EachFailedBelow nodes.old.items pending.old unfailed.old }
    ensures below { EachFailedBelow nodes.new.items pending.new unfailed.new }
    ensures taken { IsTakenAs D.Disk P.Port
        (as_turning nodes.old.items sent.old events.old.items pending.old port.old)
        (as_turning nodes.new.items sent.new events.new.items pending.new port.new)
        chosen result }
    ensures given { GoesOnBy [] (P.given port.old) (P.given port.new) }
    ensures calls { IsTakenByCalls D.Disk P.Port
        (as_turning nodes.old.items sent.old events.old.items pending.old port.old)
        (as_turning nodes.new.items sent.new events.new.items pending.new port.new)
        chosen result }
{
    host_fits(&chosen.readied.act);
    let from = unfailed[chosen.node];
    unfailed[chosen.node] = unfailed_after(&chosen.readied.ready, from);
    match grown_for(alloc, nodes.as_slice(), sent, events, pending, &chosen) {
        Ok(grown) => {
            let Chosen { node, readied } = chosen;
            let CausedStep { act, ready } = readied;
            drop(act);
            let number = node as u8;
            match finish(&mut nodes[node], port, number, ready) {
                Ok(()) => Ok(keep(events, grown.recorded)),
                Err(fault) => {
                    sent.cut_back(grown.count);
                    pending.put_back(grown.before);
                    Err(stopped(events, number, grown.recorded, fault))
                }
            }
        }
        Err(memory) => {
            drop(chosen);
            Err(TurnFault::from(memory))
        }
    }
}

/// Makes everything that the step needs: its events, with room for one more; an entry for each
/// datagram that it sends; and the updated state between turns. If that fails, only room was added.
fn grown_for<D: Disk>(
    alloc: Global,
    nodes: &[Node<'_, D>],
    sent: &mut Datagrams,
    events: &mut Vec<Event>,
    pending: &mut Pending,
    chosen: &Chosen,
) -> Result<Grown, Memory>
    requires few { length nodes.now ≤ 9 }
    requires there { chosen.now.node < length nodes.now }
    requires event { is_some (event_of sent.old
        (chosen.now.node, asked_by chosen.now.readied.act)) ≡ true }
    ensures recorded { IfOk result (λ grown. IsRecorded sent.old
        (chosen.now.node, asked_by chosen.now.readied.act) chosen.now.readied.ready
        grown.recorded) }
    ensures room { OnOk result (vec_len events.new < vec_capacity events.new) }
    ensures events { events.new.items ≡ events.old.items }
    ensures sent { OnOk result
        (sent.new ≡ with_sends sent.old (sends_in chosen.now.readied.ready.step)) }
    ensures count { IfOk result (λ grown. take grown.count sent.new ≡ sent.old) }
    ensures pending { OnOk result ((node : _) → slice_get nodes.now chosen.now.node ≡ Some node
        → pending.new ≡ kept_after pending.old chosen.now.node node.node.member
        (asked_by chosen.now.readied.act)) }
    ensures before { IfOk result (λ grown. (put_back pending.new grown.before ≡ pending.old)
        × (grown.before.next ≤ 9)) }
    ensures same { OnErr result ((sent.new ≡ sent.old) × (pending.new ≡ pending.old)) }
    ensures logged { OnOk result ((node : _) → slice_get nodes.now chosen.now.node ≡ Some node
        → IsLogged node) }
{
    let number = chosen.node as u8;
    let act = &chosen.readied.act;
    let ready = &chosen.readied.ready;
    let recorded = events_of(alloc, sent, number, act, ready)?;
    let count = sent.len();
    match grow(
        pending,
        sent,
        events,
        &nodes[chosen.node],
        number,
        act,
        ready,
    ) {
        Ok(before) => Ok(Grown {
            recorded,
            before,
            count,
        }),
        Err(memory) => {
            drop(recorded);
            Err(memory)
        }
    }
}

/// A host number in the act has 16 bits.
fn host_fits(act: &Act)
    ensures { IsAsked (asked_by act.now) }
{
    if let Act::Own(Input::Claim { host, .. }) = act {
        let _host = *host;
    }
}

/// Makes room for one more event, enters what the step sends, and updates the state between turns.
/// If that fails, only room was added.
fn grow<D: Disk>(
    pending: &mut Pending,
    sent: &mut Datagrams,
    events: &mut Vec<Event>,
    node: &Node<'_, D>,
    number: u8,
    act: &Act,
    ready: &PreparedStep,
) -> Result<Before, Memory>
    requires { number < 9 }
    ensures room { OnOk result (vec_len events.new < vec_capacity events.new) }
    ensures events { events.new.items ≡ events.old.items }
    ensures sent { OnOk result
        (sent.new ≡ with_sends sent.old (sends_in ready.now.step)) }
    ensures grown { HasGrown sent.old sent.new }
    ensures pending { OnOk result (pending.new
        ≡ kept_after pending.old number node.now.node.member (asked_by act.now)) }
    ensures before { IfOk result (λ before. (put_back pending.new before ≡ pending.old)
        × (before.next ≤ 9)) }
    ensures same { OnErr result ((sent.new ≡ sent.old) × (pending.new ≡ pending.old)) }
    ensures logged { IsLogged node.now }
{
    let member = node.member();
    events.reserve(1)?;
    let before = pending.keep(member, number, act)?;
    match enter(sent, ready) {
        Ok(()) => Ok(before),
        Err(memory) => {
            pending.put_back(before);
            Err(memory)
        }
    }
}

/// Enters what the step sends, or changes nothing.
fn enter(sent: &mut Datagrams, ready: &PreparedStep) -> Result<(), Memory>
    ensures sent { OnOk result
        (sent.new ≡ with_sends sent.old (sends_in ready.now.step)) }
    ensures grown { HasGrown sent.old sent.new }
    ensures same { OnErr result (sent.new ≡ sent.old) }
{
    let count = sent.len();
    match sent.enter(ready.sends()) {
        Ok(()) => Ok(()),
        Err(memory) => {
            sent.cut_back(count);
            Err(memory)
        }
    }
}

/// The node takes the step, and what it sends is offered to the port; or neither happens.
fn finish<D: Disk, P: Port>(
    node: &mut Node<'_, D>,
    port: &mut P,
    number: u8,
    ready: PreparedStep,
) -> Result<(), NodeFault>
    requires present { IsReadyFor node.old.node ready }
    ensures taken { OnOk result (HasTaken D.Disk node.old node.new ready) }
    ensures offered { OnOk result (GoesOnBy
        (parcels_from number (datagrams_to (sends_in ready.step)))
        (P.offered port.old) (P.offered port.new)) }
    ensures refused { IfErr result (HasNotTaken D.Disk node.old node.new ready) }
    ensures silent { OnErr result (GoesOnBy [] (P.offered port.old) (P.offered port.new)) }
    ensures given { GoesOnBy [] (P.given port.old) (P.given port.new) }
    ensures calls { OnOk result (WasOffered P.does port.old
        (parcels_from number (datagrams_to (sends_in ready.step))) port.new) }
    ensures uncalled { OnErr result (port.new ≡ port.old) }
{
    let _node = node.member();
    let out = node.finish(ready)?;
    offer(node, port, number, &out.sends);
    Ok(())
}

/// Appends the event of the step, for which there is room, and returns a copy.
fn keep(events: &mut Vec<Event>, recorded: ReservedStep) -> Event
    requires { vec_len events.old < vec_capacity events.old }
    ensures kept { events.new.items ≡ events.old.items ++ recorded.kept ∷ [] }
    ensures answered { result ≡ recorded.answered }
{
    let ReservedStep {
        kept,
        answered,
        stop,
    } = recorded;
    drop(stop);
    events.push_reserved(kept);
    answered
}

/// Why the step was not taken. If the device failed, the stop during the step is appended.
fn stopped(
    events: &mut Vec<Event>,
    number: u8,
    recorded: ReservedStep,
    fault: NodeFault,
) -> TurnFault
    requires { vec_len events.old < vec_capacity events.old }
    ensures { StopsAs number recorded.stop events.old.items events.new.items fault result }
{
    let stop = stop_of(recorded);
    match fault {
        NodeFault::Log(fault) => log_failed(events, number, stop, fault),
        other => {
            drop(stop);
            told(other)
        }
    }
}

/// Why the step was not taken, if the log refused it.
fn log_failed(
    events: &mut Vec<Event>,
    number: u8,
    stop: Option<Event>,
    fault: LogFault,
) -> TurnFault
    requires { vec_len events.old < vec_capacity events.old }
    ensures { StopsAs number stop events.old.items events.new.items (NodeFault.Log fault) result }
{
    match fault {
        LogFault::Device => keep_stop(events, number, stop),
        other => {
            drop(stop);
            TurnFault::Node(NodeFault::Log(other))
        }
    }
}

/// Appends the stop during the step, for which there is room: the node went down. (A step without a
/// note doesn't use the device.)
fn keep_stop(events: &mut Vec<Event>, number: u8, stop: Option<Event>) -> TurnFault
    requires { vec_len events.old < vec_capacity events.old }
    ensures { KeepsStop number stop events.old.items events.new.items result }
{
    match stop {
        Some(stop) => {
            events.push_reserved(stop);
            TurnFault::Down(number)
        }
        None => TurnFault::Node(NodeFault::Log(LogFault::Device)),
    }
}

/// The stop during the step.
fn stop_of(recorded: ReservedStep) -> Option<Event>
    ensures { result ≡ recorded.stop }
{
    let ReservedStep {
        kept,
        answered,
        stop,
    } = recorded;
    drop(kept);
    drop(answered);
    stop
}

//! Stops, and restarts.
ghost use Rattle.std.specs.Prelude.{
  ◌≡◌,
  ◌<◌,
  ◌⊎◌,
  [],
  IfErr,
  IfOk,
  None,
  OnErr,
  OnOk,
  length,
  slice_set,
  true,
};
ghost use Rattle.protocol.specs.Events as events;
ghost use Rattle.protocol.specs.Events.{event_view};
ghost use Rattle.world.specs.Happening.{IsRefusedByNode, fault_before};
ghost use Rattle.node.specs.Step.{note_in};
ghost use Rattle.simulator.specs.Effects.{IsDoneBy, OnlyRestarts, StopDoes, note_left};
ghost use Rattle.simulator.specs.inside.Asking.{CanBeAsked, refused_by};
ghost use Rattle.simulator.specs.inside.Opening.{HasNode, IsNodeOf};
ghost use Rattle.simulator.specs.inside.Standing.{
  IsReached,
  IsStanding,
  disk_of,
  file_of,
  node_view,
  world_of,
};
ghost use Rattle.simulator.specs.inside.Stops.{
  HasNotStopped,
  IsNotStoppedWith,
  IsReady,
  IsStopped,
  IsStoppedBehind,
  IsStoppedTorn,
  IsStoppedWith,
  ReadiesStep,
  StandsReady,
  TookNone,
  TookStep,
};

use crate::digested_tree::DigestedTree;
use crate::event_effects::EventEffects;
use crate::event_kind::{host_fits, node_of};
use crate::node_steps::{finish_on_log, prepare_step};
use crate::opening::opened;
use crate::slot::{DownNode, Slot};
use crate::world_state::WorldState;
use ballots::Weights;
use faults::Memory;
use node::{Node, NodeFault, Parcels, PreparedStep};
use protocol::{Event, Left};
use stable_record::MemDisk;
use std::alloc::Global;
use std::mem;
use world::Datagrams;

/// The node at the place stops between two steps. Does not allocate.
pub(crate) fn stop(nodes: &mut Vec<Slot<'_>>, place: usize)
    requires { place < length nodes.old.items }
    ensures { IsStopped nodes.old.items nodes.new.items place }
{
    let down = nodes.remove(place).into_down();
    nodes.insert(place, Slot::Down(down)).unwrap();
}

/// The node at the place stops, and a torn write leaves these bytes after the closed gate.
fn stop_torn(nodes: &mut Vec<Slot<'_>>, place: usize, torn: &[u8]) -> Result<(), NodeFault>
    requires { place < length nodes.old.items }
    ensures stopped { OnOk result
        (IsStoppedTorn nodes.old.items nodes.new.items place torn.now) }
    ensures none { IfErr result (λ f. (nodes.new.items ≡ nodes.old.items)
        × (f ≡ NodeFault.Memory)) }
{
    let alloc: Global = *nodes.allocator();
    let disk = nodes[place].disk_with(alloc, torn)?;
    let DownNode { noted, .. } = nodes.remove(place).into_down();
    let down = DownNode {
        disk,
        noted,
        behind: torn.len(),
    };
    nodes.insert(place, Slot::Down(down)).unwrap();
    Ok(())
}

/// The step of a node that is up, on what the event asks, made ready.
fn prepare_in_slot(
    slot: &mut Slot<'_>,
    sent: &Datagrams,
    step: &Event,
) -> Result<PreparedStep, NodeFault>
    requires asks { CanBeAsked sent.now (event_view step.now) }
    requires up { (node_view slot.old).up ≡ true }
    ensures { ReadiesStep sent.now (event_view step.now) slot.old
        slot.new result }
{
    match slot {
        Slot::Up(node) => prepare_step(node, sent, step),
        Slot::Down(_) => unreachable!(),
    }
}

/// The node, which is up, takes the step. Its job is lost.
fn finish_in_slot(slot: &mut Slot<'_>, ready: PreparedStep) -> Result<Parcels, NodeFault>
    requires { IsReady slot.old ready }
    ensures took { OnOk result (TookStep slot.old ready slot.new) }
    ensures none { IfErr result (TookNone slot.old ready slot.new) }
{
    match slot {
        Slot::Up(node) => finish_on_log(node, ready),
        Slot::Down(_) => unreachable!(),
    }
}

/// The node at the place stops once the note of its step is on the log. Its messages are lost.
fn stop_behind(
    nodes: &mut Vec<Slot<'_>>,
    place: usize,
    ready: PreparedStep,
) -> Result<(), NodeFault>
    requires { StandsReady nodes.old.items place ready }
    ensures stopped { OnOk result
        (IsStoppedBehind nodes.old.items nodes.new.items place ready) }
    ensures none { IfErr result (HasNotStopped nodes.old.items nodes.new.items place ready) }
{
    finish_in_slot(&mut nodes[place], ready)?;
    stop(nodes, place);
    Ok(())
}

/// The node at the place stops inside the ready step, and this is left of its note.
fn stop_with(
    nodes: &mut Vec<Slot<'_>>,
    place: usize,
    ready: PreparedStep,
    left: &Left,
) -> Result<(), NodeFault>
    requires { StandsReady nodes.old.items place ready }
    ensures stopped { OnOk result
        (IsStoppedWith left.now nodes.old.items nodes.new.items place ready) }
    ensures none { IfErr result
        (IsNotStoppedWith left.now nodes.old.items nodes.new.items place ready) }
{
    match left {
        Left::None => {
            drop(ready);
            stop(nodes, place);
            Ok(())
        }
        Left::Torn(torn) => {
            drop(ready);
            stop_torn(nodes, place, torn.as_slice())
        }
        Left::Whole => stop_behind(nodes, place, ready),
    }
}

/// The same. Returns what the stop did.
fn stop_doing(
    nodes: &mut Vec<Slot<'_>>,
    place: usize,
    ready: PreparedStep,
    left: &Left,
) -> Result<EventEffects, NodeFault>
    requires { StandsReady nodes.old.items place ready }
    ensures stopped { OnOk result
        (IsStoppedWith left.now nodes.old.items nodes.new.items place ready) }
    ensures done { IfOk result (IsDoneBy (note_left left.now (note_in ready.step)) []) }
    ensures none { IfErr result
        (IsNotStoppedWith left.now nodes.old.items nodes.new.items place ready) }
{
    let done = EventEffects::of_stop(*nodes.allocator(), &ready, left);
    match stop_with(nodes, place, ready, left) {
        Ok(()) => Ok(done),
        Err(fault) => {
            drop(done);
            Err(fault)
        }
    }
}

/// Puts this node at the place, instead of the one there.
fn put<'a>(nodes: &mut Vec<Slot<'a>>, place: usize, slot: Slot<'a>)
    requires { place < length nodes.old.items }
    ensures { nodes.new.items ≡ slice_set nodes.old.items place slot.entry }
{
    let before = mem::replace(&mut nodes[place], slot);
    drop(before);
}

/// The node that is restored from a copy of its disk.
fn restarted<'a>(
    alloc: Global,
    slot: &Slot<'_>,
    tree: &DigestedTree<'a>,
    weights: &Weights,
    me: u8,
) -> Result<Node<'a, MemDisk>, Memory>
    requires member { me < length weights.now }
    requires node { HasNode tree.now weights.now me (file_of (disk_of slot.now)) }
    ensures { IfOk result (IsNodeOf tree.now weights.now me
        (file_of (disk_of slot.now))) }
{
    let disk = slot.disk_with(alloc, &[])?;
    opened(alloc, disk, tree, weights, me)
}

impl<'a> WorldState<'a> {
    /// The node of the step stops inside it, and this is left of its note. Nothing is sent.
    pub(crate) fn stop_in(&mut self, step: &Event, left: &Left) -> Result<EventEffects, NodeFault>
        requires standing { IsStanding self.old }
        requires reached { IsReached (world_of self.old) }
        requires may { fault_before (world_of self.old)
            (events.StopIn (event_view step.now) left.now) ≡ None }
        ensures does { IfOk result (StopDoes (world_of self.old) (event_view step.now) left.now
            (world_of self.new)) }
        ensures same { OnErr result (world_of self.new ≡ world_of self.old) }
        ensures refused { IfErr result (λ f. (f ≡ NodeFault.Memory)
            ⊎ IsRefusedByNode (world_of self.old) (events.StopIn (event_view step.now) left.now)
            (refused_by f)) }
        ensures standing { IsStanding self.new }
    {
        host_fits(step);
        let place = node_of(step) as usize;
        match prepare_in_slot(&mut self.nodes[place], &self.tables.sent, step) {
            Ok(ready) => stop_doing(&mut self.nodes, place, ready, left),
            Err(fault) => Err(fault),
        }
    }

    /// The node starts again, in the state that its notes restore. Until it is up, its disk is
    /// unchanged.
    pub(crate) fn restart(&mut self, me: u8) -> Result<EventEffects, NodeFault>
        requires standing { IsStanding self.old }
        requires reached { IsReached (world_of self.old) }
        requires may { fault_before (world_of self.old) (events.Restart me) ≡ None }
        ensures does { IfOk result (OnlyRestarts (world_of self.old) me (world_of self.new)) }
        ensures same { OnErr result (world_of self.new ≡ world_of self.old) }
        ensures refused { IfErr result (λ f. f ≡ NodeFault.Memory) }
        ensures standing { IsStanding self.new }
    {
        let alloc: Global = *self.nodes.allocator();
        match restarted(
            alloc,
            &self.nodes[me as usize],
            &self.tree,
            &self.weights,
            me,
        ) {
            Ok(node) => {
                put(&mut self.nodes, me as usize, Slot::Up(node));
                Ok(EventEffects::nothing(alloc))
            }
            Err(Memory) => Err(NodeFault::Memory),
        }
    }
}

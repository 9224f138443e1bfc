//! The step of one node on what an event asks, and its entries in the world's tables.
ghost use Rattle.std.specs.Prelude.{◌≡◌, ◌⊎◌, IfErr, IfOk, OnErr, OnOk};
ghost use Rattle.protocol.specs.Events.{event_view};
ghost use Rattle.faults.specs.Answers.{map_ok};
ghost use Rattle.node.specs.OnLog.{IsOnLog, LacksRoom};
ghost use Rattle.node.specs.Parcels.{datagrams_to};
ghost use Rattle.node.specs.Step.{IsReadyFor, note_in, sends_in, taken_by};
ghost use Rattle.protocol.specs.declared.input.Input.TheVariants as inputs;
ghost use Rattle.stable_record.specs.InMemory.{mem_history};
ghost use Rattle.world.specs.Sent.{with_sends};
ghost use Rattle.simulator.specs.inside.Asking.{CanBeAsked, IsReadied, refused_by};
ghost use Rattle.simulator.specs.inside.Deciding.{decision};
ghost use Rattle.simulator.specs.inside.NodeSteps.{
  HasFinished,
  RefusesStep,
  TakesStep,
  with_decision,
};
ghost use Rattle.simulator.specs.inside.Stops.{HasTakenOnLog, StaysOnLog};
ghost use Rattle.simulator.specs.inside.Tables.{AreListed, AreSame, HasGrown, list_in};

use crate::event_effects::{EventEffects, message_kind, note_kind};
use crate::tables::Tables;
use crate::votes::decided;
use ballots::Weights;
use faults::Memory;
use node::{Effects, Node, NodeFault, Parcels, PreparedStep};
use pkgpath::PkgPath;
use protocol::{Event, Input, Packages};
use stable_record::{LogFault, MemDisk};
use std::alloc::Global;
use world::{Datagrams, WorldFault};

/// The node's step on what the event asks. The tables are extended before the step is taken, and
/// cut back if it is not.
pub(crate) fn step_node(
    weights: &Weights,
    tables: &mut Tables,
    node: &mut Node<'_, MemDisk>,
    event: &Event,
) -> Result<EventEffects, NodeFault>
    requires asks { CanBeAsked tables.old.sent (event_view event.now) }
    requires on_log { IsOnLog mem_history node.old }
    requires listed { AreListed tables.old }
    ensures taken { IfOk result (TakesStep weights.now (event_view event.now) tables.old node.old
        tables.new node.new) }
    ensures on_log { IsOnLog mem_history node.new }
    ensures listed { AreListed tables.new }
    ensures same { OnErr result (AreSame tables.old tables.new) }
    ensures refused { IfErr result (RefusesStep tables.old.sent (event_view event.now)
        node.old node.new) }
{
    let ready = prepare_step(node, &tables.sent, event)?;
    let lengths = tables.lengths();
    match finish_step(weights, tables, node, ready) {
        Ok(done) => Ok(done),
        Err(fault) => {
            tables.cut_back(lengths);
            Err(fault)
        }
    }
}

/// Enters what the step sends and decides, and takes the step.
fn finish_step(
    weights: &Weights,
    tables: &mut Tables,
    node: &mut Node<'_, MemDisk>,
    ready: PreparedStep,
) -> Result<EventEffects, NodeFault>
    requires present { IsReadyFor node.old.node ready }
    requires on_log { IsOnLog mem_history node.old }
    requires listed { AreListed tables.old }
    ensures taken { IfOk result (HasFinished weights.now tables.old node.old ready tables.new
        node.new) }
    ensures on_log { IsOnLog mem_history node.new }
    ensures listed { OnOk result (AreListed tables.new) }
    ensures grown { HasGrown tables.old tables.new }
    ensures same { OnErr result (node.new.node ≡ node.old.node) }
    ensures refused { IfErr result (λ f. (f ≡ NodeFault.Memory)
        ⊎ ((f ≡ NodeFault.Log LogFault.Full) × LacksRoom node.old.log (note_in ready.step))) }
{
    let Ok(()) = enter_step(weights, tables, node, &ready) else {
        drop(ready);
        return Err(NodeFault::Memory);
    };
    let noted = note_kind(&ready);
    let message = message_kind(&ready);
    let sends = finish_on_log(node, ready)?;
    Ok(EventEffects {
        noted,
        message,
        sends,
    })
}

/// Enters what the step sends and decides.
fn enter_step(
    weights: &Weights,
    tables: &mut Tables,
    node: &Node<'_, MemDisk>,
    ready: &PreparedStep,
) -> Result<(), Memory>
    requires listed { AreListed tables.old }
    ensures sent { OnOk result (tables.new.sent
        ≡ with_sends tables.old.sent (sends_in ready.now.step)) }
    ensures list { OnOk result (list_in tables.new ≡ with_decision (list_in tables.old)
        (decision weights.now tables.old.sent node.now.node.member ready.now.step)) }
    ensures listed { OnOk result (AreListed tables.new) }
    ensures grown { HasGrown tables.old tables.new }
{
    let alloc: Global = *tables.agreed.allocator();
    if let Some(build) = decided(alloc, weights, &tables.sent, node, ready)? {
        tables.append(build)?;
    }
    tables.sent.enter(ready.sends())
}

/// Makes the node's step on what the event asks ready. The event has to be a step, and the datagram
/// that it delivers has to have been sent.
pub(crate) fn prepare_step(
    node: &mut Node<'_, MemDisk>,
    sent: &Datagrams,
    event: &Event,
) -> Result<PreparedStep, NodeFault>
    requires { CanBeAsked sent.now (event_view event.now) }
    ensures step { IsReadied sent.now (event_view event.now)
        node.old.node node.new.node (map_ok (taken_by node.old.node) result) }
    ensures ready { IfOk result (IsReadyFor node.new.node) }
    ensures log { node.new.log ≡ node.old.log }
{
    match event {
        Event::Claim {
            node: _,
            path,
            host,
            above,
        } => node.prepare(claim(path, *host, *above)?),
        Event::Built {
            node: _,
            path,
            packages,
        } => node.prepare(built(path, packages)?),
        Event::Failed { node: _, path } => node.prepare(failed(path)?),
        Event::Ask { node: _, path } => node.prepare(ask(path)?),
        Event::Deliver { datagram, node: _ } => match sent.get(*datagram as usize) {
            Some(text) => node.prepare_datagram(text),
            None => unreachable!(),
        },
        _ => node.prepare(Input::Nudge),
    }
}

/// The node takes the ready step. Returns what it sends. Its job is dropped.
pub(crate) fn finish_on_log(
    node: &mut Node<'_, MemDisk>,
    ready: PreparedStep,
) -> Result<Parcels, NodeFault>
    requires present { IsReadyFor node.old.node ready }
    requires on_log { IsOnLog mem_history node.old }
    ensures taken { OnOk result (HasTakenOnLog node.old ready node.new) }
    ensures sends { IfOk result (λ sends. sends ≡ datagrams_to (sends_in ready.step)) }
    ensures none { IfErr result (StaysOnLog node.old ready node.new) }
{
    let effects = node.finish(ready)?;
    let Effects { sends, job } = effects;
    drop(job);
    Ok(sends)
}

/// The world's fault if the node refuses with this one.
pub(crate) fn refused(fault: NodeFault) -> WorldFault
    ensures { result ≡ refused_by fault }
{
    match fault {
        NodeFault::Memory => WorldFault::Memory,
        other => WorldFault::Node(other),
    }
}

/// A claim input, with a copy of the path.
fn claim(path: &PkgPath, host: u16, above: u64) -> Result<Input, Memory>
    ensures { IfOk result (λ input. input ≡ inputs.Claim path.now host above) }
{
    let path = path.copy()?;
    Ok(Input::Claim { path, host, above })
}

/// An input for a finished build, with copies of the path and the packages.
fn built(path: &PkgPath, packages: &Packages) -> Result<Input, Memory>
    ensures { IfOk result (λ input. input ≡ inputs.Built path.now packages.now) }
{
    let path = path.copy()?;
    let packages = packages.copy()?;
    Ok(Input::Built { path, packages })
}

/// An input for a failed build, with a copy of the path.
fn failed(path: &PkgPath) -> Result<Input, Memory>
    ensures { IfOk result (λ input. input ≡ inputs.Failed path.now) }
{
    let path = path.copy()?;
    Ok(Input::Failed { path })
}

/// An input that asks for the agreed build, with a copy of the path.
fn ask(path: &PkgPath) -> Result<Input, Memory>
    ensures { IfOk result (λ input. input ≡ inputs.Ask path.now) }
{
    let path = path.copy()?;
    Ok(Input::Ask { path })
}

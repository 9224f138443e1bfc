//! The events of a turn.
ghost use Rattle.std.specs.Prelude.{◌≡◌, IfOk, Some, is_some, option_map, position, true};
ghost use Rattle.std.specs.Str.{bytes_eq};
ghost use Rattle.turn_rules.specs.Acts.{asked_by};
ghost use Rattle.protocol.specs.Events.{Built, Claim, Deliver, Failed, Ask, event_view};
ghost use Rattle.node.specs.Step.{note_in};
ghost use Rattle.cluster_turns.specs.Events.{event_of, event_of_input};
ghost use Rattle.cluster_turns.specs.Recording.{IsRecorded, IsStopOf};

use faults::Memory;
use member::Input;
use node::PreparedStep;
use pkgpath::PkgPath;
use protocol::{Event, Left, Packages};
use std::alloc::Global;
use turn_rules::Act;
use world::{DatagramBytes, Datagrams};

/// The events of a step: one to keep, one to return, and that of a stop during the step if the step
/// has a note.
#[derive(Drop)]
pub struct ReservedStep {
    pub kept: Event,
    pub answered: Event,
    pub stop: Option<Event>,
}

/// The events of the node's step.
pub fn events_of(
    alloc: Global,
    sent: &Datagrams,
    node: u8,
    act: &Act,
    ready: &PreparedStep,
) -> Result<ReservedStep, Memory>
    requires event { is_some (event_of sent.now (node, asked_by act.now)) ≡ true }
    ensures { IfOk result (IsRecorded sent.now (node, asked_by act.now) ready.now) }
{
    let kept = event_of(alloc, sent, node, act)?;
    let answered = kept.copy(alloc)?;
    let stop = stop_of(alloc, &kept, ready)?;
    Ok(ReservedStep {
        kept,
        answered,
        stop,
    })
}

/// The event of a stop during the step, if it has a note. (A step without a note doesn't use the
/// device.)
fn stop_of(alloc: Global, event: &Event, ready: &PreparedStep) -> Result<Option<Event>, Memory>
    ensures { IfOk result (IsStopOf (note_in ready.now.step) (event_view event.now)) }
{
    if !has_note(ready) {
        return Ok(None);
    }
    let input = event.copy(alloc)?;
    let stop = Event::stop_in(alloc, input, Left::None)?;
    Ok(Some(stop))
}

/// Whether the step has a note.
fn has_note(ready: &PreparedStep) -> bool
    ensures { result ≡ is_some (note_in ready.now.step) }
{
    match ready.step() {
        Some(step) => step.note().is_some(),
        None => false,
    }
}

/// The event of the node's act.
fn event_of(alloc: Global, sent: &Datagrams, node: u8, act: &Act) -> Result<Event, Memory>
    requires { is_some (event_of sent.now (node, asked_by act.now)) ≡ true }
    ensures { IfOk result (λ event.
        event_of sent.now (node, asked_by act.now) ≡ Some (event_view event)) }
{
    match act {
        Act::Own(input) => event_of_input(node, input),
        Act::Datagram(bytes) => delivery(alloc, sent, node, bytes.as_slice()),
    }
}

/// The event that the datagram is delivered to the node.
fn delivery(alloc: Global, sent: &Datagrams, node: u8, bytes: &[u8]) -> Result<Event, Memory>
    requires { is_some (option_map (λ d. Deliver d node)
        (position (bytes_eq bytes.now) sent.now)) ≡ true }
    ensures { IfOk result (λ event. option_map (λ d. Deliver d node)
        (position (bytes_eq bytes.now) sent.now) ≡ Some (event_view event)) }
{
    let bytes = DatagramBytes::new(bytes.to_vec(alloc)?);
    match sent.number_of(&bytes) {
        Some(number) => Ok(Event::Deliver {
            datagram: number as u64,
            node,
        }),
        None => unreachable!(),
    }
}

/// The event of the node's own input.
fn event_of_input(node: u8, input: &Input) -> Result<Event, Memory>
    requires { is_some (event_of_input node input.now) ≡ true }
    ensures { IfOk result (λ event. event_of_input node input.now ≡ Some (event_view event)) }
{
    match input {
        Input::Claim { path, host, above } => claim(node, path, *host, *above),
        Input::Built { path, packages } => built(node, path, packages),
        Input::Failed { path } => failed(node, path),
        Input::Nudge => Ok(Event::Nudge { node }),
        Input::Ask { path } => question(node, path),
        Input::Message(_) => unreachable!(),
    }
}

/// The event of a claim, with a copy of the path.
fn claim(node: u8, path: &PkgPath, host: u16, above: u64) -> Result<Event, Memory>
    ensures { IfOk result (λ event. event_view event ≡ Claim node path.now host above) }
{
    let path = path.copy()?;
    Ok(Event::Claim {
        node,
        path,
        host,
        above,
    })
}

/// The event of a build, with copies of the path and the files.
fn built(node: u8, path: &PkgPath, packages: &Packages) -> Result<Event, Memory>
    ensures { IfOk result (λ event. event_view event ≡ Built node path.now packages.now) }
{
    let path = path.copy()?;
    let packages = packages.copy()?;
    Ok(Event::Built {
        node,
        path,
        packages,
    })
}

/// The event of a failed build, with a copy of the path.
fn failed(node: u8, path: &PkgPath) -> Result<Event, Memory>
    ensures { IfOk result (λ event. event_view event ≡ Failed node path.now) }
{
    let path = path.copy()?;
    Ok(Event::Failed { node, path })
}

/// The event of a question, with a copy of the path.
fn question(node: u8, path: &PkgPath) -> Result<Event, Memory>
    ensures { IfOk result (λ event. event_view event ≡ Ask node path.now) }
{
    let path = path.copy()?;
    Ok(Event::Ask { node, path })
}

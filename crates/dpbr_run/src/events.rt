//! The result of `dpbr run --events`: the lines of the events come first.
ghost use Rattle.std.specs.Prelude.{◌≡◌, ◌⊎◌, ◌++◌, IfErr, IfOk, None, Ok, OnOk, map};
ghost use Rattle.dpbr_run.specs.Events.{HasEventLines};
ghost use Rattle.dpbr_run.specs.Run.{IsOutcome, IsResultOf, IsRunWithEvents, RefusesEvent};
ghost use Rattle.dpbr_run.specs.shared.EventLines.{TakesTelling, WhyStopped};
ghost use Rattle.faults.specs.Bytes.{Text};
ghost use Rattle.program_io.specs.Refusals.{memory_refusal};
ghost use Rattle.protocol.specs.Events.{event_view};
ghost use Rattle.simulator.specs.History.{IsHistory, IsRunFault, taken};
ghost use Rattle.traces.specs.Faults.{trace_view};
ghost use Rattle.traces.specs.Trace.{trace_of};
ghost use Rattle.world.specs.World.{start};

use crate::lines::{put_line, sent_text};
use crate::text::{run_of_events, run_text};
use ballots::Weights;
use faults::Memory;
use listing::Tree;
use program_io::Refusal;
use protocol::Event;
use simulator::{RunFault, World, node_of};
use std::alloc::Global;
use traces::Trace;
use world::WorldFault;

/// What is printed after a parsed trace was run, with a line for each event if asked for.
///
/// # Errors
///
/// Out of memory; that of its first refused event.
pub(crate) fn result_of(
    alloc: Global,
    tree: &Tree,
    trace: Trace,
    has_events: bool,
) -> Result<Vec<u8>, Refusal>
    ensures ok { (read : Text) → trace_of read ≡ Ok (trace_view trace)
        → IfOk result (λ text. IsResultOf has_events tree.now read text.items) }
    ensures refused { (read : Text) → trace_of read ≡ Ok (trace_view trace)
        → IfErr result (λ r. (r ≡ memory_refusal) ⊎ RefusesEvent tree.now read r) }
{
    if has_events {
        run_with_events(alloc, tree, trace)
    } else {
        run_of_events(alloc, tree, trace)
    }
}

/// What is printed after a parsed trace was run, with a line for each event.
fn run_with_events(alloc: Global, tree: &Tree, trace: Trace) -> Result<Vec<u8>, Refusal>
    ensures ok { (read : Text) → trace_of read ≡ Ok (trace_view trace)
        → IfOk result (λ text. IsRunWithEvents tree.now read text.items) }
    ensures refused { (read : Text) → trace_of read ≡ Ok (trace_view trace)
        → IfErr result (λ r. (r ≡ memory_refusal) ⊎ RefusesEvent tree.now read r) }
{
    let Trace { weights, events } = trace;
    match run_telling(alloc, tree, &weights, events.as_slice()) {
        Ok(told) => {
            let (world, lines) = told;
            let text = with_outcome(lines, world)?;
            Ok(text)
        }
        Err(fault) => Err(Refusal::of(&fault)),
    }
}

/// The lines of the events, and what is printed of the world after them.
fn with_outcome(lines: Vec<u8>, world: World<'_>) -> Result<Vec<u8>, Memory>
    ensures { IfOk result (λ text. (rest : Text) × IsOutcome world.entry.world rest
        × (text.items ≡ lines.items ++ rest)) }
{
    let mut text = lines;
    let alloc: Global = *text.allocator();
    let rest = run_text(alloc, world)?;
    text.extend_from_slice(rest.as_slice())?;
    Ok(text)
}

/// The world after the events, and their lines.
fn run_telling<'a>(
    alloc: Global,
    tree: &'a Tree,
    weights: &Weights,
    events: &[Event],
) -> Result<(World<'a>, Vec<u8>), RunFault>
    ensures tree { IfOk result (λ r. r.0.world.division.tree ≡ tree.entry.now) }
    ensures weights { IfOk result (λ r. r.0.world.weights ≡ weights.now) }
    ensures kept { IfOk result (λ r. taken r.0 ≡ map event_view events.now) }
    ensures history { IfOk result (λ r. IsHistory r.0) }
    ensures lines { IfOk result (λ r. HasEventLines
        (start r.0.world.division r.0.world.weights) 1 (taken r.0) r.0.world r.1.items) }
    ensures refused { IfErr result (λ f. IsRunFault tree.entry.now weights.now
        (map event_view events.now) f.event f.fault) }
{
    let Ok(mut world) = World::new(alloc, tree, weights) else {
        return Err(RunFault {
            event: None,
            fault: WorldFault::Memory,
        });
    };
    let mut text = Vec::new(alloc);
    'events: for event in events {
        if let Err(fault) = take_telling(&mut text, &mut world, event) {
            drop(text);
            drop(world);
            return Err(fault);
        }
    }
    Ok((world, text))
}

/// Takes the event and appends its line.
///
/// # Errors
///
/// Out of memory; that of the event, which is refused.
fn take_telling(text: &mut Vec<u8>, world: &mut World<'_>, event: &Event) -> Result<(), RunFault>
    ensures taken { OnOk result (TakesTelling world.old (event_view event.now) world.new
        text.old.items text.new.items) }
    ensures refused { IfErr result (WhyStopped world.old (event_view event.now)) }
{
    let alloc: Global = *text.allocator();
    let number = world.events().len() as u64 + 1;
    let node = node_of(event);
    let count = world.agreed().len();
    match world.step(event) {
        Ok(done) => {
            let noted = done.noted;
            let Ok(sent) = sent_text(alloc, world, &done) else {
                return Err(RunFault {
                    event: None,
                    fault: WorldFault::Memory,
                });
            };
            let (_, packages) = world.agreed().split_at(count);
            let Ok(()) = put_line(text, number, node, noted, sent.as_slice(), packages) else {
                return Err(RunFault {
                    event: None,
                    fault: WorldFault::Memory,
                });
            };
            Ok(())
        }
        Err(fault) => Err(RunFault {
            event: Some(number),
            fault,
        }),
    }
}

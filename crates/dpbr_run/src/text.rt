//! The text of `dpbr run`.
ghost use Rattle.std.specs.Prelude.{◌≡◌, ◌⊎◌, IfErr, IfOk, Ok, length, string_bytes};
ghost use Rattle.dpbr_run.specs.Run.{IsNodeLine, IsOutcome, IsRunOf, RefusesEvent, RefusesTrace};
ghost use Rattle.dpbr_run.specs.shared.NodeLines.{HasNodeLines};
ghost use Rattle.faults.specs.Bytes.{Text};
ghost use Rattle.program_io.specs.Refusals.{memory_refusal};
ghost use Rattle.traces.specs.Faults.{trace_view};
ghost use Rattle.traces.specs.Trace.{trace_of};

use faults::Memory;
use input_files::trace_of_text;
use listing::Tree;
use package_lists::put_list;
use program_io::{Refusal, node_text};
use simulator::{World, run};
use std::alloc::{AllocError, Global};
use traces::Trace;

/// What is printed after the trace was run: for each node a line with the number of packages with
/// each letter, or that it is down; and then the agreed list.
///
/// # Errors
///
/// Out of memory; the trace's fault; that of its first refused event. In this order.
pub fn run_of_trace(alloc: Global, tree: &Tree, trace: &[u8]) -> Result<Vec<u8>, Refusal>
    ensures ok { IfOk result (λ text. IsRunOf tree.now trace.now text.items) }
    ensures refused { IfErr result
        (λ r. (r ≡ memory_refusal) ⊎ RefusesTrace trace.now tree.now r) }
{
    let trace = trace_of_text(alloc, trace)?;
    run_of_events(alloc, tree, trace)
}

/// What is printed after a parsed trace was run.
///
/// # Errors
///
/// Out of memory; that of its first refused event.
pub fn run_of_events(alloc: Global, tree: &Tree, trace: Trace) -> Result<Vec<u8>, Refusal>
    ensures ok { (read : Text) → trace_of read ≡ Ok (trace_view trace)
        → IfOk result (λ text. IsRunOf tree.now read text.items) }
    ensures refused { (read : Text) → trace_of read ≡ Ok (trace_view trace)
        → IfErr result (λ r. (r ≡ memory_refusal) ⊎ RefusesEvent tree.now read r) }
{
    let Trace { weights, events } = trace;
    match run(alloc, tree, &weights, events) {
        Ok(world) => {
            let text = run_text(alloc, world)?;
            Ok(text)
        }
        Err(fault) => Err(Refusal::of(&fault)),
    }
}

/// What is printed of a world. The world is dropped before its list is written, so that they don't
/// use memory at the same time.
pub fn run_text(alloc: Global, world: World<'_>) -> Result<Vec<u8>, Memory>
    ensures { IfOk result (λ text. IsOutcome world.entry.world text.items) }
{
    let lines = nodes_text(alloc, &world);
    let agreed = world.into_agreed();
    let mut text = lines?;
    put_list(&mut text, agreed.as_slice())?;
    Ok(text)
}

/// The lines of the nodes, by number.
fn nodes_text(alloc: Global, world: &World<'_>) -> Result<Vec<u8>, Memory>
    ensures { IfOk result (λ text.
        HasNodeLines world.now.world (length world.now.world.nodes) text.items) }
{
    let mut text = Vec::new(alloc);
    for node in 0..world.len() {
        let line = line_of(alloc, world, node)?;
        text.extend_from_slice(line.as_bytes())?;
    }
    Ok(text)
}

/// The line of the node with this number.
fn line_of(alloc: Global, world: &World<'_>, node: u8) -> Result<String, AllocError>
    ensures { IfOk result (λ text. IsNodeLine world.now.world node (string_bytes text)) }
{
    if world.is_up(node) {
        node_text(alloc, node, Some(world.counts(node)))
    } else {
        node_text(alloc, node, None)
    }
}

//! The text of `dpbr wayon`.
ghost use Rattle.std.specs.Prelude.{◌≡◌, ◌⊎◌, ◌++◌, ◌∷◌, [], All, IfErr, IfOk, Ok, map};
ghost use Rattle.ballots.specs.Weights.{AreWeights};
ghost use Rattle.dpbr_wayon.specs.Refusals.{RefusesTaken, RefusesWay};
ghost use Rattle.dpbr_wayon.specs.WayOn.{IsAfter, IsWritten};
ghost use Rattle.protocol.specs.Events.{event_view};
ghost use Rattle.faults.specs.Bytes.{line_feed};
ghost use Rattle.program_io.specs.Refusals.{memory_refusal};
ghost use Rattle.traces.specs.Again.{IsTextEvent};
ghost use Rattle.traces.specs.Faults.{trace_view};
ghost use Rattle.traces.specs.Trace.{trace_of};
ghost use Rattle.traces.specs.Written.{trace_text};

use crate::handed::handed_over;
use crate::writable::can_be_written;
use ballots::Weights;
use faults::Memory;
use listing::Tree;
use pkgpath::PkgPath;
use program_io::Refusal;
use protocol::{Event, Packages};
use std::alloc::Global;
use traces::{Trace, write_trace};
use ways_on::{World, run, way_on};

/// What is printed after the trace was run: the trace of its events, followed by those of a way,
/// and a line feed. The way leads to a world where the node holds the unit that the path names, and
/// uses this host and these files.
///
/// # Errors
///
/// Out of memory; that of the trace's first refused event; why no way is found. In this order.
pub fn way_of_events(
    alloc: Global,
    tree: &Tree,
    trace: Trace,
    node: u8,
    path: &PkgPath,
    host: u16,
    builds: &Packages,
) -> Result<Vec<u8>, Refusal>
    ensures ok { IfOk result (λ text.
        IsAfter tree.now (trace_view trace) node path.now host builds.now text.items) }
    ensures refused { IfErr result (λ r. (r ≡ memory_refusal)
        ⊎ RefusesTaken tree.now (trace_view trace) node path.now host builds.now r) }
{
    let Trace { weights, events } = trace;
    match run(alloc, tree, &weights, events) {
        Ok(world) => {
            let packages = handed_over(alloc, tree, world.units(), path, builds)?;
            way_text(alloc, world, weights, node, path, host, packages)
        }
        Err(fault) => Err(Refusal::of(&fault)),
    }
}

/// What is printed of a way in the world that the trace led to. The way is computed before the
/// world is consumed for its events.
fn way_text(
    alloc: Global,
    world: World<'_>,
    weights: Weights,
    node: u8,
    path: &PkgPath,
    host: u16,
    packages: Packages,
) -> Result<Vec<u8>, Refusal>
    requires { weights ≡ world.world.weights }
    ensures ok { IfOk result (λ text.
        IsWritten world.entry weights node path.now host packages text.items) }
    ensures refused { IfErr result (λ r. (r ≡ memory_refusal)
        ⊎ RefusesWay world.entry.world node path.now host packages r) }
{
    match way_on(alloc, &world, node, path, host, packages) {
        Ok(way) => {
            can_be_written(world.events());
            can_be_written(way.as_slice());
            let text = written(alloc, weights, world.into_events(), way)?;
            Ok(text)
        }
        Err(fault) => Err(Refusal::of(&fault)),
    }
}

/// The trace of these events and then those of a way, and a line feed.
fn written(
    alloc: Global,
    weights: Weights,
    mut events: Vec<Event>,
    mut way: Vec<Event>,
) -> Result<Vec<u8>, Memory>
    ensures text { IfOk result (λ text. text.items ≡ trace_text (record {
      weights = weights;
      events = map event_view events.items ++ map event_view way.items;
    }) ++ line_feed ∷ []) }
    ensures again { IfOk result (λ text. AreWeights weights
        → All IsTextEvent (map event_view events.items ++ map event_view way.items)
        → trace_of text.items ≡ Ok (record {
          weights = weights;
          events = map event_view events.items ++ map event_view way.items;
        })) }
{
    events.append(&mut way)?;
    let trace = Trace { weights, events };
    let mut text = Vec::new(alloc);
    write_trace(&trace, &mut text)?;
    text.push(b'\n')?;
    Ok(text)
}

//! Traces of runs and BUILDS, as JSON.
#![tactic(auto)]

ghost use Rattle.std.specs.Prelude.{◌≡◌, ◌++◌, ◌⊎◌, [], ◌∷◌, None, Some, Ok, IfErr, IfOk, OnErr, OnOk};
ghost use Rattle.faults.specs.Bytes.{line_feed};
ghost use Rattle.traces.specs.Again.{IsTextTrace};
ghost use Rattle.traces.specs.Builds.{builds_of};
ghost use Rattle.traces.specs.Faults.{IsTraceFault, number_of, place_of, trace_view};
ghost use Rattle.traces.specs.Trace.{trace_of};
ghost use Rattle.traces.specs.declared.TraceFault.TheVariants.{Memory as out_of_memory};
ghost use Rattle.traces.specs.Written.{trace_text};

use ballots::Weights;
use faults::{Fault, Memory, WantOfMemory};
use protocol::{Event, Packages};
use std::alloc::Global;
use thiserror::Error;

mod builds;
mod digits;
mod event;
mod fields;
mod files;
mod laws;
mod listed;
mod read_error;
mod reading;
mod stream;
mod tree_event;
mod writing;

pub use crate::laws::{line_feeds_change_nothing, texts_are_read_again};

/// The weight of each member, and the events of a run, in order.
#[derive(Drop)]
pub struct Trace {
    pub weights: Weights,
    pub events: Vec<Event>,
}

/// Why a text is not a trace, or not BUILDS. The number is that of an event, counted from 1, or 0
/// outside the events.
#[derive(Clone, Copy, Debug, PartialEq, Eq, Error)]
pub enum TraceFault {
    #[error("out of memory")]
    Memory,
    #[error("the trace is malformed at event {0}")]
    BadTrace(u64),
}

impl<E: WantOfMemory> From<E> for TraceFault {
    ghost from_gives = { λ _ e. e ≡ out_of_memory };

    fn from(_e: E) -> TraceFault {
        TraceFault::Memory
    }
}

impl Fault for TraceFault {
    ghost number_of = { number_of };

    ghost place_of = { place_of };

    fn number(&self) -> u32 {
        match self {
            TraceFault::Memory => 1,
            TraceFault::BadTrace(_) => 1305,
        }
    }

    fn place(&self) -> Option<u64> {
        match self {
            TraceFault::Memory => None,
            TraceFault::BadTrace(place) => Some(*place),
        }
    }
}

/// The trace that the text encodes. What is outside the events is tested first, and then the events
/// in order.
///
/// # Errors
///
/// `BadTrace` with 0 if the text is not a JSON value with the right members, or with the number of
/// the first bad event.
pub fn read_trace(alloc: Global, text: &[u8]) -> Result<Trace, TraceFault>
    ensures ok { IfOk result (λ trace. trace_of text.now ≡ Ok (trace_view trace)) }
    ensures err { IfErr result (IsTraceFault text.now) }
{
    let (weights, listed) = reading::parts(alloc, text)?;
    reading::trace(weights, listed)
}

/// Appends the trace's text, which has no spaces, or nothing if memory runs out. In names of files,
/// bytes that are not UTF-8 are replaced by the replacement character. If there are no such bytes,
/// and stops are inside steps, the text is parsed as the trace, with a line feed after it or
/// without.
pub fn write_trace(trace: &Trace, out: &mut Vec<u8>) -> Result<(), Memory>
    ensures ok { OnOk result
        (out.new.items ≡ out.old.items ++ trace_text (trace_view trace.now)) }
    ensures again { OnOk result (IsTextTrace (trace_view trace.now)
        → trace_of (trace_text (trace_view trace.now)) ≡ Ok (trace_view trace.now)) }
    ensures line { OnOk result (IsTextTrace (trace_view trace.now)
        → trace_of (trace_text (trace_view trace.now) ++ line_feed ∷ [])
        ≡ Ok (trace_view trace.now)) }
    ensures err { OnErr result (out.new.items ≡ out.old.items) }
{
    let alloc: Global = *out.allocator();
    let value = writing::value(alloc, trace)?;
    let text = value.to_string(alloc)?;
    out.extend_from_slice(text.as_str().as_bytes())?;
    Ok(())
}

/// Paths, without repetition, with their files: an object whose keys are package paths.
///
/// # Errors
///
/// `BadTrace` with 0 if the text is malformed, or if two of its keys are the same path.
pub fn read_builds(alloc: Global, text: &[u8]) -> Result<Packages, TraceFault>
    ensures ok { IfOk result (λ builds. builds_of text.now ≡ Some builds) }
    ensures err { IfErr result (λ e. (e ≡ TraceFault.Memory)
        ⊎ ((e ≡ TraceFault.BadTrace 0) × (builds_of text.now ≡ None))) }
{
    let value = reading::value(alloc, text)?;
    let packages = builds::packages(alloc, &value)?;
    Ok(packages)
}

//! The trace in a text.
ghost use Rattle.std.specs.Prelude.{◌≡◌, IfErr, IfOk, Ok};
ghost use Rattle.input_files.specs.Traces.{IsSpelledAt, RefusesText, RefusesTraceAt};
ghost use Rattle.traces.specs.Faults.{trace_view};
ghost use Rattle.traces.specs.Trace.{trace_of};

use program_io::{NamedTexts, Refusal};
use std::alloc::Global;
use traces::{Trace, read_trace};

/// The trace in the text.
pub fn trace_of_text(alloc: Global, trace: &[u8]) -> Result<Trace, Refusal>
    ensures ok { IfOk result (λ read. trace_of trace.now ≡ Ok (trace_view read)) }
    ensures refused { IfErr result (RefusesText trace.now) }
{
    match read_trace(alloc, trace) {
        Ok(read) => Ok(read),
        Err(fault) => Err(Refusal::of(&fault)),
    }
}

/// The trace in the text with this name. The text is dropped before the trace is run.
///
/// # Errors
///
/// The system's refusal, and then the trace's fault.
pub fn trace_of_name<T: NamedTexts>(texts: &T, alloc: Global, trace: &str) -> Result<Trace, Refusal>
    ensures ok { IfOk result
        (λ read. IsSpelledAt (T.gave texts.now) trace.now (trace_view read)) }
    ensures refused { IfErr result (RefusesTraceAt (T.gave texts.now) trace.now) }
{
    let text = texts.read(trace)?;
    trace_of_text(alloc, text.as_slice())
}

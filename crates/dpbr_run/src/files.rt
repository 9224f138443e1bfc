//! The result of `dpbr run` for its files.
ghost use Rattle.std.specs.Prelude.{◌≡◌, IfErr, IfOk};
ghost use Rattle.dpbr_run.specs.Run.{IsResultOf, IsRun, RefusesRunFiles, RefusesTrace};
ghost use Rattle.faults.specs.Bytes.{Text};
ghost use Rattle.program_io.specs.Files.{RefusesAt};

use crate::events::result_of;
use input_files::trace_of_name;
use listing::Tree;
use program_io::{Answer, NamedTexts, Refusal, tree_of_name};
use std::alloc::Global;

/// The result for the listing and the trace with these names, with a line for each event if asked
/// for. The listing is read first.
pub fn run_of_files<T: NamedTexts>(
    texts: &T,
    alloc: Global,
    listing: &str,
    trace: &str,
    is_single: bool,
    has_events: bool,
) -> Result<Answer, Refusal>
    ensures ok { IfOk result (λ answer. (answer.status ≡ 0)
        × IsRun (T.gave texts.now) listing.now trace.now is_single has_events answer.text.items) }
    ensures refused { IfErr result
        (RefusesRunFiles (T.gave texts.now) listing.now trace.now is_single) }
{
    let tree = tree_of_name(texts, alloc, listing, is_single)?;
    run_in_file(texts, alloc, &tree, trace, has_events)
}

/// The result for a tree and the trace with this name.
fn run_in_file<T: NamedTexts>(
    texts: &T,
    alloc: Global,
    tree: &Tree,
    trace: &str,
    has_events: bool,
) -> Result<Answer, Refusal>
    ensures ok { IfOk result (λ answer. (answer.status ≡ 0)
        × (text : Text) × T.gave texts.now trace.now text
        × IsResultOf has_events tree.now text answer.text.items) }
    ensures refused { IfErr result
        (RefusesAt (T.gave texts.now) trace.now (λ text. RefusesTrace text tree.now)) }
{
    let trace = trace_of_name(texts, alloc, trace)?;
    let text = result_of(alloc, tree, trace, has_events)?;
    Ok(Answer { text, status: 0 })
}

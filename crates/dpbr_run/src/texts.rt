//! The result of `dpbr run` for two texts.
ghost use Rattle.std.specs.Prelude.{◌≡◌, ◌⊎◌, IfErr, IfOk};
ghost use Rattle.dpbr_run.specs.Run.{IsRunOfListing, RefusesRun};
ghost use Rattle.program_io.specs.Listings.{rules_for};
ghost use Rattle.program_io.specs.Refusals.{memory_refusal};

use crate::text::run_of_trace;
use program_io::{Refusal, tree_of_text};
use std::alloc::Global;

/// What `dpbr run` prints for a listing and a trace.
///
/// # Errors
///
/// Out of memory; the listing's fault; the trace's; that of its first refused event. In this order.
pub fn run_of_texts(
    alloc: Global,
    listing: &[u8],
    trace: &[u8],
    is_single: bool,
) -> Result<Vec<u8>, Refusal>
    ensures ok { IfOk result
        (λ text. IsRunOfListing (rules_for is_single) listing.now trace.now text.items) }
    ensures refused { IfErr result
        (λ r. (r ≡ memory_refusal) ⊎ RefusesRun (rules_for is_single) listing.now trace.now r) }
{
    let tree = tree_of_text(alloc, listing, is_single)?;
    let answer = run_of_trace(alloc, &tree, trace);
    drop(tree);
    answer
}

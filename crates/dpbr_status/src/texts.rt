//! The result of `dpbr status` for two texts.
ghost use Rattle.std.specs.Prelude.{◌≡◌, ◌⊎◌, IfErr, IfOk};
ghost use Rattle.dpbr_status.specs.Status.{IsStatusOfListing, RefusesStatus};
ghost use Rattle.program_io.specs.Listings.{rules_for};
ghost use Rattle.program_io.specs.Refusals.{memory_refusal};

use crate::text::status;
use program_io::{Refusal, tree_of_text};
use std::alloc::Global;

/// What `dpbr status` prints for a listing and a text of held package paths.
///
/// # Errors
///
/// Out of memory; the listing's fault; that of the held text. In this order.
pub fn status_of_texts(
    alloc: Global,
    listing: &[u8],
    held: &[u8],
    is_single: bool,
) -> Result<Vec<u8>, Refusal>
    ensures ok { IfOk result
        (λ text. IsStatusOfListing (rules_for is_single) listing.now held.now text.items) }
    ensures refused { IfErr result
        (λ r. (r ≡ memory_refusal) ⊎ RefusesStatus (rules_for is_single) listing.now held.now r) }
{
    let tree = tree_of_text(alloc, listing, is_single)?;
    let answer = status(alloc, &tree, held);
    drop(tree);
    let text = answer?;
    Ok(text)
}

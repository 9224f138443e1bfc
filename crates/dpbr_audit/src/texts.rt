//! The verdict of `dpbr audit` for two texts.
ghost use Rattle.std.specs.Prelude.{◌≡◌, ◌⊎◌, IfErr, IfOk};
ghost use Rattle.dpbr_audit.specs.Audit.{IsVerdictOnListing, RefusesAudit};
ghost use Rattle.program_io.specs.Listings.{rules_for};
ghost use Rattle.program_io.specs.Refusals.{memory_refusal};

use crate::text::audit_list;
use auditing::Verdict;
use program_io::{Refusal, tree_of_text};
use std::alloc::Global;

/// The verdict of `dpbr audit` on a list of packages, given a listing.
///
/// # Errors
///
/// Out of memory; the listing's fault; that of the list. In this order.
pub fn audit_of_texts(
    alloc: Global,
    listing: &[u8],
    list: &[u8],
    is_single: bool,
) -> Result<Verdict, Refusal>
    ensures ok { IfOk result (IsVerdictOnListing (rules_for is_single) listing.now list.now) }
    ensures refused { IfErr result
        (λ r. (r ≡ memory_refusal) ⊎ RefusesAudit (rules_for is_single) listing.now list.now r) }
{
    let tree = tree_of_text(alloc, listing, is_single)?;
    let answer = audit_list(alloc, &tree, list);
    drop(tree);
    let verdict = answer?;
    Ok(verdict)
}

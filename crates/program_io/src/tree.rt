//! The tree that a listing describes.
ghost use Rattle.std.specs.Prelude.{IfErr, IfOk};
ghost use Rattle.faults.specs.Answers.{IsRightUnless};
ghost use Rattle.listing.specs.Listing.{tree_of};
ghost use Rattle.program_io.specs.Listings.{IsDescribed, IsDescribedAt, RefusesListingAt, RefusesListingFile, rules_for};

use crate::named::{NamedTexts, SystemFiles};
use crate::refusal::Refusal;
use listing::{ListingFault, Tree};
use std::alloc::Global;
use std::fs;
use std::rt::Files;

/// The tree that the listing describes; each path is a group of its own, or not.
pub fn tree_of_text(alloc: Global, listing: &[u8], is_single: bool) -> Result<Tree, ListingFault>
    ensures { IsRightUnless ListingFault.Memory result (tree_of (rules_for is_single) listing.now) }
{
    if is_single {
        Tree::parse_single(alloc, listing)
    } else {
        Tree::parse(alloc, listing)
    }
}

/// The tree that the listing with this name describes.
///
/// # Errors
///
/// What the system refused; else the listing's fault.
pub fn tree_of_name<T: NamedTexts>(
    texts: &T,
    alloc: Global,
    listing: &str,
    is_single: bool,
) -> Result<Tree, Refusal>
    ensures ok { IfOk result (IsDescribedAt (T.gave texts.now) listing.now is_single) }
    ensures refused { IfErr result
        (RefusesListingAt (T.gave texts.now) listing.now is_single) }
{
    let listing = texts.read(listing)?;
    let tree = tree_of_text(alloc, listing.as_slice(), is_single)?;
    Ok(tree)
}

/// The tree that the listing in a regular file describes.
///
/// # Errors
///
/// What the system refused, also if it is not a regular file; else the listing's fault.
pub fn tree_of_file<R: Files + AllocGlobal>(
    rt: &R,
    listing: &str,
    is_single: bool,
) -> Result<Tree, Refusal>
    ensures ok { IfOk result (IsDescribed is_single) }
    ensures refused { IfErr result (RefusesListingFile is_single) }
{
    // Opening a FIFO would wait for a writer.
    if !fs::metadata(rt, listing)?.is_file() {
        return Err(Refusal::device());
    }
    tree_of_name(&SystemFiles::of(rt), rt.alloc(), listing, is_single)
}

//! The result of `dpbr status` for its files. The program ends after it is printed, so the tree and
//! its letters, which are large, aren't freed here; the system does that at once.
ghost use Rattle.std.specs.Prelude.{◌≡◌, Bool, IfErr, IfOk};
ghost use Rattle.dpbr_status.specs.Status.{IsStatus, IsStatusOf, RefusesHeld, RefusesStatusFiles};
ghost use Rattle.faults.specs.Bytes.{Text};
ghost use Rattle.program_io.specs.Files.{RefusesAt};

use crate::text::status_by_letters;
use listing::Tree;
use program_io::{Answer, NamedTexts, Refusal, tree_of_name};
use std::alloc::Global;
use std::mem::forget;

/// The status for the listing and the text of held package paths with these names. The listing is
/// read first.
pub fn status_of_files<T: NamedTexts>(
    texts: &T,
    alloc: Global,
    listing: &str,
    held: &str,
    is_single: bool,
) -> Result<Answer, Refusal>
    ensures ok { IfOk result (λ answer. (answer.status ≡ 0)
        × IsStatus (T.gave texts.now) listing.now held.now is_single answer.text.items) }
    ensures refused { IfErr result
        (RefusesStatusFiles (T.gave texts.now) listing.now held.now is_single) }
{
    let tree = tree_of_name(texts, alloc, listing, is_single)?;
    let answer = status_in_file(texts, alloc, &tree, held);
    forget(tree);
    answer
}

/// The status for a tree and the text of held package paths with this name.
fn status_in_file<T: NamedTexts>(
    texts: &T,
    alloc: Global,
    tree: &Tree,
    held: &str,
) -> Result<Answer, Refusal>
    ensures ok { IfOk result (λ answer. (answer.status ≡ 0)
        × (text : Text) × T.gave texts.now held.now text
        × IsStatusOf tree.now text answer.text.items) }
    ensures refused { IfErr result
        (RefusesAt (T.gave texts.now) held.now (λ text. RefusesHeld text tree.now)) }
{
    let held = texts.read(held)?;
    let (text, letters) = status_by_letters(alloc, tree, held.as_slice())?;
    forget(letters);
    Ok(Answer { text, status: 0 })
}

//! The result of `dpbr audit` for its files. The program ends after it is printed, so the tree
//! isn't freed here; the system does that at once.
ghost use Rattle.std.specs.Prelude.{◌≡◌, ◌⊎◌, IfErr, IfOk};
ghost use Rattle.dpbr_audit.specs.Audit.{IsAudit, IsAuditOf, RefusesAuditFiles, RefusesList};
ghost use Rattle.faults.specs.Bytes.{Text};
ghost use Rattle.program_io.specs.Files.{RefusesAt};

use crate::text::{audit_list, status_after, verdict_text};
use listing::Tree;
use program_io::{Answer, NamedTexts, Refusal, tree_of_name};
use std::alloc::Global;
use std::mem::forget;

/// The verdict for the listing and the list of packages with these names. The listing is read
/// first.
pub fn audit_of_files<T: NamedTexts>(
    texts: &T,
    alloc: Global,
    listing: &str,
    list: &str,
    is_single: bool,
) -> Result<Answer, Refusal>
    ensures ok { IfOk result (λ answer. IsAudit (T.gave texts.now) listing.now list.now is_single
        answer.status answer.text.items) }
    ensures status { IfOk result (λ answer. (answer.status ≡ 0) ⊎ (answer.status ≡ 3)) }
    ensures refused { IfErr result
        (RefusesAuditFiles (T.gave texts.now) listing.now list.now is_single) }
{
    let tree = tree_of_name(texts, alloc, listing, is_single)?;
    let answer = audit_in_file(texts, alloc, &tree, list);
    forget(tree);
    answer
}

/// The verdict for a tree and the list of packages with this name.
fn audit_in_file<T: NamedTexts>(
    texts: &T,
    alloc: Global,
    tree: &Tree,
    list: &str,
) -> Result<Answer, Refusal>
    ensures ok { IfOk result (λ answer. (text : Text) × T.gave texts.now list.now text
        × IsAuditOf tree.now text answer.status answer.text.items) }
    ensures status { IfOk result (λ answer. (answer.status ≡ 0) ⊎ (answer.status ≡ 3)) }
    ensures refused { IfErr result
        (RefusesAt (T.gave texts.now) list.now (λ text. RefusesList text tree.now)) }
{
    let list = texts.read(list)?;
    let verdict = audit_list(alloc, tree, list.as_slice())?;
    let text = verdict_text(alloc, verdict)?;
    Ok(Answer {
        text: text.into_bytes(),
        status: status_after(verdict),
    })
}

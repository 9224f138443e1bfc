//! The audit of a list of packages against a tree.
ghost use Rattle.std.specs.Prelude.{IfOk, []};
ghost use Rattle.auditing.specs.inside.Standing.{HasRead};
ghost use Rattle.auditing.specs.Verdicts.{IsVerdict};

use crate::standing::Standing;
use crate::{Entry, Verdict};
use faults::Memory;
use listing::Tree;
use std::alloc::Global;

/// Whether the list is allowed, or its first bad package and the first reason.
pub fn audit(alloc: Global, tree: &Tree, list: &[Entry]) -> Result<Verdict, Memory>
    ensures { IfOk result (IsVerdict tree.now list.now) }
{
    let mut standing = Standing::new(alloc, tree)?;
    audit_entries(alloc, &mut standing, list)
}

/// As `audit`, with nothing processed yet.
fn audit_entries(
    alloc: Global,
    standing: &mut Standing<'_>,
    list: &[Entry],
) -> Result<Verdict, Memory>
    requires { HasRead standing.old [] }
    ensures { IfOk result (IsVerdict standing.old.tree.now list.now) }
{
    for (index, entry) in list.iter().enumerate() {
        let earlier = &list[..index];
        if let Some(reason) = standing.first_reason(alloc, earlier, entry)? {
            let package = index as u64 + 1;
            return Ok(Verdict::No { package, reason });
        }
        standing.add(earlier, entry);
    }
    Ok(Verdict::Yes)
}

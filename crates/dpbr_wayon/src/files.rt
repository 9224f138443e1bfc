//! The result of `dpbr wayon` for its files.
ghost use Rattle.std.specs.Prelude.{◌≡◌, IfErr, IfOk};
ghost use Rattle.dpbr_wayon.specs.Refusals.{RefusesBehind, RefusesWayOn};
ghost use Rattle.dpbr_wayon.specs.WayOn.{HasWayOn, IsWayOn};

use crate::reading::path_of_text;
use crate::target::Target;
use crate::text::way_of_events;
use input_files::{builds_of_name, trace_of_name};
use listing::Tree;
use program_io::{Answer, NamedTexts, Refusal, tree_of_name};
use std::alloc::Global;

/// The result for the listing, the trace and the files for paths with these names. Each is read
/// before the next, and the target's path is parsed before the last of them is read.
pub fn wayon_of_files<T: NamedTexts>(
    texts: &T,
    alloc: Global,
    listing: &str,
    trace: &str,
    target: &Target<'_>,
    builds: &str,
    is_single: bool,
) -> Result<Answer, Refusal>
    ensures ok { IfOk result (λ answer. (answer.status ≡ 0)
        × IsWayOn (T.gave texts.now) listing.now trace.now builds.now is_single
        target.now.node target.now.path.now target.now.host answer.text.items) }
    ensures refused { IfErr result (RefusesWayOn (T.gave texts.now) listing.now trace.now builds.now
        is_single target.now.node target.now.path.now target.now.host) }
{
    let tree = tree_of_name(texts, alloc, listing, is_single)?;
    wayon_in_files(texts, alloc, &tree, trace, target, builds)
}

/// The result for a tree, and the trace and the files with these names.
fn wayon_in_files<T: NamedTexts>(
    texts: &T,
    alloc: Global,
    tree: &Tree,
    trace: &str,
    target: &Target<'_>,
    builds: &str,
) -> Result<Answer, Refusal>
    ensures ok { IfOk result (λ answer. (answer.status ≡ 0)
        × HasWayOn (T.gave texts.now) trace.now builds.now tree.now
        target.now.node target.now.path.now target.now.host answer.text.items) }
    ensures refused { IfErr result (RefusesBehind (T.gave texts.now) trace.now builds.now tree.now
        target.now.node target.now.path.now target.now.host) }
{
    let trace = trace_of_name(texts, alloc, trace)?;
    let path = path_of_text(alloc, target.path)?;
    let builds = builds_of_name(texts, alloc, builds)?;
    let text = way_of_events(alloc, tree, trace, target.node, &path, target.host, &builds)?;
    Ok(Answer { text, status: 0 })
}

//! For each package what needs it: the dependency lists of a tree and its units, reversed.
ghost use Rattle.std.specs.Prelude.{◌≡◌, IfOk, length};
ghost use Rattle.graph.specs.Lists.{AreReversed};
ghost use Rattle.listing.specs.Tree.{run_at};
ghost use Rattle.engine.specs.inside.Queueing.{needs_of};

use crate::Units;
use faults::Memory;
use graph::{Naming, Reversed};
use listing::Tree;
use std::alloc::Global;

/// For each package the units whose build needs it, and the packages that need it to run.
pub(crate) fn turned_lists(
    alloc: Global,
    tree: &Tree,
    units: &Units<'_>,
) -> Result<(Reversed, Reversed), Memory>
    requires { units.now.tree ≡ tree.now }
    ensures needs { IfOk result (λ lists.
        AreReversed (length tree.now) (length units.now.units) (needs_of units.now) lists.0) }
    ensures runs { IfOk result (λ lists.
        AreReversed (length tree.now) (length tree.now) (run_at tree.now) lists.1) }
{
    let needs = turned_needs(alloc, tree, units)?;
    let runs = turned_runs(alloc, tree)?;
    Ok((needs, runs))
}

/// For each package those that need it to run.
fn turned_runs(alloc: Global, tree: &Tree) -> Result<Reversed, Memory>
    ensures { IfOk result (λ runs.
        AreReversed (length tree.now) (length tree.now) (run_at tree.now) runs) }
{
    let mut runs = Naming::new(alloc, tree.len())?;
    for position in 0..tree.len() {
        runs.add(position, tree.run_deps(position))?;
    }
    runs.turned(alloc)
}

/// For each package the units whose build needs it.
fn turned_needs(alloc: Global, tree: &Tree, units: &Units<'_>) -> Result<Reversed, Memory>
    requires { units.now.tree ≡ tree.now }
    ensures { IfOk result (λ needs.
        AreReversed (length tree.now) (length units.now.units) (needs_of units.now) needs) }
{
    let mut needs = Naming::new(alloc, tree.len())?;
    for unit in 0..units.len() {
        needs.add(unit, units.build_deps(unit))?;
    }
    needs.turned(alloc)
}

//! One unit, made of the packages that were gathered for it.
ghost use Rattle.std.specs.Prelude.{◌≡◌, ◌<◌, ◌++◌, ◌&&◌, All, IfOk, OnOk, filter, length, map, not};
ghost use Rattle.std.specs.List.Sorted.{IsStrictlyIncreasing};
ghost use Rattle.listing.specs.Tree.{IsTree, path_at};
ghost use Rattle.engine.specs.Units.{in_order_of_path, is_in, unit_from};
ghost use Rattle.engine.specs.inside.Gathering.{lists_of};
ghost use Rattle.engine.specs.inside.UnitKeeping.{AreAlike, needed_by, needs_in_turn, unit_made};

use faults::Memory;
use listing::{PkgPath, Tree};
use std::alloc::Global;

/// A unit as stored: the positions of its packages, in order of path, and of what its build needs.
/// For a single package the latter is empty, since the tree has it.
#[derive(Drop)]
pub(crate) struct Made {
    pub(crate) packages: Vec<u32>,
    pub(crate) build: Vec<u32>,
}

/// The units of these packages.
pub(crate) fn units_of(
    alloc: Global,
    tree: &Tree,
    packages: Vec<Vec<u32>>,
) -> Result<Vec<Made>, Memory>
    requires is_tree { IsTree tree.now }
    requires alike { All (λ v. AreAlike tree.now v.items) packages.items }
    ensures { IfOk result (λ units. map (unit_made tree.now) units.items
        ≡ map (unit_from tree.now) (lists_of packages.items)) }
{
    let mut units = Vec::with_capacity(alloc, packages.len())?;
    for positions in packages {
        units.push(unit_of(alloc, tree, positions)?)?;
    }
    Ok(units)
}

/// The unit of these packages. The vector of a single package is used as it is.
fn unit_of(alloc: Global, tree: &Tree, packages: Vec<u32>) -> Result<Made, Memory>
    requires is_tree { IsTree tree.now }
    requires alike { AreAlike tree.now packages.items }
    ensures { IfOk result (λ made. unit_made tree.now made ≡ unit_from tree.now packages.items) }
{
    if packages.len() == 1 {
        return Ok(Made {
            packages,
            build: Vec::new(alloc),
        });
    }
    let build = needed(alloc, tree, packages.as_slice())?;
    let packages = in_order(alloc, tree, packages.as_slice())?;
    Ok(Made { packages, build })
}

/// The positions in order of path.
fn in_order(alloc: Global, tree: &Tree, packages: &[u32]) -> Result<Vec<u32>, Memory>
    requires is_tree { IsTree tree.now }
    requires alike { AreAlike tree.now packages.now }
    ensures { IfOk result (λ sorted. sorted.items ≡ in_order_of_path tree.now packages.now) }
{
    let mut paths = paths_at(alloc, tree, packages)?;
    paths.sort()?;
    let mut sorted = Vec::with_capacity(alloc, packages.len())?;
    for path in paths.as_slice() {
        if let Some(position) = tree.position(*path) {
            sorted.push(position)?;
        }
    }
    Ok(sorted)
}

/// The paths of the packages at these positions.
pub fn paths_at<'a>(
    alloc: Global,
    tree: &'a Tree,
    packages: &[u32],
) -> Result<Vec<&'a PkgPath>, Memory>
    requires { All (λ p. p < length tree.now) packages.now }
    ensures { IfOk result (λ paths. map (λ path. path.now) paths.items
        ≡ map (path_at tree.entry.now) packages.now) }
{
    let mut paths = Vec::with_capacity(alloc, packages.len())?;
    for position in packages {
        paths.push(tree.path(*position))?;
    }
    Ok(paths)
}

/// The positions of what any of these packages needs to be built, except the packages themselves,
/// ascending and without duplicates.
fn needed(alloc: Global, tree: &Tree, packages: &[u32]) -> Result<Vec<u32>, Memory>
    requires is_tree { IsTree tree.now }
    requires alike { AreAlike tree.now packages.now }
    ensures { IfOk result (λ needed. needed.items ≡ needed_by tree.now packages.now) }
{
    let mut needed = Vec::new(alloc);
    for position in packages {
        add_others(&mut needed, packages, tree.build_deps(*position))?;
    }
    needed.sort_unstable();
    needed.dedup();
    Ok(needed)
}

/// Appends those positions that are not of the unit's own packages.
fn add_others(needed: &mut Vec<u32>, packages: &[u32], positions: &[u32]) -> Result<(), Memory>
    requires { IsStrictlyIncreasing packages.now }
    ensures { OnOk result (needed.new.items
        ≡ needed.old.items ++ filter (λ d. not (is_in packages.now d)) positions.now) }
{
    for position in positions {
        if packages.binary_search(position).is_err() {
            needed.push(*position)?;
        }
    }
    Ok(())
}

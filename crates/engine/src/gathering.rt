//! The packages of each unit, gathered position by position.
ghost use Rattle.std.specs.Prelude.{◌≡◌, ◌<◌, ◌≤◌, IfOk, OnOk, Some, length, position};
ghost use Rattle.std.specs.Str.{bytes_eq};
ghost use Rattle.indexmap.specs.IndexSet.{insert_key};
ghost use Rattle.listing.specs.Tree.{IsTree, group_at};
ghost use Rattle.engine.specs.inside.Gathering.{AreGathered, Takes, lists_of, put_at};
ghost use Rattle.graph.specs.Marks.{has_mark};

use faults::Memory;
use indexmap::IndexSet;
use listing::{PkgPath, Tree};
use std::alloc::Global;

/// The units of a tree while they are gathered, numbered in the order of their lowest positions.
#[derive(Drop)]
pub(crate) struct Gathered {
    /// The path that names the group of each unit.
    pub(crate) groups: IndexSet<PkgPath>,
    /// The positions of each unit's packages, ascending.
    pub(crate) packages: Vec<Vec<u32>>,
    /// For each position the number of its package's unit. An ignored package has none.
    pub(crate) numbers: Vec<Option<u32>>,
}

/// Gathers the packages that are not ignored; `ignored` marks the ignored ones, by position.
pub(crate) fn gather(alloc: Global, tree: &Tree, ignored: &[bool]) -> Result<Gathered, Memory>
    requires { length ignored.now ≡ length tree.now }
    ensures gathered { IfOk result (AreGathered tree.now (has_mark ignored.now) (length tree.now)) }
    ensures tree { OnOk result (IsTree tree.now) }
{
    let mut gathered = Gathered {
        groups: IndexSet::new(alloc),
        packages: Vec::new(alloc),
        numbers: Vec::new(alloc),
    };
    for position in 0..tree.len() {
        if ignored[position as usize] {
            gathered.numbers.push(None)?;
        } else {
            gathered.take(alloc, tree, position)?;
        }
    }
    Ok(gathered)
}

impl Gathered {
    /// Gathers the package at the position, which is not ignored.
    fn take(&mut self, alloc: Global, tree: &Tree, position: u32) -> Result<(), Memory>
        requires listed { position < length tree.now }
        requires few { length self.old.groups.keys ≤ position }
        requires each { length self.old.packages.items ≡ length self.old.groups.keys }
        ensures { OnOk result (Takes (group_at tree.now position) position self.old self.new) }
    {
        let number = number_of_group(&mut self.groups, tree.group(position))?;
        put(alloc, &mut self.packages, number, position)?;
        self.numbers.push(Some(number as u32))?;
        Ok(())
    }
}

/// The number of the group, which is added if it is new.
fn number_of_group(groups: &mut IndexSet<PkgPath>, group: &PkgPath) -> Result<usize, Memory>
    ensures number { IfOk result (λ k. position (bytes_eq group.now) groups.new.keys ≡ Some k) }
    ensures keys { OnOk result (groups.new.keys ≡ insert_key bytes_eq groups.old.keys group.now) }
    ensures within { IfOk result (λ k. k ≤ length groups.old.keys) }
{
    if let Some(number) = groups.get_index_of(group) {
        return Ok(number);
    }
    let number = groups.len();
    groups.insert(group.copy()?)?;
    Ok(number)
}

/// Appends the position to those of the unit with this number. A new unit has the lowest free
/// number.
fn put(
    alloc: Global,
    packages: &mut Vec<Vec<u32>>,
    number: usize,
    position: u32,
) -> Result<(), Memory>
    requires { number ≤ length packages.old.items }
    ensures { OnOk result
        (lists_of packages.new.items ≡ put_at (lists_of packages.old.items) number position) }
{
    if number == packages.len() {
        packages.push(vec![in alloc; position]?)?;
    } else {
        packages[number].push(position)?;
    }
    Ok(())
}

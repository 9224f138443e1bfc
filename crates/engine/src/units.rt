//! The units of a tree. Contracts see them as a list.
ghost use Rattle.std.specs.Prelude.{◌≡◌, ◌<◌, ◌↔◌, All, IfOk, IsTrue, MatchOption, Some, length, option_and_then};
ghost use Rattle.listing.specs.Tree.{ArePositions, position_of};
ghost use Rattle.engine.specs.Division.{IsDivision, number_found, number_of, unit_at};
ghost use Rattle.engine.specs.Ignored.{IsIgnored};

use crate::gathering::{Gathered, gather};
use crate::ignored::ignored_marks;
use crate::making::{Made, units_of};
use faults::Memory;
use indexmap::IndexSet;
use listing::{PkgPath, Tree};
use std::alloc::Global;
use std::marker::Model;
use std::rc::Rc;

/// The units of a tree: one build makes all packages of a group that are not ignored. Units are
/// numbered from 0 in the order of their lowest positions. Copies share their immutable data.
#[derive(Drop)]
pub struct Units<'a> {
    tree: &'a Tree,
    parts: Rc<Parts>,
}

/// The data that copies of `Units` share.
#[derive(Drop)]
struct Parts {
    units: Vec<Made>,
    /// The path that names the group of each unit.
    groups: IndexSet<PkgPath>,
    /// For each position the number of its package's unit.
    numbers: Vec<Option<u32>>,
}

impl<'a> Model for Units<'a> {
    ghost use Rattle.engine.specs.Division.{Division, IsDivision};
    ghost use Rattle.engine.specs.inside.UnitKeeping.{AreGroups, AreNumbers, division_made};

    ghost Value = { Division };

    ghost view = { λ u. division_made u.tree.now u.parts.value.units.items };

    ghost invariant = { λ u. let d = division_made u.tree.now u.parts.value.units.items in
        IsDivision d × AreNumbers d u.parts.value.numbers.items
        × AreGroups d u.parts.value.groups.keys };
}

impl<'a> Units<'a> {
    /// The units of the tree.
    pub fn new(alloc: Global, tree: &'a Tree) -> Result<Units<'a>, Memory>
        ensures { IfOk result (λ units. units.tree ≡ tree.entry.now) }
    {
        let ignored = ignored_marks(alloc, tree)?;
        let Gathered {
            groups,
            packages,
            numbers,
        } = gather(alloc, tree, ignored.as_slice())?;
        let units = units_of(alloc, tree, packages)?;
        let parts = Parts {
            units,
            groups,
            numbers,
        };
        let parts = Rc::new(alloc, parts)?;
        Ok(Units { tree, parts })
    }

    /// Copies the units; the data is shared.
    pub fn copy(&self) -> Result<Units<'a>, Memory>
        ensures { IfOk result (λ units. units ≡ self.now) }
    {
        let parts = self.parts.clone()?;
        Ok(Units {
            tree: self.tree,
            parts,
        })
    }

    /// The number of units. Their numbers are those below it.
    pub fn len(&self) -> u32
        ensures count { result ≡ length self.now.units }
        ensures division { IsDivision self.now }
    {
        self.parts.units.len() as u32
    }

    /// The unit of the package at the position. An ignored package has none.
    pub fn unit_of(&self, position: u32) -> Option<u32>
        requires { position < length self.now.tree }
        ensures number { result ≡ number_of self.now position }
        ensures division { IsDivision self.now }
    {
        self.parts.numbers[position as usize]
    }

    /// Whether the package at the position is ignored.
    pub fn is_ignored(&self, position: u32) -> bool
        requires { position < length self.now.tree }
        ensures { IsTrue result ↔ IsIgnored self.now.tree position }
    {
        self.unit_of(position).is_none()
    }

    /// The name of the unit: the path of its only package, or the path without subpackage that its
    /// packages share.
    pub fn name(&self, unit: u32) -> &PkgPath
        requires { unit < length self.now.units }
        ensures { result.now ≡ (unit_at self.now unit).name }
    {
        let packages = self.packages(unit);
        if packages.len() == 1 {
            return self.tree.path(packages[0]);
        }
        self.tree.group(packages[0])
    }

    /// The positions of the unit's packages, in order of path. There is at least one.
    pub fn packages(&self, unit: u32) -> &[u32]
        requires { unit < length self.now.units }
        ensures value { result.now ≡ (unit_at self.now unit).packages }
        ensures some { 0 < length result.now }
        ensures listed { All (λ p. p < length self.now.tree) result.now }
    {
        let made = &self.parts.units[unit as usize];
        made.packages.as_slice()
    }

    /// The positions of what the unit's build needs, ascending and without duplicates: what any of
    /// its packages needs to be built, except, if it has several packages, these packages.
    pub fn build_deps(&self, unit: u32) -> &[u32]
        requires { unit < length self.now.units }
        ensures value { result.now ≡ (unit_at self.now unit).build }
        ensures positions { ArePositions self.now.tree result.now }
    {
        let packages = self.packages(unit);
        if packages.len() == 1 {
            return self.tree.build_deps(packages[0]);
        }
        let made = &self.parts.units[unit as usize];
        made.build.as_slice()
    }

    /// The unit that the path names: the unit with this name, or else the one that has the package
    /// with this path.
    pub fn find(&self, path: &PkgPath) -> Option<u32>
        ensures { result ≡ number_found self.now path.now }
    {
        if let Some(unit) = self.named(path) {
            return Some(unit);
        }
        self.unit_of(self.tree.position(path)?)
    }

    /// The unit with this name, if it has two or more packages. If there is none, the path is that
    /// of a package, or names no unit.
    fn named(&self, path: &PkgPath) -> Option<u32>
        ensures { MatchOption result
            (number_found self.now path.now
            ≡ option_and_then (number_of self.now) (position_of self.now.tree path.now))
            (λ k. number_found self.now path.now ≡ Some k) }
    {
        let unit = self.parts.groups.get_index_of(path)?;
        let made = &self.parts.units[unit];
        if made.packages.len() > 1 {
            return Some(unit as u32);
        }
        None
    }
}

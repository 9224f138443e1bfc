//! A tree. Contracts see it as the list of its packages.
ghost use Rattle.std.specs.Prelude.{◌≡◌, ◌⊎◌, ◌<◌, List, None, Some, length, map, MatchResult};
ghost use Rattle.faults.specs.Answers.{IsRightUnless, first_given};
ghost use Rattle.listing.specs.Lines.{Setting};
ghost use Rattle.listing.specs.Listing.{nameless_fault, tree_of, tree_of_settings};
ghost use Rattle.listing.specs.Rules.{group_by, names_and_specs, single_paths, with_groups};
ghost use Rattle.listing.specs.inside.BarePackages.{AreBarePackagesOfTable};
ghost use Rattle.listing.specs.inside.Table.{Stands, row_fault};
ghost use Rattle.listing.specs.Tree.{ArePositions, IsTree, build_at, group_at, is_marked_at, name_at, path_at, position_of, run_at};

use crate::ListingFault;
use crate::bare_package::{BarePackage, bare_packages_of};
use crate::groups::Groups;
use crate::table::Table;
use indexmap::IndexSet;
use pkgname::{Pieces, PkgName};
use pkgpath::PkgPath;
use std::alloc::Global;
use std::marker::Model;

/// The packages of a listing, by position: at most 16,384, numbered from 0 in the order of their
/// paths' first lines. Either packages whose paths are equal without their subpackages are in one
/// group, or each is a group of its own.
#[derive(Drop)]
pub struct Tree {
    paths: IndexSet<PkgPath>,
    bare_packages: Vec<BarePackage>,
    groups: Groups,
    /// Whether each package is a group of its own.
    is_single: bool,
}

impl Model for Tree {
    ghost use Rattle.std.specs.Prelude.{◌≡◌, List, length, map};
    ghost use Rattle.listing.specs.inside.Table.{Stands};
    ghost use Rattle.listing.specs.Tree.{IsTree, Package};
    ghost use Rattle.listing.specs.inside.BarePackages.{packages_of};
    ghost use Rattle.listing.specs.Rules.{group_by};

    ghost Value = { List Package };

    ghost view = { λ t. packages_of (group_by t.is_single) t.paths.keys t.bare_packages.items };

    ghost invariant = { λ t. (length t.bare_packages.items ≡ length t.paths.keys)
        × IsTree (packages_of (group_by t.is_single) t.paths.keys t.bare_packages.items)
        × (t.groups ≡ map (group_by t.is_single) t.paths.keys) };
}

impl Tree {
    /// Parses the listing.
    ///
    /// # Errors
    ///
    /// `Memory` if an allocation failed; otherwise the fault of the first faulty line; or, if no
    /// line is faulty, `NoName` for the first line whose path has no name.
    pub fn parse(alloc: Global, text: &[u8]) -> Result<Tree, ListingFault>
        ensures { IsRightUnless ListingFault.Memory result (tree_of names_and_specs text.now) }
    {
        Tree::read(alloc, text, false)
    }

    /// Parses the listing like `parse`, but makes each package a group of its own.
    ///
    /// # Errors
    ///
    /// Those of `parse`.
    pub fn parse_single(alloc: Global, text: &[u8]) -> Result<Tree, ListingFault>
        ensures { IsRightUnless ListingFault.Memory result (tree_of single_paths text.now) }
    {
        Tree::read(alloc, text, true)
    }

    /// Parses the listing; the flag says whether each package is a group of its own.
    fn read(alloc: Global, text: &[u8], is_single: bool) -> Result<Tree, ListingFault>
        ensures { IsRightUnless ListingFault.Memory result
            (tree_of (with_groups (group_by is_single)) text.now) }
    {
        let mut table = Table::new(alloc);
        let mut number = 0;
        let mut left = Pieces::new(text, b'\n');
        'lines: while let Some(line) = left.next() {
            number += 1;
            table.read(alloc, number, line)?;
        }
        Tree::of_table(alloc, table, is_single)
    }

    /// The tree of what the lines set, if each path has a name.
    fn of_table(alloc: Global, table: Table<'_>, is_single: bool) -> Result<Tree, ListingFault>
        requires { (settings : List Setting) × Stands table settings }
        ensures { (settings : List Setting) → Stands table.entry settings
            → MatchResult result
            (λ t. (nameless_fault settings ≡ None)
            × (t ≡ tree_of_settings (with_groups (group_by is_single)) settings))
            (λ e. (e ≡ ListingFault.Memory) ⊎ (nameless_fault settings ≡ Some e)) }
    {
        let bare_packages = bare_packages_of_table(alloc, &table)?;
        let groups = Groups::of(alloc, table.paths.as_slice(), is_single)?;
        Ok(Tree {
            paths: table.paths,
            bare_packages,
            groups,
            is_single,
        })
    }

    /// The group of each package.
    pub(crate) fn groups(&self) -> &Groups
        ensures { result.now ≡ map (λ x. x.group) self.now }
    {
        &self.groups
    }

    /// The number of packages. Positions are the numbers below it.
    pub fn len(&self) -> u32
        ensures count { result ≡ length self.now }
        ensures tree { IsTree self.now }
    {
        self.bare_packages.len() as u32
    }

    /// The position of the path, if it is listed.
    pub fn position(&self, path: &PkgPath) -> Option<u32>
        ensures { result ≡ position_of self.now path.now }
    {
        let position = self.paths.get_index_of(path)?;
        Some(position as u32)
    }

    /// The path of the package at the position.
    pub fn path(&self, position: u32) -> &PkgPath
        requires { position < length self.now }
        ensures { result.now ≡ path_at self.now position }
    {
        &self.paths.as_slice()[position as usize]
    }

    /// The path that names the package's group: its path without the subpackage, or its whole path
    /// if each package is a group of its own.
    pub fn group(&self, position: u32) -> &PkgPath
        requires { position < length self.now }
        ensures { result.now ≡ group_at self.now position }
    {
        self.groups.at(position)
    }

    /// The name of the package at the position: its FULLPKGNAME.
    pub fn name(&self, position: u32) -> &PkgName
        requires { position < length self.now }
        ensures { result.now ≡ name_at self.now position }
    {
        &self.bare_packages[position as usize].name
    }

    /// The positions of the listed dependencies in BUILD_DEPENDS and LIB_DEPENDS, ascending and
    /// without duplicates. A dependency whose path isn't listed has no position; it marks the
    /// package instead.
    pub fn build_deps(&self, position: u32) -> &[u32]
        requires { position < length self.now }
        ensures value { result.now ≡ build_at self.now position }
        ensures positions { ArePositions self.now result.now }
    {
        self.bare_packages[position as usize].build.as_slice()
    }

    /// The positions of the listed dependencies in LIB_DEPENDS and RUN_DEPENDS, ascending and
    /// without duplicates. A dependency whose path isn't listed has no position; it marks the
    /// package instead.
    pub fn run_deps(&self, position: u32) -> &[u32]
        requires { position < length self.now }
        ensures value { result.now ≡ run_at self.now position }
        ensures positions { ArePositions self.now result.now }
    {
        self.bare_packages[position as usize].run.as_slice()
    }

    /// Whether the package's IGNORE isn't empty, or a dependency's path isn't listed, or a spec of
    /// a dependency doesn't match the listed name.
    pub fn marked(&self, position: u32) -> bool
        requires { position < length self.now }
        ensures { result ≡ is_marked_at self.now position }
    {
        self.bare_packages[position as usize].is_marked
    }
}

/// The packages of what the lines set, without their paths, if each has a name.
fn bare_packages_of_table(
    alloc: Global,
    table: &Table<'_>,
) -> Result<Vec<BarePackage>, ListingFault>
    requires { (settings : List Setting) × Stands table.now settings }
    ensures { MatchResult result
        (λ bare_packages. (first_given row_fault table.now.rows.items ≡ None)
        × AreBarePackagesOfTable table.now bare_packages.items)
        (λ e. (e ≡ ListingFault.Memory) ⊎ (first_given row_fault table.now.rows.items ≡ Some e)) }
{
    let rows = table.rows.as_slice();
    let resolutions = table.dependencies.resolve(alloc, &table.paths, rows)?;
    bare_packages_of(alloc, rows, resolutions.as_slice())
}

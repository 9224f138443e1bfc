//! The groups of a tree's packages.
ghost use Rattle.std.specs.Prelude.{◌≡◌, ◌<◌, ◌≤◌, ◌++◌, ◌∷◌, [], List, length, map, IfOk};
ghost use Rattle.std.specs.Map.{keys_of};
ghost use Rattle.faults.specs.Bytes.{Text};
ghost use Rattle.faults.specs.Pieces.{in_order_of_appearance};
ghost use Rattle.listing.specs.Rules.{group_by};
ghost use Rattle.listing.specs.Tree.{most_paths};
ghost use Rattle.listing.specs.inside.Groups.{AreSizes, line_of_group, lines_of_groups, text_at};
ghost use Rattle.listing.specs.inside.Hashing.{Takes};
ghost use Rattle.listing.specs.inside.Parts.{Grows, IsNumberOf};

use crate::digest::put;
use faults::Memory;
use indexmap::IndexMap;
use pkgpath::PkgPath;
use sha2::Sha256;
use std::alloc::Global;
use std::marker::Model;

/// The minimum size of a group that has a line in the digest.
const SEVERAL: u32 = 2;

/// The group of each package, by position. Contracts see the paths that name the groups.
#[derive(Drop)]
pub struct Groups {
    /// The number of packages in each group. Groups are in the order of their lowest positions.
    sizes: IndexMap<PkgPath, u32>,
    /// The index in `sizes` of each package's group.
    places: Vec<usize>,
}

impl Model for Groups {
    ghost use Rattle.std.specs.Prelude.{ℕ, List};
    ghost use Rattle.listing.specs.inside.Groups.{AreGroups, names_in};

    ghost Value = { List (List ℕ) };

    ghost view = { λ g. names_in g.sizes.entries g.places.items };

    ghost invariant = { λ g.
        AreGroups (names_in g.sizes.entries g.places.items) g.sizes.entries g.places.items };
}

impl Groups {
    /// The groups of packages with these paths. The flag says whether each path is a group of its
    /// own.
    pub fn of(alloc: Global, paths: &[PkgPath], is_single: bool) -> Result<Groups, Memory>
        requires { length paths.now ≤ most_paths }
        ensures { IfOk result (λ groups. groups ≡ map (group_by is_single) paths.now) }
    {
        let mut sizes = IndexMap::new(alloc);
        let mut places = Vec::with_capacity(alloc, paths.len())?;
        for path in paths {
            let group = group_of(path, is_single)?;
            let place = count(&mut sizes, group)?;
            places.push(place)?;
        }
        Ok(Groups { sizes, places })
    }

    /// The path that names the group of the package at the position.
    pub fn at(&self, position: u32) -> &PkgPath
        requires { position < length self.now }
        ensures { result.now ≡ text_at self.now position }
    {
        let place = self.places[position as usize];
        self.sizes.get_index(place).unwrap().0
    }

    /// Feeds a line for each group of two or more packages, in the order of their lowest positions.
    pub fn put_lines(&self, hasher: &mut Sha256)
        ensures { Takes hasher.old hasher.new (lines_of_groups self.now) }
    {
        for place in 0..self.sizes.len() {
            self.put_line(hasher, place);
        }
    }

    /// Feeds a line for the group at the index, if it has two or more packages.
    fn put_line(&self, hasher: &mut Sha256, place: usize)
        requires { place < length (in_order_of_appearance self.now) }
        ensures { let group = text_at (in_order_of_appearance self.now) place in
            Takes hasher.old hasher.new (line_of_group self.now group) }
    {
        let (group, size) = self.sizes.get_index(place).unwrap();
        if *size < SEVERAL {
            return;
        }
        put(hasher, b"G ", group.as_bytes());
    }
}

/// The path that names the group of a path. The flag says whether each path is a group of its own.
fn group_of(path: &PkgPath, is_single: bool) -> Result<PkgPath, Memory>
    ensures { IfOk result (λ group. group ≡ group_by is_single path.now) }
{
    if is_single {
        path.copy()
    } else {
        path.without_subpackage()
    }
}

/// Counts one more package of the group, and returns the group's index.
fn count(sizes: &mut IndexMap<PkgPath, u32>, group: PkgPath) -> Result<usize, Memory>
    requires { (names : List Text) × AreSizes names sizes.old.entries
        × (length names < most_paths) }
    ensures { (names : List Text) → AreSizes names sizes.old.entries → IfOk result (λ place.
        AreSizes (names ++ group ∷ []) sizes.new.entries
        × IsNumberOf (keys_of sizes.new.entries) place group
        × Grows (keys_of sizes.old.entries) (keys_of sizes.new.entries)) }
{
    let size = sizes.get(&group).copied().unwrap_or(0) + 1;
    let inserted = sizes.insert_full(group, size)?;
    Ok(inserted.0)
}

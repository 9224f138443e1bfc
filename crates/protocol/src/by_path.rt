//! The files that are handed in, indexed by path.
ghost use Rattle.std.specs.Prelude.{◌≡◌, ◌<◌, IfOk, List, MatchOption, OnOk, Some, false, if◌then◌else◌, length, map, true};
ghost use Rattle.std.specs.List.{slice_index_or};
ghost use Rattle.std.specs.Str.{bytes_eq};
ghost use Rattle.faults.specs.Bytes.{Text, is_among};
ghost use Rattle.indexmap.specs.IndexMap.{get};
ghost use Rattle.package_record.specs.Content.{NamedFile};
ghost use Rattle.protocol.specs.Jobs.{files_for};
ghost use Rattle.protocol.specs.inside.First.{IsFirst};

use crate::packages::Packages;
use faults::Memory;
use indexmap::IndexMap;
use package_record::{Files, PkgPath};
use std::alloc::Global;
use std::marker::Model;

/// The files that are handed in, indexed by path: the files of a path are those of its first entry.
/// A lookup does not scan the entries. Contracts see the list of entries.
#[derive(Drop)]
pub struct ByPath<'b> {
    builds: &'b Packages,
    /// The number of the first entry with each path.
    numbers: IndexMap<PkgPath, usize>,
}

impl<'b> Model for ByPath<'b> {
    ghost use Rattle.std.specs.Prelude.{length};
    ghost use Rattle.std.specs.Str.{bytes_eq};
    ghost use Rattle.faults.specs.Bytes.{Text};
    ghost use Rattle.indexmap.specs.IndexMap.{get};
    ghost use Rattle.protocol.specs.Given.{Given};
    ghost use Rattle.protocol.specs.inside.First.{IsFirst};

    ghost Value = { Given };

    ghost view = { λ b. b.builds.now };

    ghost invariant = { λ b. (path : Text)
        → IsFirst b.builds.now path (length b.builds.now) (get bytes_eq b.numbers path) };
}

impl<'b> ByPath<'b> {
    /// Builds the index. Returns `Memory` if out of memory.
    pub fn new(alloc: Global, builds: &'b Packages) -> Result<ByPath<'b>, Memory>
        ensures { IfOk result (λ given. given ≡ builds.entry.now) }
    {
        let numbers = numbers_of(alloc, builds)?;
        Ok(ByPath { builds, numbers })
    }

    /// The files handed in for the path, if there are any.
    pub fn files(&self, path: &PkgPath) -> Option<&'b Files>
        ensures { MatchOption result
            (is_among (map (λ g. g.0) self.now) path.now ≡ false)
            (λ files. (is_among (map (λ g. g.0) self.now) path.now ≡ true)
            × (files.now ≡ files_for self.now path.now)) }
    {
        files_by_number(self.builds, &self.numbers, path)
    }
}

/// The files handed in for the path, if there are any, by these numbers.
fn files_by_number<'b>(
    builds: &'b Packages,
    numbers: &IndexMap<PkgPath, usize>,
    path: &PkgPath,
) -> Option<&'b Files>
    requires { IsFirst builds.now path.now (length builds.now)
        (get bytes_eq numbers.now path.now) }
    ensures { MatchOption result
        (is_among (map (λ g. g.0) builds.entry.now) path.now ≡ false)
        (λ files. (is_among (map (λ g. g.0) builds.entry.now) path.now ≡ true)
        × (files.now ≡ files_for builds.entry.now path.now)) }
{
    match numbers.get(path) {
        Some(number) => Some(files_at(builds, *number)),
        None => None,
    }
}

/// The files of the entry with this number.
fn files_at<'b>(builds: &'b Packages, number: usize) -> &'b Files
    requires { number < length builds.now }
    ensures { (d : Text × List NamedFile)
        → result.now ≡ (slice_index_or builds.entry.now number d).1 }
{
    &builds.as_slice()[number].1
}

/// The number of the first entry with each path.
fn numbers_of(alloc: Global, builds: &Packages) -> Result<IndexMap<PkgPath, usize>, Memory>
    ensures { IfOk result (λ numbers. (path : Text)
        → IsFirst builds.now path (length builds.now) (get bytes_eq numbers path)) }
{
    let mut numbers = IndexMap::new(alloc);
    for (number, given) in builds.as_slice().iter().enumerate() {
        if !numbers.contains_key(&given.0) {
            keep(&mut numbers, &given.0, number)?;
        }
    }
    Ok(numbers)
}

/// Stores the number under the path, replacing an earlier one.
fn keep(numbers: &mut IndexMap<PkgPath, usize>, path: &PkgPath, number: usize) -> Result<(), Memory>
    ensures { OnOk result ((q : Text) → get bytes_eq numbers.new q
        ≡ (if bytes_eq path.now q then Some number else get bytes_eq numbers.old q)) }
{
    numbers.insert(path.copy()?, number)?;
    Ok(())
}

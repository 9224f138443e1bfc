//! Packages in order of path, and the packages of a build.
ghost use Rattle.std.specs.Prelude.{◌≡◌, ◌<◌, ◌⊎◌, All, IfOk, OnOk, Some, if◌then◌else◌};
ghost use Rattle.std.specs.Prelude.{MatchResult, false, length, map, true};
ghost use Rattle.std.specs.Str.{bytes_eq};
ghost use Rattle.faults.specs.Bytes.{Text};
ghost use Rattle.claims.specs.Deps.{is_ascending};
ghost use Rattle.indexmap.specs.IndexMap.{get};
ghost use Rattle.engine.specs.Tree.{ArePositions, IsTree, name_at, path_at, run_at};
ghost use Rattle.protocol.specs.Jobs.{in_order_of_path};
ghost use Rattle.member.specs.inside.Packages.{files_at, have_files, made_at, made_of};

use engine::{Tree, paths_at};
use faults::Memory;
use indexmap::IndexMap;
use package_record::{Files, Package};
use pkgpath::PkgPath;
use protocol::{Packages, Refusal};
use std::alloc::Global;

/// The paths of the packages at these positions, in order.
pub(crate) fn in_order<'a>(
    alloc: Global,
    tree: &'a Tree,
    positions: &[u32],
) -> Result<Vec<&'a PkgPath>, Memory>
    requires is_tree { IsTree tree.now }
    requires positions { ArePositions tree.now positions.now }
    ensures { IfOk result (λ paths. map (λ path. path.now) paths.items
        ≡ in_order_of_path tree.entry.now positions.now) }
{
    let mut paths = paths_at(alloc, tree, positions)?;
    paths.sort()?;
    Ok(paths)
}

/// Copies of the paths, in the same order.
pub(crate) fn copied(alloc: Global, paths: &[&PkgPath]) -> Result<Vec<PkgPath>, Memory>
    ensures { IfOk result (λ copies. copies.items ≡ map (λ path. path.now) paths.now) }
{
    let mut copies = Vec::with_capacity(alloc, paths.len())?;
    for path in paths {
        copies.push(path.copy()?)?;
    }
    Ok(copies)
}

/// The paths of the unit's packages, in order.
pub(crate) fn paths_of(
    alloc: Global,
    tree: &Tree,
    positions: &[u32],
) -> Result<Vec<PkgPath>, Memory>
    requires { All (λ p. p < length tree.now) positions.now }
    ensures { IfOk result (λ paths. paths.items ≡ map (path_at tree.now) positions.now) }
{
    let paths = paths_at(alloc, tree, positions)?;
    copied(alloc, paths.as_slice())
}

/// The files by the paths of their packages; if a path occurs more than once, its first files.
pub(crate) fn by_path(alloc: Global, packages: Packages) -> Result<IndexMap<PkgPath, Files>, Memory>
    ensures { IfOk result
        (λ files. (path : Text) → get bytes_eq files path ≡ files_at packages path) }
{
    let mut files = IndexMap::new(alloc);
    for (path, given) in packages.into_vec() {
        if !files.contains_key(&path) {
            keep(&mut files, path, given)?;
        }
    }
    Ok(files)
}

/// Sets the files of the path, in place of earlier ones.
fn keep(files: &mut IndexMap<PkgPath, Files>, path: PkgPath, given: Files) -> Result<(), Memory>
    ensures { OnOk result ((q : Text) → get bytes_eq files.new q
        ≡ (if bytes_eq path q then Some given else get bytes_eq files.old q)) }
{
    files.insert(path, given)?;
    Ok(())
}

/// The packages of the build at these positions, with their files, which are taken out of `files`.
/// Fails with `OtherPackages` if one of them has no files.
pub(crate) fn made(
    alloc: Global,
    tree: &Tree,
    positions: &[u32],
    files: &mut IndexMap<PkgPath, Files>,
) -> Result<Vec<Package>, Refusal>
    requires tree { IsTree tree.now }
    requires positions { All (λ p. p < length tree.now) positions.now }
    requires order { is_ascending (map (path_at tree.now) positions.now) ≡ true }
    ensures { MatchResult result
        (λ packages. (have_files tree.now (get bytes_eq files.old) positions.now ≡ true)
        × (map made_of packages.items
        ≡ map (made_at tree.now (get bytes_eq files.old)) positions.now))
        (λ e. (e ≡ Refusal.Memory) ⊎ ((e ≡ Refusal.OtherPackages)
        × (have_files tree.now (get bytes_eq files.old) positions.now ≡ false))) }
{
    let mut packages = Vec::with_capacity(alloc, positions.len())?;
    for position in positions {
        let Some(given) = files.swap_remove(tree.path(*position)) else {
            return Err(Refusal::OtherPackages);
        };
        packages.push(package_at(alloc, tree, *position, given)?)?;
    }
    Ok(packages)
}

/// The paths that the package at the position needs to run, in order.
fn run_at(alloc: Global, tree: &Tree, position: u32) -> Result<Vec<PkgPath>, Memory>
    requires tree { IsTree tree.now }
    requires position { position < length tree.now }
    ensures { IfOk result (λ run. run.items
        ≡ in_order_of_path tree.now (run_at tree.now position)) }
{
    let run = in_order(alloc, tree, tree.run_deps(position))?;
    copied(alloc, run.as_slice())
}

/// The package of the build at the position, with these files.
fn package_at(alloc: Global, tree: &Tree, position: u32, files: Files) -> Result<Package, Memory>
    requires tree { IsTree tree.now }
    requires position { position < length tree.now }
    ensures path { IfOk result (λ p. p.path ≡ path_at tree.now position) }
    ensures name { IfOk result (λ p. p.name ≡ name_at tree.now position) }
    ensures run { IfOk result (λ p. p.run.items
        ≡ in_order_of_path tree.now (run_at tree.now position)) }
    ensures files { IfOk result (λ p. p.files ≡ files) }
{
    let path = tree.path(position).copy()?;
    let name = tree.name(position).copy()?;
    let run = run_at(alloc, tree, position)?;
    Ok(Package {
        path,
        name,
        run,
        files,
    })
}

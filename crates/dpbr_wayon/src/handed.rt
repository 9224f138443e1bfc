//! Selecting the files of one unit.
ghost use Rattle.std.specs.Prelude.{◌≡◌, ◌<◌, All, IfOk, length, map};
ghost use Rattle.dpbr_wayon.specs.WayOn.{given_at, given_of};
ghost use Rattle.engine.specs.Division.{number_found};
ghost use Rattle.listing.specs.Tree.{path_at};

use engine::Units;
use faults::Memory;
use listing::Tree;
use package_record::Files;
use pkgpath::PkgPath;
use protocol::{ByPath, Packages};
use std::alloc::Global;

/// The files for the packages of the unit that the path names, in the packages' order.
pub(crate) fn handed_over(
    alloc: Global,
    tree: &Tree,
    units: &Units<'_>,
    path: &PkgPath,
    builds: &Packages,
) -> Result<Packages, Memory>
    requires { units.now.tree ≡ tree.now }
    ensures { IfOk result (λ given. given
        ≡ given_at units.now builds.now (number_found units.now path.now)) }
{
    match units.find(path) {
        Some(unit) => {
            let builds = ByPath::new(alloc, builds)?;
            given_to(alloc, tree, units.packages(unit), &builds)
        }
        None => Ok(Packages::new(Vec::new(alloc))),
    }
}

/// Those of these packages for which there are files, with their files.
fn given_to(
    alloc: Global,
    tree: &Tree,
    positions: &[u32],
    builds: &ByPath<'_>,
) -> Result<Packages, Memory>
    requires { All (λ p. p < length tree.now) positions.now }
    ensures { IfOk result (λ given.
        given ≡ given_of builds.now (map (path_at tree.now) positions.now)) }
{
    let mut items = Vec::with_capacity(alloc, positions.len())?;
    for position in positions {
        if let Some(files) = builds.files(tree.path(*position)) {
            items.push(with_path(tree.path(*position), files)?)?;
        }
    }
    Ok(Packages::new(items))
}

/// A copy of the path and the files.
fn with_path(path: &PkgPath, files: &Files) -> Result<(PkgPath, Files), Memory>
    ensures { IfOk result (λ p. p ≡ (path.now, files.now)) }
{
    let path = path.copy()?;
    let files = files.copy()?;
    Ok((path, files))
}

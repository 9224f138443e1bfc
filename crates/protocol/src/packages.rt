//! The files of some packages.
ghost use Rattle.std.specs.Prelude.{◌≡◌, IfOk, MatchOption, false, map, true};
ghost use Rattle.faults.specs.Bytes.{is_among};
ghost use Rattle.protocol.specs.Jobs.{files_for};

use faults::Memory;
use package_record::{Files, PkgPath};
use std::alloc::Global;
use std::marker::Model;

/// The files of some packages, in any order. Contracts see the list of the paths with their files.
#[derive(Drop)]
pub struct Packages {
    items: Vec<(PkgPath, Files)>,
}

impl Model for Packages {
    ghost use Rattle.protocol.specs.Given.{Given};

    ghost Value = { Given };

    ghost view = { λ p. p.items.items };
}

impl Packages {
    /// Wraps these packages and files.
    pub fn new(items: Vec<(PkgPath, Files)>) -> Packages
        ensures { result ≡ items.items }
    {
        Packages { items }
    }

    /// The packages with their files, in the order handed in.
    pub fn into_vec(self) -> Vec<(PkgPath, Files)>
        ensures { result.items ≡ self }
    {
        self.items
    }

    /// The packages with their files, in the order handed in.
    pub fn as_slice(&self) -> &[(PkgPath, Files)]
        ensures { result.now ≡ self.now }
    {
        self.items.as_slice()
    }

    /// The files of the first entry with the path, if there is one. This scans the entries up to
    /// that one; to look up several paths, use `ByPath`.
    pub fn files_of(&self, path: &PkgPath) -> Option<&Files>
        ensures { MatchOption result
            (is_among (map (λ g. g.0) self.now) path.now ≡ false)
            (λ files. (is_among (map (λ g. g.0) self.now) path.now ≡ true)
            × (files.now ≡ files_for self.now path.now)) }
    {
        for given in self.as_slice() {
            if given.0 == *path {
                return Some(&given.1);
            }
        }
        None
    }

    /// Copies the packages. Returns `Memory` if out of memory.
    pub fn copy(&self) -> Result<Packages, Memory>
        ensures { IfOk result (λ packages. packages ≡ self.now) }
    {
        let alloc: Global = *self.items.allocator();
        let all = self.items.as_slice();
        let mut items = Vec::with_capacity(alloc, all.len())?;
        for files in all {
            items.push(copy_of(files)?)?;
        }
        Ok(Packages { items })
    }
}

/// Copies the path and its files.
fn copy_of(files: &(PkgPath, Files)) -> Result<(PkgPath, Files), Memory>
    ensures { IfOk result (λ copy. copy ≡ files.now) }
{
    let (path, files) = files;
    let path = path.copy()?;
    let files = files.copy()?;
    Ok((path, files))
}

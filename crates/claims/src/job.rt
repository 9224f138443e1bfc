//! What a host is to build.
ghost use Rattle.std.specs.Prelude.{◌≡◌, IfOk};
ghost use Rattle.claims.specs.Deps.{AreAscending, AreInOrder};

use crate::{Claim, Deps};
use faults::Memory;
use pkgpath::PkgPath;
use std::alloc::Global;
use std::marker::Model;

/// The build that a claim leads to: the name of the unit, the paths of its packages, the host that
/// builds them, and the dependencies that they are built on. Paths and dependencies are in
/// ascending order of path, without repetition. The code that makes a job proves that.
#[derive(Drop)]
pub struct Job {
    /// The name of the unit: its only package's path, or the path without subpackage that its
    /// packages share.
    pub path: PkgPath,
    /// The paths of the packages to build.
    pub packages: Vec<PkgPath>,
    pub claim: Claim,
    pub host: u16,
    pub deps: Deps,
}

impl Model for Job {
    ghost use Rattle.claims.specs.Job.{Task};

    ghost Value = { Task };

    ghost use Rattle.claims.specs.inside.Job.{IsInOrder, task_of};

    ghost view = { task_of };

    ghost invariant = { IsInOrder };
}

impl Job {
    /// The paths of the packages to build, in ascending order, without repetition.
    pub fn packages(&self) -> &[PkgPath]
        ensures packages { result.now ≡ self.now.packages }
        ensures in_order { AreAscending self.now.packages }
    {
        self.packages.as_slice()
    }

    /// The dependencies, in ascending order of path, without repetition.
    pub fn deps(&self) -> &Deps
        ensures deps { result.now ≡ self.now.deps }
        ensures in_order { AreInOrder self.now.deps }
    {
        &self.deps
    }

    /// An equal job.
    pub fn copy(&self) -> Result<Job, Memory>
        ensures { IfOk result (λ job. job ≡ self.now) }
    {
        let path = self.path.copy()?;
        let packages = copy_paths(self.packages.as_slice(), *self.packages.allocator())?;
        let deps = self.deps.copy()?;
        Ok(Job {
            path,
            packages,
            claim: self.claim,
            host: self.host,
            deps,
        })
    }
}

/// Copies of the paths, in their order.
fn copy_paths(paths: &[PkgPath], alloc: Global) -> Result<Vec<PkgPath>, Memory>
    ensures { IfOk result (λ copies. copies.items ≡ paths.now) }
{
    let mut copies = Vec::with_capacity(alloc, paths.len())?;
    for path in paths {
        copies.push(path.copy()?)?;
    }
    Ok(copies)
}

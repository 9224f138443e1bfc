//! Texts of listed packages, which the builds that a member keeps share.
ghost use Rattle.std.specs.Prelude.{◌≡◌, IfOk};

use ballots::Body;
use claims::Texts;
use engine::Tree;
use faults::Memory;
use pkgname::PkgName;
use pkgpath::PkgPath;

/// The texts of a tree's paths and names.
#[derive(Drop)]
pub(crate) struct Listed<'a> {
    pub(crate) tree: &'a Tree,
}

impl<'a> Listed<'a> {
    /// An equal body. A build in it shares the tree's texts for the packages' names and paths.
    pub(crate) fn body(&self, body: Body) -> Result<Body, Memory>
        ensures { IfOk result (λ same. same ≡ body) }
    {
        match body {
            Body::Propose(claim, build) => Ok(Body::Propose(claim, build.with_texts(self)?)),
            Body::Agreed(build) => Ok(Body::Agreed(build.with_texts(self)?)),
            Body::Promise(claim, Some((voted, build))) => {
                let build = build.with_texts(self)?;
                Ok(Body::Promise(claim, Some((voted, build))))
            }
            body => Ok(body),
        }
    }
}

impl<'a> Texts for Listed<'a> {
    fn path(&self, path: PkgPath) -> PkgPath {
        match self.tree.position(&path) {
            Some(position) => same_path(self.tree.path(position), path),
            None => path,
        }
    }

    fn package(&self, path: PkgPath, name: PkgName) -> (PkgPath, PkgName) {
        match self.tree.position(&path) {
            Some(position) => (
                same_path(self.tree.path(position), path),
                same_name(self.tree.name(position), name),
            ),
            None => (path, name),
        }
    }
}

/// An equal path. It shares the text of `listed` if they are equal.
fn same_path(listed: &PkgPath, path: PkgPath) -> PkgPath
    ensures { result ≡ path }
{
    if *listed == path {
        listed.copy().unwrap_or(path)
    } else {
        path
    }
}

/// An equal name. It shares the text of `listed` if they are equal.
fn same_name(listed: &PkgName, name: PkgName) -> PkgName
    ensures { result ≡ name }
{
    if *listed == name {
        listed.copy().unwrap_or(name)
    } else {
        name
    }
}

//! Dependencies with their digests.
ghost use Rattle.std.specs.Prelude.{◌≡◌, IfOk};

use faults::Memory;
use pkgname::PkgName;
use pkgpath::PkgPath;
use std::alloc::Global;
use std::marker::Model;

/// The signature of a package that a build is made on: its path, its name, and the SHA-256 of its
/// record's text.
#[derive(Drop)]
pub struct Dep {
    pub path: PkgPath,
    pub name: PkgName,
    pub digest: [u8; 32],
}

impl Dep {
    /// An equal signature.
    pub fn copy(&self) -> Result<Dep, Memory>
        ensures { IfOk result (λ dep. dep ≡ self.now) }
    {
        let path = self.path.copy()?;
        let name = self.name.copy()?;
        Ok(Dep {
            path,
            name,
            digest: self.digest,
        })
    }

    /// An equal signature, which uses the given texts of its package.
    fn with_texts<T: Texts>(self, texts: &T) -> Dep
        ensures { result ≡ self }
    {
        let digest = self.digest;
        let (path, name) = texts.package(self.path, self.name);
        Dep { path, name, digest }
    }
}

/// A source of the texts of paths and names, for others to share.
pub trait Texts {
    /// An equal path. If the source has its text, it shares that.
    fn path(&self, path: PkgPath) -> PkgPath
        ensures { result ≡ path };

    /// The equal path and name of one package. If the source has their texts, they share these.
    fn package(&self, path: PkgPath, name: PkgName) -> (PkgPath, PkgName)
        ensures { result ≡ (path, name) };
}

/// A list of dependencies, in any order. Contracts see it as such.
#[derive(Drop)]
pub struct Deps {
    items: Vec<Dep>,
}

impl Model for Deps {
    ghost use Rattle.std.specs.Prelude.{List};
    ghost use Rattle.claims.specs.declared.deps.Dep.{Dep};

    ghost Value = { List Dep };

    ghost view = { λ d. d.items.items };
}

impl Deps {
    /// The list of these, in their order.
    pub fn new(items: Vec<Dep>) -> Deps
        ensures { result ≡ items.items }
    {
        Deps { items }
    }

    /// The dependencies, in the list's order.
    pub fn into_vec(self) -> Vec<Dep>
        ensures { result.items ≡ self }
    {
        self.items
    }

    /// The dependencies, in the list's order.
    pub fn as_slice(&self) -> &[Dep]
        ensures { result.now ≡ self.now }
    {
        self.items.as_slice()
    }

    /// An equal list.
    pub fn copy(&self) -> Result<Deps, Memory>
        ensures { IfOk result (λ deps. deps ≡ self.now) }
    {
        let alloc: Global = *self.items.allocator();
        let all = self.items.as_slice();
        let mut items = Vec::with_capacity(alloc, all.len())?;
        for dep in all {
            items.push(dep.copy()?)?;
        }
        Ok(Deps { items })
    }

    /// An equal list, which uses the given texts of its packages, without spare capacity.
    pub fn with_texts<T: Texts>(self, texts: &T) -> Result<Deps, Memory>
        ensures { IfOk result (λ deps. deps ≡ self) }
    {
        let alloc: Global = *self.items.allocator();
        let mut items = Vec::with_capacity(alloc, self.items.len())?;
        for dep in self.items {
            items.push(dep.with_texts(texts))?;
        }
        Ok(Deps { items })
    }
}

//! A package of a list.
ghost use Rattle.std.specs.Prelude.{◌≡◌, IfOk};

use claims::Deps;
use faults::Memory;
use pkgname::PkgName;
use pkgpath::PkgPath;

/// A package of a list: its signature, and the signatures of the packages that it was built on, in
/// any order.
#[derive(Drop)]
pub struct Entry {
    pub path: PkgPath,
    pub name: PkgName,
    /// The SHA-256 digest of the package's record.
    pub digest: [u8; 32],
    pub built: Deps,
}

impl Entry {
    /// An equal entry.
    pub fn copy(&self) -> Result<Entry, Memory>
        ensures { IfOk result (λ entry. entry ≡ self.now) }
    {
        let path = self.path.copy()?;
        let name = self.name.copy()?;
        let built = self.built.copy()?;
        Ok(Entry {
            path,
            name,
            digest: self.digest,
            built,
        })
    }
}

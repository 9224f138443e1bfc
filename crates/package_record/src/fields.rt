//! The contents of a record, field by field.
ghost use Rattle.std.specs.Prelude.{◌≡◌, IfOk};
ghost use Rattle.package_record.specs.Views.{content_of};

use crate::hashed_files::HashedFiles;
use claims::{Claim, Deps, PkgName, PkgPath, Texts};
use faults::Memory;
use std::alloc::Global;

/// The contents of a record, as given or parsed.
#[derive(Drop)]
pub struct Fields {
    pub path: PkgPath,
    pub name: PkgName,
    pub host: u16,
    pub claim: Claim,
    pub built: Deps,
    pub run: Vec<PkgPath>,
    pub files: HashedFiles,
}

impl Fields {
    /// Equal fields, which use the given texts of the packages that they name.
    pub(crate) fn with_texts<T: Texts>(self, texts: &T) -> Result<Fields, Memory>
        ensures { IfOk result (λ fields. content_of fields ≡ content_of self) }
    {
        let (path, name) = texts.package(self.path, self.name);
        let built = self.built.with_texts(texts)?;
        let run = paths_with_texts(self.run, texts)?;
        Ok(Fields {
            path,
            name,
            host: self.host,
            claim: self.claim,
            built,
            run,
            files: self.files,
        })
    }
}

/// Equal paths, which use the given texts, without spare capacity.
fn paths_with_texts<T: Texts>(paths: Vec<PkgPath>, texts: &T) -> Result<Vec<PkgPath>, Memory>
    ensures { IfOk result (λ same. same.items ≡ paths.items) }
{
    let alloc: Global = *paths.allocator();
    let mut same = Vec::with_capacity(alloc, paths.len())?;
    for path in paths {
        same.push(texts.path(path))?;
    }
    Ok(same)
}

//! The files of a package.
ghost use Rattle.std.specs.Prelude.{◌≡◌, IfOk, map};
ghost use Rattle.package_record.specs.FileView.{file_view};

use crate::File;
use faults::Memory;
use std::alloc::Global;
use std::marker::Model;

/// A list of files. Contracts see their names and bytes. The names are tested when a record is
/// made.
#[derive(Drop)]
pub struct Files {
    items: Vec<File>,
}

impl Model for Files {
    ghost use Rattle.std.specs.Prelude.{List, map};
    ghost use Rattle.package_record.specs.Content.{NamedFile};
    ghost use Rattle.package_record.specs.FileView.{file_view};

    ghost Value = { List NamedFile };

    ghost view = { λ f. map file_view f.items.items };
}

impl Files {
    /// The list of these files, in their order.
    pub fn new(items: Vec<File>) -> Files
        ensures { result ≡ map file_view items.items }
    {
        Files { items }
    }

    /// The files, in the list's order.
    pub fn into_vec(self) -> Vec<File>
        ensures { map file_view result.items ≡ self }
    {
        self.items
    }

    /// The files, in the list's order.
    pub fn as_slice(&self) -> &[File]
        ensures { map file_view result.now ≡ self.now }
    {
        self.items.as_slice()
    }

    /// An equal list.
    pub fn copy(&self) -> Result<Files, Memory>
        ensures { IfOk result (λ files. files ≡ self.now) }
    {
        let alloc: Global = *self.items.allocator();
        let items = copy_files(alloc, self.items.as_slice())?;
        Ok(Files { items })
    }
}

/// Equal files.
fn copy_files(alloc: Global, files: &[File]) -> Result<Vec<File>, Memory>
    ensures { IfOk result (λ copies. map file_view copies.items ≡ map file_view files.now) }
{
    let mut copies = Vec::with_capacity(alloc, files.len())?;
    for file in files {
        copies.push(file.copy()?)?;
    }
    Ok(copies)
}

//! The files of a record, with their digests.
ghost use Rattle.std.specs.Prelude.{◌≡◌, ◌<◌, ◌++◌, [], ◌∷◌, IfOk, OnOk, length, map};
ghost use Rattle.sha2.specs.Sha256.{sha256};
ghost use Rattle.package_record.specs.FileView.{file_view};
ghost use Rattle.package_record.specs.inside.Hashed.{digest_at};

use crate::File;
use faults::Memory;
use sha2::{Digest, Sha256};
use std::alloc::Global;
use std::marker::Model;

/// Files, each with the SHA-256 (FIPS 180-4) of its bytes. The digest is computed once, however
/// often the text of a record is written. Contracts see the files' names and bytes.
#[derive(Drop)]
pub struct HashedFiles {
    files: Vec<File>,
    digests: Vec<[u8; 32]>,
}

impl Model for HashedFiles {
    ghost use Rattle.std.specs.Prelude.{◌≡◌, List, map};
    ghost use Rattle.package_record.specs.Content.{NamedFile};
    ghost use Rattle.package_record.specs.FileView.{file_view};
    ghost use Rattle.package_record.specs.inside.Hashed.{digests_of};

    ghost Value = { List NamedFile };

    ghost view = { λ f. map file_view f.files.items };

    ghost invariant = { λ f. f.digests.items ≡ digests_of f.files.items };
}

impl HashedFiles {
    /// No files, with capacity for this number.
    pub fn with_capacity(alloc: Global, count: usize) -> Result<HashedFiles, Memory>
        ensures { IfOk result (λ files. files ≡ []) }
    {
        let files = Vec::with_capacity(alloc, count)?;
        let digests = Vec::with_capacity(alloc, count)?;
        Ok(HashedFiles { files, digests })
    }

    /// These files, without spare capacity.
    pub fn of(alloc: Global, files: Vec<File>) -> Result<HashedFiles, Memory>
        ensures { IfOk result (λ hashed. hashed ≡ map file_view files.items) }
    {
        let mut hashed = HashedFiles::with_capacity(alloc, files.len())?;
        for file in files {
            let digest: [u8; 32] = Sha256::digest(file.bytes.as_slice());
            hashed.push(file.tight(), digest)?;
        }
        Ok(hashed)
    }

    /// Adds a file whose bytes have this digest.
    pub fn push(&mut self, file: File, digest: [u8; 32]) -> Result<(), Memory>
        requires { digest ≡ sha256 file.bytes.items }
        ensures { OnOk result (self.new ≡ self.old ++ file_view file ∷ []) }
    {
        self.files.reserve(1)?;
        self.digests.reserve(1)?;
        self.files.push(file).unwrap();
        self.digests.push(digest).unwrap();
        Ok(())
    }

    /// The files, in order.
    pub fn as_slice(&self) -> &[File]
        ensures { map file_view result.now ≡ self.now }
    {
        self.files.as_slice()
    }

    /// The digest of a file's bytes.
    pub fn digest(&self, index: usize) -> &[u8; 32]
        requires { index < length self.now }
        ensures { result.now ≡ digest_at self.now index }
    {
        &self.digests[index]
    }

    /// The allocator of the files.
    pub fn allocator(&self) -> Global {
        *self.files.allocator()
    }
}

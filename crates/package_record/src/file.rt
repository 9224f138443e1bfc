//! A file of a package.
ghost use Rattle.std.specs.Prelude.{◌≡◌, IfOk};

use faults::Memory;

/// A file: its name, with slashes between components, and its bytes. The name is tested when a
/// record is made.
#[derive(Drop)]
pub struct File {
    pub name: Vec<u8>,
    pub bytes: Vec<u8>,
}

impl File {
    /// An equal file.
    pub fn copy(&self) -> Result<File, Memory>
        ensures name { IfOk result (λ file. file.name.items ≡ self.now.name.items) }
        ensures bytes { IfOk result (λ file. file.bytes.items ≡ self.now.bytes.items) }
    {
        let name = self.name.clone()?;
        let bytes = self.bytes.clone()?;
        Ok(File { name, bytes })
    }

    /// The same file, without spare capacity.
    pub(crate) fn tight(self) -> File
        ensures name { result.name.items ≡ self.name.items }
        ensures bytes { result.bytes.items ≡ self.bytes.items }
    {
        let File {
            mut name,
            mut bytes,
        } = self;
        name.shrink_to_fit();
        bytes.shrink_to_fit();
        File { name, bytes }
    }
}

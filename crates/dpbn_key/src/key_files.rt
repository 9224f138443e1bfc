//! Files that may contain a key.
ghost use Rattle.std.specs.Prelude.{⊤, ℕ, IfErr, IfOk};
ghost use Rattle.dpbn_key.specs.Refusals.{IsOfSystem};
ghost use Rattle.faults.specs.Bytes.{Text};

use crate::fault::KeyFault;
use std::fs;
use std::fs::File;
use std::io::Read;
use std::os::unix::fs::MetadataExt;

/// The maximum number of bytes that are read of a file: one more than the text of a key has.
const MOST: u64 = 66;

/// What a read of a file gave.
#[derive(Drop)]
pub struct KeyFile {
    /// The mode of the file that was opened, even if the name refers to another one by then.
    pub mode: u32,
    /// Its first bytes: more than the text of a key has, if there are as many.
    pub text: Vec<u8>,
}

/// Files with names. Code that is given them can only read them.
pub trait KeyFiles {
    /// Whether a read of this name gave this mode and this text, as far as the implementation says.
    ghost gave: { Self → Text → ℕ → Text → Type 0 };

    /// Reads the file with that name.
    ///
    /// # Errors
    ///
    /// The system's refusal.
    fn read(&self, name: &str) -> Result<KeyFile, KeyFault>
        ensures gave { IfOk result (λ file. gave self.now name.now file.mode file.text.items) }
        ensures refused { IfErr result IsOfSystem };
}

/// The files of the system that the program runs on.
#[derive(Drop)]
pub struct SystemKeys<'a> {
    rt: &'a HostRuntime,
}

impl<'a> SystemKeys<'a> {
    /// The files of this system.
    pub fn of(rt: &'a HostRuntime) -> SystemKeys<'a> {
        SystemKeys { rt }
    }
}

impl<'a> KeyFiles for SystemKeys<'a> {
    /// No contract can say what a file of the system gives.
    ghost gave = { λ _ _ _ _. ⊤ };

    /// Reads the file with that name, which must be a regular file.
    fn read(&self, name: &str) -> Result<KeyFile, KeyFault> {
        // Opening a FIFO would wait for a writer.
        if !fs::metadata(self.rt, name)?.is_file() {
            return Err(KeyFault::Files);
        }
        let file = File::open(self.rt, name)?;
        let mode = file.metadata()?.mode();
        let mut text = Vec::new(self.rt.alloc());
        file.take(MOST).read_to_end(&mut text)?;
        Ok(KeyFile { mode, text })
    }
}

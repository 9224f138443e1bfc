//! Texts that are read by their names.
ghost use Rattle.std.specs.Prelude.{⊤, IfErr, IfOk};
ghost use Rattle.faults.specs.Bytes.{Text};
ghost use Rattle.program_io.specs.Refusals.{IsSystemRefusal};

use crate::refusal::Refusal;
use std::fs;
use std::rt::Files;

/// Texts with names. Code that is given them can only read them: code that is generic in them can't
/// write, rename or remove a file.
pub trait NamedTexts {
    /// Whether a read of this name returned this text, as far as the implementation says.
    ghost gave: { Self → Text → Text → Type 0 } = { λ _ _ _. ⊤ };

    /// The text with that name.
    ///
    /// # Errors
    ///
    /// What the system refused.
    fn read(&self, name: &str) -> Result<Vec<u8>, Refusal>
        ensures gave { IfOk result (λ text. gave self.now name.now text.items) }
        ensures refused { IfErr result IsSystemRefusal };
}

/// The files of the system that the program runs on.
#[derive(Drop)]
pub struct SystemFiles<'a, R> {
    rt: &'a R,
}

impl<'a, R: Files + AllocGlobal> SystemFiles<'a, R> {
    /// The files of this system.
    pub fn of(rt: &'a R) -> SystemFiles<'a, R> {
        SystemFiles { rt }
    }
}

impl<'a, R: Files + AllocGlobal> NamedTexts for SystemFiles<'a, R> {
    fn read(&self, name: &str) -> Result<Vec<u8>, Refusal> {
        let text = fs::read(self.rt, name)?;
        Ok(text)
    }
}

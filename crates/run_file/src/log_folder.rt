//! The folder of a member's log and its run file, as a start sees it.
ghost use Rattle.std.specs.Prelude.{ℕ, Option, IfErr, IfOk, IfSome, option_map};
ghost use Rattle.faults.specs.Bytes.{Text};
ghost use Rattle.run_file.specs.Looking.{IsJustOpened};
ghost use Rattle.run_file.specs.Refusals.{IsOfSystem};
ghost use Rattle.stable_record.specs.History.{History};

use crate::fault::StartFault;
use stable_record::FileDisk;

/// The folder that contains a member's log and its run file. Code that is given one can look at it,
/// and open or create the log; code that is generic in it can't write or remove another file.
pub trait LogFolder {
    /// Whether the folder was found with this mode, as far as the implementation says.
    ghost had_mode: { Self → ℕ → Type 0 };

    /// Whether a read of the member's run file gave this text, or found no file, as far as the
    /// implementation says.
    ghost gave: { Self → ℕ → Option Text → Type 0 };

    /// What is supposed about the file of the member's log when it is opened.
    ghost known: { Self → ℕ → History };

    /// The folder's mode.
    ///
    /// # Errors
    ///
    /// The system's refusal.
    fn mode(&self) -> Result<u32, StartFault>
        ensures had { IfOk result (had_mode self.now) }
        ensures refused { IfErr result IsOfSystem };

    /// Reads the member's run file. Returns `None` if it doesn't exist.
    ///
    /// # Errors
    ///
    /// The system's refusal.
    fn read_run(&self, me: u8) -> Result<Option<Vec<u8>>, StartFault>
        ensures gave { IfOk result
            (λ run. gave self.now me (option_map (λ text. text.items) run)) }
        ensures refused { IfErr result IsOfSystem };

    /// Opens the member's log, and locks its file while the disk is open. Returns `None` if it
    /// doesn't exist.
    ///
    /// # Errors
    ///
    /// The system's refusal, also if the log is locked.
    fn open_log(&self, me: u8) -> Result<Option<FileDisk>, StartFault>
        ensures opened { IfOk result (λ found. IfSome found (IsJustOpened (known self.now me))) }
        ensures refused { IfErr result IsOfSystem };

    /// Creates the member's log, which must not exist, and locks its file while the disk is open.
    ///
    /// # Errors
    ///
    /// The system's refusal, also if the log exists.
    fn make_log(&self, me: u8) -> Result<FileDisk, StartFault>
        ensures made { IfOk result (IsJustOpened (known self.now me)) }
        ensures refused { IfErr result IsOfSystem };
}

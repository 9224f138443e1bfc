//! Why a folder can't be used.
ghost use Rattle.std.specs.Prelude.{◌≡◌, ◌⊎◌, None};
ghost use Rattle.job_folder.specs.Refusals.{number_of};
ghost use Rattle.job_folder.specs.declared.fault.WorkFault.TheVariants.{Files, Memory as NoMemory};

use faults::{Fault, Memory};
use std::alloc::AllocError;
use std::io;
use std::io::ErrorKind;
use thiserror::Error;

/// Why a folder isn't opened, or a file in it isn't read, written or removed.
#[derive(Clone, Copy, Debug, PartialEq, Eq, Error)]
pub enum WorkFault {
    #[error("out of memory")]
    Memory,
    /// The system refused something.
    #[error("a file of the work folder can't be read or written")]
    Files,
    /// The folder has files, but the log that it is opened with has no notes.
    #[error("the work folder has files of another run")]
    OtherRun,
}

impl Fault for WorkFault {
    ghost number_of = { number_of };

    ghost place_of = { λ _. None };

    fn number(&self) -> u32 {
        match self {
            WorkFault::Memory => 1,
            WorkFault::Files => 2,
            WorkFault::OtherRun => 1209,
        }
    }

    fn place(&self) -> Option<u64> {
        None
    }
}

impl From<Memory> for WorkFault {
    ghost from_gives = { λ _ e. e ≡ NoMemory };

    fn from(_e: Memory) -> WorkFault {
        WorkFault::Memory
    }
}

impl From<AllocError> for WorkFault {
    ghost from_gives = { λ _ e. e ≡ NoMemory };

    fn from(_e: AllocError) -> WorkFault {
        WorkFault::Memory
    }
}

impl From<io::Error> for WorkFault {
    ghost from_gives = { λ _ e. (e ≡ NoMemory) ⊎ (e ≡ Files) };

    fn from(error: io::Error) -> WorkFault {
        if error.kind() == ErrorKind::OutOfMemory {
            WorkFault::Memory
        } else {
            WorkFault::Files
        }
    }
}

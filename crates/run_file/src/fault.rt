//! Why a node doesn't start on its log.
ghost use Rattle.std.specs.Prelude.{◌≡◌, ◌⊎◌};
ghost use Rattle.run_file.specs.Refusals.{number_of, number_of_start, place_of, place_of_start, told_by};
ghost use Rattle.run_file.specs.declared.fault.StartFault.TheVariants.{Files, Memory as NoMemory, Run};

use faults::Fault;
use stable_record::DiskFault;
use std::alloc::AllocError;
use std::io;
use std::io::ErrorKind;
use thiserror::Error;

/// Why a node doesn't start on the log that it finds, or that is missing.
#[derive(Clone, Copy, Debug, PartialEq, Eq, Error)]
pub enum RunFault {
    /// The run file is of another run, and first differs in this line. If the line is 0, the log
    /// has notes but no run file, and the run has a key.
    #[error("line {0} of the run file shows that the log belongs to another run")]
    Differs(u64),
    /// There is a run file, but its log is missing, or is empty and would be made anew.
    #[error("the member's log is lost")]
    Lost,
    /// A run should be continued, but there is no run file, and the log is missing or blank.
    #[error("there is no run to continue")]
    NothingThere,
}

impl Fault for RunFault {
    ghost number_of = { number_of };

    ghost place_of = { place_of };

    fn number(&self) -> u32 {
        match self {
            RunFault::Differs(_) => 1006,
            RunFault::Lost => 1007,
            RunFault::NothingThere => 1008,
        }
    }

    fn place(&self) -> Option<u64> {
        match self {
            RunFault::Differs(line) => Some(*line),
            RunFault::Lost | RunFault::NothingThere => None,
        }
    }
}

/// Why a start failed.
#[derive(Clone, Copy, Debug, PartialEq, Eq, Error)]
pub enum StartFault {
    #[error("out of memory")]
    Memory,
    /// The system refused to read or to write a file, or the log is locked.
    #[error("a file can't be read or written")]
    Files,
    /// The device of the log failed.
    #[error("the device failed")]
    Device,
    /// Others than the folder's owner may write in it.
    #[error("others may write in the folder")]
    Shared,
    /// The log must not be opened.
    #[error("{0}")]
    Run(RunFault),
}

impl Fault for StartFault {
    ghost number_of = { number_of_start };

    ghost place_of = { place_of_start };

    fn number(&self) -> u32 {
        match self {
            StartFault::Memory => 1,
            StartFault::Files => 2,
            StartFault::Device => 1001,
            StartFault::Shared => 1210,
            StartFault::Run(fault) => fault.number(),
        }
    }

    fn place(&self) -> Option<u64> {
        match self {
            StartFault::Run(fault) => fault.place(),
            StartFault::Memory | StartFault::Files | StartFault::Device | StartFault::Shared => {
                None
            }
        }
    }
}

impl From<AllocError> for StartFault {
    ghost from_gives = { λ _ e. e ≡ NoMemory };

    fn from(_e: AllocError) -> StartFault {
        StartFault::Memory
    }
}

impl From<io::Error> for StartFault {
    ghost from_gives = { λ _ e. (e ≡ NoMemory) ⊎ (e ≡ Files) };

    fn from(error: io::Error) -> StartFault {
        if error.kind() == ErrorKind::OutOfMemory {
            StartFault::Memory
        } else {
            StartFault::Files
        }
    }
}

impl From<DiskFault> for StartFault {
    ghost from_gives = { λ fault e. e ≡ told_by fault };

    fn from(fault: DiskFault) -> StartFault {
        match fault {
            DiskFault::Memory => StartFault::Memory,
            DiskFault::Device => StartFault::Device,
        }
    }
}

impl From<RunFault> for StartFault {
    ghost from_gives = { λ fault e. e ≡ Run fault };

    fn from(fault: RunFault) -> StartFault {
        StartFault::Run(fault)
    }
}

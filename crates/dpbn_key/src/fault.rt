//! Why a file has no key.
ghost use Rattle.std.specs.Prelude.{◌≡◌, ◌⊎◌, None};
ghost use Rattle.dpbn_key.specs.Refusals.{number_of};
ghost use Rattle.dpbn_key.specs.declared.fault.KeyFault.TheVariants.{Files, Memory as NoMemory};

use faults::Fault;
use std::io;
use std::io::ErrorKind;
use thiserror::Error;

/// Why no key can be read from a file, or written to one.
#[derive(Clone, Copy, Debug, PartialEq, Eq, Error)]
pub enum KeyFault {
    #[error("out of memory")]
    Memory,
    /// The system refused to read or to write the file.
    #[error("the file can't be read or written")]
    Files,
    /// The file isn't a line of 64 hexadecimal digits.
    #[error("the file doesn't contain a key")]
    NoKey,
    /// Others than the file's owner may read, write or run it.
    #[error("others may read or write the key file")]
    Exposed,
}

impl Fault for KeyFault {
    ghost number_of = { number_of };

    ghost place_of = { λ _. None };

    fn number(&self) -> u32 {
        match self {
            KeyFault::Memory => 1,
            KeyFault::Files => 2,
            KeyFault::NoKey => 1207,
            KeyFault::Exposed => 1208,
        }
    }

    fn place(&self) -> Option<u64> {
        None
    }
}

impl From<io::Error> for KeyFault {
    ghost from_gives = { λ _ e. (e ≡ NoMemory) ⊎ (e ≡ Files) };

    fn from(error: io::Error) -> KeyFault {
        if error.kind() == ErrorKind::OutOfMemory {
            KeyFault::Memory
        } else {
            KeyFault::Files
        }
    }
}

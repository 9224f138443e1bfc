//! Why a value can't be parsed.
ghost use Rattle.std.specs.Prelude.{◌≡◌};
ghost use Rattle.traces.specs.declared.read_error.ReadError.TheVariants.{Memory as out_of_memory};
ghost use Rattle.traces.specs.inside.Given.{outer_fault};

use crate::TraceFault;
use faults::WantOfMemory;

/// Out of memory, or a malformed value.
#[derive(Debug, Drop)]
pub enum ReadError {
    Memory,
    Bad,
}

impl<E: WantOfMemory> From<E> for ReadError {
    ghost from_gives = { λ _ e. e ≡ out_of_memory };

    fn from(_e: E) -> ReadError {
        ReadError::Memory
    }
}

impl From<ReadError> for TraceFault {
    ghost from_gives = { λ e f. f ≡ outer_fault e };

    fn from(e: ReadError) -> TraceFault {
        match e {
            ReadError::Memory => TraceFault::Memory,
            ReadError::Bad => TraceFault::BadTrace(0),
        }
    }
}

//! Why a text could not be parsed.
ghost use Rattle.std.specs.Prelude.{◌≡◌};
ghost use Rattle.package_record.specs.inside.Given.{refusal_of};
ghost use Rattle.package_record.specs.declared.fault.ReadError.TheVariants.{Memory as out_of_memory};

use crate::RecordFault;
use faults::WantOfMemory;

/// Out of memory, or this fault of the text.
#[derive(Debug, Drop)]
pub enum ReadError {
    Memory,
    Fault(RecordFault),
}

impl<E: WantOfMemory> From<E> for ReadError {
    ghost from_gives = { λ _ e. e ≡ out_of_memory };

    fn from(_e: E) -> ReadError {
        ReadError::Memory
    }
}

impl From<ReadError> for RecordFault {
    ghost from_gives = { λ e f. f ≡ refusal_of e };

    fn from(e: ReadError) -> RecordFault {
        match e {
            ReadError::Memory => RecordFault::Memory,
            ReadError::Fault(fault) => fault,
        }
    }
}

//! Why bytes could not be parsed.
ghost use Rattle.std.specs.Prelude.{◌≡◌};
ghost use Rattle.wire.specs.inside.Given.{refusal_of};
ghost use Rattle.wire.specs.declared.fault.ReadError.TheVariants.{Memory as out_of_memory};

use crate::WireFault;
use faults::WantOfMemory;

/// Out of memory, or this fault of the bytes.
#[derive(Debug, Drop)]
pub enum ReadError {
    Memory,
    Fault(WireFault),
}

impl<E: WantOfMemory> From<E> for ReadError {
    ghost from_gives = { λ _ e. e ≡ out_of_memory };

    fn from(_e: E) -> ReadError {
        ReadError::Memory
    }
}

impl From<ReadError> for WireFault {
    ghost from_gives = { λ e f. f ≡ refusal_of e };

    fn from(e: ReadError) -> WireFault {
        match e {
            ReadError::Memory => WireFault::Memory,
            ReadError::Fault(fault) => fault,
        }
    }
}

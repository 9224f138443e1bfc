//! Refusals, as they are reported.
ghost use Rattle.std.specs.Prelude.{◌≡◌, Some};
ghost use Rattle.program_io.specs.Listings.{listing_refusal};
ghost use Rattle.program_io.specs.Refusals.{
  IsSystemRefusal,
  device_refusal,
  memory_refusal,
  refusal_text,
};

use faults::{Fault, Memory};
use listing::ListingFault;
use std::alloc::AllocError;
use std::io::ErrorKind;
use std::{fmt, io};

/// The number of a fault, and its line or event, counted from 1, if it has one. The place is 0 for
/// what is outside the events of a trace.
#[derive(Clone, Copy, Debug, PartialEq, Eq)]
pub struct Refusal {
    pub number: u32,
    pub place: Option<u64>,
}

impl Refusal {
    /// The refusal for the fault.
    pub fn of<F: Fault>(fault: &F) -> Refusal
        ensures number { result.number ≡ F.number_of fault.now }
        ensures place { result.place ≡ F.place_of fault.now }
    {
        Refusal {
            number: fault.number(),
            place: fault.place(),
        }
    }

    /// Out of memory.
    pub fn memory() -> Refusal
        ensures { result ≡ memory_refusal }
    {
        Refusal {
            number: 1,
            place: None,
        }
    }

    /// A file can't be read or written.
    pub fn device() -> Refusal
        ensures { result ≡ device_refusal }
    {
        Refusal {
            number: 2,
            place: None,
        }
    }
}

impl fmt::Display for Refusal {
    ghost output = { λ r. Some (refusal_text r) };

    fn fmt<W: fmt::Write>(&self, f: &mut fmt::Formatter<W>) -> fmt::Result {
        match self.place {
            Some(place) => write!(f, "fault {} at {place}", self.number),
            None => write!(f, "fault {}", self.number),
        }
    }
}

impl From<ListingFault> for Refusal {
    ghost from_gives = { λ fault refusal. refusal ≡ listing_refusal fault };

    fn from(fault: ListingFault) -> Refusal {
        Refusal::of(&fault)
    }
}

impl From<Memory> for Refusal {
    ghost from_gives = { λ _ refusal. refusal ≡ memory_refusal };

    fn from(_e: Memory) -> Refusal {
        Refusal::memory()
    }
}

impl From<AllocError> for Refusal {
    ghost from_gives = { λ _ refusal. refusal ≡ memory_refusal };

    fn from(_e: AllocError) -> Refusal {
        Refusal::memory()
    }
}

impl From<io::Error> for Refusal {
    ghost from_gives = { λ _ refusal. IsSystemRefusal refusal };

    fn from(error: io::Error) -> Refusal {
        if error.kind() == ErrorKind::OutOfMemory {
            Refusal::memory()
        } else {
            Refusal::device()
        }
    }
}

//! Why a run stopped.
ghost use Rattle.std.specs.Prelude.{◌≡◌};
ghost use Rattle.simulator.specs.Faults.{cause_of, number_of};

use faults::Fault;
use std::error::Error;
use std::fmt;
use world::WorldFault;

/// The event at which a run stopped, counted from 1, and why it did. There is no event if memory
/// ran out before the first.
#[derive(Clone, Copy, Debug, PartialEq, Eq)]
pub struct RunFault {
    pub event: Option<u64>,
    pub fault: WorldFault,
}

impl fmt::Display for RunFault {
    fn fmt<W: fmt::Write>(&self, f: &mut fmt::Formatter<W>) -> fmt::Result {
        match self.event {
            Some(event) => write!(f, "event {event}: {}", self.fault),
            None => write!(f, "{}", self.fault),
        }
    }
}

impl Error for RunFault {}

impl Fault for RunFault {
    ghost number_of = { number_of };

    ghost place_of = { λ f. f.event };

    fn number(&self) -> u32 {
        self.fault.number()
    }

    /// The number of the event.
    fn place(&self) -> Option<u64> {
        self.event
    }
}

impl RunFault {
    /// The number of the underlying refusal, if a node refused and there is one.
    pub fn cause(&self) -> Option<u32>
        ensures { result ≡ cause_of self.now }
    {
        self.fault.cause()
    }
}

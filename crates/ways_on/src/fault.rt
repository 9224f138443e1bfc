//! Why there is no way.
ghost use Rattle.std.specs.Prelude.{◌≡◌, None};
ghost use Rattle.ways_on.specs.Refusals.{cause_of, number_of};
ghost use Rattle.ways_on.specs.declared.fault.WayFault.TheVariants.{Memory as out_of_memory};

use faults::{Fault, WantOfMemory};
use protocol::Refusal;
use thiserror::Error;

/// Why there is no way: the first test that fails decides.
#[derive(Clone, Copy, Debug, PartialEq, Eq, Error)]
pub enum WayFault {
    #[error("out of memory")]
    Memory,
    #[error("there is no such node")]
    NoSuchNode,
    #[error("the node is down")]
    NodeDown,
    /// The node doesn't show the path as one that can be built now.
    #[error("the path is not queued")]
    NotQueued,
    #[error("no majority of the members is up")]
    NoMajority,
    /// A member would refuse: the path is not listed, no round is left, the files are of other
    /// packages, or they make no build.
    #[error("{0}")]
    Refused(Refusal),
}

impl<E: WantOfMemory> From<E> for WayFault {
    ghost from_gives = { λ _ e. e ≡ out_of_memory };

    fn from(_e: E) -> WayFault {
        WayFault::Memory
    }
}

impl Fault for WayFault {
    ghost number_of = { number_of };

    ghost place_of = { λ _. None };

    fn number(&self) -> u32 {
        match self {
            WayFault::Memory => 1,
            WayFault::NoSuchNode => 1301,
            WayFault::NodeDown => 1303,
            WayFault::NoMajority => 1306,
            WayFault::NotQueued => 1307,
            WayFault::Refused(refusal) => refusal.number(),
        }
    }

    fn place(&self) -> Option<u64> {
        None
    }
}

impl WayFault {
    /// The number of the underlying refusal: why the files make no build.
    pub fn cause(&self) -> Option<u32>
        ensures { result ≡ cause_of self.now }
    {
        match self {
            WayFault::Refused(refusal) => refusal.cause(),
            _ => None,
        }
    }
}

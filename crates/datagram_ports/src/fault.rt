//! Why a port refuses a call.
ghost use Rattle.std.specs.Prelude.{◌≡◌, None};
ghost use Rattle.datagram_ports.specs.Refusals.{number_of};
ghost use Rattle.datagram_ports.specs.declared.fault.PortFault.TheVariants.{Memory as out_of_memory};

use faults::{Fault, WantOfMemory};
use thiserror::Error;

/// Why a port refused a call.
#[derive(Clone, Copy, Debug, PartialEq, Eq, Error)]
pub enum PortFault {
    #[error("out of memory")]
    Memory,
    /// A socket can't be bound.
    #[error("a socket can't be bound")]
    NoSocket,
    /// The port couldn't take a datagram, or couldn't return one.
    #[error("the port failed")]
    Failed,
}

impl<E: WantOfMemory> From<E> for PortFault {
    ghost from_gives = { λ _ e. e ≡ out_of_memory };

    fn from(_e: E) -> PortFault {
        PortFault::Memory
    }
}

impl Fault for PortFault {
    ghost number_of = { number_of };

    ghost place_of = { λ _. None };

    fn number(&self) -> u32 {
        match self {
            PortFault::Memory => 1,
            PortFault::Failed => 1205,
            PortFault::NoSocket => 1204,
        }
    }

    fn place(&self) -> Option<u64> {
        None
    }
}

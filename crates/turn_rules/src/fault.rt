//! Why a turn is refused.
ghost use Rattle.std.specs.Prelude.{◌≡◌, None};
ghost use Rattle.turn_rules.specs.Refusals.{cause_of, number_of, place_of};
ghost use Rattle.turn_rules.specs.declared.fault.TurnFault.TheVariants.{Memory as out_of_memory};

use faults::{Fault, WantOfMemory};
use node::NodeFault;
use thiserror::Error;

/// Why a turn did nothing, or why no node can be made to take turns.
#[derive(Clone, Copy, Debug, PartialEq, Eq, Error)]
pub enum TurnFault {
    #[error("out of memory")]
    Memory,
    /// The node refuses what was chosen, or can't be opened.
    #[error("{0}")]
    Node(NodeFault),
    /// The node's device failed. The node is down for the rest of the run.
    #[error("node {0} went down")]
    Down(u8),
    /// Bytes were received that no node sent.
    #[error("no such datagram was sent")]
    NotSent,
    /// A log that should be new has notes.
    #[error("the log is not new")]
    NotFresh,
}

impl<E: WantOfMemory> From<E> for TurnFault {
    ghost from_gives = { λ _ e. e ≡ out_of_memory };

    fn from(_e: E) -> TurnFault {
        TurnFault::Memory
    }
}

impl Fault for TurnFault {
    ghost number_of = { number_of };

    ghost place_of = { place_of };

    fn number(&self) -> u32 {
        match self {
            TurnFault::Memory => 1,
            TurnFault::Node(fault) => fault.number(),
            TurnFault::Down(_) => 1001,
            TurnFault::NotSent => 1202,
            TurnFault::NotFresh => 1203,
        }
    }

    /// The number of the node that went down.
    fn place(&self) -> Option<u64> {
        match self {
            TurnFault::Down(node) => Some(u64::from(*node)),
            _ => None,
        }
    }
}

impl TurnFault {
    /// The number of the refusal that caused it, if there is one.
    pub fn cause(&self) -> Option<u32>
        ensures { result ≡ cause_of self.now }
    {
        match self {
            TurnFault::Node(fault) => fault.cause(),
            TurnFault::NotSent => Some(1302),
            _ => None,
        }
    }
}

//! Why a node refuses a call.
ghost use Rattle.std.specs.Prelude.{◌≡◌, None};
ghost use Rattle.node.specs.Refusals.{cause_of, number_of};
ghost use Rattle.node.specs.declared.fault.NodeFault.TheVariants.{Memory as out_of_memory};

use faults::{Fault, WantOfMemory};
use protocol::Refusal;
use stable_record::LogFault;
use thiserror::Error;
use wire::WireFault;

/// Why received bytes mean nothing to a node.
#[derive(Clone, Copy, Debug, PartialEq, Eq, Error)]
pub enum Foreign {
    /// They don't encode a datagram, or the pieces of a message don't join to one.
    #[error("{0}")]
    Bytes(WireFault),
    /// The message is of another tree, names a member that doesn't exist, or isn't about a unit.
    #[error("{0}")]
    Message(Refusal),
}

/// Why a node doesn't take a step, or isn't opened. If several reasons apply, the one that is
/// tested first is returned.
#[derive(Clone, Copy, Debug, PartialEq, Eq, Error)]
pub enum NodeFault {
    #[error("out of memory")]
    Memory,
    /// The member refuses the input.
    #[error("{0}")]
    Refused(Refusal),
    /// The log refuses the note, or the file.
    #[error("{0}")]
    Log(LogFault),
    /// The device failed in an earlier step, and the node has not been opened again.
    #[error("the node stopped")]
    Stopped,
    /// The datagram means nothing to this node.
    #[error("the datagram is foreign: {0}")]
    Foreign(Foreign),
}

impl<E: WantOfMemory> From<E> for NodeFault {
    ghost from_gives = { λ _ e. e ≡ out_of_memory };

    fn from(_e: E) -> NodeFault {
        NodeFault::Memory
    }
}

impl Fault for NodeFault {
    ghost number_of = { number_of };

    ghost place_of = { λ _. None };

    fn number(&self) -> u32 {
        match self {
            NodeFault::Memory => 1,
            NodeFault::Refused(refusal) => refusal.number(),
            NodeFault::Log(fault) => fault.number(),
            NodeFault::Stopped => 1201,
            NodeFault::Foreign(_) => 1202,
        }
    }

    fn place(&self) -> Option<u64> {
        None
    }
}

impl NodeFault {
    /// The number of the underlying refusal: why files don't make a build, or what makes a datagram
    /// foreign.
    pub fn cause(&self) -> Option<u32>
        ensures { result ≡ cause_of self.now }
    {
        match self {
            NodeFault::Refused(refusal) => refusal.cause(),
            NodeFault::Foreign(Foreign::Bytes(fault)) => Some(fault.number()),
            NodeFault::Foreign(Foreign::Message(refusal)) => Some(refusal.number()),
            _ => None,
        }
    }
}

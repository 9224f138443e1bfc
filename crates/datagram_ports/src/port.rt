//! The trait that nodes use to receive and send.
ghost use Rattle.std.specs.Prelude.{◌≡◌, ⊤, ℕ, [], ◌∷◌, IfOk, IfSome, List, Option};
ghost use Rattle.faults.specs.Bytes.{Text};
ghost use Rattle.datagram_ports.specs.Calls.{Call, Received, Sent, told};
ghost use Rattle.datagram_ports.specs.Granted.{DoesAsBefore};
ghost use Rattle.datagram_ports.specs.Kept.{Arrived, GoesOnBy, KeepsVouching, Parcel, arrived, counted};

use crate::{PortFault, Warrant};

/// Returns datagrams for the nodes of this process, and takes the datagrams that they send. It may
/// return anything; it may lose, repeat and reorder datagrams; and each call may fail. Contracts
/// see its records of the calls, if it has them.
pub trait Port: Drop {
    /// The record of what each receive returned, in order, if there is one.
    ghost given: { Self → Option (List Arrived) };

    /// The record of what was offered to `send`, in order, if there is one.
    ghost offered: { Self → Option (List Parcel) };

    /// The number of failures.
    ghost failures_of: { Self → ℕ };

    /// What a call, with its answer, does to the port, as far as the port promises it.
    ghost does: { Self → Call → Self → Type 0 } = { λ _ _ _. ⊤ };

    /// What is known of a text that a receive returned, as far as the port promises it.
    ghost vouches: { Self → Text → Type 0 } = { λ _ _. ⊤ };

    /// The bytes that may be sent now.
    ghost may_send: { Self → Text → Type 0 };

    /// Receives a datagram, with the number of the node that it is for, if there is one.
    ///
    /// # Errors
    ///
    /// `Memory`; `Failed`.
    fn receive(&mut self) -> Result<Option<(u8, Vec<u8>)>, PortFault>
        ensures given { GoesOnBy (arrived result ∷ []) (given self.old) (given self.new) }
        ensures offered { GoesOnBy [] (offered self.old) (offered self.new) }
        ensures cause { failures_of self.new ≡ counted result (failures_of self.old) }
        ensures does { does self.old (Received (told result)) self.new }
        ensures vouched { IfOk result (λ o. IfSome o (λ d. vouches self.new d.1.items)) }
        ensures vouches_on { KeepsVouching vouches self.old self.new };

    /// Lets these bytes be sent, since the warrant covers them. Only contracts see this: it is no
    /// call of the port.
    fn grant<W: Warrant>(&mut self, warrant: &W, bytes: &[u8])
        requires { W.covers warrant.now bytes.now }
        ensures granted { may_send self.new bytes.now }
        ensures given { given self.new ≡ given self.old }
        ensures offered { offered self.new ≡ offered self.old }
        ensures cause { failures_of self.new ≡ failures_of self.old }
        ensures does { DoesAsBefore does self.old self.new }
        ensures vouches_on { KeepsVouching vouches self.old self.new };

    /// Takes a datagram for a member's node. It may be lost after an error, and also after `Ok`.
    fn send(&mut self, from: u8, to: u8, bytes: &[u8]) -> Result<(), PortFault>
        requires { may_send self.old bytes.now }
        ensures given { GoesOnBy [] (given self.old) (given self.new) }
        ensures offered { GoesOnBy (record { from = from; to = to; text = bytes.now } ∷ [])
            (offered self.old) (offered self.new) }
        ensures cause { failures_of self.new ≡ counted result (failures_of self.old) }
        ensures does { does self.old
            (Sent (record { from = from; to = to; text = bytes.now }) result) self.new }
        ensures vouches_on { KeepsVouching vouches self.old self.new };

    /// The number of failures. It saturates.
    fn failures(&self) -> u64
        ensures { result ≡ failures_of self.now };
}

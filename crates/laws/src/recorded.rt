//! A port with a record of what is offered to it.
ghost use Rattle.std.specs.Prelude.{◌≡◌, [], Some, length, option_map, true};
ghost use Rattle.datagram_ports.specs.Granted.{IsGranted};
ghost use Rattle.laws.specs.Recorded.{IsAmongFirst, IsRecorded, offered_to};

use datagram_ports::{MemPort, Port, PortFault, Warrant};
use std::alloc::Global;

/// A port that also records what is offered to it. What it receives is what the port receives.
#[derive(Drop)]
pub struct Recorded<P: Port> {
    port: P,
    /// The record. Nothing is received from it.
    sends: MemPort,
}

impl<P: Port> Recorded<P> {
    /// The port, to which nothing was offered so far.
    pub fn new(alloc: Global, port: P) -> Recorded<P>
        ensures port { result.port ≡ port }
        ensures sends { offered_to result ≡ Some [] }
    {
        Recorded {
            port,
            sends: MemPort::new(alloc),
        }
    }

    /// The number of datagrams that were offered so far, if all of them were recorded.
    pub fn count(&self) -> Option<usize>
        ensures { result ≡ option_map length (offered_to self.now) }
    {
        match self.sends.offered() {
            Some(offered) => Some(offered.len()),
            None => None,
        }
    }

    /// Whether all that was offered so far was recorded.
    pub fn is_recorded(&self) -> bool
        ensures { result ≡ true → IsRecorded self.now }
    {
        match self.sends.offered() {
            Some(_) => true,
            None => false,
        }
    }

    /// Whether one of the first datagrams that were offered has these bytes.
    pub fn is_among_first(&self, first: usize, bytes: &[u8]) -> bool
        ensures { result ≡ true → IsAmongFirst self.now first bytes.now }
    {
        let Some(offered) = self.sends.offered() else {
            return false;
        };
        for (place, sending) in offered.iter().enumerate() {
            if place < first && sending.bytes.as_slice() == bytes {
                return true;
            }
        }
        false
    }
}

impl<P: Port> Port for Recorded<P> {
    ghost given = { λ r. P.given r.port };

    ghost offered = { λ r. r.sends.offered };

    ghost failures_of = { λ r. P.failures_of r.port };

    ghost does = { λ old call new. P.does old.port call new.port };

    ghost vouches = { λ r text. P.vouches r.port text };

    ghost may_send = { λ r text. P.may_send r.port text × IsGranted r.sends.granted text };

    fn receive(&mut self) -> Result<Option<(u8, Vec<u8>)>, PortFault> {
        self.port.receive()
    }

    fn grant<W: Warrant>(&mut self, warrant: &W, bytes: &[u8]) {
        self.sends.grant(warrant, bytes);
        self.port.grant(warrant, bytes);
    }

    fn send(&mut self, from: u8, to: u8, bytes: &[u8]) -> Result<(), PortFault> {
        let _recorded = self.sends.send(from, to, bytes);
        self.port.send(from, to, bytes)
    }

    fn failures(&self) -> u64 {
        self.port.failures()
    }
}

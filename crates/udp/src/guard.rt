//! Which datagrams a port accepts.
ghost use Rattle.std.specs.Prelude.{◌≡◌, ◌+◌, ◌≤◌, None, Some, false, true};

use crate::notice::Listing;
use seals::{SEAL_SIZE, Seal};

/// The maximum length of a datagram over IPv4, in bytes.
const LONGEST: usize = 65_507;

/// Which datagrams a port accepts, and whether texts are sealed.
#[derive(Drop)]
pub struct Guard {
    /// The run's seal, if datagrams are sealed.
    pub(crate) seal: Option<Seal>,
    /// The maximum length of a datagram in bytes, with its seal.
    pub(crate) most: usize,
    /// Whether datagrams from other addresses than the members' are accepted.
    pub(crate) is_open: bool,
    /// The bytes that a request begins with, if repeated requests are dropped.
    pub(crate) front: Option<[u8; 5]>,
    /// The listing that notices are about, if they are sent and read.
    pub(crate) listing: Option<Listing>,
    ghost fits: { most ≤ 65507 },
}

impl Guard {
    /// Accepts all datagrams, from any address.
    pub fn open() -> Guard
        ensures { (result.seal ≡ None) × (result.most ≡ 65507) × (result.is_open ≡ true)
            × (result.front ≡ None) × (result.listing ≡ None) }
    {
        Guard {
            seal: None,
            most: LONGEST,
            is_open: true,
            front: None,
            listing: None,
        }
    }

    /// Accepts datagrams from members' addresses, of at most `most` bytes.
    pub fn unsealed(most: usize) -> Guard
        requires most { most ≤ 65507 }
        ensures { (result.seal ≡ None) × (result.most ≡ most) × (result.is_open ≡ false)
            × (result.front ≡ None) × (result.listing ≡ None) }
    {
        Guard {
            seal: None,
            most,
            is_open: false,
            front: None,
            listing: None,
        }
    }

    /// Accepts datagrams from members' addresses that are sealed with this seal and have a text of
    /// at most `most` bytes.
    pub fn sealed(seal: Seal, most: usize) -> Guard
        requires most { most ≤ 65475 }
        ensures { (result.seal ≡ Some seal) × (result.most ≡ most + SEAL_SIZE)
            × (result.is_open ≡ false) × (result.front ≡ None) × (result.listing ≡ None) }
    {
        Guard {
            seal: Some(seal),
            most: most + SEAL_SIZE,
            is_open: false,
            front: None,
            listing: None,
        }
    }

    /// Drops repeated requests, too. A request is a datagram that begins with `front`. It is
    /// dropped and counted if an equal one from the same member's address for the same node was
    /// queued less than 0.9 seconds before. If the clock can't be read, none is dropped.
    ///
    /// The last 512 queued requests are remembered. So a member may repeat a request each second,
    /// or send different ones at any rate. A dropped request is like a lost datagram.
    pub fn limiting(self, front: [u8; 5]) -> Guard
        ensures { result ≡ record self { front = Some front } }
    {
        let Guard {
            seal,
            most,
            is_open,
            front: _,
            listing,
        } = self;
        Guard {
            seal,
            most,
            is_open,
            front: Some(front),
            listing,
        }
    }

    /// Sends and reads notices, too, about the units of the listing with this digest and this many
    /// units. Without that no notice is sent, and all that come are dropped.
    pub fn with_notices(self, digest: [u8; 32], units: u32) -> Guard
        ensures { result ≡ record self
            { listing = Some (record { digest = digest; units = units }) } }
    {
        let Guard {
            seal,
            most,
            is_open,
            front,
            listing: _,
        } = self;
        Guard {
            seal,
            most,
            is_open,
            front,
            listing: Some(Listing { digest, units }),
        }
    }
}

//! The addresses of nodes on this host.
ghost use Rattle.std.specs.Prelude.{◌≡◌, ◌≤◌, IfOk, length};
ghost use Rattle.udp.specs.Ways.{AreLocal, IsLocal};

use faults::Memory;
use std::alloc::Global;
use std::net::{Ipv4Addr, SocketAddr, SocketAddrV4};

/// The given port of 127.0.0.1.
pub(crate) fn local(port: u16) -> SocketAddr
    ensures { IsLocal port result }
{
    SocketAddr::V4(SocketAddrV4::new(Ipv4Addr::new(127, 0, 0, 1), port))
}

/// The addresses of this many members on 127.0.0.1: the port of member K is `base + K`.
///
/// # Errors
///
/// Out of memory.
pub fn loopback(alloc: Global, members: u8, base: u16) -> Result<Vec<SocketAddr>, Memory>
    requires base { base ≤ 65526 }
    requires members { members ≤ 9 }
    ensures count { IfOk result (λ addresses. length addresses.items ≡ members) }
    ensures ports { IfOk result (λ addresses. AreLocal base addresses.items) }
{
    let mut addresses = Vec::with_capacity(alloc, members as usize)?;
    for member in 0..members {
        addresses.push(local(base + u16::from(member)))?;
    }
    Ok(addresses)
}

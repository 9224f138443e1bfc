//! Parsing the addresses where the members of a cluster listen.
ghost use Rattle.std.specs.Prelude.{◌≡◌, ◌↔◌, IfErr, IfOk, IsTrue, MatchOption, None, Some, length};
ghost use Rattle.std.specs.List.{Contains};
ghost use Rattle.std.specs.declared.net.socket_addr.SocketAddr.{SocketAddr};
ghost use Rattle.faults.specs.Bytes.{comma};
ghost use Rattle.faults.specs.Pieces.{pieces_at};
ghost use Rattle.udp.specs.Hosts.{IsHostText, RefusesHosts, WriteHosts, WritesNoOther};
ghost use Rattle.udp.specs.Refusals.{number_of, place_of};
ghost use Rattle.udp.specs.declared.hosts.HostsFault.TheVariants.{Memory as out_of_memory};

use faults::{Fault, WantOfMemory};
use std::alloc::Global;
use std::net::{SocketAddr, SocketAddrV4};
use thiserror::Error;

/// Why a text doesn't name the hosts of all members: out of memory, or the number of its first bad
/// part, counted from 1. A part is bad if it isn't an IPv4 address with a port, has port 0 or
/// address 0.0.0.0, repeats an earlier one, is missing, or is one too many.
#[derive(Clone, Copy, Debug, PartialEq, Eq, Error)]
pub enum HostsFault {
    #[error("out of memory")]
    Memory,
    #[error("entry {0} is not an address that a member can have")]
    BadHost(u64),
}

impl<E: WantOfMemory> From<E> for HostsFault {
    ghost from_gives = { λ _ e. e ≡ out_of_memory };

    fn from(_e: E) -> HostsFault {
        HostsFault::Memory
    }
}

impl Fault for HostsFault {
    ghost number_of = { number_of };

    ghost place_of = { place_of };

    fn number(&self) -> u32 {
        match self {
            HostsFault::Memory => 1,
            HostsFault::BadHost(_) => 1206,
        }
    }

    fn place(&self) -> Option<u64> {
        match self {
            HostsFault::Memory => None,
            HostsFault::BadHost(place) => Some(*place),
        }
    }
}

/// Parses the members' addresses, separated by commas: one for each member, all different. Port 0
/// is refused, since nobody listens there. 0.0.0.0 is refused, since datagrams from there have
/// another source address, which other members don't know.
///
/// # Errors
///
/// `Memory`; `BadHost`, at the first bad part.
pub fn parse_hosts(alloc: Global, text: &str, members: u8) -> Result<Vec<SocketAddr>, HostsFault>
    ensures count { IfOk result (λ hosts. length hosts.items ≡ members) }
    ensures hosts { IfOk result (λ hosts. WriteHosts (pieces_at comma text.now) hosts.items) }
    ensures refused { IfErr result (RefusesHosts members (pieces_at comma text.now)) }
{
    let mut hosts = Vec::with_capacity(alloc, members as usize)?;
    for part in text.split(',') {
        let place = hosts.len() as u64 + 1;
        if hosts.len() >= members as usize {
            return Err(HostsFault::BadHost(place));
        }
        let Some(host) = next_host(part, hosts.as_slice()) else {
            return Err(HostsFault::BadHost(place));
        };
        hosts.push(host)?;
    }
    if hosts.len() < members as usize {
        return Err(HostsFault::BadHost(hosts.len() as u64 + 1));
    }
    Ok(hosts)
}

/// The host that the part writes, unless it is among the earlier ones.
fn next_host(part: &str, earlier: &[SocketAddr]) -> Option<SocketAddr>
    ensures { MatchOption result (WritesNoOther earlier.now part.now)
        (λ host. IsHostText part.now host × ¬ (Contains earlier.now host)) }
{
    let host = host(part)?;
    if is_among(&host, earlier) {
        return None;
    }
    Some(host)
}

/// Whether the host is among these.
fn is_among(host: &SocketAddr, hosts: &[SocketAddr]) -> bool
    ensures { IsTrue result ↔ (Contains hosts.now host.now) }
{
    hosts.contains(host)
}

/// The host that the part writes.
fn host(part: &str) -> Option<SocketAddr>
    ensures { MatchOption result ((host : SocketAddr) → ¬ (IsHostText part.now host))
        (IsHostText part.now) }
{
    let Ok(host) = part.parse::<SocketAddrV4>() else {
        return None;
    };
    if host.port() == 0 {
        return None;
    }
    if host.ip().is_unspecified() {
        return None;
    }
    Some(SocketAddr::V4(host))
}

//! The sockets of the nodes here.
ghost use Rattle.std.specs.Prelude.{◌≡◌, ◌≢◌, ◌<◌, ◌≤◌, ◌↔◌, Err, IfErr, IfOk, IsTrue, MatchOption, Ok, false, length, true, ℕ};
ghost use Rattle.std.specs.List.{Contains};
ghost use Rattle.udp.specs.Coming.{Became, HasCome, IsHeardOrLost, IsStrange};
ghost use Rattle.udp.specs.Inbox.{GoesOn};
ghost use Rattle.udp.specs.Notices.{BecameNotice, MayNotify, NoticesGoOn, is_notice};
ghost use Rattle.udp.specs.Refusals.{CannotStart};
ghost use Rattle.udp.specs.Requests.{is_repeat, is_request, known_after};
ghost use Rattle.udp.specs.Ways.{HasNoSeat, HasNoWay, IsSeatOf, IsWay};

use crate::inbox::{Came, Inbox};
use crate::notice::{Notice, is_notice};
use crate::notices::Notices;
use crate::requests::{Request, Requests, request_in};
use crate::tallies::Tallies;
use datagram_ports::PortFault;
use std::io::ErrorKind;
use std::net::{Net, SocketAddr, UdpSocket};
use std::time::Instant;

/// The maximum number of datagrams taken off a socket at each look.
const TAKEN_AT_A_LOOK: u32 = 1_024;

/// A look ends after this many bytes: 4 MiB.
const BYTES_AT_A_LOOK: usize = 4_194_304;

/// A node here, and its socket.
#[derive(Drop)]
pub struct Seat {
    pub node: u8,
    pub socket: UdpSocket,
}

/// The way of a datagram.
#[derive(Clone, Copy)]
pub struct Way {
    /// The place of its sender's seat.
    pub seat: usize,
    /// The address where its receiver listens.
    pub to: SocketAddr,
    /// Its receiver's member number.
    pub member: u8,
}

/// Which datagrams are accepted.
#[derive(Clone, Copy)]
pub struct Sieve<'a> {
    /// The seats of the nodes here.
    pub seats: &'a [Seat],
    /// The addresses where the members' nodes listen, by member number.
    pub members: &'a [SocketAddr],
    /// The maximum length of an accepted datagram, in bytes.
    pub most: usize,
    /// Whether datagrams from other addresses than the members' are accepted.
    pub is_open: bool,
    /// The bytes that a request begins with, if repeated requests are dropped.
    pub front: Option<[u8; 5]>,
    /// The time of the look, if the clock can be read.
    pub now: Option<Instant>,
}

/// What the system did with a datagram.
#[derive(Clone, Copy, Debug, PartialEq, Eq)]
pub enum Sent {
    /// It took all bytes.
    Whole,
    /// It takes none at the moment.
    NotNow,
    /// It took only a part, or failed.
    Lost,
}

/// A seat for the node at this address; at any free port if the port is 0.
pub fn take_seat<R: Net>(rt: &R, node: u8, at: SocketAddr) -> Result<Seat, PortFault>
    ensures node { IfOk result (λ seat. seat.node ≡ node) }
    ensures refused { IfErr result CannotStart }
{
    let Ok(socket) = UdpSocket::bind(rt, at) else {
        return Err(PortFault::NoSocket);
    };
    if socket.set_nonblocking(true).is_err() {
        return Err(PortFault::NoSocket);
    }
    Ok(Seat { node, socket })
}

/// The address where the seat's node listens.
pub fn address_of(seat: &Seat) -> Result<SocketAddr, PortFault>
    ensures { IfErr result CannotStart }
{
    match seat.socket.local_addr() {
        Ok(address) => Ok(address),
        Err(_) => Err(PortFault::NoSocket),
    }
}

/// The place of the node's seat, if it has one.
pub fn seat_of(seats: &[Seat], node: u8) -> Option<usize>
    ensures { MatchOption result (HasNoSeat seats.now node) (IsSeatOf seats.now node) }
{
    seats.iter().position(|seat| seat.node == node)
}

/// Whether the node has a seat.
pub fn has_seat(seats: &[Seat], node: u8) -> bool
    ensures some { result ≡ true → (place : ℕ) × IsSeatOf seats.now node place }
    ensures none { result ≡ false → HasNoSeat seats.now node }
{
    match seat_of(seats, node) {
        Some(_) => true,
        None => false,
    }
}

/// The way from one node to the other, if there is one.
pub fn way_of(seats: &[Seat], addresses: &[SocketAddr], from: u8, to: u8) -> Option<Way>
    ensures { MatchOption result (HasNoWay seats.now addresses.now from to)
        (IsWay seats.now addresses.now from to) }
{
    let seat = seat_of(seats, from)?;
    let address = addresses.get(to as usize)?;
    Some(Way {
        seat,
        to: *address,
        member: to,
    })
}

/// Whether datagrams from this address are accepted.
fn may_come(sieve: Sieve<'_>, from: &SocketAddr) -> bool
    ensures strangers { sieve.entry.is_open ≡ false → IsStrange sieve.entry.members.now from.now
        → result ≡ false }
    ensures members { Contains sieve.entry.members.now from.now → result ≡ true }
{
    sieve.is_open || sieve.members.contains(from)
}

/// The member with this address, if any.
fn member_at(members: &[SocketAddr], from: &SocketAddr) -> Option<usize> {
    members.iter().position(|member| *member == *from)
}

/// Takes received datagrams off the sockets, and returns whether a socket failed.
pub fn take_off(
    sieve: Sieve<'_>,
    buffer: &mut [u8],
    inbox: &mut Inbox,
    requests: &mut Requests,
    notices: &mut Notices,
    tallies: &mut Tallies,
) -> bool
    ensures goes_on { GoesOn inbox.old inbox.new }
    ensures notices { NoticesGoOn notices.old notices.new }
{
    let mut has_failed = false;
    for seat in sieve.seats {
        has_failed = take_all(seat, sieve, buffer, inbox, requests, notices, tallies) || has_failed;
    }
    has_failed
}

/// Takes received datagrams off the seat's socket, and returns whether the socket failed. A
/// datagram that isn't a member's text is counted and dropped. A text is lost if there is no room
/// or memory for it, and a repeated request is dropped. A notice is never for a node.
fn take_all(
    seat: &Seat,
    sieve: Sieve<'_>,
    buffer: &mut [u8],
    inbox: &mut Inbox,
    requests: &mut Requests,
    notices: &mut Notices,
    tallies: &mut Tallies,
) -> bool
    ensures come { HasCome seat.now.node inbox.old inbox.new }
    ensures goes_on { GoesOn inbox.old inbox.new }
    ensures notices { NoticesGoOn notices.old notices.new }
{
    let mut left = BYTES_AT_A_LOOK;
    for _ in 0..TAKEN_AT_A_LOOK {
        if left == 0 {
            break;
        }
        match seat.socket.recv_from(buffer) {
            Ok((count, from)) => {
                left = left.saturating_sub(count);
                let bytes = &buffer[..count];
                take_one(
                    seat.node, bytes, &from, sieve, inbox, requests, notices, tallies,
                );
            }
            Err(error) => return is_failure(error.kind()),
        }
    }
    false
}

/// Takes bytes that came from this address for the node. It tests their length first, then that
/// they are from a member, and then the seal.
#[tactic(auto, using(crate::proofs::InboxLemmas::goes_on_still, crate::proofs::NoticeLemmas::kept))]
fn take_one(
    node: u8,
    bytes: &[u8],
    from: &SocketAddr,
    sieve: Sieve<'_>,
    inbox: &mut Inbox,
    requests: &mut Requests,
    notices: &mut Notices,
    tallies: &mut Tallies,
)
    ensures heard { IsHeardOrLost node bytes.now inbox.old inbox.new }
    ensures goes_on { GoesOn inbox.old inbox.new }
    ensures notices_go_on { NoticesGoOn notices.old notices.new }
    ensures long { sieve.entry.most < length bytes.now → (inbox.new ≡ inbox.old)
        × (notices.new ≡ notices.old) }
    ensures strange { sieve.entry.is_open ≡ false
        → IsStrange sieve.entry.members.now from.now → (inbox.new ≡ inbox.old)
        × (notices.new ≡ notices.old) }

    // A member's datagram that is neither a notice nor a request is always taken.
    ensures taken { length bytes.now ≤ sieve.entry.most
        → Contains sieve.entry.members.now from.now → is_notice bytes.now ≡ false
        → is_request sieve.entry.front bytes.now ≡ false
        → (came : Came) × Became node bytes.now false inbox.old inbox.new came }

    // A notice is never for a node, and nothing else is a notice.
    ensures apart { is_notice bytes.now ≡ true → inbox.new ≡ inbox.old }
    ensures other { is_notice bytes.now ≡ false → notices.new ≡ notices.old }
    ensures noticed { length bytes.now ≤ sieve.entry.most
        → Contains sieve.entry.members.now from.now → is_notice bytes.now ≡ true
        → (came : Came) × BecameNotice sieve.entry.seats.now sieve.entry.members.now
        sieve.entry.is_open from.now bytes.now notices.old notices.new came }
{
    if bytes.len() > sieve.most {
        tallies.note_strange();
        return;
    }
    if !may_come(sieve, from) {
        tallies.note_strange();
        return;
    }
    if is_notice(bytes) {
        take_noticed(bytes, from, sieve, notices, tallies);
        return;
    }
    match member_at(sieve.members, from) {
        Some(member) => {
            let request = request_in(sieve.front, sieve.now, node, member, bytes);
            let came = take_from(node, bytes, request, inbox, requests);
            tallies.note(member, came);
        }
        None => {
            take_bytes(node, bytes, inbox);
            tallies.note_strange();
        }
    }
}

/// Takes bytes that begin as a notice does and came from this address, and counts them.
fn take_noticed(
    bytes: &[u8],
    from: &SocketAddr,
    sieve: Sieve<'_>,
    notices: &mut Notices,
    tallies: &mut Tallies,
)
    ensures goes_on { NoticesGoOn notices.old notices.new }
    ensures became { (came : Came) × BecameNotice sieve.entry.seats.now sieve.entry.members.now
        sieve.entry.is_open from.now bytes.now notices.old notices.new came }
{
    let came = take_notice(bytes, from, sieve, notices);
    match member_at(sieve.members, from) {
        Some(member) => tallies.note(member, came),
        None => tallies.note_strange(),
    }
}

/// Takes bytes that begin as a notice does and came from this address.
fn take_notice(bytes: &[u8], from: &SocketAddr, sieve: Sieve<'_>, notices: &mut Notices) -> Came
    ensures { BecameNotice sieve.entry.seats.now sieve.entry.members.now sieve.entry.is_open
        from.now bytes.now notices.old notices.new result }
{
    let notice = match notices.read(bytes) {
        Ok(notice) => notice,
        Err(came) => return came,
    };
    if !may_notify(sieve, from, notice) {
        return Came::Unsealed;
    }
    notices.put(notice, bytes)
}

/// Whether the notice may come from this address.
fn may_notify(sieve: Sieve<'_>, from: &SocketAddr, notice: Notice) -> bool
    ensures yes { result ≡ true → MayNotify sieve.entry.seats.now sieve.entry.members.now
        sieve.entry.is_open from.now notice }
    ensures no { result ≡ false → ¬ (MayNotify sieve.entry.seats.now sieve.entry.members.now
        sieve.entry.is_open from.now notice) }
{
    if has_seat(sieve.seats, notice.member) {
        return false;
    }
    match sieve.members.get(notice.member as usize) {
        Some(address) => sieve.is_open || *address == *from,
        None => false,
    }
}

/// Takes bytes that came from a member's address for the node, and may be a request. A repeated
/// request is dropped. All other bytes are taken as usual.
#[tactic(auto, using(crate::proofs::InboxLemmas::goes_on_still))]
fn take_from(
    node: u8,
    bytes: &[u8],
    request: Option<Request>,
    inbox: &mut Inbox,
    requests: &mut Requests,
) -> Came
    requires plain { is_notice bytes.now ≡ false }
    ensures became { Became node bytes.now (is_repeat request requests.old.known.items)
        inbox.old inbox.new result }
    ensures dropped { is_repeat request requests.old.known.items ≡ true
        → result ≡ Came.Repeated }
    ensures noted { requests.new.known.items
        ≡ known_after result request requests.old.next requests.old.known.items }
    ensures heard { IsHeardOrLost node bytes.now inbox.old inbox.new }
    ensures goes_on { GoesOn inbox.old inbox.new }
{
    let Some(request) = request else {
        return take_bytes(node, bytes, inbox);
    };
    if requests.has(&request) {
        return Came::Repeated;
    }
    let came = take_bytes(node, bytes, inbox);
    if came == Came::Waits {
        requests.note(request);
    }
    came
}

/// Takes bytes that came for the node, if they are a text of this run.
fn take_bytes(node: u8, bytes: &[u8], inbox: &mut Inbox) -> Came
    requires plain { is_notice bytes.now ≡ false }
    ensures became { Became node bytes.now false inbox.old inbox.new result }
    ensures heard { IsHeardOrLost node bytes.now inbox.old inbox.new }
    ensures goes_on { GoesOn inbox.old inbox.new }
{
    inbox.take(node, bytes)
}

/// Whether a socket that returned no datagram failed. An empty socket is no failure.
fn is_failure(kind: ErrorKind) -> bool
    ensures { IsTrue result ↔ (kind ≢ ErrorKind.WouldBlock) }
{
    !matches!(kind, ErrorKind::WouldBlock)
}

/// Whether this error means that the system takes no datagram at the moment.
fn is_not_now(kind: ErrorKind) -> bool
    ensures { IsTrue result ↔ (kind ≡ ErrorKind.WouldBlock) }
{
    matches!(kind, ErrorKind::WouldBlock)
}

/// Hands the datagram to the system, and returns what that did with it.
pub fn hand_over(seats: &[Seat], way: Way, bytes: &[u8]) -> Sent {
    let Some(seat) = seats.get(way.seat) else {
        return Sent::Lost;
    };
    match seat.socket.send_to(bytes, way.to) {
        Ok(taken) => sent_of(Ok(taken), bytes.len()),
        Err(error) => sent_of(Err(error.kind()), bytes.len()),
    }
}

/// The result of a send of `count` bytes: the system took this many, or none, with this error.
fn sent_of(taken: Result<usize, ErrorKind>, count: usize) -> Sent
    ensures whole { (result ≡ Sent.Whole) ↔ (taken ≡ Ok count) }
    ensures later { (result ≡ Sent.NotNow) ↔ (taken ≡ Err ErrorKind.WouldBlock) }
{
    match taken {
        Ok(taken) => {
            if taken == count {
                Sent::Whole
            } else {
                Sent::Lost
            }
        }
        Err(kind) => {
            if is_not_now(kind) {
                Sent::NotNow
            } else {
                Sent::Lost
            }
        }
    }
}

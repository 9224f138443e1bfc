//! Ports over UDP.
ghost use Rattle.std.specs.Prelude.{◌≡◌, ◌<◌, ◌++◌, [], IfErr, IfOk, IfSome, None, OnErr, OnOk, false, length, option_to_list, true};
ghost use Rattle.datagram_ports.specs.Calls.{Received, Sent, told};
ghost use Rattle.datagram_ports.specs.Granted.{DoesAsBefore, IsGranted};
ghost use Rattle.datagram_ports.specs.Kept.{counted, one_more};
ghost use Rattle.udp.specs.Calls.{DoesOverUdp, IsEmpty};
ghost use Rattle.udp.specs.Inbox.{StillVouches, came_as, is_vouched_for};
ghost use Rattle.udp.specs.Leaving.{IsLeft};
ghost use Rattle.udp.specs.Notices.{NoticesGoOn, is_heard, is_notice};
ghost use Rattle.udp.specs.Notifying.{HasNotified, Notifies};
ghost use Rattle.udp.specs.Refusals.{CannotStart};
ghost use Rattle.udp.specs.Ways.{AreInOrder, HasNoSeat, HasWay, IsSeatOf, LeavesBy};

mod coming;
mod leaving;
mod notifying;

use crate::addresses::local;
use crate::guard::Guard;
use crate::inbox::Inbox;
use crate::line::Line;
use crate::notice::{Notice, text_of};
use crate::notices::Notices;
use crate::outbox::Outbox;
use crate::patience::{Hurry, Patience};
use crate::requests::Requests;
use crate::sockets::{Seat, Way, address_of, take_seat};
use crate::tallies::Tallies;
use crate::udp_port::notifying::notify_each;
use datagram_ports::{Port, PortFault, Told, Warrant};
use seals::Seal;
use std::alloc::Global;
use std::net::{Net, SocketAddr};
use std::time::Clock;

/// The maximum number of received datagrams in the queue. Any further ones are lost.
const MOST_COME: usize = 65_536;

/// The maximum number of datagrams in the outgoing queue.
const MOST_LEAVING: usize = 2_048;

/// One non-blocking socket for each node here.
///
/// Socket buffers are small. So received datagrams are moved into a queue before and after each
/// datagram that is sent to a node here, and wait there for a receive. Datagrams for nodes of other
/// processes leave a few at a time and out of order, so that pieces which are sent again aren't
/// lost at the same place again. A datagram that the system doesn't take at the moment stays
/// queued. Received notices have a queue of their own.
#[derive(Drop)]
pub struct UdpPort<'c, C: Clock> {
    clock: &'c C,
    alloc: Global,
    seats: Vec<Seat>,
    /// The addresses where the members' nodes listen, by member number.
    addresses: Vec<SocketAddr>,
    /// The maximum length of a datagram, in bytes.
    most: usize,
    /// Whether datagrams from other addresses than the members' are accepted.
    is_open: bool,
    /// The bytes that a request begins with, if repeated requests are dropped.
    front: Option<[u8; 5]>,
    buffer: Vec<u8>,
    inbox: Inbox,
    requests: Requests,
    notices: Notices,
    outbox: Outbox,
    leaving: Line<Way>,
    /// What left the queue and was handed to the system.
    handed: Told,
    /// What may be sent.
    granted: Told,
    /// Picks the next datagram to leave.
    pick: usize,
    patience: Patience,
    /// How long a receive waits at the moment if nothing came.
    hurry: Hurry,
    tallies: Tallies,
    /// The number of datagrams that were offered.
    sends: u64,
    failures: u64,
}

impl<'c, C: Clock> UdpPort<'c, C> {
    /// The port of all members' nodes, each at a free port of 127.0.0.1. A receive never naps, and
    /// all datagrams are accepted.
    ///
    /// # Errors
    ///
    /// `Memory`; `NoSocket`.
    pub fn together<R: Net>(
        rt: &R,
        clock: &'c C,
        alloc: Global,
        members: u8,
    ) -> Result<UdpPort<'c, C>, PortFault>
        ensures seats { IfOk result (λ port. AreInOrder port.seats.items) }
        ensures each { IfOk result (λ port. (length port.seats.items ≡ members)
            × (length port.addresses.items ≡ members)) }
        ensures unsealed { IfOk result (λ port. (port.inbox.key ≡ None)
            × (port.outbox.key ≡ None)) }
        ensures empty { IfOk result IsEmpty }
        ensures refused { IfErr result CannotStart }
    {
        UdpPort::together_behind(rt, clock, alloc, members, Guard::open())
    }

    /// The port of all members' nodes, each at a free port of 127.0.0.1, with a guard. A receive
    /// never naps.
    ///
    /// # Errors
    ///
    /// `Memory`; `NoSocket`.
    pub fn together_behind<R: Net>(
        rt: &R,
        clock: &'c C,
        alloc: Global,
        members: u8,
        guard: Guard,
    ) -> Result<UdpPort<'c, C>, PortFault>
        ensures seats { IfOk result (λ port. AreInOrder port.seats.items) }
        ensures each { IfOk result (λ port. (length port.seats.items ≡ members)
            × (length port.addresses.items ≡ members)) }
        ensures sealed { IfOk result (λ port. (port.inbox.key ≡ guard.seal)
            × (port.outbox.key ≡ guard.seal)) }
        ensures guard { IfOk result (λ port. (port.most ≡ guard.most)
            × (port.is_open ≡ guard.is_open) × (port.front ≡ guard.front)) }
        ensures notices { IfOk result (λ port. (port.notices.key ≡ guard.seal)
            × (port.notices.listing ≡ guard.listing)) }
        ensures empty { IfOk result IsEmpty }
        ensures refused { IfErr result CannotStart }
    {
        let mut seats = Vec::with_capacity(alloc, members as usize)?;
        let mut addresses = Vec::with_capacity(alloc, members as usize)?;
        for node in 0..members {
            let seat = take_seat(rt, node, local(0))?;
            addresses.push(address_of(&seat)?)?;
            seats.push(seat)?;
        }
        port_of(clock, alloc, seats, addresses, Patience::none(), guard)
    }

    /// The port of one member's node, which listens at its own one of these addresses. The other
    /// nodes are elsewhere. All datagrams are accepted. A receive waits `patience` milliseconds for
    /// a datagram, and half of that longer for each smaller member number. The node of the only
    /// member doesn't wait.
    ///
    /// # Errors
    ///
    /// `Memory`; `NoSocket` if its address isn't available.
    pub fn alone<R: Net>(
        rt: &R,
        clock: &'c C,
        alloc: Global,
        addresses: Vec<SocketAddr>,
        me: u8,
        patience: u16,
    ) -> Result<UdpPort<'c, C>, PortFault>
        requires me { me < length addresses.items }
        ensures seat { IfOk result (λ port. IsSeatOf port.seats.items me 0) }
        ensures lone { IfOk result (λ port. length port.seats.items ≡ 1) }
        ensures addresses { IfOk result (λ port. port.addresses ≡ addresses) }
        ensures unsealed { IfOk result (λ port. (port.inbox.key ≡ None)
            × (port.outbox.key ≡ None)) }
        ensures empty { IfOk result IsEmpty }
        ensures refused { IfErr result CannotStart }
    {
        UdpPort::alone_behind(rt, clock, alloc, addresses, me, patience, Guard::open())
    }

    /// Like `alone`, with a guard.
    ///
    /// # Errors
    ///
    /// `Memory`; `NoSocket` if its address isn't available.
    pub fn alone_behind<R: Net>(
        rt: &R,
        clock: &'c C,
        alloc: Global,
        addresses: Vec<SocketAddr>,
        me: u8,
        patience: u16,
        guard: Guard,
    ) -> Result<UdpPort<'c, C>, PortFault>
        requires me { me < length addresses.items }
        ensures seat { IfOk result (λ port. IsSeatOf port.seats.items me 0) }
        ensures lone { IfOk result (λ port. length port.seats.items ≡ 1) }
        ensures addresses { IfOk result (λ port. port.addresses ≡ addresses) }
        ensures sealed { IfOk result (λ port. (port.inbox.key ≡ guard.seal)
            × (port.outbox.key ≡ guard.seal)) }
        ensures guard { IfOk result (λ port. (port.most ≡ guard.most)
            × (port.is_open ≡ guard.is_open) × (port.front ≡ guard.front)) }
        ensures notices { IfOk result (λ port. (port.notices.key ≡ guard.seal)
            × (port.notices.listing ≡ guard.listing)) }
        ensures empty { IfOk result IsEmpty }
        ensures refused { IfErr result CannotStart }
    {
        let mut seats = Vec::with_capacity(alloc, 1)?;
        seats.push(take_seat(rt, me, addresses[me as usize])?)?;
        let patience = if addresses.len() == 1 {
            Patience::none()
        } else {
            Patience::of_member(patience, me)
        };
        port_of(clock, alloc, seats, addresses, patience, guard)
    }

    /// Sets how long a receive waits if nothing came. At first it is patient.
    pub fn set_hurry(&mut self, hurry: Hurry)
        ensures { self.new ≡ record self.old { hurry = hurry } }
    {
        self.hurry = hurry;
    }

    /// Sends the notice to each other member, if its sender's node is here and the port has a
    /// listing. It may get lost. Then it counts as unsent to that member.
    pub fn send_notice(&mut self, notice: Notice)
        ensures sent { Notifies self.old notice self.new }
        ensures notified { HasNotified self.old self.new }
    {
        let Some(listing) = self.notices.listing() else {
            return;
        };
        let text = text_of(&listing.digest, notice);
        // if memory runs out, there are no bytes
        let _made = self.outbox.make(text.as_slice());
        let bytes = self.outbox.bytes();
        notify_each(
            self.alloc,
            &self.seats,
            &self.addresses,
            notice.member,
            bytes,
            &mut self.leaving,
            &mut self.tallies,
        );
    }

    /// Takes the first notice that came and wasn't taken.
    pub fn take_notice(&mut self) -> Option<Notice>
        ensures first { self.old.notices.waiting
            ≡ option_to_list result ++ self.new.notices.waiting }
        ensures heard { IfSome result (λ notice. is_heard self.new.notices notice ≡ true) }
        ensures notified { HasNotified self.old self.new }
    {
        self.notices.take_first()
    }

    /// The number of datagrams offered so far, including those that weren't accepted. It saturates.
    pub fn sends(&self) -> u64
        ensures { result ≡ self.now.sends }
    {
        self.sends
    }

    /// The statistics for the members so far.
    pub fn tallies(&self) -> &Tallies
        ensures { result.now ≡ self.now.tallies }
    {
        &self.tallies
    }
}

/// A port of these, with empty queues.
fn port_of<'c, C: Clock>(
    clock: &'c C,
    alloc: Global,
    seats: Vec<Seat>,
    addresses: Vec<SocketAddr>,
    patience: Patience,
    guard: Guard,
) -> Result<UdpPort<'c, C>, PortFault>
    ensures empty { IfOk result IsEmpty }
    ensures seats { IfOk result (λ port. port.seats ≡ seats) }
    ensures addresses { IfOk result (λ port. port.addresses ≡ addresses) }
    ensures sealed { IfOk result (λ port. (port.inbox.key ≡ guard.seal)
        × (port.outbox.key ≡ guard.seal)) }
    ensures guard { IfOk result (λ port. (port.most ≡ guard.most)
        × (port.is_open ≡ guard.is_open) × (port.front ≡ guard.front)) }
    ensures notices { IfOk result (λ port. (port.notices.key ≡ guard.seal)
        × (port.notices.listing ≡ guard.listing)) }
    ensures refused { IfErr result CannotStart }
{
    let Guard {
        seal,
        most,
        is_open,
        front,
        listing,
    } = guard;
    let tallies = Tallies::new(alloc, addresses.len())?;
    let requests = Requests::new(alloc)?;
    let notices = Notices::new(alloc, copy_of(&seal), listing);
    let outbox = Outbox::new(alloc, copy_of(&seal));
    Ok(UdpPort {
        clock,
        alloc,
        seats,
        addresses,
        most,
        is_open,
        front,
        // One byte longer than the longest datagram: a longer datagram is cut to this length, and
        // so is recognized as too long.
        buffer: vec![in alloc; 0; most + 1]?,
        inbox: Inbox::new(alloc, seal, MOST_COME),
        requests,
        notices,
        outbox,
        leaving: Line::new(alloc, MOST_LEAVING),
        handed: Told::new(),
        granted: Told::new(),
        pick: 0,
        patience,
        hurry: Hurry::Patient,
        tallies,
        sends: 0,
        failures: 0,
    })
}

/// A copy of the seal, if there is one.
fn copy_of(seal: &Option<Seal>) -> Option<Seal>
    ensures { result ≡ seal.now }
{
    match seal {
        Some(seal) => Some(seal.copied()),
        None => None,
    }
}

impl<'c, C: Clock> Port for UdpPort<'c, C> {
    ghost given = { λ _. None };

    ghost offered = { λ _. None };

    ghost failures_of = { λ p. p.failures };

    ghost does = { DoesOverUdp };

    ghost vouches = { λ p text. is_vouched_for p.inbox.key p.inbox.came text ≡ true };

    ghost may_send = { λ p text. IsGranted p.granted.all text };

    fn receive(&mut self) -> Result<Option<(u8, Vec<u8>)>, PortFault>
        ensures cause { self.new.failures ≡ counted result self.old.failures }

        ensures does { DoesOverUdp self.old (Received (told result)) self.new }

        // The received bytes encode this text under the seal.
        ensures vouched { IfOk result (λ o. IfSome o
            (λ d. is_vouched_for self.new.inbox.key self.new.inbox.came d.1.items ≡ true)) }

        // A notice is never handed to a node.
        ensures plain { IfOk result (λ o. IfSome o (λ d. is_notice d.1.items ≡ false)) }
        ensures notices_go_on { NoticesGoOn self.old.notices self.new.notices }
        ensures vouches_on { StillVouches self.old.inbox self.new.inbox }
        ensures seal_stays { (self.new.inbox.key ≡ self.old.inbox.key)
            × (self.new.outbox.key ≡ self.old.outbox.key) }

        // Nothing was offered.
        ensures stays { (self.new.sends ≡ self.old.sends)
            × (self.new.hurry ≡ self.old.hurry) }

        // Each queued datagram is handed to the system at most once, or still waits.
        ensures leaving { IsLeft self.old.leaving.waiting.items self.old.handed.all
            self.new.leaving.waiting.items self.new.handed.all }
    {
        let has_failed = self.look();
        match self.inbox.take_first() {
            Some(first) => Ok(Some(first)),
            None => self.nothing(has_failed),
        }
    }

    fn grant<W: Warrant>(&mut self, warrant: &W, bytes: &[u8])
        requires { W.covers warrant.now bytes.now }
        ensures granted { IsGranted self.new.granted.all bytes.now }
        ensures does { DoesAsBefore DoesOverUdp self.old self.new }
        ensures vouches_on { StillVouches self.old.inbox self.new.inbox }
        ensures same { self.new ≡ record self.old { granted = self.new.granted } }
    {
        self.granted.note(bytes);
    }

    fn send(&mut self, from: u8, to: u8, bytes: &[u8]) -> Result<(), PortFault>
        requires { IsGranted self.old.granted.all bytes.now }
        ensures cause { self.new.failures ≡ counted result self.old.failures }
        ensures notices_go_on { NoticesGoOn self.old.notices self.new.notices }
        ensures vouches_on { StillVouches self.old.inbox self.new.inbox }
        ensures seal_stays { (self.new.inbox.key ≡ self.old.inbox.key)
            × (self.new.outbox.key ≡ self.old.outbox.key) }

        ensures does { DoesOverUdp self.old
            (Sent (record { from = from; to = to; text = bytes.now }) result) self.new }

        // A datagram was offered.
        ensures offered { (self.new.sends ≡ one_more self.old.sends)
            × (self.new.hurry ≡ self.old.hurry) }

        // It goes from a node here to a member. If it is for a node of another process, it is
        // queued with the way there, sealed if there is a seal.
        ensures way { OnOk result
            (HasWay self.old.seats.items self.old.addresses.items from to) }
        ensures away { OnOk result (HasNoSeat self.old.seats.items to
            → LeavesBy self.old.seats.items self.old.addresses.items from to
            (came_as self.old.outbox.key bytes.now)
            self.old.leaving.waiting.items self.new.leaving.waiting.items) }
        ensures lost { OnErr result
            (self.new.leaving.waiting.items ≡ self.old.leaving.waiting.items) }
    {
        self.sends = self.sends.saturating_add(1);
        if self.is_taken(from, to, bytes)? {
            Ok(())
        } else {
            self.failures = self.failures.saturating_add(1);
            Err(PortFault::Failed)
        }
    }

    fn failures(&self) -> u64 {
        self.failures
    }
}

//! Outgoing datagrams of a port: they are handed to the system at once, or queued.
ghost use Rattle.std.specs.Prelude.{◌≡◌, ◌≢◌, ◌++◌, ◌∷◌, ℕ, [], IfSome, Ok, map, true};
ghost use Rattle.udp.specs.Calls.{setup_of};
ghost use Rattle.udp.specs.Inbox.{GoesOn, came_as};
ghost use Rattle.udp.specs.Leaving.{HandsOver, HasLeft, IsLeft};
ghost use Rattle.udp.specs.Notices.{NoticesGoOn};
ghost use Rattle.udp.specs.Ways.{HasNoSeat, HasWay, IsSeatOf, LeavesBy, in_line};

use crate::line::Waiting;
use crate::sockets::{Seat, Sent, Way, hand_over, seat_of, way_of};
use crate::tallies::Tallies;
use crate::udp_port::UdpPort;
use datagram_ports::Told;
use faults::Memory;
use std::thread;
use std::time::{Clock, Duration};

/// The maximum number of queued datagrams that leave at each look at the sockets.
const LEAVE_AT_A_LOOK: usize = 4;

/// The maximum number of naps of a flush, in all, while the system takes nothing.
const NAPS_OF_A_FLUSH: u32 = 2_048;

/// The length of such a nap, in microseconds.
const NAP_OF_A_FLUSH: u64 = 1_000;

impl<C: Clock> UdpPort<'_, C> {
    /// Offers a datagram, and returns whether the port took it.
    pub(crate) fn is_taken(&mut self, from: u8, to: u8, bytes: &[u8]) -> Result<bool, Memory>
        ensures goes_on { GoesOn self.old.inbox self.new.inbox }
        ensures notices { NoticesGoOn self.old.notices self.new.notices }
        ensures key { self.new.outbox.key ≡ self.old.outbox.key }
        ensures stays { (self.new.failures ≡ self.old.failures)
            × (self.new.sends ≡ self.old.sends) × (self.new.hurry ≡ self.old.hurry) }
        ensures way { result ≡ Ok true
            → HasWay self.old.seats.items self.old.addresses.items from to }
        ensures away { result ≡ Ok true → HasNoSeat self.old.seats.items to
            → LeavesBy self.old.seats.items self.old.addresses.items from to
            (came_as self.old.outbox.key bytes.now)
            self.old.leaving.waiting.items self.new.leaving.waiting.items }
        ensures here { (place : ℕ) → IsSeatOf self.old.seats.items to place
            → self.new.leaving.waiting.items ≡ self.old.leaving.waiting.items }
        ensures lost { result ≢ Ok true
            → self.new.leaving.waiting.items ≡ self.old.leaving.waiting.items }
        ensures handed { self.new.handed.all ≡ self.old.handed.all }
        ensures setup { setup_of self.new ≡ setup_of self.old }
    {
        let Some(way) = way_of(&self.seats, &self.addresses, from, to) else {
            return Ok(false);
        };
        self.outbox.make(bytes)?;
        match seat_of(&self.seats, to) {
            Some(_) => Ok(self.send_here(way)),
            None => self.send_away(way),
        }
    }

    /// Hands the datagram that was made to the system, and takes in what was received.
    fn send_here(&mut self, way: Way) -> bool
        ensures goes_on { GoesOn self.old.inbox self.new.inbox }
        ensures notices { NoticesGoOn self.old.notices self.new.notices }
        ensures outbox { self.new.outbox ≡ self.old.outbox }
        ensures stays { (self.new.failures ≡ self.old.failures)
            × (self.new.sends ≡ self.old.sends) × (self.new.hurry ≡ self.old.hurry) }
        ensures leaving { (self.new.leaving ≡ self.old.leaving)
            × (self.new.handed ≡ self.old.handed) }
        ensures setup { setup_of self.new ≡ setup_of self.old }
    {
        let sent = match self.outbox.bytes() {
            Some(bytes) => hand_over(&self.seats, way, bytes),
            None => Sent::Lost,
        };
        if sent != Sent::Whole {
            self.tallies.note_unsent(way.member as usize);
        }
        self.take_in();
        sent == Sent::Whole
    }

    /// Appends the datagram that was made to the queue, if there is room for it.
    fn send_away(&mut self, way: Way) -> Result<bool, Memory>
        ensures goes_on { GoesOn self.old.inbox self.new.inbox }
        ensures notices { NoticesGoOn self.old.notices self.new.notices }
        ensures outbox { self.new.outbox ≡ self.old.outbox }
        ensures stays { (self.new.failures ≡ self.old.failures)
            × (self.new.sends ≡ self.old.sends) × (self.new.hurry ≡ self.old.hurry) }
        ensures put { result ≡ Ok true → IfSome self.old.outbox.made
            (λ bytes. in_line self.new.leaving.waiting.items
            ≡ in_line self.old.leaving.waiting.items ++ (way, bytes) ∷ []) }
        ensures lost { result ≢ Ok true
            → self.new.leaving.waiting.items ≡ self.old.leaving.waiting.items }
        ensures handed { self.new.handed ≡ self.old.handed }
        ensures setup { setup_of self.new ≡ setup_of self.old }
    {
        let is_put = match self.outbox.bytes() {
            Some(bytes) => self.leaving.put(self.alloc, way, bytes)?,
            None => false,
        };
        self.take_in();
        Ok(is_put)
    }

    /// Lets some queued datagrams leave, as long as the system takes them.
    pub(crate) fn let_some_leave(&mut self)
        ensures left { IsLeft self.old.leaving.waiting.items self.old.handed.all
            self.new.leaving.waiting.items self.new.handed.all }
        ensures stays { (self.new.failures ≡ self.old.failures)
            × (self.new.sends ≡ self.old.sends) × (self.new.hurry ≡ self.old.hurry) }
        ensures seal_stays { (self.new.inbox ≡ self.old.inbox)
            × (self.new.outbox ≡ self.old.outbox) }
        ensures notices { self.new.notices ≡ self.old.notices }
        ensures setup { setup_of self.new ≡ setup_of self.old }
    {
        for _ in 0..LEAVE_AT_A_LOOK {
            if !self.let_one_leave() {
                break;
            }
        }
    }

    /// Hands one of the queued datagrams to the system, if there is one, and returns whether the
    /// system may take another. A datagram that the system doesn't take at the moment stays queued;
    /// any other result removes it.
    fn let_one_leave(&mut self) -> bool
        ensures left { HasLeft self.old.leaving.waiting.items self.old.handed.all
            self.new.leaving.waiting.items self.new.handed.all }
        ensures stays { (self.new.failures ≡ self.old.failures)
            × (self.new.sends ≡ self.old.sends) × (self.new.hurry ≡ self.old.hurry) }
        ensures seal_stays { (self.new.inbox ≡ self.old.inbox)
            × (self.new.outbox ≡ self.old.outbox) }
        ensures notices { self.new.notices ≡ self.old.notices }
        ensures setup { setup_of self.new ≡ setup_of self.old }
    {
        let count = self.leaving.len();
        if count == 0 {
            return false;
        }
        let place = (self.pick >> 16) % count;
        let sent = match self.leaving.at(place) {
            Some(waiting) => hand_over(&self.seats, waiting.errand, &waiting.bytes),
            None => return false,
        };
        if sent == Sent::NotNow {
            return false;
        }
        self.pick = self.pick.wrapping_mul(25_214_903_917).wrapping_add(11);
        let Some(gone) = self.leaving.take_at(place) else {
            return false;
        };
        note_handed(&mut self.handed, &mut self.tallies, &gone, sent);
        true
    }

    /// Hands all queued datagrams to the system, in order, each once. While the system takes none,
    /// it naps and retries, until all naps are used up. What the system doesn't take then is lost,
    /// and is counted.
    pub fn flush(&mut self)
        ensures left { self.new.leaving.waiting.items ≡ [] }
        ensures handed { self.new.handed.all ≡ self.old.handed.all
            ++ map (λ w. w.bytes.items) self.old.leaving.waiting.items }
        ensures stays { (self.new.failures ≡ self.old.failures)
            × (self.new.sends ≡ self.old.sends) × (self.new.hurry ≡ self.old.hurry) }
        ensures seal_stays { (self.new.inbox ≡ self.old.inbox)
            × (self.new.outbox ≡ self.old.outbox) }
        ensures notices { self.new.notices ≡ self.old.notices }
        ensures setup { setup_of self.new ≡ setup_of self.old }
    {
        let mut naps = NAPS_OF_A_FLUSH;
        while !self.leaving.is_empty() {
            naps = self.let_first_leave(naps);
        }
    }

    /// Hands the first queued datagram to the system. It retries until the system takes it or this
    /// many naps are over, and returns how many are left.
    fn let_first_leave(&mut self, naps: u32) -> u32
        ensures first { HandsOver self.old.leaving.waiting.items self.old.handed.all
            self.new.leaving.waiting.items self.new.handed.all }
        ensures stays { (self.new.failures ≡ self.old.failures)
            × (self.new.sends ≡ self.old.sends) × (self.new.hurry ≡ self.old.hurry) }
        ensures seal_stays { (self.new.inbox ≡ self.old.inbox)
            × (self.new.outbox ≡ self.old.outbox) }
        ensures notices { self.new.notices ≡ self.old.notices }
        ensures setup { setup_of self.new ≡ setup_of self.old }
    {
        let Some(first) = self.leaving.take_first() else {
            return naps;
        };
        let (sent, left) = hand_over_patiently(self.clock, &self.seats, &first, naps);
        note_handed(&mut self.handed, &mut self.tallies, &first, sent);
        left
    }
}

/// Records that a datagram left the queue.
fn note_handed(handed: &mut Told, tallies: &mut Tallies, gone: &Waiting<Way>, sent: Sent)
    ensures { handed.new.all ≡ handed.old.all ++ gone.now.bytes.items ∷ [] }
{
    handed.note(&gone.bytes);
    if sent != Sent::Whole {
        tallies.note_unsent(gone.errand.member as usize);
    }
}

/// Hands the datagram to the system, and retries after a nap, at most this many times, while the
/// system takes none. Returns what the system did, and how many naps are left.
fn hand_over_patiently<C: Clock>(
    clock: &C,
    seats: &[Seat],
    waiting: &Waiting<Way>,
    naps: u32,
) -> (Sent, u32) {
    for nap in 0..naps {
        let sent = hand_over(seats, waiting.errand, &waiting.bytes);
        if sent != Sent::NotNow {
            return (sent, naps - nap);
        }
        thread::sleep(clock, Duration::from_micros(NAP_OF_A_FLUSH));
    }
    (hand_over(seats, waiting.errand, &waiting.bytes), 0)
}

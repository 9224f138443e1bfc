//! A port in memory.
ghost use Rattle.std.specs.Prelude.{◌≡◌, ◌++◌, ◌∷◌, [], IfErr, IfOk, None, OnErr, OnOk, Some, drop, false, length, map, option_map, true};
ghost use Rattle.datagram_ports.specs.Granted.{IsGranted};
ghost use Rattle.datagram_ports.specs.InMemory.{DoesInMemory, first_of, is_one, kept_if, lost_by, put_by};
ghost use Rattle.datagram_ports.specs.Kept.{GoesOnBy, arrived, counted};
ghost use Rattle.datagram_ports.specs.inside.Views.{given_view, sending_view, waiting_view};

use crate::{Port, PortFault, Told, Warrant};
use faults::Memory;
use std::alloc::Global;
use std::collections::VecDeque;
use std::marker::Model;

/// A datagram that was offered to a send.
#[derive(Drop)]
pub struct Sending {
    pub from: u8,
    pub to: u8,
    pub bytes: Vec<u8>,
}

/// A queued datagram for a node.
#[derive(Drop)]
struct Waiting {
    to: u8,
    bytes: Vec<u8>,
}

/// A queue of datagrams, which also records what it returned and what was offered. Tests can set it
/// to fail, to repeat datagrams, and to return bytes that no node offered.
///
/// If memory for a record runs out, the port goes on without that record.
#[derive(Drop)]
pub struct MemPort {
    alloc: Global,
    waiting: VecDeque<Waiting>,
    given: Vec<Option<Waiting>>,
    /// Whether `given` is complete.
    has_given: bool,
    offered: Vec<Sending>,
    /// Whether `offered` is complete.
    has_offered: bool,
    /// What was granted.
    granted: Told,
    lost_to: Option<u8>,
    is_twice: bool,
    is_deaf: bool,
    failures: u64,
}

impl Model for MemPort {
    ghost use Rattle.datagram_ports.specs.Granted.{IsGranted};
    ghost use Rattle.datagram_ports.specs.InMemory.{MemPortState};

    ghost Value = { MemPortState };

    ghost use Rattle.datagram_ports.specs.inside.Views.{port_view};

    ghost view = { port_view };
}

impl MemPort {
    /// An empty port with default settings.
    pub fn new(alloc: Global) -> MemPort
        ensures { result ≡ record {
          orders = record { lost_to = None; is_twice = false; is_deaf = false };
          waiting = [];
          given = Some [];
          offered = Some [];
          granted = [];
          failures = 0;
        } }
    {
        MemPort {
            alloc,
            waiting: VecDeque::new(alloc),
            given: Vec::new(alloc),
            has_given: true,
            offered: Vec::new(alloc),
            has_offered: true,
            granted: Told::new(),
            lost_to: None,
            is_twice: false,
            is_deaf: false,
            failures: 0,
        }
    }

    /// Sets the member to which sends fail from now on, if any.
    pub fn fail_sends_to(&mut self, member: Option<u8>)
        ensures { self.new ≡ record self.old {
          orders = record self.old.orders { lost_to = member };
        } }
    {
        self.lost_to = member;
    }

    /// Sets whether each datagram that is offered from now on is received twice.
    pub fn give_twice(&mut self, is_twice: bool)
        ensures { self.new ≡ record self.old {
          orders = record self.old.orders { is_twice = is_twice };
        } }
    {
        self.is_twice = is_twice;
    }

    /// Sets whether each receive fails from now on.
    pub fn fail_receives(&mut self, is_deaf: bool)
        ensures { self.new ≡ record self.old {
          orders = record self.old.orders { is_deaf = is_deaf };
        } }
    {
        self.is_deaf = is_deaf;
    }

    /// Appends bytes to the queue that no node offered.
    ///
    /// # Errors
    ///
    /// Out of memory.
    pub fn put_in(&mut self, to: u8, bytes: Vec<u8>) -> Result<(), Memory>
        ensures ok { OnOk result (self.new ≡ record self.old {
          waiting = self.old.waiting ++ (to, bytes.items) ∷ [];
        }) }
        ensures err { OnErr result (self.new ≡ self.old) }
    {
        self.waiting.push_back(Waiting { to, bytes })?;
        Ok(())
    }

    /// The record of what was offered, in order. `None` if memory for it ran out.
    pub fn offered(&self) -> Option<&[Sending]>
        ensures { self.now.offered
            ≡ option_map (λ offered. map sending_view offered.now) result }
    {
        if self.has_offered {
            Some(self.offered.as_slice())
        } else {
            None
        }
    }

    /// The number of receives so far, if they are recorded.
    pub fn receives(&self) -> Option<usize>
        ensures { result ≡ option_map length self.now.given }
    {
        if self.has_given {
            Some(self.given.len())
        } else {
            None
        }
    }

    /// Records what a receive returns. Nothing is copied once the record was given up.
    fn keep_given(&mut self, first: Option<&Waiting>)
        ensures given { GoesOnBy (option_map (λ w. waiting_view w.now) first.entry ∷ [])
            self.old.given self.new.given }
        ensures same { self.new ≡ record self.old { given = self.new.given } }
    {
        if self.has_given {
            let copy = given(self.alloc, first);
            keep(&mut self.given, &mut self.has_given, copy);
        }
    }

    /// Records what is offered. Nothing is copied once the record was given up.
    fn keep_offered(&mut self, from: u8, to: u8, bytes: &[u8])
        ensures offered { GoesOnBy (record { from = from; to = to; text = bytes.now } ∷ [])
            self.old.offered self.new.offered }
        ensures same { self.new ≡ record self.old { offered = self.new.offered } }
    {
        if self.has_offered {
            let copy = make_sending(self.alloc, from, to, bytes);
            keep(&mut self.offered, &mut self.has_offered, copy);
        }
    }
}

/// Appends one item to a record. If memory for it ran out, the record is given up for good.
fn keep<T: Drop>(list: &mut Vec<T>, is_whole: &mut bool, item: Result<T, Memory>)
    ensures more { IfOk item (λ x. GoesOnBy (x ∷ []) (kept_if is_whole.old list.old.items)
        (kept_if is_whole.new list.new.items)) }
    ensures none { OnErr item (is_whole.new ≡ false) }
{
    match item {
        Ok(item) => {
            if list.push(item).is_err() {
                *is_whole = false;
            }
        }
        Err(_) => *is_whole = false,
    }
}

/// A copy of the bytes, for the node.
fn make_waiting(alloc: Global, to: u8, bytes: &[u8]) -> Result<Waiting, Memory>
    ensures { IfOk result (λ w. waiting_view w ≡ (to, bytes.now)) }
{
    let bytes = bytes.to_vec(alloc)?;
    Ok(Waiting { to, bytes })
}

/// A copy of what a receive returns.
fn given(alloc: Global, first: Option<&Waiting>) -> Result<Option<Waiting>, Memory>
    ensures { IfOk result (λ g. given_view g ≡ option_map (λ w. waiting_view w.now) first.entry) }
{
    match first {
        Some(waiting) => Ok(Some(make_waiting(alloc, waiting.to, &waiting.bytes)?)),
        None => Ok(None),
    }
}

/// A copy of what is offered.
fn make_sending(alloc: Global, from: u8, to: u8, bytes: &[u8]) -> Result<Sending, Memory>
    ensures { IfOk result
        (λ s. sending_view s ≡ record { from = from; to = to; text = bytes.now }) }
{
    let bytes = bytes.to_vec(alloc)?;
    Ok(Sending { from, to, bytes })
}

/// Appends the datagram to the queue, once or twice, or changes nothing.
fn put(
    alloc: Global,
    queue: &mut VecDeque<Waiting>,
    to: u8,
    bytes: &[u8],
    is_twice: bool,
) -> Result<(), Memory>
    ensures ok { OnOk result (map waiting_view queue.new.items
        ≡ map waiting_view queue.old.items ++ put_by is_twice to bytes.now) }
    ensures err { OnErr result (queue.new.items ≡ queue.old.items) }
{
    let first = make_waiting(alloc, to, bytes)?;
    if is_twice {
        let second = make_waiting(alloc, to, bytes)?;
        queue.reserve(2)?;
        queue.push_back(first).unwrap();
        queue.push_back(second).unwrap();
    } else {
        queue.push_back(first)?;
    }
    Ok(())
}

impl Port for MemPort {
    ghost given = { λ p. p.given };

    ghost offered = { λ p. p.offered };

    ghost failures_of = { λ p. p.failures };

    ghost does = { DoesInMemory };

    ghost may_send = { λ p text. IsGranted p.granted text };

    fn receive(&mut self) -> Result<Option<(u8, Vec<u8>)>, PortFault>
        ensures given { GoesOnBy (arrived result ∷ []) self.old.given self.new.given }
        ensures offered { self.new.offered ≡ self.old.offered }
        ensures cause { self.new.failures ≡ counted result self.old.failures }

        // Datagrams are received in order, unless receives are set to fail.
        ensures orders { self.new.orders ≡ self.old.orders }
        ensures first { IfOk result (λ o. (self.old.orders.is_deaf ≡ false)
            × (arrived result ≡ first_of self.old.waiting)
            × (self.new.waiting ≡ drop 1 self.old.waiting)) }
        ensures deaf { IfErr result (λ f. (f ≡ PortFault.Failed)
            × (self.old.orders.is_deaf ≡ true) × (self.new.waiting ≡ self.old.waiting)) }
    {
        if self.is_deaf {
            self.keep_given(None);
            self.failures = self.failures.saturating_add(1);
            return Err(PortFault::Failed);
        }
        match self.waiting.pop_front() {
            Some(first) => {
                self.keep_given(Some(&first));
                let Waiting { to, bytes } = first;
                Ok(Some((to, bytes)))
            }
            None => {
                self.keep_given(None);
                Ok(None)
            }
        }
    }

    fn grant<W: Warrant>(&mut self, warrant: &W, bytes: &[u8])
        requires { W.covers warrant.now bytes.now }
        ensures { self.new ≡ record self.old {
          granted = self.old.granted ++ bytes.now ∷ [];
        } }
    {
        self.granted.note(bytes);
    }

    fn send(&mut self, from: u8, to: u8, bytes: &[u8]) -> Result<(), PortFault>
        requires { IsGranted self.old.granted bytes.now }
        ensures given { self.new.given ≡ self.old.given }
        ensures offered { GoesOnBy (record { from = from; to = to; text = bytes.now } ∷ [])
            self.old.offered self.new.offered }
        ensures cause { self.new.failures ≡ counted result self.old.failures }

        // The datagram is queued, once or twice, unless sends to that member are set to fail.
        ensures orders { self.new.orders ≡ self.old.orders }
        ensures waits { OnOk result ((is_one self.old.orders.lost_to to ≡ false)
            × (self.new.waiting ≡ self.old.waiting
            ++ put_by self.old.orders.is_twice to bytes.now)) }
        ensures lost { IfErr result (λ f. (self.new.waiting ≡ self.old.waiting)
            × (f ≡ lost_by (is_one self.old.orders.lost_to to))) }
    {
        self.keep_offered(from, to, bytes);
        if self.lost_to == Some(to) {
            self.failures = self.failures.saturating_add(1);
            return Err(PortFault::Failed);
        }
        put(self.alloc, &mut self.waiting, to, bytes, self.is_twice)?;
        Ok(())
    }

    fn failures(&self) -> u64 {
        self.failures
    }
}

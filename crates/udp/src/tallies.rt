//! Statistics for each member.
ghost use Rattle.std.specs.Prelude.{◌≡◌, [], length, replicate, slice_get, map, IfOk};
ghost use Rattle.datagram_ports.specs.Kept.{one_more};
ghost use Rattle.udp.specs.Tallies.{after, unsent_once_more, with_tally};

use crate::inbox::Came;
use faults::Memory;
use std::alloc::Global;
use std::time::Instant;

/// The counts for one member. They saturate.
#[derive(Clone, Copy, PartialEq, Eq)]
pub struct Tally {
    /// Datagrams from its address that are texts of this run, notices included.
    pub heard: u64,
    /// When the last of them came, if one did and the clock could be read.
    pub last: Option<Instant>,
    /// Datagrams from its address that aren't texts of this run: the member has another key, or
    /// somebody sends in its name.
    pub unsealed: u64,
    /// Repeated requests from its address, which were dropped.
    pub repeats: u64,
    /// Datagrams to it that were lost because the system didn't take them, and notices to it that
    /// were lost because there was no room or memory for them.
    pub unsent: u64,
}

/// The counts for each member, by number, and for others.
#[derive(Drop)]
pub struct Tallies {
    /// The time of the last look at the sockets, if there was one and the clock could be read.
    pub now: Option<Instant>,
    /// Datagrams from addresses of no member, or longer than a member's may be.
    pub strange: u64,
    pub members: Vec<Tally>,
}

impl Tallies {
    /// Zero counts for this many members.
    pub(crate) fn new(alloc: Global, members: usize) -> Result<Tallies, Memory>
        ensures { IfOk result (λ tallies. length tallies.members.items ≡ members) }
    {
        let none = Tally {
            heard: 0,
            last: None,
            unsealed: 0,
            repeats: 0,
            unsent: 0,
        };
        let members = vec![in alloc; none; members]?;
        Ok(Tallies {
            now: None,
            strange: 0,
            members,
        })
    }

    /// Notes the time of a look at the sockets, if the clock could be read.
    pub(crate) fn look(&mut self, now: Option<Instant>)
        ensures { self.new ≡ record self.old { now = now } }
    {
        self.now = now;
    }

    /// Counts a datagram that isn't a member's.
    pub(crate) fn note_strange(&mut self)
        ensures { (self.new.strange ≡ one_more self.old.strange)
            × (self.new.now ≡ self.old.now) × (self.new.members ≡ self.old.members) }
    {
        self.strange = self.strange.saturating_add(1);
    }

    /// Counts a datagram from the member's address, with which this was done.
    pub(crate) fn note(&mut self, member: usize, came: Came)
        ensures members { self.new.members.items
            ≡ with_tally (after self.old.now came) member self.old.members.items }
        ensures others { (self.new.now ≡ self.old.now)
            × (self.new.strange ≡ self.old.strange) }
    {
        if member < self.members.len() {
            let before = self.members[member];
            self.members[member] = seen(before, self.now, came);
        }
    }

    /// Counts a datagram to the member that was lost.
    pub(crate) fn note_unsent(&mut self, member: usize)
        ensures members { self.new.members.items
            ≡ with_tally unsent_once_more member self.old.members.items }
        ensures others { (self.new.now ≡ self.old.now)
            × (self.new.strange ≡ self.old.strange) }
    {
        if member < self.members.len() {
            let before = self.members[member];
            self.members[member] = with_one_unsent(before);
        }
    }
}

/// The tally after this was done with one more datagram.
fn seen(tally: Tally, now: Option<Instant>, came: Came) -> Tally
    ensures { result ≡ after now came tally }
{
    match came {
        Came::Unsealed => Tally {
            unsealed: tally.unsealed.saturating_add(1),
            ..tally
        },
        Came::Repeated => Tally {
            repeats: tally.repeats.saturating_add(1),
            ..tally
        },
        Came::Waits | Came::Lost => Tally {
            heard: tally.heard.saturating_add(1),
            last: now,
            ..tally
        },
    }
}

/// The tally after one more datagram to the member was lost.
fn with_one_unsent(tally: Tally) -> Tally
    ensures { result ≡ unsent_once_more tally }
{
    Tally {
        unsent: tally.unsent.saturating_add(1),
        ..tally
    }
}

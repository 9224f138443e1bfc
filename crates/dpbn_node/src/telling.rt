//! What a node prints while it runs.
ghost use Rattle.std.specs.Prelude.{◌≡◌, []};
ghost use Rattle.dpbn_node.specs.Telling.{IsToldNow, is_due, left_after, seconds_since};

use crate::repeats::{Repeated, Repeats};
use engine::Counts;
use program_io::{Refusal, node_text};
use std::alloc::Global;
use std::io::Write;
use std::time::Instant;
use udp::{Tallies, Tally};

/// What is printed about a node, and what was printed before.
#[derive(Drop)]
pub struct Telling {
    /// The node's member.
    pub me: u8,
    /// The node's line is printed after each N turns, if this is set.
    pub progress: Option<u32>,
    /// The number of turns until the next line is due.
    pub left: u32,
    /// Whether the statistics about members are printed, too, and only the first fault of each
    /// number is.
    pub is_watching: bool,
    /// The faults so far, if only the first of each number is printed.
    pub repeats: Repeats,
    /// The members about which it was printed that they seal with another key.
    pub otherwise: [bool; 9],
}

impl Telling {
    /// Nothing was printed about the member's node yet.
    pub fn new(alloc: Global, me: u8, progress: Option<u32>, is_watching: bool) -> Telling
        ensures of { (result.me ≡ me) × (result.progress ≡ progress)
            × (result.is_watching ≡ is_watching) }
        ensures nothing { result.repeats.known.items ≡ [] }
    {
        Telling {
            me,
            progress,
            left: progress.unwrap_or(0),
            is_watching,
            repeats: Repeats::new(alloc),
            otherwise: [false; 9],
        }
    }

    /// Counts a turn, and returns whether the node's line is due after it.
    pub fn is_due(&mut self) -> bool
        ensures due { result ≡ is_due self.old.progress self.old.left }
        ensures left { self.new ≡ record self.old
            { left = left_after self.old.progress self.old.left } }
    {
        let Some(progress) = self.progress else {
            return false;
        };
        if self.left <= 1 {
            self.left = progress;
            true
        } else {
            self.left -= 1;
            false
        }
    }

    /// Prints why a turn was refused. If members are watched and a fault of that number was printed
    /// before, it is only counted.
    pub fn refused<E: Write>(&mut self, refusal: Refusal, err: &mut E) {
        if self.is_told_now(refusal) {
            let _ = writeln!(err, "dpbn: {refusal}");
        }
    }

    /// Whether the fault is printed now. If members are watched, the fault is noted; if there is no
    /// memory for that, it is printed.
    fn is_told_now(&mut self, fault: Refusal) -> bool
        ensures told { IsToldNow fault self.old.is_watching self.old.repeats.known.items
            self.new.repeats.known.items result }
        ensures stays { (self.new.is_watching ≡ self.old.is_watching)
            × (self.new.me ≡ self.old.me) }
    {
        if !self.is_watching {
            return true;
        }
        self.repeats.note(fault).unwrap_or(true)
    }

    /// Prints, once for each member, that datagrams from its address are sealed with another key.
    pub fn tell_otherwise<E: Write>(&mut self, tallies: &Tallies, err: &mut E) {
        if !self.is_watching {
            return;
        }
        for member in 0..9 {
            if !self.otherwise[member] && is_otherwise(tallies, member) {
                self.otherwise[member] = true;
                tell_otherwise_sealed(member, err);
            }
        }
    }

    /// Prints the node's line, and then those about members.
    pub fn tell_line<E: Write>(
        &mut self,
        alloc: Global,
        counts: Option<Counts>,
        tallies: &Tallies,
        err: &mut E,
    ) {
        if let Ok(line) = node_text(alloc, self.me, counts) {
            let _ = err.write_all(line.as_bytes());
        }
        self.tell_members(tallies, err);
    }

    /// Prints the repeated faults with their counts so far, the statistics about each other member,
    /// and the number of datagrams from strangers.
    pub fn tell_members<E: Write>(&mut self, tallies: &Tallies, err: &mut E) {
        if !self.is_watching {
            return;
        }
        self.tell_repeats(err);
        for (member, tally) in tallies.members.iter().enumerate() {
            if member != self.me as usize {
                tell_member(member, *tally, tallies.now, err);
            }
        }
        let strange = tallies.strange;
        let _ = writeln!(err, "dpbn: strangers: {strange}");
    }

    /// Prints the repeated faults with their counts so far.
    fn tell_repeats<E: Write>(&self, err: &mut E) {
        for repeated in self.repeats.known() {
            let Repeated { first, again } = *repeated;
            if again > 0 {
                let number = first.number;
                let _ = writeln!(err, "dpbn: fault {number} came {again} times more");
            }
        }
    }
}

/// Prints that the member isn't in this run.
fn tell_otherwise_sealed<E: Write>(member: usize, err: &mut E) {
    let _ = writeln!(
        err,
        "dpbn: member {member} seals otherwise: another key, listing, weights or members"
    );
}

/// Whether a datagram from the member's address was sealed with another key.
fn is_otherwise(tallies: &Tallies, member: usize) -> bool {
    match tallies.members.get(member) {
        Some(tally) => tally.unsealed > 0,
        None => false,
    }
}

/// Prints the statistics about a member up to now.
fn tell_member<E: Write>(member: usize, tally: Tally, now: Option<Instant>, err: &mut E) {
    let Tally {
        heard,
        last,
        unsealed,
        repeats,
        unsent,
    } = tally;
    let _ = write!(err, "dpbn: member {member}: heard {heard}");
    if let Some(seconds) = seconds_since(last, now) {
        let _ = write!(err, ", last {seconds} s ago");
    }
    let _ = writeln!(
        err,
        ", sealed otherwise {unsealed}, asked again {repeats}, unsent {unsent}"
    );
}

/// The whole seconds between the last time and now, if both are known.
fn seconds_since(last: Option<Instant>, now: Option<Instant>) -> Option<u64>
    ensures { result ≡ seconds_since last now }
{
    let last = last?;
    let now = now?;
    Some(now.duration_since(last).as_secs())
}

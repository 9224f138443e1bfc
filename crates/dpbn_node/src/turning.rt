//! The turns of a node.
ghost use Rattle.std.specs.Prelude.{◌≡◌, ◌+◌, ◌<◌, Err, if◌then◌else◌};
ghost use Rattle.dpbn_node.specs.Node.{HasRun, HaveTaken};
ghost use Rattle.lone_node.specs.Handed.{AllBuilds};
ghost use Rattle.lone_node.specs.Turns.{IsTurn, Outcome, counts};

use crate::Telling;
use datagram_ports::Port;
use lone_node::{Solo, TurnFault};
use program_io::Refusal;
use protocol::Packages;
use stable_record::{Disk, FileDisk};
use std::alloc::Global;
use std::io::Write;
use std::time::Clock;
use udp::{Tallies, UdpPort};

/// A port that keeps statistics about members.
pub(crate) trait Counting {
    /// These statistics.
    fn seen(&self) -> &Tallies;
}

impl<'c, C: Clock> Counting for UdpPort<'c, C> {
    fn seen(&self) -> &Tallies {
        self.tallies()
    }
}

/// Takes the given number of turns, sends all queued datagrams, and returns how many turns it took.
/// Why a turn is refused is printed on `err`, and so are the other lines that are due.
///
/// A turn in which memory runs out doesn't count, and is taken again. After as many of these as
/// turns were asked for, fewer turns may have been taken; otherwise all were.
pub fn run<E: Write>(
    alloc: Global,
    solo: &mut Solo<'_, FileDisk, UdpPort<'_, HostRuntime>>,
    builds: &Packages,
    turns: u32,
    telling: &mut Telling,
    err: &mut E,
) -> u32
    ensures { HasRun builds.now result solo.old solo.new }
{
    let taken = take_turns(alloc, solo, builds, turns, telling, err);
    solo.port().flush();
    telling.tell_members(solo.port().seen(), err);
    taken
}

/// Takes the given number of turns, and returns how many it took.
fn take_turns<D: Disk, P: Port + Counting, E: Write>(
    alloc: Global,
    solo: &mut Solo<'_, D, P>,
    builds: &Packages,
    turns: u32,
    telling: &mut Telling,
    err: &mut E,
) -> u32
    ensures { HaveTaken D.Disk P.Port
        (AllBuilds builds.now) result solo.old solo.new }
{
    let mut taken = 0;
    for _ in 0..2 * u64::from(turns) {
        if taken >= turns {
            return taken;
        }
        taken = taken_after(taken, take_turn(solo, builds, telling, err));
        tell_turn(alloc, solo, telling, err);
    }
    taken
}

/// The number of turns that were taken, after one more that counts or doesn't.
fn taken_after(taken: u32, counts: bool) -> u32
    requires { taken < 4294967295 }
    ensures { result ≡ taken + (if counts then 1 else 0) }
{
    if counts { taken + 1 } else { taken }
}

/// Takes a turn, prints why it is refused, if it is, and returns whether it counts: it doesn't if
/// memory ran out.
fn take_turn<D: Disk, P: Port, E: Write>(
    solo: &mut Solo<'_, D, P>,
    builds: &Packages,
    telling: &mut Telling,
    err: &mut E,
) -> bool
    ensures { (answer : Outcome) × IsTurn D.Disk P.Port (AllBuilds builds.now) solo.old solo.new
        answer × (result ≡ counts answer) }
{
    match solo.turn(builds) {
        Ok(done) => {
            drop(done);
            true
        }
        Err(fault) => {
            telling.refused(Refusal::of(&fault), err);
            is_counted(fault)
        }
    }
}

/// Whether a turn that is refused so counts.
fn is_counted(fault: TurnFault) -> bool
    ensures { result ≡ counts (Err fault) }
{
    match fault {
        TurnFault::Memory => false,
        TurnFault::Node(_) | TurnFault::Down(_) | TurnFault::NotSent | TurnFault::NotFresh => true,
    }
}

/// Prints what is due after a turn.
fn tell_turn<D: Disk, P: Port + Counting, E: Write>(
    alloc: Global,
    solo: &mut Solo<'_, D, P>,
    telling: &mut Telling,
    err: &mut E,
)
    ensures { solo.new ≡ solo.old }
{
    telling.tell_otherwise(solo.port().seen(), err);
    if telling.is_due() {
        let counts = solo.counts();
        telling.tell_line(alloc, counts, solo.port().seen(), err);
    }
}

//! The turns of a node whose claims are built while it runs.
ghost use Rattle.std.specs.Prelude.{◌≡◌, true};
ghost use Rattle.dpbn_build.specs.Build.{HasBuilt};
ghost use Rattle.dpbn_build.specs.Turns.{HaveTurned, IsTurn, Turn};
ghost use Rattle.udp.specs.Notifying.{HasNotified};
ghost use Rattle.udp.specs.declared.patience.Hurry.{Hurry};

use crate::ending::is_at_end;
use crate::notices::exchange;
use crate::office::{Handed, Office, Turned};
use datagram_ports::Port;
use dpbn_node::{Initiative, Solo};
use stable_record::{Disk, FileDisk};
use std::io::Write;
use std::time::Clock;
use udp::{Hurry, Notice, Tallies, UdpPort};

/// A port for a node whose claims are built: its wait can be set, it exchanges notices with other
/// members, and it counts what it sends and receives.
pub(crate) trait BuildPort {
    /// The port with this wait.
    ghost hurried: { Self → Hurry → Self };

    /// What may happen to the port when a notice is taken from it or given to it.
    ghost noticed: { Self → Self → Type 0 };

    /// Sets how long a receive waits if nothing came.
    fn set_hurry(&mut self, hurry: Hurry)
        ensures { self.new ≡ hurried self.old hurry };

    /// Takes the first notice that came.
    fn take_notice(&mut self) -> Option<Notice>
        ensures { noticed self.old self.new };

    /// Sends the notice to each other member. It may get lost.
    fn send_notice(&mut self, notice: Notice)
        ensures { noticed self.old self.new };

    /// The number of datagrams that were offered so far.
    fn sends(&self) -> u64;

    /// What it received from each member.
    fn seen(&self) -> &Tallies;
}

impl<'c, C: Clock> BuildPort for UdpPort<'c, C> {
    ghost hurried = { λ port hurry. record port { hurry = hurry } };

    ghost noticed = { HasNotified };

    fn set_hurry(&mut self, hurry: Hurry) {
        UdpPort::set_hurry(self, hurry)
    }

    fn take_notice(&mut self) -> Option<Notice> {
        UdpPort::take_notice(self)
    }

    fn send_notice(&mut self, notice: Notice) {
        UdpPort::send_notice(self, notice)
    }

    fn sends(&self) -> u64 {
        UdpPort::sends(self)
    }

    fn seen(&self) -> &Tallies {
        self.tallies()
    }
}

/// Takes turns until the node is down or at rest, and then sends what is still queued to be sent.
/// Faults of turns are printed on `err`, and so are the node's lines. Returns whether the node is
/// down or at rest. If it isn't, it took as many turns as can be counted.
pub fn run<E: Write>(
    rt: &HostRuntime,
    solo: &mut Solo<'_, FileDisk, UdpPort<'_, HostRuntime>>,
    office: &mut Office<'_>,
    rest: Option<u32>,
    err: &mut E,
) -> bool
    ensures { result ≡ true → HasBuilt rest solo.old solo.new }
{
    let is_ended = take_turns(rt, solo, office, rest, err);
    solo.port().flush();
    office.telling.tell_members(solo.port().seen(), err);
    is_ended
}

/// Takes turns until the node is down or at rest, and returns whether it is.
fn take_turns<D: Disk, P: Port + BuildPort, E: Write>(
    rt: &HostRuntime,
    solo: &mut Solo<'_, D, P>,
    office: &mut Office<'_>,
    rest: Option<u32>,
    err: &mut E,
) -> bool
    ensures { result ≡ true → HaveTurned D.Disk P.Port P.noticed P.hurried rest solo.old solo.new }
{
    for _ in 0..u64::MAX {
        take_turn(rt, solo, office, err);
        tell_turn(rt, solo, office, err);
        if is_at_end(rt, solo, office, rest, err) {
            return true;
        }
    }
    false
}

/// Exchanges notices and takes a turn, and updates and prints what follows from it.
fn take_turn<D: Disk, P: Port + BuildPort, E: Write>(
    rt: &HostRuntime,
    solo: &mut Solo<'_, D, P>,
    office: &mut Office<'_>,
    err: &mut E,
)
    ensures { (turn : Turn) × IsTurn D.Disk P.Port P.noticed P.hurried solo.old turn solo.new }
{
    exchange(solo, office, err);
    let Handed { made, wish, hurry } = office.hand_in(rt, solo, err);
    let is_wished = wish.is_some();
    solo.port().set_hurry(hurry);
    let before = solo.port().sends();
    let answer = solo.turn_with(made.as_ref(), Initiative::Scheduled(wish));
    let has_sent = solo.port().sends() != before;
    let turned = Turned {
        answer,
        is_wished,
        has_sent,
    };
    office.keep(rt, solo, turned, err);
}

/// Prints what is due after a turn.
fn tell_turn<D: Disk, P: Port + BuildPort, E: Write>(
    rt: &HostRuntime,
    solo: &mut Solo<'_, D, P>,
    office: &mut Office<'_>,
    err: &mut E,
)
    ensures { solo.new ≡ solo.old }
{
    office.telling.tell_otherwise(solo.port().seen(), err);
    if office.is_due() {
        let counts = solo.counts();
        office.tell_line(rt.alloc(), counts, solo.port().seen(), err);
    }
}

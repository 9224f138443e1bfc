//! Turns of a node over any port, taken as long as it hears only what it sent itself.
ghost use Rattle.std.specs.Prelude.{◌≡◌, IfSome, true};
ghost use Rattle.laws.specs.Recorded.{HasHeard, RunsGoOn};

use crate::Recorded;
use datagram_ports::Port;
use lone_node::Solo;
use protocol::Packages;
use stable_record::Disk;
use turn_rules::Act;

/// Takes a turn, and returns what the node did. It returns `None` if the node took bytes that
/// weren't offered to its port before the turn, if the turn was refused, or if memory for the
/// record of what was offered ran out.
///
/// So the premise of `turns_are_of_a_run` was met in a turn that isn't `None`, and that law was
/// applied: each run of hosts to the node before the turn goes on to the node after it.
pub fn turn_if_heard<D: Disk, P: Port>(
    solo: &mut Solo<'_, D, Recorded<P>>,
    builds: &Packages,
) -> Option<Option<Act>>
    ensures { IfSome result (λ done. RunsGoOn solo.old solo.new) }
{
    let Some(before) = solo.port().count() else {
        return None;
    };
    let Ok(done) = solo.turn(builds) else {
        return None;
    };
    if is_heard(solo.port(), before, &done) {
        Some(done)
    } else {
        None
    }
}

/// Whether all was recorded, and what the node took, if it took bytes, is among the first datagrams
/// that were offered.
fn is_heard<P: Port>(port: &Recorded<P>, first: usize, done: &Option<Act>) -> bool
    ensures { result ≡ true → HasHeard port.now first done.now }
{
    match done {
        Some(Act::Datagram(bytes)) => port.is_among_first(first, bytes),
        Some(Act::Own(_)) => port.is_recorded(),
        None => port.is_recorded(),
    }
}

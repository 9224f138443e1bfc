//! Turns over a port in memory.
ghost use Rattle.std.specs.Prelude.{◌≡◌, [], IfOk, IfSome};
ghost use Rattle.check_turns.specs.InMemory.{HearsOffered, TurnsInMemory};

use crate::heard::Heard;
use cluster_turns::Cluster;
use datagram_ports::MemPort;
use protocol::{Event, Packages};
use stable_record::Disk;
use turn_rules::TurnFault;

/// Takes a turn. It receives the first datagram in the queue, if that was sent, and only what the
/// step sends is appended to the queue. Sends to a member to which they are set to fail fail, and
/// append nothing.
pub fn turn_in_memory<D: Disk>(
    cluster: &mut Cluster<'_, D, MemPort>,
    builds: &Packages,
) -> Result<Option<Event>, TurnFault>
    ensures { TurnsInMemory cluster.old cluster.new builds.now result }
{
    cluster.turn(builds)
}

/// Takes a turn, and a second one if the first had an event. If the queue was empty, the second
/// turn receives the first datagram that the port took of what the first turn's step sent, at the
/// node that it is for. It is queued again if each datagram is received twice.
pub fn hear_what_was_offered<D: Disk>(
    cluster: &mut Cluster<'_, D, MemPort>,
    first: &Packages,
    second: &Packages,
) -> Result<Option<Heard>, TurnFault>
    requires { cluster.old.port.waiting ≡ [] }
    ensures { IfOk result (λ o. IfSome o
        (λ h. HearsOffered cluster.old cluster.new second.now h.event h.next)) }
{
    let _events = cluster.events();
    match cluster.turn(first)? {
        Some(event) => {
            let next = cluster.turn(second);
            Ok(Some(Heard { event, next }))
        }
        None => Ok(None),
    }
}

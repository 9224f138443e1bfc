//! What the next turn receives of what a turn sends.
ghost use Rattle.std.specs.Prelude.{IfNone, IfOk, IfSome};
ghost use Rattle.check_turns.specs.Heard.{HearsNext};
ghost use Rattle.check_turns.specs.Listed.{HasNoClaims};

use cluster_turns::Cluster;
use datagram_ports::Port;
use protocol::{Event, Packages};
use stable_record::Disk;
use turn_rules::TurnFault;

/// The results of two turns, the first of which had an event.
#[derive(Drop)]
pub struct Heard {
    pub event: Event,
    pub next: Result<Option<Event>, TurnFault>,
}

/// Takes a turn, and a second one if the first had an event. If the first had nothing to do, no
/// node that is up has an open claim. What the first turn sent counts as sent afterwards. Suppose
/// the port returns one text that was sent, by then or before, for a node that is up. Then the
/// second turn doesn't refuse it as not sent, and its event is the delivery of that text.
pub fn hear_next<D: Disk, P: Port>(
    cluster: &mut Cluster<'_, D, P>,
    first: &Packages,
    second: &Packages,
) -> Result<Option<Heard>, TurnFault>
    ensures heard { IfOk result (λ o. IfSome o
        (λ h. HearsNext P.Port cluster.old cluster.new h.event h.next)) }
    ensures idle { IfOk result (λ o. IfNone o (HasNoClaims cluster.new)) }
{
    match cluster.turn(first)? {
        Some(event) => {
            let next = cluster.turn(second);
            Ok(Some(Heard { event, next }))
        }
        None => Ok(None),
    }
}

//! A port that is passed from one node to another.
ghost use Rattle.std.specs.Prelude.{◌≡◌, None, false};
ghost use Rattle.check_turns.specs.Handed.{HandsOn};

use crate::lone_turns::Outcome;
use datagram_ports::MemPort;
use lone_node::Solo;
use node::Node;
use protocol::Packages;
use stable_record::Disk;

/// Takes a turn of a node over a port in memory, and then one of another node over that port. What
/// the first one's step sends is queued. The second node's turn is about the first datagram in the
/// queue, if that is for it.
pub fn hand_on<D: Disk, E: Disk>(
    first: Solo<'_, D, MemPort>,
    second: Node<'_, E>,
    builds: &Packages,
) -> (Outcome, Outcome)
    requires no_claim { second.node.member.claim ≡ None }
    requires runs { second.node.stopped ≡ false }
    ensures { HandsOn first.entry second.entry result.0 result.1 }
{
    let mut first = first;
    let one = first.turn(builds);
    let (node, port) = first.into_parts();
    drop(node);
    let mut second = Solo::new(second, port);
    let other = second.turn(builds);
    (one, other)
}

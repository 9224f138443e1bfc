//! What nodes show after a turn.
ghost use Rattle.std.specs.Prelude.{MatchOption};
ghost use Rattle.check_turns.specs.Shown.{AreCountsAt, IsDownAt};

use cluster_turns::Cluster;
use datagram_ports::Port;
use engine::Counts;
use protocol::Packages;
use stable_record::Disk;

/// Takes a turn, and returns how many packages have each letter at the node afterwards, if it is
/// up. These are the counts of the world's node.
pub fn turn_then_count<D: Disk, P: Port>(
    cluster: &mut Cluster<'_, D, P>,
    builds: &Packages,
    node: u8,
) -> Option<Counts>
    ensures { MatchOption result (IsDownAt cluster.new node) (AreCountsAt cluster.new node) }
{
    let _answer = cluster.turn(builds);
    cluster.counts(node)
}

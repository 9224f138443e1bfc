//! Two turns.
ghost use Rattle.std.specs.Prelude.{◌≡◌, ◌++◌, IfErr, IfOk, None};
ghost use Rattle.check_turns.specs.Going.{GoesOnWith, IsRefusedInTwo, WasAskedAtMost, event_in};
ghost use Rattle.check_turns.specs.Listed.{HasNoClaims};

use cluster_turns::Cluster;
use datagram_ports::Port;
use protocol::{Event, Packages};
use stable_record::Disk;
use turn_rules::TurnFault;

/// Takes two turns, and returns the event of each, if it had one. The events lead, in order, from
/// each world that the cluster was to a world that it is, and are all that were appended. If the
/// second turn had nothing to do, no node that is up has an open claim. The port was asked at most
/// once in each turn, whatever the results are.
pub fn two_turns<D: Disk, P: Port>(
    cluster: &mut Cluster<'_, D, P>,
    first: &Packages,
    second: &Packages,
) -> Result<(Option<Event>, Option<Event>), TurnFault>
    ensures goes_on { IfOk result
        (λ r. GoesOnWith cluster.old cluster.new (event_in r.0 ++ event_in r.1)) }
    ensures idle { IfOk result (λ r. r.1 ≡ None → HasNoClaims cluster.new) }
    ensures asked { WasAskedAtMost 2 P.Port cluster.old.port cluster.new.port }
    ensures refused { IfErr result
        (IsRefusedInTwo P.Port cluster.old cluster.new first.now second.now) }
{
    let one = cluster.turn(first)?;
    let other = cluster.turn(second)?;
    Ok((one, other))
}

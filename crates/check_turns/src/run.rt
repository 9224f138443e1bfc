//! Turns until there is nothing to do.
ghost use Rattle.std.specs.Prelude.{◌≡◌, IfErr, IfOk, length, map, true};
ghost use Rattle.protocol.specs.Events.{event_view};
ghost use Rattle.cluster_turns.specs.Starting.{IsNewFault};
ghost use Rattle.check_turns.specs.Going.{GoesOn, WasAskedAtMost};
ghost use Rattle.check_turns.specs.Listed.{HasNoClaims, LeadToOneList};

use ballots::Weights;
use cluster_turns::Cluster;
use datagram_ports::Port;
use listing::Tree;
use protocol::{Event, Packages};
use stable_record::Disk;
use std::alloc::Global;
use turn_rules::TurnFault;

/// Makes a cluster over these disks, and takes turns until one has nothing to do, at most `most`.
/// Whatever was refused, and whichever nodes went down, the returned events lead from the start to
/// a world whose agreed list has at most one package for each path.
pub fn run_until_nothing<'a, D: Disk, P: Port>(
    alloc: Global,
    tree: &'a Tree,
    weights: &Weights,
    disks: Vec<D>,
    port: P,
    builds: &Packages,
    most: u32,
) -> Result<Vec<Event>, TurnFault>
    requires { length disks.items ≡ length weights.now }
    ensures led { IfOk result (λ events.
        LeadToOneList tree.entry.now weights.now (map event_view events.items)) }
    ensures refused { IfErr result (IsNewFault D.Disk tree.entry.now weights.now disks.items) }
{
    let mut cluster = Cluster::new(alloc, tree, weights, disks, port)?;
    let _ended = take_turns(&mut cluster, builds, most);
    // This call is for its contract: the events lead to a world with one list.
    let _events = cluster.events();
    Ok(cluster.into_events())
}

/// Takes turns until one has nothing to do, at most `most`, and returns whether one had. It
/// continues after refused turns. If a turn had nothing to do, no node that is up has an open
/// claim.
pub fn take_turns<D: Disk, P: Port>(
    cluster: &mut Cluster<'_, D, P>,
    builds: &Packages,
    most: u32,
) -> bool
    ensures goes_on { GoesOn cluster.old cluster.new }
    ensures asked { WasAskedAtMost most P.Port cluster.old.port cluster.new.port }
    ensures ended { result ≡ true → HasNoClaims cluster.new }
{
    for turn in 0..most {
        if has_nothing(cluster, builds) {
            return true;
        }
    }
    false
}

/// Takes a turn, and returns whether it had nothing to do.
fn has_nothing<D: Disk, P: Port>(cluster: &mut Cluster<'_, D, P>, builds: &Packages) -> bool
    ensures goes_on { GoesOn cluster.old cluster.new }
    ensures asked { WasAskedAtMost 1 P.Port cluster.old.port cluster.new.port }
    ensures ended { result ≡ true → HasNoClaims cluster.new }
{
    match cluster.turn(builds) {
        Ok(event) => event.is_none(),
        Err(_refused) => false,
    }
}

//! A node whose device fails in a turn, and that is opened again.
ghost use Rattle.std.specs.Prelude.{◌≡◌, ◌<◌, IfSome, length};
ghost use Rattle.stable_record.specs.History.{seen};
ghost use Rattle.cluster_turns.specs.State.{AreOnLogs};
ghost use Rattle.check_turns.specs.Reopened.{HasNotesAcross, HasNotesOfDown, IsLeftOf};

use ballots::Weights;
use cluster_turns::Cluster;
use datagram_ports::Port;
use listing::Tree;
use node::Node;
use protocol::Packages;
use stable_record::{Disk, FaultDisk, Left, MemDisk};
use std::alloc::Global;
use turn_rules::TurnFault;
use world::events_lead_to_later_worlds;

/// Takes a turn. If the node with this number goes down in it, opens that member's node over the
/// disk `left`. Suppose a crash of the failed disk may leave the file of that disk. Then the opened
/// node has the notes of the one that went down, or these and that of the event's step.
pub fn turn_then_reopen<'a, D: Disk, P: Port, E: Disk>(
    alloc: Global,
    cluster: &mut Cluster<'_, D, P>,
    builds: &Packages,
    left: E,
    tree: &'a Tree,
    weights: &Weights,
    me: u8,
) -> Option<Node<'a, E>>
    requires me { me < length weights.now }
    requires tree { cluster.old.division.tree ≡ tree.now }
    requires weights { cluster.old.weights ≡ weights.now }
    requires on_logs { AreOnLogs D.Disk cluster.old }
    ensures { IfSome result (λ n. E.is_kept n.log.disk
        → IsLeftOf D.Disk cluster.old cluster.new me (seen (E.history left))
        → HasNotesAcross cluster.old cluster.new me n.node) }
{
    events_lead_to_later_worlds();
    let _events = cluster.events();
    let Err(TurnFault::Down(node)) = cluster.turn(builds) else {
        return None;
    };
    if node != me {
        return None;
    }
    match Node::open(alloc, left, tree, weights, me) {
        Ok(node) => Some(node),
        Err(_refused) => None,
    }
}

/// A node that was opened again, with its number.
#[derive(Drop)]
pub struct Reopened<'a> {
    pub number: u8,
    pub node: Node<'a, MemDisk>,
}

/// Takes a turn. If a node goes down in it, takes the cluster apart, lets a crash leave of that
/// node's disk what `left` says, and opens the member's node over that. It has the notes of the one
/// that went down, or these and that of the event's step.
pub fn turn_then_crash<'a, P: Port>(
    alloc: Global,
    cluster: Cluster<'_, FaultDisk, P>,
    builds: &Packages,
    left: Left,
    tree: &'a Tree,
    weights: &Weights,
) -> Option<Reopened<'a>>
    requires tree { cluster.division.tree ≡ tree.now }
    requires weights { cluster.weights ≡ weights.now }
    ensures { IfSome result (λ r. HasNotesOfDown cluster.entry r.number r.node.node) }
{
    events_lead_to_later_worlds();
    let mut cluster = cluster;
    let _events = cluster.events();
    let Err(TurnFault::Down(number)) = cluster.turn(builds) else {
        drop(cluster);
        return None;
    };
    let (mut nodes, port) = cluster.into_parts();
    drop(port);
    if number as usize >= nodes.len() || number as usize >= weights.as_slice().len() {
        drop(nodes);
        return None;
    }
    let node = nodes.swap_remove(number as usize);
    drop(nodes);
    let disk = node.into_disk().into_inner().crash(left);
    match Node::open(alloc, disk, tree, weights, number) {
        Ok(node) => Some(Reopened { number, node }),
        Err((_refused, disk)) => {
            drop(disk);
            None
        }
    }
}

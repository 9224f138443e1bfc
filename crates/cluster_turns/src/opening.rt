//! Nodes on new logs, which have no notes.
ghost use Rattle.std.specs.Prelude.{◌≡◌, ◌≤◌, ◌<◌, ◌+◌, [], IfErr, IfOk, length};
ghost use Rattle.node.specs.OnLog.{identity};
ghost use Rattle.protocol.specs.Answers.{tree_digest};
ghost use Rattle.stable_record.specs.Log.{gate_place};
ghost use Rattle.stable_record.specs.Magic.{are_ones};
ghost use Rattle.cluster_turns.specs.Starting.{IsNewFault, IsOpeningFault};
ghost use Rattle.cluster_turns.specs.inside.Opening.{AreFresh, IsFresh};

use crate::told;
use ballots::Weights;
use listing::Tree;
use node::Node;
use stable_record::Disk;
use std::alloc::Global;
use turn_rules::TurnFault;

/// The node of each member over its disk, in order of number.
pub(crate) fn fresh_nodes<'a, D: Disk>(
    alloc: Global,
    tree: &'a Tree,
    weights: &Weights,
    disks: Vec<D>,
) -> Result<Vec<Node<'a, D>>, TurnFault>
    requires each { length disks.items ≡ length weights.now }
    requires few { length weights.now ≤ 9 }
    ensures count { IfOk result (λ nodes. length nodes.items ≡ length disks.items) }
    ensures fresh { IfOk result (λ nodes.
        AreFresh D.Disk tree.entry.now weights.now disks.items nodes.items) }
    ensures refused { IfErr result
        (IsNewFault D.Disk tree.entry.now weights.now disks.items) }
{
    let digest = tree.digest();
    let mut nodes = Vec::with_capacity(alloc, disks.len())?;
    let mut me = 0;
    for disk in disks {
        nodes.push(fresh_node(alloc, tree, &digest, weights, me, disk)?)?;
        me += 1;
    }
    Ok(nodes)
}

/// The member's node over the disk, for a tree with this digest.
fn fresh_node<'a, D: Disk>(
    alloc: Global,
    tree: &'a Tree,
    digest: &[u8; 32],
    weights: &Weights,
    me: u8,
    disk: D,
) -> Result<Node<'a, D>, TurnFault>
    requires member { me < length weights.now }
    requires digest { digest.now ≡ tree_digest tree.now }
    ensures node { IfOk result (IsFresh D.Disk tree.entry.now weights.now me disk) }
    ensures refused { IfErr result
        (IsOpeningFault D.Disk tree.entry.now weights.now me disk) }
{
    match Node::open_with_digest(alloc, disk, tree, digest, weights, me) {
        Ok(node) => {
            if node.log_len() == fresh_len(weights) {
                return Ok(node);
            }
            drop(node);
            Err(TurnFault::NotFresh)
        }
        Err((fault, disk)) => {
            drop(disk);
            Err(told(fault))
        }
    }
}

/// The length in bytes of a log without notes. It has the tree's digest, the number of members, the
/// member's number, and the weights unless all are 1.
fn fresh_len(weights: &Weights) -> u64
    ensures { (tree : _) (me : _)
        → result ≡ gate_place (identity tree weights.now me) [] + 1 }
{
    let all = weights.as_slice();
    if are_ones(all) {
        44
    } else {
        44 + all.len() as u64
    }
}

/// Whether each weight is 1.
fn are_ones(weights: &[u8]) -> bool
    ensures { result ≡ are_ones weights.now }
{
    weights.iter().all(|weight| *weight == 1)
}

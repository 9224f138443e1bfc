//! Nodes over disks in memory.
ghost use Rattle.std.specs.Prelude.{◌≡◌, ◌<◌, IfOk, length};
ghost use Rattle.simulator.specs.inside.Opening.{HasNode, IsNodeOf};
ghost use Rattle.simulator.specs.inside.Standing.{file_of};

use crate::digested_tree::DigestedTree;
use ballots::Weights;
use faults::Memory;
use node::{Node, NodeFault};
use stable_record::MemDisk;
use std::alloc::Global;

/// The node that the disk's notes restore. A disk in memory never fails, and the file is known to
/// be a node's, so only memory can run out.
pub(crate) fn opened<'a>(
    alloc: Global,
    disk: MemDisk,
    tree: &DigestedTree<'a>,
    weights: &Weights,
    me: u8,
) -> Result<Node<'a, MemDisk>, Memory>
    requires member { me < length weights.now }
    requires node { HasNode tree.now weights.now me (file_of disk) }
    ensures { IfOk result (IsNodeOf tree.now weights.now me (file_of disk)) }
{
    let own = tree.tree();
    match Node::open_with_digest(alloc, disk, own, tree.digest(), weights, me) {
        Ok(node) => Ok(node),
        Err((fault, _)) => match fault {
            NodeFault::Memory => Err(Memory),
            _ => unreachable!(),
        },
    }
}

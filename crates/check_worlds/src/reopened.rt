//! Nodes that stop, and are opened again.
ghost use Rattle.std.specs.Prelude.{◌≡◌, ◌<◌, ◌⊎◌, IfErr, IfOk, IfSome, Ok, OnOk, length};
ghost use Rattle.node.specs.Calls.{HasHandled};
ghost use Rattle.node.specs.OnLog.{IsOnLog, identity, texts_of};
ghost use Rattle.node.specs.Ranges.{IsGoodInput};
ghost use Rattle.node.specs.Step.{Comes, Does};
ghost use Rattle.stable_record.specs.Crash.{IsOnDisk};
ghost use Rattle.stable_record.specs.Failing.{history_of};
ghost use Rattle.stable_record.specs.History.{seen};
ghost use Rattle.stable_record.specs.Opening.{Opens};
ghost use Rattle.check_worlds.specs.Rows.{HasNotesBeforeOrAfter, IsAsAfter, IsOf, reopened};

use ballots::Weights;
use listing::Tree;
use member::Input;
use node::{Effects, Node, NodeFault};
use stable_record::{Disk, FaultDisk, Left, LogFault, MemDisk};
use std::alloc::Global;

/// Stops the node, and opens it again.
pub fn reopen<'a, D: Disk>(
    alloc: Global,
    node: Node<'a, D>,
    tree: &'a Tree,
    weights: &Weights,
    me: u8,
) -> Result<Node<'a, D>, (NodeFault, D)>
    requires { me < length weights.now }
    // It knows what it knew, and has neither claim nor pieces.
    ensures opened { IfOk result (λ n. D.is_kept n.log.disk → IsOnLog D.history node.entry
        → IsOf tree.entry.now weights.now me node.entry.node.member
        → n.node ≡ reopened node.entry.node) }
    ensures on_log { IfOk result (λ n. D.is_kept n.log.disk → IsOnLog D.history n) }
    ensures kept { IfOk result (λ n. D.is_kept n.log.disk → D.is_kept node.entry.log.disk) }

    // Only memory and the device can prevent that.
    ensures refused { IfErr result (λ e. D.is_kept e.1 → IsOnLog D.history node.entry
        → IsOf tree.entry.now weights.now me node.entry.node.member
        → (e.0 ≡ NodeFault.Memory) ⊎ (e.0 ≡ NodeFault.Log LogFault.Device)) }
{
    let _len = node.log_len();
    Node::open(alloc, node.into_disk(), tree, weights, me)
}

/// Stops the node, opens it again, and handles bytes.
pub fn receive_after_reopening<'a, D: Disk>(
    alloc: Global,
    node: Node<'a, D>,
    tree: &'a Tree,
    weights: &Weights,
    me: u8,
    bytes: &[u8],
) -> Result<(Node<'a, D>, Result<Effects, NodeFault>), (NodeFault, D)>
    requires { me < length weights.now }
    ensures handled { IfOk result (λ r. D.is_kept r.0.log.disk → IsOnLog D.history node.entry
        → IsOf tree.entry.now weights.now me node.entry.node.member
        → IfOk r.1 (HasHandled (reopened node.entry.node) r.0.node (Comes bytes.now))) }
    ensures on_log { IfOk result (λ r. D.is_kept r.0.log.disk
        → OnOk r.1 (IsOnLog D.history r.0)) }
{
    match reopen(alloc, node, tree, weights, me) {
        Ok(node) => {
            let mut node = node;
            let answer = node.handle_datagram(bytes);
            Ok((node, answer))
        }
        Err(refused) => Err(refused),
    }
}

/// Handles an input; a crash during it leaves this disk; the node is opened again.
pub fn crash_inside<'a>(
    alloc: Global,
    node: Node<'a, FaultDisk>,
    input: Input,
    left: Left,
    tree: &'a Tree,
    weights: &Weights,
    me: u8,
) -> Result<Node<'a, MemDisk>, (NodeFault, MemDisk)>
    requires me { me < length weights.now }
    requires message { IsGoodInput input }
    // Its log has the previous notes, either with or without that of the step.
    ensures { IfOk result (λ n. IsOnLog history_of node.entry
        → IsOf tree.entry.now weights.now me node.entry.node.member
        → HasNotesBeforeOrAfter node.entry.node (Does input) n.node) }
{
    let mut node = node;
    let _answer = node.handle(input);
    let disk = node.into_disk().into_inner().crash(left);
    Node::open(alloc, disk, tree, weights, me)
}

/// Handles an input. If it succeeded, a crash follows, and the node is opened again.
pub fn crash_behind<'a>(
    alloc: Global,
    node: Node<'a, FaultDisk>,
    input: Input,
    left: Left,
    tree: &'a Tree,
    weights: &Weights,
    me: u8,
) -> Result<Option<Node<'a, MemDisk>>, (NodeFault, MemDisk)>
    requires me { me < length weights.now }
    requires message { IsGoodInput input }
    ensures { IfOk result (λ o. IfSome o (λ n. IsOnLog history_of node.entry
        → IsOf tree.entry.now weights.now me node.entry.node.member
        → IsAsAfter node.entry.node (Does input) n.node)) }
{
    let mut node = node;
    match node.handle(input) {
        Ok(out) => {
            drop(out);
            let _len = node.log_len();
            let disk = node.into_disk().into_inner().crash(left);
            let again = Node::open(alloc, disk, tree, weights, me)?;
            Ok(Some(again))
        }
        Err(_refused) => {
            drop(node);
            Ok(None)
        }
    }
}

/// Opens a node on a disk that may fail. Whatever the result, a crash follows, and it is opened
/// again.
pub fn crash_in_opening<'a>(
    alloc: Global,
    disk: FaultDisk,
    left: Left,
    tree: &'a Tree,
    weights: &Weights,
    me: u8,
) -> Result<Node<'a, MemDisk>, (NodeFault, MemDisk)>
    requires me { me < length weights.now }
    ensures { IfOk result (λ n. IsOnDisk (history_of disk)
        → Opens (identity tree.entry.now weights.now me) (seen (history_of disk))
        (Ok (texts_of n.node.notes))) }
{
    let disk = match Node::open(alloc, disk, tree, weights, me) {
        Ok(node) => node.into_disk(),
        Err((_refused, disk)) => disk,
    };
    let disk = disk.into_inner().crash(left);
    Node::open(alloc, disk, tree, weights, me)
}

//! A lone node that ends during a turn, and is opened again.
ghost use Rattle.std.specs.Prelude.{◌≡◌, ◌<◌, IfSome, length};
ghost use Rattle.laws.specs.Reopening.{ComesBack, IsLeftInTurn, MayBeLeft};
ghost use Rattle.node.specs.Calls.{IsOpened};
ghost use Rattle.node.specs.OnLog.{IsOnLog, identity, identity_of, texts_of};
ghost use Rattle.stable_record.specs.History.{seen};

use ballots::Weights;
use datagram_ports::Port;
use listing::Tree;
use lone_node::{Initiative, Solo};
use node::Node;
use protocol::Packages;
use stable_record::Disk;
use std::alloc::Global;

/// Opens the member's node on its log, takes a turn of it, and opens the same member's node over
/// the disk `left`. Suppose a crash at some moment of the turn may leave the file of that disk.
/// Then the second node has the notes of the first, or these and that of its step.
pub fn open_turn_open<'a, D: Disk, P: Port, E: Disk>(
    alloc: Global,
    disk: D,
    port: P,
    made: Option<&Packages>,
    initiative: Initiative,
    left: E,
    tree: &'a Tree,
    weights: &Weights,
    me: u8,
) -> Option<(Solo<'a, D, P>, Node<'a, E>)>
    requires { me < length weights.now }
    ensures { IfSome result (λ r. ComesBack D.Disk E.Disk
        tree.entry.now weights.now me disk left r.0 r.1) }
{
    let Ok(node) = Node::open(alloc, disk, tree, weights, me) else {
        return None;
    };
    let mut solo = Solo::new(node, port);
    match turn_then_open(alloc, &mut solo, made, initiative, left, tree, weights, me) {
        Some(again) => Some((solo, again)),
        None => None,
    }
}

/// Takes a turn of the member's node, and opens the same member's node over the disk `left`.
/// Suppose the first node was on its log, and a crash at some moment of the turn may leave the file
/// of that disk. Then the second node has the notes of the first, or these and that of its step.
pub fn turn_then_open<'a, D: Disk, P: Port, E: Disk>(
    alloc: Global,
    solo: &mut Solo<'_, D, P>,
    made: Option<&Packages>,
    initiative: Initiative,
    left: E,
    tree: &'a Tree,
    weights: &Weights,
    me: u8,
) -> Option<Node<'a, E>>
    requires me { me < length weights.now }
    requires own { identity_of solo.old.node.node.member ≡ identity tree.now weights.now me }
    ensures opened { IfSome result (λ n. IsOpened tree.entry.now weights.now me n.node) }
    ensures left { IfSome result (λ n. E.is_kept n.log.disk → D.is_kept solo.new.node.log.disk
        → IsOnLog D.history solo.old.node
        → MayBeLeft (D.history solo.old.node.log.disk) (D.history solo.new.node.log.disk)
        (seen (E.history left))
        → IsLeftInTurn solo.old.node.node (texts_of n.node.notes)) }
    ensures kept { D.is_kept solo.new.node.log.disk → D.is_kept solo.old.node.log.disk }
{
    let _node = solo.node().member();
    let _answer = solo.turn_with(made, initiative);
    match Node::open(alloc, left, tree, weights, me) {
        Ok(node) => Some(node),
        Err(_refused) => None,
    }
}

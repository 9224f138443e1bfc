//! The nodes of a world, what they sent, and what is agreed.
ghost use Rattle.std.specs.Prelude.{◌≡◌, ◌<◌, IfOk, Some, length, slice_get, true};
ghost use Rattle.world.specs.Happening.{fault_before, is_up};
ghost use Rattle.world.specs.World.{IsMade, node_at, start};
ghost use Rattle.protocol.specs.Events.{event_view};
ghost use Rattle.simulator.specs.inside.Opening.{HasUnits};
ghost use Rattle.simulator.specs.inside.Standing.{IsStanding, world_of};
ghost use Rattle.simulator.specs.inside.Starting.{AreFresh, IsFresh};

use crate::digested_tree::DigestedTree;
use crate::event_kind::{is_bad_stop, is_restart, lacks_datagram, node_of};
use crate::opening::opened;
use crate::slot::Slot;
use crate::tables::Tables;
use ballots::Weights;
use engine::Units;
use faults::Memory;
use listing::Tree;
use node::Node;
use protocol::Event;
use stable_record::MemDisk;
use std::alloc::Global;
use world::WorldFault;

/// The parts of a world: its tree, the weights, the members' nodes, and what was sent and agreed.
#[derive(Drop)]
pub(crate) struct WorldState<'a> {
    pub(crate) tree: DigestedTree<'a>,
    /// The tree's units.
    pub(crate) units: Units<'a>,
    /// The weight of each member.
    pub(crate) weights: Weights,
    /// The members' nodes, by number.
    pub(crate) nodes: Vec<Slot<'a>>,
    pub(crate) tables: Tables,
}

impl<'a> WorldState<'a> {
    /// The start: all nodes are up, nothing is noted, and nothing was sent.
    pub(crate) fn new(
        alloc: Global,
        tree: &'a Tree,
        weights: &Weights,
    ) -> Result<WorldState<'a>, Memory>
        ensures world { IfOk result (λ s. world_of s ≡ start s.units weights.now) }
        ensures tree { IfOk result (λ s. s.units.tree ≡ tree.entry.now) }
        ensures made { IfOk result (λ s. IsMade s.units weights.now) }
        ensures standing { IfOk result IsStanding }
    {
        let units = Units::new(alloc, tree)?;
        // Calling this gives the proof that the units divide the tree, and the range of the
        // weights.
        let _count = units.len();
        let _weights = weights.as_slice();
        let digested = DigestedTree::new(tree);
        let nodes = fresh_nodes(alloc, &digested, weights)?;
        Ok(WorldState {
            tree: digested,
            units,
            weights: weights.copy(),
            nodes,
            tables: Tables::new(alloc),
        })
    }

    /// Whether the node is up. False if there is no node with this number.
    pub(crate) fn is_up(&self, node: u8) -> bool
        ensures { result ≡ is_up (world_of self.now) node }
    {
        match self.nodes.get(node as usize) {
            Some(slot) => slot.is_up(),
            None => false,
        }
    }

    /// The node, which is up.
    pub(crate) fn up(&self, node: u8) -> &Node<'a, MemDisk>
        requires standing { IsStanding self.now }
        requires up { is_up (world_of self.now) node ≡ true }
        ensures { (x : _) → slice_get (world_of self.now).nodes node ≡ Some x
            → result.now.node ≡ node_at (world_of self.now) node x }
    {
        match &self.nodes[node as usize] {
            Slot::Up(node) => node,
            Slot::Down(_) => unreachable!(),
        }
    }

    /// Why the event is refused before its node is asked.
    pub(crate) fn fault_before(&self, event: &Event) -> Option<WorldFault>
        ensures { result ≡ fault_before (world_of self.now) (event_view event.now) }
    {
        let node = node_of(event);
        if is_bad_stop(event) {
            Some(WorldFault::BadTrace(0))
        } else if node as usize >= self.nodes.len() {
            Some(WorldFault::NoSuchNode)
        } else if !is_restart(event) && !self.is_up(node) {
            Some(WorldFault::NodeDown)
        } else if is_restart(event) && self.is_up(node) {
            Some(WorldFault::NodeUp)
        } else if lacks_datagram(self.tables.sent.len(), event) {
            Some(WorldFault::NoSuchDatagram)
        } else {
            None
        }
    }
}

/// The nodes of the members at the start, by number.
fn fresh_nodes<'a>(
    alloc: Global,
    tree: &DigestedTree<'a>,
    weights: &Weights,
) -> Result<Vec<Slot<'a>>, Memory>
    requires { HasUnits tree.now }
    ensures { IfOk result (λ nodes. AreFresh tree.now weights.now nodes.items) }
{
    let mut nodes = Vec::with_capacity(alloc, weights.len())?;
    for me in 0..weights.len() as u8 {
        nodes.push(Slot::Up(fresh(alloc, tree, weights, me)?))?;
    }
    Ok(nodes)
}

/// The node with this number at the start, over an empty disk.
fn fresh<'a>(
    alloc: Global,
    tree: &DigestedTree<'a>,
    weights: &Weights,
    me: u8,
) -> Result<Node<'a, MemDisk>, Memory>
    requires member { me < length weights.now }
    requires units { HasUnits tree.now }
    ensures { IfOk result (IsFresh tree.now weights.now me) }
{
    let disk = MemDisk::new(alloc, &[])?;
    opened(alloc, disk, tree, weights, me)
}

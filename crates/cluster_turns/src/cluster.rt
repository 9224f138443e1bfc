//! A cluster. Contracts see its nodes, its datagrams, its events, and its state between turns.
ghost use Rattle.std.specs.Prelude.{◌≡◌, [], IfErr, IfOk, MatchOption, None, Some, length, map};
ghost use Rattle.turn_rules.specs.Pending.{nothing_kept};
ghost use Rattle.engine.specs.State as engines;
ghost use Rattle.one_list.specs.MatchingLaws.{IsSafe};
ghost use Rattle.protocol.specs.State as members;
ghost use Rattle.protocol.specs.State.{engine_of};
ghost use Rattle.std.specs.List.{AllZip};
ghost use Rattle.cluster_turns.specs.AnyCase.{IsListedInAnyCase};
ghost use Rattle.cluster_turns.specs.Starting.{IsNewFault, StandsFresh};
ghost use Rattle.cluster_turns.specs.State.{AreOnLogs, IsWorldOf, here_of, taken};
ghost use Rattle.world.specs.Headline.{HasOneList};
ghost use Rattle.world.specs.World as worlds;
ghost use Rattle.world.specs.World.{start};

use crate::opening::fresh_nodes;
use ballots::Weights;
use datagram_ports::Port;
use engine::{Counts, Units};
use faults::Memory;
use listing::Tree;
use node::Node;
use protocol::Event;
use stable_record::Disk;
use std::alloc::Global;
use std::marker::Model;
use turn_rules::{Pending, TurnFault};
use world::Datagrams;

/// All members' nodes in one process, each over its own disk, and the port that they reach each
/// other through.
#[derive(Drop)]
pub struct Cluster<'a, D: Disk, P: Port> {
    pub(crate) alloc: Global,
    pub(crate) tree: &'a Tree,
    pub(crate) units: Units<'a>,
    pub(crate) weights: Weights,
    /// By number. A node whose device failed stays here, stopped.
    pub(crate) nodes: Vec<Node<'a, D>>,
    /// The different datagrams, in the order in which they were first sent.
    pub(crate) sent: Datagrams,
    pub(crate) events: Vec<Event>,
    pub(crate) pending: Pending,
    /// By number, a position below which the node's only queued packages are those whose units
    /// failed, so that turns needn't search there again.
    pub(crate) unfailed: [u32; 9],
    pub(crate) port: P,
}

impl<'a, D: Disk, P: Port> Model for Cluster<'a, D, P> {
    ghost use Rattle.cluster_turns.specs.State.{ClusterState};

    ghost Value = { ClusterState D P };

    ghost use Rattle.protocol.specs.contracts.event.Event as event;
    ghost use Rattle.std.specs.Coded.{codes};

    ghost coded = { Prim.hlevel (codes, event.the_row.coded) };

    ghost use Rattle.cluster_turns.specs.inside.Standing.{IsCluster, cluster_of};

    ghost view = { cluster_of };

    ghost use Rattle.cluster_turns.specs.State.{AreOnLogs};

    ghost invariant = { λ c. IsCluster c × AreOnLogs D.Disk (cluster_of c) };
}

impl<'a, D: Disk, P: Port> Cluster<'a, D, P> {
    ghost use Rattle.std.specs.Borrow.{follows, sem};
    ghost use Rattle.cluster_turns.specs.contracts.cluster.Cluster.{the_row};
    ghost use mir.Syntax.{named};

    /// The cluster at its start: all nodes are up, nothing is noted, and nothing was sent. `disks`
    /// and `weights` have one element for each member.
    ///
    /// # Errors
    ///
    /// `Memory`; otherwise the fault of the first disk over which no node can be opened: why its
    /// log can't be opened, or `NotFresh` if its log has notes.
    pub fn new(
        alloc: Global,
        tree: &'a Tree,
        weights: &Weights,
        disks: Vec<D>,
        port: P,
    ) -> Result<Cluster<'a, D, P>, TurnFault>
        requires { length disks.items ≡ length weights.now }
        ensures world { IfOk result (λ c. IsWorldOf c (start c.division weights.now)) }
        ensures tree { IfOk result (λ c. c.division.tree ≡ tree.entry.now) }
        ensures weights { IfOk result (λ c. c.weights ≡ weights.now) }
        ensures events { IfOk result (λ c. c.events ≡ []) }
        ensures pending { IfOk result (λ c. c.pending ≡ nothing_kept) }
        ensures port { IfOk result (λ c. c.port ≡ port) }
        ensures on_logs { IfOk result (AreOnLogs D.Disk) }
        ensures disks { IfOk result (λ c. AllZip (StandsFresh D.Disk) c.nodes disks.items) }
        ensures refused { IfErr result
            (IsNewFault D.Disk tree.entry.now weights.now disks.items) }
    {
        let units = Units::new(alloc, tree)?;
        // These calls are for their contracts: the units divide the tree, and the weights are
        // valid.
        let _count = units.len();
        let _weights = weights.as_slice();
        let nodes = fresh_nodes(alloc, tree, weights, disks)?;
        Ok(Cluster {
            alloc,
            tree,
            units,
            weights: weights.copy(),
            nodes,
            sent: Datagrams::new(alloc),
            events: Vec::new(alloc),
            pending: Pending::new(alloc),
            unfailed: [0; 9],
            port,
        })
    }

    /// All events so far: what turns returned, with a stop during the step for each node that went
    /// down. They lead from the start to a world with these nodes and datagrams, so what holds of
    /// each run holds of it. This also holds, for the nodes that are up, whatever was left of the
    /// steps during which nodes went down. Each node that is up has its notes on its log.
    pub fn events(&self) -> &[Event]
        ensures events { result.now ≡ self.now.events }
        ensures on_logs { AreOnLogs D.Disk self.now }
        ensures history { (w : worlds.World) × IsWorldOf self.now w }
        ensures one_list { (w : worlds.World) → IsWorldOf self.now w
            → HasOneList self.now.division self.now.weights (taken self.now) w }
        ensures safe { (w : worlds.World) → IsWorldOf self.now w
            → IsSafe self.now.division self.now.weights (taken self.now) w }
        ensures any_case { IsListedInAnyCase self.now }
    {
        self.events.as_slice()
    }

    /// Consumes the cluster, and returns its events.
    pub fn into_events(self) -> Vec<Event>
        ensures { result.items ≡ self.entry.events }
    {
        let Cluster { events, .. } = self;
        events
    }

    /// Consumes the cluster, and returns its nodes, by number, each over its disk, and its port.
    pub fn into_parts(self) -> (Vec<Node<'a, D>>, P)
        ensures nodes { result.0.items ≡ self.entry.nodes }
        ensures port { result.1 ≡ self.entry.port }
    {
        let Cluster { nodes, port, .. } = self;
        (nodes, port)
    }

    /// Consumes the cluster, and returns its disks, by number.
    ///
    /// # Errors
    ///
    /// Out of memory. Then the disks are dropped, too.
    pub fn into_disks(self) -> Result<Vec<D>, Memory>
        ensures { IfOk result (λ disks.
            disks.items ≡ map (λ n. n.log.disk) self.entry.nodes) }
    {
        let Cluster { alloc, nodes, .. } = self;
        disks_of(alloc, nodes)
    }

    /// The number of packages with each letter at the node, if it is up.
    pub fn counts(&self, node: u8) -> Option<Counts>
        ensures { MatchOption result (here_of self.now node ≡ None)
            (λ counts. (s : members.State) × (here_of self.now node ≡ Some s)
            × engines.AreCounts (engine_of s) counts) }
    {
        let node = self.nodes.get(node as usize)?;
        if node.is_stopped() {
            return None;
        }
        Some(node.counts())
    }

    /// The port.
    pub fn port(&mut self) -> &mut P
        ensures value { result.now ≡ self.old.port }
        ensures* lends { sem 𝓛 (follows
            (the_row (record { mir = named 1; lft = [] }) D.row P.row D.Disk P.Port) P.row
            self.entry.ghost_name result.ghost_name (λ p. record self.old { port = p })) }
    {
        &mut self.port
    }
}

/// The disks of these nodes.
fn disks_of<D: Disk>(alloc: Global, nodes: Vec<Node<'_, D>>) -> Result<Vec<D>, Memory>
    ensures { IfOk result (λ disks. disks.items ≡ map (λ n. n.log.disk) nodes.entry.items) }
{
    let mut disks = Vec::with_capacity(alloc, nodes.len())?;
    for node in nodes {
        disks.push(node.into_disk())?;
    }
    Ok(disks)
}

//! A world. Contracts see its nodes, its datagrams, its list, and the events that led to it.
ghost use Rattle.std.specs.Prelude.{◌≡◌, ◌<◌, [], IfOk, Some, length, position, slice_get, true};
ghost use Rattle.std.specs.Option.{option_copied};
ghost use Rattle.std.specs.Str.{bytes_eq};
ghost use Rattle.engine.specs.State as engines;
ghost use Rattle.protocol.specs.State.{engine_of};
ghost use Rattle.simulator.specs.History.{IsHistory, file_length};
ghost use Rattle.world.specs.Happening.{is_up};
ghost use Rattle.world.specs.Headline.{
  AllFit,
  AreRecords,
  AuditSaysYes,
  HasOneAPath,
  HeldIsListed,
  holds,
};
ghost use Rattle.world.specs.World.{member_at, node_at, start};

use crate::world_state::WorldState;
use ballots::Weights;
use engine::{Counts, Letter, Units};
use faults::Memory;
use indexmap::IndexSet;
use listing::Tree;
use node::Node;
use package_record::Record;
use pkgpath::PkgPath;
use protocol::Event;
use stable_record::MemDisk;
use std::alloc::Global;
use std::marker::Model;
use world::DatagramBytes;

/// Nodes on disks in memory, the datagrams that they sent, and the list of agreed packages.
#[derive(Drop)]
pub struct World<'a> {
    pub(crate) state: WorldState<'a>,
    pub(crate) events: Vec<Event>,
}

impl<'a> Model for World<'a> {
    ghost use Rattle.simulator.specs.History.{History};

    ghost Value = { History };

    ghost use Rattle.protocol.specs.contracts.event.Event as event;
    ghost use Rattle.std.specs.Coded.{codes};

    ghost coded = { Prim.hlevel (codes, event.the_row.coded) };

    ghost use Rattle.simulator.specs.inside.Standing.{StandsSo, history_of};

    ghost view = { history_of };

    ghost invariant = { StandsSo };
}

impl<'a> World<'a> {
    /// The world at its start: all nodes are up, nothing is noted, and nothing was sent. `weights`
    /// has one weight for each member.
    pub fn new(alloc: Global, tree: &'a Tree, weights: &Weights) -> Result<World<'a>, Memory>
        ensures world { IfOk result (λ w. w.world ≡ start w.world.division weights.now) }
        ensures tree { IfOk result (λ w. w.world.division.tree ≡ tree.entry.now) }
        ensures events { IfOk result (λ w. w.events ≡ []) }
        ensures history { IfOk result IsHistory }
    {
        Ok(World {
            state: WorldState::new(alloc, tree, weights)?,
            events: Vec::new(alloc),
        })
    }

    /// The agreed list, in the order in which it grew. It has at most one package for each path;
    /// each is a record and fits the tree; an audit of it succeeds; and it contains all that nodes
    /// hold.
    pub fn agreed(&self) -> &[Record]
        ensures list { result.now ≡ self.now.world.agreed }
        ensures one_a_path { HasOneAPath self.now.world }
        ensures records { AreRecords self.now.world }
        ensures fits { AllFit self.now.world }
        ensures allowed { AuditSaysYes self.now.world }
        ensures held { HeldIsListed self.now.world }
    {
        self.state.tables.agreed.as_slice()
    }

    /// The agreed list. The rest of the world is dropped.
    pub fn into_agreed(self) -> Vec<Record>
        ensures { result.items ≡ self.entry.world.agreed }
    {
        let state = self.state;
        let tables = state.tables;
        tables.agreed
    }

    /// The events that were taken, in order. They lead from the start to this world, so that what
    /// holds of each run holds of it.
    pub fn events(&self) -> &[Event]
        ensures events { result.now ≡ self.now.events }
        ensures history { IsHistory self.now }
    {
        self.events.as_slice()
    }

    /// The different datagrams that were sent, in order of first sending.
    pub fn datagrams(&self) -> &IndexSet<DatagramBytes>
        ensures { result.now.keys ≡ self.now.world.sent }
    {
        self.state.tables.sent.as_set()
    }

    /// The number of the datagram with these bytes, if it was sent.
    pub fn number_of(&self, datagram: &DatagramBytes) -> Option<usize>
        ensures { result ≡ position (bytes_eq datagram.now) self.now.world.sent }
    {
        self.state.tables.sent.number_of(datagram)
    }

    /// The number of nodes, one for each member.
    pub fn len(&self) -> u8
        ensures { result ≡ length self.now.world.nodes }
    {
        self.state.nodes.len() as u8
    }

    /// Whether the node is up. False if there is no node with this number.
    pub fn is_up(&self, node: u8) -> bool
        ensures { result ≡ is_up self.now.world node }
    {
        self.state.is_up(node)
    }

    /// The node with this number, which is up.
    pub fn node(&self, number: u8) -> &Node<'a, MemDisk>
        requires { is_up self.now.world number ≡ true }
        ensures { (x : _) → slice_get self.now.world.nodes number ≡ Some x
            → result.now.node ≡ node_at self.now.world number x }
    {
        self.state.up(number)
    }

    /// The units of the tree.
    pub fn units(&self) -> &Units<'a>
        ensures { result.now ≡ self.now.world.division }
    {
        &self.state.units
    }

    /// The weight of each member.
    pub fn weights(&self) -> &Weights
        ensures { result.now ≡ self.now.world.weights }
    {
        &self.state.weights
    }

    /// The events that were taken. The rest of the world is dropped.
    pub fn into_events(self) -> Vec<Event>
        ensures { result.items ≡ self.entry.events }
    {
        let World { events, .. } = self;
        events
    }

    /// The record that a node which is up holds for the path.
    pub fn held(&self, node: u8, path: &PkgPath) -> Option<&Record>
        requires { is_up self.now.world node ≡ true }
        ensures { (x : _) → slice_get self.now.world.nodes node ≡ Some x
            → option_copied result ≡ holds self.now.world node x path.now }
    {
        self.state.up(node).held(path)
    }

    /// The letter of the package at the position, by a node that is up.
    pub fn letter(&self, node: u8, position: u32) -> Letter
        requires up { is_up self.now.world node ≡ true }
        requires listed { position < length self.now.world.division.tree }
        ensures { (x : _) → slice_get self.now.world.nodes node ≡ Some x
            → engines.HasLetter (engine_of (member_at self.now.world node x)) position result }
    {
        self.state.up(node).letter(position)
    }

    /// The number of packages with each letter, by a node that is up.
    pub fn counts(&self, node: u8) -> Counts
        requires { is_up self.now.world node ≡ true }
        ensures { (x : _) → slice_get self.now.world.nodes node ≡ Some x
            → engines.AreCounts (engine_of (member_at self.now.world node x)) result }
    {
        self.state.up(node).counts()
    }

    /// The length of a member's log in bytes, whether it is up or down.
    pub fn log_len(&self, node: u8) -> u64
        requires { node < length self.now.world.nodes }
        ensures { (x : _) → slice_get self.now.world.nodes node ≡ Some x
            → result ≡ file_length self.now.world node x }
    {
        self.state.nodes[node as usize].file().len() as u64
    }
}

//! The steps of a world.
ghost use Rattle.std.specs.Prelude.{◌≡◌, ◌++◌, ◌∷◌, ◌⊎◌, [], IfErr, IfOk, None, OnErr, OnOk, true};
ghost use Rattle.protocol.specs.Events.{event_view, is_step};
ghost use Rattle.one_list.specs.MatchingLaws.{IsSafe};
ghost use Rattle.world.specs.Happening.{Happens, IsRefused, IsRefusedByNode, fault_before};
ghost use Rattle.world.specs.Headline.{HasOneList, HoldAlike, IsBeginningOf};
ghost use Rattle.simulator.specs.Effects.{Does};
ghost use Rattle.simulator.specs.History.{IsHistory, taken};
ghost use Rattle.simulator.specs.inside.Asking.{refused_by};
ghost use Rattle.simulator.specs.inside.Standing.{IsReached, IsStanding, world_of};

use crate::World;
use crate::event_effects::EventEffects;
use crate::event_kind::{host_fits, node_of};
use crate::node_steps::{refused, step_node};
use crate::slot::Slot;
use crate::stops::stop;
use crate::world_state::WorldState;
use faults::Memory;
use node::NodeFault;
use protocol::Event;
use std::alloc::Global;
use world::WorldFault;

impl<'a> World<'a> {
    /// Takes the event, or refuses it and changes nothing. In both cases the list has only grown,
    /// and the world has one list at each moment of the events taken so far. Returns what the event
    /// did at its node.
    ///
    /// # Errors
    ///
    /// `Memory`; else the first of these: `BadTrace` with 0, for a stop inside something other than
    /// a step; `NoSuchNode`; `NodeDown`, or `NodeUp` for a restart; `NoSuchDatagram`; the node's
    /// refusal.
    pub fn step(&mut self, event: &Event) -> Result<EventEffects, WorldFault>
        ensures taken { OnOk result
            (Happens self.old.world (event_view event.now) self.new.world) }
        ensures does { IfOk result
            (Does self.old.world (event_view event.now) self.new.world) }
        ensures kept { OnOk result (taken self.new ≡ taken self.old ++ event_view event.now ∷ []) }
        ensures same { OnErr result (self.new ≡ self.old) }
        ensures refused { IfErr result (λ f. (f ≡ WorldFault.Memory)
            ⊎ IsRefused self.old.world (event_view event.now) f) }

        // In both cases, of the world before and the world after.
        ensures before { IsHistory self.old }
        ensures fixed { (self.new.world.division ≡ self.old.world.division)
            × (self.new.world.weights ≡ self.old.world.weights) }
        ensures grows { IsBeginningOf self.old.world.agreed self.new.world.agreed }
        ensures alike { HoldAlike self.old.world self.new.world }

        // The events that were taken lead from the start to the world; at each moment of them there
        // is one list of packages; and this is why.
        ensures history { IsHistory self.new }
        ensures one_list { HasOneList self.new.world.division self.new.world.weights
            (taken self.new) self.new.world }
        ensures safe { IsSafe self.new.world.division self.new.world.weights (taken self.new)
            self.new.world }
    {
        self.step_copy(event)
    }

    /// Takes a copy of the event and keeps it, or refuses the event and changes nothing.
    fn step_copy(&mut self, event: &Event) -> Result<EventEffects, WorldFault>
        ensures taken { OnOk result
            (Happens self.old.world (event_view event.now) self.new.world) }
        ensures does { IfOk result
            (Does self.old.world (event_view event.now) self.new.world) }
        ensures kept { OnOk result (taken self.new ≡ taken self.old ++ event_view event.now ∷ []) }
        ensures same { OnErr result (self.new ≡ self.old) }
        ensures refused { IfErr result (λ f. (f ≡ WorldFault.Memory)
            ⊎ IsRefused self.old.world (event_view event.now) f) }
        ensures history { IsHistory self.old × IsHistory self.new }
    {
        let alloc: Global = *self.events.allocator();
        match event.copy(alloc) {
            Ok(copy) => self.step_and_keep(copy),
            Err(Memory) => Err(WorldFault::Memory),
        }
    }

    /// Takes the event and keeps it, or refuses it and changes nothing.
    pub(crate) fn step_and_keep(&mut self, event: Event) -> Result<EventEffects, WorldFault>
        ensures taken { OnOk result (Happens self.old.world (event_view event) self.new.world) }
        ensures does { IfOk result (Does self.old.world (event_view event) self.new.world) }
        ensures kept { OnOk result (taken self.new ≡ taken self.old ++ event_view event ∷ []) }
        ensures same { OnErr result (self.new ≡ self.old) }
        ensures refused { IfErr result (λ f. (f ≡ WorldFault.Memory)
            ⊎ IsRefused self.old.world (event_view event) f) }
        ensures history { IsHistory self.old × IsHistory self.new }
    {
        if let Some(fault) = self.state.fault_before(&event) {
            drop(event);
            return Err(fault);
        }
        if self.events.reserve(1).is_err() {
            drop(event);
            return Err(WorldFault::Memory);
        }
        match self.state.step(&event) {
            Ok(done) => {
                self.events.push_reserved(event);
                Ok(done)
            }
            Err(fault) => {
                drop(event);
                Err(refused(fault))
            }
        }
    }
}

impl<'a> WorldState<'a> {
    /// Takes the event, which only its node may refuse, or refuses it and changes nothing.
    fn step(&mut self, event: &Event) -> Result<EventEffects, NodeFault>
        requires standing { IsStanding self.old }
        requires reached { IsReached (world_of self.old) }
        requires may { fault_before (world_of self.old) (event_view event.now) ≡ None }
        ensures does { IfOk result
            (Does (world_of self.old) (event_view event.now) (world_of self.new)) }
        ensures same { OnErr result (world_of self.new ≡ world_of self.old) }
        ensures refused { IfErr result (λ f. (f ≡ NodeFault.Memory)
            ⊎ IsRefusedByNode (world_of self.old) (event_view event.now) (refused_by f)) }
        ensures standing { IsStanding self.new }
    {
        match event {
            Event::Stop { node } => {
                stop(&mut self.nodes, *node as usize);
                Ok(EventEffects::nothing(*self.nodes.allocator()))
            }
            Event::StopIn { input, left } => self.stop_in(input, left),
            Event::Restart { node } => self.restart(*node),
            step => self.step_node(step),
        }
    }

    /// The node takes its step, and what it sends is entered; or nothing changes.
    fn step_node(&mut self, event: &Event) -> Result<EventEffects, NodeFault>
        requires standing { IsStanding self.old }
        requires reached { IsReached (world_of self.old) }
        requires may { fault_before (world_of self.old) (event_view event.now) ≡ None }
        requires step { is_step (event_view event.now) ≡ true }
        ensures does { IfOk result
            (Does (world_of self.old) (event_view event.now) (world_of self.new)) }
        ensures same { OnErr result (world_of self.new ≡ world_of self.old) }
        ensures refused { IfErr result (λ f. (f ≡ NodeFault.Memory)
            ⊎ IsRefusedByNode (world_of self.old) (event_view event.now) (refused_by f)) }
        ensures standing { IsStanding self.new }
    {
        host_fits(event);
        match &mut self.nodes[node_of(event) as usize] {
            Slot::Up(node) => step_node(&self.weights, &mut self.tables, node, event),
            Slot::Down(_) => unreachable!(),
        }
    }
}

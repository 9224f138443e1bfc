//! Several steps of a world, one after another.
ghost use Rattle.std.specs.Prelude.{◌≡◌, ◌++◌, ◌∷◌, [], IfOk, OnOk, map};
ghost use Rattle.protocol.specs.Events.{event_view};
ghost use Rattle.simulator.specs.History.{AlongRun, taken};
ghost use Rattle.world.specs.Happening.{Leads};
ghost use Rattle.world.specs.Headline.{HeldIsListed, HoldAlike, IsBeginningOf};

use ballots::Weights;
use listing::Tree;
use one_list::events_have_one_answer;
use protocol::Event;
use simulator::{World, run};
use std::alloc::Global;
use world::WorldFault;

/// Takes two events.
pub fn take_two(world: &mut World<'_>, first: &Event, second: &Event) -> Result<(), WorldFault>
    ensures led { OnOk result (Leads world.old.world
        (event_view first.now ∷ event_view second.now ∷ []) world.new.world) }
    ensures kept { OnOk result (taken world.new
        ≡ taken world.old ++ event_view first.now ∷ event_view second.now ∷ []) }
    ensures grows { IsBeginningOf world.old.world.agreed world.new.world.agreed }
{
    world.step(first)?;
    world.step(second)?;
    Ok(())
}

/// Takes two events. No node then holds another package for a path than a node held before.
pub fn take_two_alike(
    world: &mut World<'_>,
    first: &Event,
    second: &Event,
) -> Result<(), WorldFault>
    ensures { HoldAlike world.old.world world.new.world }
{
    events_have_one_answer();
    world.step(first)?;
    world.step(second).map(|_| ())
}

/// Runs events, and takes one more.
pub fn run_and_take<'a>(
    alloc: Global,
    tree: &'a Tree,
    weights: &Weights,
    events: Vec<Event>,
    last: &Event,
) -> Result<World<'a>, WorldFault>
    ensures kept { IfOk result
        (λ w. taken w ≡ map event_view events.items ++ event_view last.now ∷ []) }
    ensures tree { IfOk result (λ w. w.world.division.tree ≡ tree.entry.now) }
    ensures weights { IfOk result (λ w. w.world.weights ≡ weights.now) }
    ensures held { IfOk result (λ w. AlongRun w (λ early v. HeldIsListed v)) }
{
    let mut world = match run(alloc, tree, weights, events) {
        Ok(world) => world,
        Err(stopped) => return Err(stopped.fault),
    };
    match world.step(last) {
        Ok(_) => Ok(world),
        Err(fault) => {
            drop(world);
            Err(fault)
        }
    }
}

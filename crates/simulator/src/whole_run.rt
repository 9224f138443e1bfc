//! A whole run, from the start to the end of its events.
ghost use Rattle.std.specs.Prelude.{◌≡◌, All, IfErr, IfOk, map};
ghost use Rattle.protocol.specs.Events.{event_view};
ghost use Rattle.world.specs.Headline.{
  AllFit,
  AreRecords,
  AuditSaysYes,
  HasOneAPath,
  HeldIsListed,
  HoldAlike,
  InstallableIsHeld,
  IsBeginningOf,
  WasBuilt,
};
ghost use Rattle.one_list.specs.Safety.{
  EachIsOfAMessage,
  EqualHeaders,
  JobsStood,
  LaterRepeats,
  OneProposal,
  PromisesBound,
  SentVotesAreNoted,
};
ghost use Rattle.simulator.specs.History.{AlongRun, IsHistory, IsRunFault, taken};

use crate::World;
use crate::event_queue::EventQueue;
use crate::run_fault::RunFault;
use ballots::Weights;
use listing::Tree;
use protocol::Event;
use std::alloc::Global;
use world::WorldFault;

/// Runs the events from the start, and moves them into the world. At each moment there is one list
/// of packages, which only grows and has at most one package for each path. Each was built by a
/// host under a claim for its unit, after every dependency in its signature was in the list with
/// that very signature. Every package that a node holds is in the list. If a node shows a path as
/// installable, it holds that path's run closure.
///
/// # Errors
///
/// The first event that is refused, and why.
pub fn run<'a>(
    alloc: Global,
    tree: &'a Tree,
    weights: &Weights,
    events: Vec<Event>,
) -> Result<World<'a>, RunFault>
    ensures tree { IfOk result (λ w. w.world.division.tree ≡ tree.entry.now) }
    ensures weights { IfOk result (λ w. w.world.weights ≡ weights.now) }
    ensures kept { IfOk result (λ w. taken w ≡ map event_view events.items) }
    ensures history { IfOk result IsHistory }
    ensures refused { IfErr result (λ f. IsRunFault tree.entry.now weights.now
        (map event_view events.items) f.event f.fault) }

    // At each moment of the run.
    ensures grows { IfOk result
        (λ w. AlongRun w (λ early v. IsBeginningOf v.agreed w.world.agreed)) }
    ensures one_a_path { IfOk result (λ w. AlongRun w (λ early v. HasOneAPath v)) }
    ensures built { IfOk result (λ w. AlongRun w (λ early v.
        All (WasBuilt w.world.division w.world.weights early) v.agreed)) }
    ensures records { IfOk result (λ w. AlongRun w (λ early v. AreRecords v)) }
    ensures fits { IfOk result (λ w. AlongRun w (λ early v. AllFit v)) }
    ensures held { IfOk result (λ w. AlongRun w (λ early v. HeldIsListed v)) }
    ensures alike { IfOk result (λ w. AlongRun w (λ early v. HoldAlike v w.world)) }
    ensures installable { IfOk result (λ w. AlongRun w (λ early v. InstallableIsHeld v)) }
    ensures allowed { IfOk result (λ w. AlongRun w (λ early v. AuditSaysYes v)) }

    // Why this holds.
    ensures one_proposal { IfOk result (λ w. AlongRun w (λ early v. OneProposal v)) }
    ensures promises_bound { IfOk result (λ w. AlongRun w (λ early v. PromisesBound v)) }
    ensures votes_noted { IfOk result (λ w. AlongRun w (λ early v. SentVotesAreNoted v)) }
    ensures later_repeats { IfOk result (λ w. AlongRun w (λ early v. LaterRepeats v)) }
    ensures jobs_stood { IfOk result (λ w. AlongRun w (λ early v.
        JobsStood w.world.division w.world.weights early v)) }
    ensures equal_headers { IfOk result
        (λ w. AlongRun w (λ early v. EqualHeaders v × EachIsOfAMessage v)) }
{
    let world = world_after(alloc, tree, weights, events)?;
    Ok(world)
}

/// The world after the events.
fn world_after<'a>(
    alloc: Global,
    tree: &'a Tree,
    weights: &Weights,
    events: Vec<Event>,
) -> Result<World<'a>, RunFault>
    ensures tree { IfOk result (λ w. w.world.division.tree ≡ tree.entry.now) }
    ensures weights { IfOk result (λ w. w.world.weights ≡ weights.now) }
    ensures kept { IfOk result (λ w. taken w ≡ map event_view events.items) }
    ensures history { IfOk result IsHistory }
    ensures refused { IfErr result (λ f. IsRunFault tree.entry.now weights.now
        (map event_view events.items) f.event f.fault) }
{
    let Ok(mut world) = World::new(alloc, tree, weights) else {
        return Err(RunFault {
            event: None,
            fault: WorldFault::Memory,
        });
    };
    let mut left = EventQueue::new(events);
    'events: while let Some(event) = left.next() {
        if let Err(fault) = world.step_and_keep(event) {
            let refused = RunFault {
                event: Some(world.events().len() as u64 + 1),
                fault,
            };
            drop(world);
            return Err(refused);
        }
    }
    Ok(world)
}

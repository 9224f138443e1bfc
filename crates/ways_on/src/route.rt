//! The events of a way, in order.
ghost use Rattle.std.specs.Prelude.{◌≡◌, ◌≤◌, ◌<◌, ◌+◌, ◌*◌, ◌^◌, ◌++◌, All, IfOk, OnOk, Some, length, map, suc, true};
ghost use Rattle.protocol.specs.Events.{Built, Claim, event_view};
ghost use Rattle.simulator.specs.History.{IsHistory};
ghost use Rattle.engine.specs.Division.{number_found};
ghost use Rattle.ways_on.specs.inside.Listed.{asks_from, behind_promises, deliveries, votes_from, way_of};
ghost use Rattle.ways_on.specs.inside.Planned.{IsPlan};
ghost use Rattle.wire.specs.Pieces.{most_pieces};
ghost use Rattle.world.specs.Happening.{is_up};
ghost use Rattle.world.specs.World.{member_at};

use crate::lengths::{pieces_in, promised_in};
use crate::plan::Plan;
use crate::survey::report;
use faults::Memory;
use pkgpath::PkgPath;
use protocol::{Event, Packages};
use simulator::World;
use std::alloc::Global;

/// The events of the planned way.
pub(crate) fn events_of(
    alloc: Global,
    world: &World<'_>,
    node: u8,
    path: &PkgPath,
    host: u16,
    packages: Packages,
    plan: &Plan,
) -> Result<Vec<Event>, Memory>
    requires history { IsHistory world.now }
    requires plan { IsPlan world.now.world node path.now host packages plan.now }
    ensures { IfOk result (λ events.
        (p : IsPlan world.now.world node path.now host packages plan.now)
        → map event_view events.items ≡ way_of world.now.world
        (member_at world.now.world node p.shown.node) p.shown.unit path.now host packages) }
{
    let asked = plan.asked.as_slice();
    let offer = world.datagrams().len() as u64;
    let mut events = Vec::new(alloc);
    events.push(claimed(node, path, host, plan.last)?)?;
    let proposal = ask(world, &mut events, node, path, asked, offer)?;
    let pieces = match report(world, asked, path) {
        Some(vote) => {
            drop(packages);
            pieces_in(&vote.1)?
        }
        None => {
            events.push(built(node, path, packages)?)?;
            pieces_in(&plan.build)?
        }
    };
    propose(&mut events, node, asked, proposal, pieces)?;
    Ok(events)
}

/// The node's claim for a copy of the path.
fn claimed(node: u8, path: &PkgPath, host: u16, above: u64) -> Result<Event, Memory>
    ensures { IfOk result (λ event. event_view event ≡ Claim node path.now host above) }
{
    let path = path.copy()?;
    Ok(Event::Claim {
        node,
        path,
        host,
        above,
    })
}

/// The node's Built for a copy of the path, with these files.
fn built(node: u8, path: &PkgPath, packages: Packages) -> Result<Event, Memory>
    ensures { IfOk result (λ event. event_view event ≡ Built node path.now packages) }
{
    let path = path.copy()?;
    Ok(Event::Built {
        node,
        path,
        packages,
    })
}

/// Delivers the offer to each of these nodes, which are up, and each promise to the node that made
/// the offer. Returns the number of the next datagram to be sent.
fn ask(
    world: &World<'_>,
    events: &mut Vec<Event>,
    node: u8,
    path: &PkgPath,
    asked: &[u8],
    offer: u64,
) -> Result<u64, Memory>
    requires up { All (λ k. is_up world.now.world k ≡ true) asked.now }
    requires few { length asked.now ≤ 9 }
    requires small { offer < 2 ^ 63 }
    ensures events { OnOk result ((u : _) → (c : _)
        → number_found world.now.world.division path.now ≡ Some u → c.member ≡ node
        → map event_view events.new.items ≡ map event_view events.old.items
        ++ asks_from world.now.world u c offer (suc offer) asked.now) }
    ensures next { IfOk result (λ next. (u : _) → (c : _)
        → number_found world.now.world.division path.now ≡ Some u
        → next ≡ behind_promises world.now.world u c (suc offer) asked.now) }
    ensures small { IfOk result (λ next. next ≤ offer + 1 + most_pieces * length asked.now) }
{
    let mut next = offer + 1;
    for other in asked {
        let promised = promised_in(world, *other, path)?;
        deliver(events, offer, 1, *other)?;
        deliver(events, next, promised, node)?;
        next += promised;
    }
    Ok(next)
}

/// Delivers the proposal, of the given number of datagrams from this one on, to each of these
/// nodes, and each vote to the node that made the proposal.
fn propose(
    events: &mut Vec<Event>,
    node: u8,
    asked: &[u8],
    proposal: u64,
    pieces: u64,
) -> Result<(), Memory>
    requires few { length asked.now ≤ 9 }
    requires pieces { pieces ≤ most_pieces }
    requires small { proposal < 2 ^ 63 + 2 ^ 32 }
    ensures { OnOk result (map event_view events.new.items ≡ map event_view events.old.items
        ++ votes_from proposal pieces (proposal + pieces) node asked.now) }
{
    let mut vote = proposal + pieces;
    for other in asked {
        deliver(events, proposal, pieces, *other)?;
        deliver(events, vote, 1, node)?;
        vote += 1;
    }
    Ok(())
}

/// Delivers `count` datagrams, from the first on, to the node.
fn deliver(events: &mut Vec<Event>, first: u64, count: u64, node: u8) -> Result<(), Memory>
    requires { first + count < 2 ^ 64 }
    ensures { OnOk result (map event_view events.new.items ≡ map event_view events.old.items
        ++ deliveries first count node) }
{
    for ahead in 0..count {
        let datagram = first + ahead;
        events.push(Event::Deliver { datagram, node })?;
    }
    Ok(())
}

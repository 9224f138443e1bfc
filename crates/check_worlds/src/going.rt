//! Taking the events of a way, in order.
ghost use Rattle.std.specs.Prelude.{◌≡◌, IfErr, OnOk, Some, map};
ghost use Rattle.protocol.specs.Events.{event_view};
ghost use Rattle.simulator.specs.History.{IsHistory};
ghost use Rattle.engine.specs.Division.{number_found};
ghost use Rattle.ways_on.specs.Ways.{HoldsUnit, IsWay};
ghost use Rattle.check_worlds.specs.Stops.{HasArrived, HasTaken, StopsAt, StopsSo};

use pkgpath::PkgPath;
use protocol::{Event, Packages};
use simulator::World;
use std::alloc::Global;
use ways_on::{WayFault, way_on, ways_arrive};
use world::WorldFault;

/// Why a node does not obtain a unit.
#[derive(Debug, Drop)]
pub enum Stopped {
    /// There is no way.
    NoWay(WayFault),
    /// The world refuses an event of the way.
    Refused(WorldFault),
}

/// Finds a way by which the node obtains the unit that the path names, and takes its events. On
/// success a way was granted, exactly its events were taken, and the node holds the unit.
///
/// # Errors
///
/// `NoWay`, for a reason of `way_on` or if out of memory; nothing is changed then. `Refused`, if a
/// log is full or out of memory; the events of the way before that one were taken.
pub fn arrive(
    alloc: Global,
    world: &mut World<'_>,
    node: u8,
    path: &PkgPath,
    host: u16,
    packages: Packages,
) -> Result<(), Stopped>
    ensures arrived { OnOk result (HasArrived world.old node path.now host packages world.new) }
    ensures held { OnOk result ((u : _) → number_found world.old.world.division path.now ≡ Some u
        → HoldsUnit world.new.world node u) }
    ensures stopped { IfErr result (StopsSo world.old node path.now host packages world.new) }
{
    // They led to this world from its start.
    let _events = world.events();
    match way_on(alloc, world, node, path, host, packages) {
        Ok(way) => match go(world, node, way.as_slice()) {
            Ok(()) => Ok(()),
            Err(fault) => Err(Stopped::Refused(fault)),
        },
        Err(fault) => Err(Stopped::NoWay(fault)),
    }
}

/// Takes the events of a way, in order: all of them, or those before the first that is refused.
pub fn go(world: &mut World<'_>, node: u8, events: &[Event]) -> Result<(), WorldFault>
    requires history { IsHistory world.old }
    requires way { (u : _) × IsWay world.old.world node u (map event_view events.now) }
    ensures taken { OnOk result (HasTaken world.old (map event_view events.now) world.new) }
    ensures held { OnOk result ((u : _) → IsWay world.old.world node u (map event_view events.now)
        → HoldsUnit world.new.world node u) }
    ensures stopped { IfErr result
        (StopsAt world.old (map event_view events.now) world.new) }
{
    ways_arrive();
    for event in events {
        world.step(event)?;
    }
    Ok(())
}

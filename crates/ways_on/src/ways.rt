//! Finding a way.
ghost use Rattle.std.specs.Prelude.{◌≡◌, ◌⊎◌, IfErr, IfOk, map};
ghost use Rattle.protocol.specs.Events.{event_view};
ghost use Rattle.ways_on.specs.Asked.{HasNoWay, IsGranted};
ghost use Rattle.ways_on.specs.Laws.{HasWay};

use crate::WayFault;
use crate::plan::planned;
use crate::route::events_of;
use pkgpath::PkgPath;
use protocol::{Event, Packages};
use simulator::World;
use std::alloc::Global;

/// Events after which the node holds the unit that the path names: its claim for this host, its
/// build of these files, and deliveries of datagrams, each at a node that is up. Taking them in
/// order reaches that goal, unless a log is full. There are at most two events, plus two for each
/// member, plus two for each member and each datagram of one of their messages.
///
/// # Errors
///
/// `Memory` if out of memory; otherwise the first of these that applies:
///
/// - `NoSuchNode`.
/// - `NodeDown`.
/// - `Refused` with `Unlisted`.
/// - `NotQueued`.
/// - `NoMajority`: the nodes that are up are not a majority.
/// - `Refused` with `RoundsSpent`: the node opened, or a node that is up promised, the greatest
///   possible round.
/// - `Refused` with `OtherPackages` or `BadFiles`, for the claim in the next round, even if a
///   report makes the build unnecessary.
pub fn way_on(
    alloc: Global,
    world: &World<'_>,
    node: u8,
    path: &PkgPath,
    host: u16,
    packages: Packages,
) -> Result<Vec<Event>, WayFault>
    ensures way { IfOk result (λ events. HasWay world.now.world node path.now host packages
        (map event_view events.items)) }
    ensures granted { IfOk result (λ events. IsGranted world.now.world node path.now host
        packages) }
    ensures refused { IfErr result (λ f. (f ≡ WayFault.Memory)
        ⊎ HasNoWay world.now.world node path.now host packages f) }
{
    // They led to this world from its start.
    let _events = world.events();
    let plan = planned(world, node, path, host, packages.copy()?)?;
    Ok(events_of(alloc, world, node, path, host, packages, &plan)?)
}

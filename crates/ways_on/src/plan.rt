//! The parts of a way, or why there is none.
ghost use Rattle.std.specs.Prelude.{◌≡◌, ◌⊎◌, IfErr, IfOk, MatchResult, None, Some, slice_get, true};
ghost use Rattle.faults.specs.Answers.{IsRightUnless};
ghost use Rattle.protocol.specs.Given.{Given};
ghost use Rattle.simulator.specs.History.{IsHistory};
ghost use Rattle.ways_on.specs.Asked.{HasNoWay, IsGranted, IsTested, absence_of, refusal_of_stranger};
ghost use Rattle.ways_on.specs.inside.Planned.{IsPlan, IsShown, fault_of, next_or_fault};
ghost use Rattle.world.specs.Happening.{is_up};
ghost use Rattle.world.specs.World.{member_at};

use crate::WayFault;
use crate::files::build_of;
use crate::survey::{asked, last_round};
use arrayvec::ArrayVec;
use claims::{Claim, next_round};
use engine::Letter;
use package_record::Build;
use pkgpath::PkgPath;
use protocol::{Packages, Refusal};
use simulator::World;

/// The parts of a way.
#[derive(Drop)]
pub(crate) struct Plan {
    /// The nodes that are asked, in order of number.
    pub(crate) asked: ArrayVec<u8, 9>,
    /// The round that the claim must exceed.
    pub(crate) last: u64,
    /// What the files make, under the claim in the round after that.
    pub(crate) build: Build,
}

/// The parts of the way by which the node obtains the unit that the path names. Tests are in this
/// order: whether the node exists, whether it is up, whether the path is listed, whether the unit
/// can be built now, whether a majority is up, whether a round is left, and the files.
pub(crate) fn planned(
    world: &World<'_>,
    node: u8,
    path: &PkgPath,
    host: u16,
    packages: Packages,
) -> Result<Plan, WayFault>
    requires { IsHistory world.now }
    ensures plan { IfOk result (IsPlan world.now.world node path.now host packages) }
    ensures granted { IfOk result (λ plan. IsGranted world.now.world node path.now host packages) }
    ensures refused { IfErr result (λ f. (f ≡ WayFault.Memory)
        ⊎ HasNoWay world.now.world node path.now host packages f) }
{
    test_node(world, node)?;
    test_unit(world, node, path)?;
    let Some(asked) = asked(world) else {
        return Err(WayFault::NoMajority);
    };
    let last = last_round(world, node, path);
    let build = next_build(world, node, path, host, last, packages)?;
    Ok(Plan { asked, last, build })
}

/// Whether the node exists and is up.
fn test_node(world: &World<'_>, node: u8) -> Result<(), WayFault>
    ensures { MatchResult result (λ _. absence_of world.now.world node ≡ None)
        (λ f. absence_of world.now.world node ≡ Some f) }
{
    if node >= world.len() {
        Err(WayFault::NoSuchNode)
    } else if !world.is_up(node) {
        Err(WayFault::NodeDown)
    } else {
        Ok(())
    }
}

/// Whether the path names a unit that the node, which is up, shows as one that can be built now.
fn test_unit(world: &World<'_>, node: u8, path: &PkgPath) -> Result<(), WayFault>
    requires up { is_up world.now.world node ≡ true }
    requires history { IsHistory world.now }
    ensures shown { IfOk result (λ _. IsShown world.now.world node path.now) }
    ensures refused { IfErr result (λ f. (host : _) → (given : Given)
        → IsTested world.now.world node path.now host given (Some f)) }
{
    let units = world.units();
    let Some(unit) = units.find(path) else {
        return Err(stranger(world, node, path));
    };
    let first = units.packages(unit)[0];
    match world.letter(node, first) {
        Letter::Q => Ok(()),
        _ => Err(WayFault::NotQueued),
    }
}

/// Why a path that names no unit is refused.
fn stranger(world: &World<'_>, node: u8, path: &PkgPath) -> WayFault
    requires { is_up world.now.world node ≡ true }
    ensures { (x : _) → slice_get world.now.world.nodes node ≡ Some x
        → result ≡ refusal_of_stranger (member_at world.now.world node x) path.now }
{
    match world.node(node).tree().position(path) {
        Some(_) => WayFault::NotQueued,
        None => WayFault::Refused(Refusal::Unlisted),
    }
}

/// What the files make of the unit that the path names, under the node's claim in the round above
/// this one, if one is left.
fn next_build(
    world: &World<'_>,
    node: u8,
    path: &PkgPath,
    host: u16,
    last: u64,
    packages: Packages,
) -> Result<Build, WayFault>
    requires history { IsHistory world.now }
    requires shown { IsShown world.now.world node path.now }
    ensures { (s : IsShown world.now.world node path.now) → IsRightUnless WayFault.Memory result
        (next_or_fault (member_at world.now.world node s.node) s.unit host last packages) }
{
    let Ok(round) = next_round(last) else {
        drop(packages);
        return Err(WayFault::Refused(Refusal::RoundsSpent));
    };
    let claim = Claim {
        round,
        member: node,
    };
    match build_of(world, node, path, host, claim, packages) {
        Ok(build) => Ok(build),
        Err(refusal) => Err(fault_of(refusal)),
    }
}

/// A member's refusal, as a refusal of a way.
fn fault_of(refusal: Refusal) -> WayFault
    ensures { result ≡ fault_of refusal }
{
    match refusal {
        Refusal::Memory => WayFault::Memory,
        refusal => WayFault::Refused(refusal),
    }
}

//! The build that files make.
ghost use Rattle.std.specs.Prelude.{◌≡◌, Some, slice_get, true};
ghost use Rattle.claims.specs.Claim.{IsClaim};
ghost use Rattle.faults.specs.Answers.{IsRightUnless};
ghost use Rattle.protocol.specs.Jobs.{job_of};
ghost use Rattle.engine.specs.Division.{number_found};
ghost use Rattle.ways_on.specs.inside.Planned.{made_under};
ghost use Rattle.world.specs.Happening.{is_up};
ghost use Rattle.world.specs.World.{member_at};

use claims::Claim;
use package_record::Build;
use pkgpath::PkgPath;
use protocol::{Packages, Refusal};
use simulator::World;

/// The build that the files make for the unit that the path names, under the claim.
pub(crate) fn build_of(
    world: &World<'_>,
    node: u8,
    path: &PkgPath,
    host: u16,
    claim: Claim,
    packages: Packages,
) -> Result<Build, Refusal>
    requires up { is_up world.now.world node ≡ true }
    requires claim { IsClaim claim }
    requires named { (u : _) × (number_found world.now.world.division path.now ≡ Some u) }
    ensures { (x : _) → (u : _) → slice_get world.now.world.nodes node ≡ Some x
        → number_found world.now.world.division path.now ≡ Some u
        → IsRightUnless Refusal.Memory result
        (made_under (member_at world.now.world node x) u host claim packages) }
{
    world.node(node).build(path, host, claim, packages)
}

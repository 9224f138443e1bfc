//! The number of datagrams of a message.
ghost use Rattle.std.specs.Prelude.{◌≡◌, ◌≤◌, IfOk, Some, true};
ghost use Rattle.engine.specs.Division.{number_found};
ghost use Rattle.ways_on.specs.Length.{pieces_in};
ghost use Rattle.ways_on.specs.inside.Listed as listed;
ghost use Rattle.wire.specs.Pieces.{most_pieces};
ghost use Rattle.world.specs.Happening.{is_up};

use faults::Memory;
use package_record::Build;
use pkgpath::PkgPath;
use simulator::World;
use wire::PIECE_SIZE;

/// The number of datagrams of the promise of the node, which is up: one, or those of its last vote
/// for the unit that the path names.
pub(crate) fn promised_in(world: &World<'_>, node: u8, path: &PkgPath) -> Result<u64, Memory>
    requires { is_up world.now.world node ≡ true }
    ensures count { IfOk result (λ count. (u : _) → (c : _)
        → number_found world.now.world.division path.now ≡ Some u
        → count ≡ listed.promised_in world.now.world u c node) }
    ensures few { IfOk result (λ count. count ≤ most_pieces) }
{
    match world.node(node).voted(path) {
        Some(vote) => pieces_in(&vote.1),
        None => Ok(1),
    }
}

/// The number of datagrams of a build.
pub(crate) fn pieces_in(build: &Build) -> Result<u64, Memory>
    ensures count { IfOk result (λ count. count ≡ pieces_in build.now) }
    ensures few { IfOk result (λ count. count ≤ most_pieces) }
{
    let len = build.text_len()?;
    Ok(len.div_ceil(PIECE_SIZE) as u64)
}

//! Which nodes are up, and what they know of a unit.
ghost use Rattle.std.specs.Prelude.{◌≡◌, All, MatchOption, None, Some, false, true};
ghost use Rattle.std.specs.Option.{option_copied};
ghost use Rattle.claims.specs.Votes.{report_of};
ghost use Rattle.simulator.specs.History.{IsHistory};
ghost use Rattle.engine.specs.Division.{number_found};
ghost use Rattle.ways_on.specs.Asked.{is_majority_up};
ghost use Rattle.ways_on.specs.Rounds as rounds;
ghost use Rattle.ways_on.specs.Rounds.{round_in, seen_at};
ghost use Rattle.ways_on.specs.inside.Listed.{asked_of, report_of_all};
ghost use Rattle.world.specs.Happening.{is_up};

use arrayvec::ArrayVec;
use claims::Claim;
use package_record::Build;
use pkgpath::PkgPath;
use simulator::World;

/// The nodes that are asked: the first ones that are up and together a majority, in order of
/// number. None if those that are up are not a majority.
pub(crate) fn asked(world: &World<'_>) -> Option<ArrayVec<u8, 9>>
    requires { IsHistory world.now }
    ensures { MatchOption result (is_majority_up world.now.world ≡ false)
        (λ asked. (is_majority_up world.now.world ≡ true)
        × (asked.items ≡ asked_of world.now.world)) }
{
    let weights = world.weights();
    let mut asked = ArrayVec::new();
    for node in 0..weights.len() as u8 {
        if world.is_up(node) {
            asked.push(node);
            if claims::is_majority(weights.as_slice(), asked.as_slice()) {
                return Some(asked);
            }
        }
    }
    None
}

/// The greatest round that the node, which is up, opened for the unit that the path names, or that
/// any node that is up promised for it.
pub(crate) fn last_round(world: &World<'_>, node: u8, path: &PkgPath) -> u64
    requires { is_up world.now.world node ≡ true }
    ensures { (u : _) → number_found world.now.world.division path.now ≡ Some u
        → result ≡ rounds.last_round world.now.world u node }
{
    let mut last = world.node(node).opened(path);
    for other in 0..world.len() {
        last = last.max(round_promised(world, other, path));
    }
    last
}

/// The round that the node promised for the unit that the path names, or 0. Nothing is known of a
/// node that is down.
fn round_promised(world: &World<'_>, node: u8, path: &PkgPath) -> u64
    ensures { (u : _) → number_found world.now.world.division path.now ≡ Some u
        → result ≡ round_in (seen_at world.now.world u node).promised }
{
    if !world.is_up(node) {
        return 0;
    }
    match world.node(node).promised(path) {
        Some(claim) => claim.round,
        None => 0,
    }
}

/// The vote with the greatest claim among the last votes of these nodes, which are up, for the unit
/// that the path names.
pub(crate) fn report<'w>(
    world: &'w World<'_>,
    asked: &[u8],
    path: &PkgPath,
) -> Option<&'w (Claim, Build)>
    requires { All (λ k. is_up world.now.world k ≡ true) asked.now }
    ensures { (u : _) → number_found world.now.world.division path.now ≡ Some u
        → report_of (option_copied result) ≡ report_of_all world.now.world u None asked.now }
{
    let mut kept = None;
    for node in asked {
        kept = claims::keep(kept, world.node(*node).voted(path));
    }
    kept
}

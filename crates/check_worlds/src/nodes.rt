//! What nodes hold and show.
ghost use Rattle.std.specs.Prelude.{◌≡◌, ◌<◌, IfSome, IsSome, Some, length, slice_get, true};
ghost use Rattle.engine.specs.State as engines;
ghost use Rattle.engine.specs.declared.Letter.TheVariants as letters;
ghost use Rattle.faults.specs.Bytes.{Text};
ghost use Rattle.listing.specs.Tree.{position_of};
ghost use Rattle.protocol.specs.State.{engine_of};
ghost use Rattle.world.specs.Happening.{is_up};
ghost use Rattle.world.specs.Headline.{IsInRunClosure, holds};
ghost use Rattle.world.specs.World.{WorldNode, member_at};

use one_list::worlds_have_one_list;
use package_record::Record;
use pkgpath::PkgPath;
use simulator::World;
use world::nodes_hold_alike;

/// What two nodes hold for a path, if both hold it; it is the same.
pub fn both<'w>(
    world: &'w World<'_>,
    j: u8,
    k: u8,
    path: &PkgPath,
) -> Option<(&'w Record, &'w Record)>
    requires one { is_up world.now.world j ≡ true }
    requires other { is_up world.now.world k ≡ true }
    ensures { IfSome result (λ p. p.0.now ≡ p.1.now) }
{
    nodes_hold_alike();
    let _list = world.agreed();
    let one = world.held(j, path)?;
    let other = world.held(k, path)?;
    Some((one, other))
}

/// What the node holds for a path in the run closure of one that it shows as installable.
pub fn in_closure<'w>(world: &'w World<'_>, node: u8, other: &PkgPath) -> Option<&'w Record>
    requires up { is_up world.now.world node ≡ true }
    ensures { (x : WorldNode) (p : _) (path : Text) → slice_get world.now.world.nodes node ≡ Some x
        → position_of world.now.world.division.tree path ≡ Some p
        → engines.HasLetter (engine_of (member_at world.now.world node x)) p letters.I
        → IsInRunClosure (holds world.now.world node x) path other.now → IsSome result }
{
    worlds_have_one_list();
    let _taken = world.events();
    world.held(node, other)
}

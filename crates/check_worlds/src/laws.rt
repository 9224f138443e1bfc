//! What follows from only the public laws of worlds.
ghost use Rattle.std.specs.Prelude.{◌≡◌, ℕ, Contains, List, Some, slice_get, true};
ghost use Rattle.claims.specs.Claims.{AtMost};
ghost use Rattle.claims.specs.Quorums.{is_majority};
ghost use Rattle.claims.specs.declared.claim.Claim.{Claim};
ghost use Rattle.auditing.specs.Allowed.{IsAllowed};
ghost use Rattle.auditing.specs.declared.entry.Entry.{Entry};
ghost use Rattle.dpbr_run.specs.Run.{IsRunOfListing};
ghost use Rattle.engine.specs.State as engine;
ghost use Rattle.engine.specs.declared.Letter.TheVariants as letters;
ghost use Rattle.protocol.specs.Events.{Event};
ghost use Rattle.faults.specs.Bytes.{Text};
ghost use Rattle.listing.specs.Listing.{Rules};
ghost use Rattle.listing.specs.Tree.{position_of};
ghost use Rattle.package_lists.specs.List.{AreEntries};
ghost use Rattle.package_lists.specs.ListText.{list_text};
ghost use Rattle.package_record.specs.Content.{Content};
ghost use Rattle.protocol.specs.State.{Value, engine_of};
ghost use Rattle.engine.specs.Division.{Division};
ghost use Rattle.world.specs.Happening.{Leads};
ghost use Rattle.world.specs.Headline.{HoldAlike, IsInRunClosure, holds};
ghost use Rattle.world.specs.Sent.{WasProposed, voters};
ghost use Rattle.world.specs.World.{IsMade, World, WorldNode, member_at, start};

use dpbr_run::printed_lists_are_read;
use one_list::{events_have_one_answer, worlds_have_one_list};
use world::events_lead_to_later_worlds;

/// What a node shows as installable is in the list, with all of its run closure.
pub fn installable_is_listed()
    ensures { (division : Division) (weights : List ℕ) (events : List Event) (last : World)
        (k p : ℕ) (x : WorldNode) (path q : Text) → IsMade division weights
        → Leads (start division weights) events last
        → slice_get last.nodes k ≡ Some x → x.up ≡ true
        → position_of last.division.tree path ≡ Some p
        → engine.HasLetter (engine_of (member_at last k x)) p letters.I
        → IsInRunClosure (holds last k x) path q
        → (r : Content) × (holds last k x q ≡ Some r) × Contains last.agreed r }
{
    worlds_have_one_list();
}

/// Nodes at two points of a run never hold different packages for one path.
pub fn never_differ()
    ensures { (division : Division) (weights : List ℕ) (early late : List Event) (v w : World)
        → IsMade division weights → Leads (start division weights) early v → Leads v late w
        → HoldAlike v w }
{
    worlds_have_one_list();
    events_have_one_answer();
    world::events_in_parts();
}

/// If the votes that were sent under the claim of a proposal are from a majority, each proposal at
/// or above that claim repeats its build.
pub fn sent_votes_bind_later_proposals()
    ensures { (division : Division) (weights : List ℕ) (events : List Event) (last : World)
        (name : Text) (c d : Claim) (a b : Value) → IsMade division weights
        → Leads (start division weights) events last
        → is_majority weights (voters last last.sent name c) ≡ true
        → WasProposed last last.sent name c a → WasProposed last last.sent name d b
        → AtMost c d → b ≡ a }
{
    worlds_have_one_list();
    events_lead_to_later_worlds();
}

/// The list at the end of what `dpbr run` prints can be parsed, and an audit accepts it, on the
/// tree of the listing.
pub fn printed_runs_are_allowed()
    ensures { (rules : Rules) (listing trace text : Text)
        (is : IsRunOfListing rules listing trace text) → (entries : List Entry)
        × AreEntries (list_text is.run.history.world.agreed) entries
        × IsAllowed is.tree entries }
{
    worlds_have_one_list();
    printed_lists_are_read();
}

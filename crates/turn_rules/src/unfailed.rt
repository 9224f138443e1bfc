//! The queued packages whose units haven't failed.
ghost use Rattle.std.specs.Prelude.{◌≡◌, ◌<◌, ◌≤◌, if◌then◌else◌, length};
ghost use Rattle.turn_rules.specs.Own.{IsFree};
ghost use Rattle.turn_rules.specs.Pending.{Pending as Kept, has_failed};
ghost use Rattle.node.specs.State.{IsNode, NodeState};
ghost use Rattle.node.specs.Step.{after, note_in, taken_by};
ghost use Rattle.turn_rules.specs.Unfailed.{AllFailedBelow, notes_held};

use crate::Pending;
use crate::owning::least_free;
use ballots::Fact;
use member::Member;
use node::PreparedStep;

/// The least position of a queued package whose unit hasn't failed, or the number of packages if
/// there is none. The search begins at `from`, since there is none below.
pub fn unfailed_from(member: &Member<'_>, pending: &Pending, from: u32) -> u32
    requires { AllFailedBelow member.now pending.now from }
    ensures below { AllFailedBelow member.now pending.now result }
    ensures unfailed { result < length member.now.division.tree
        → IsFree member.now (has_failed pending.now) result }
    ensures within { result ≤ length member.now.division.tree }
{
    match least_free(member, pending, &[], from) {
        Some(position) => position,
        None => member.tree().len(),
    }
}

/// A position below which there is no queued package with an unfailed unit after a node takes this
/// step, if there was none below `from`. More packages can be queued only if the step notes that a
/// build is held.
pub fn unfailed_after(ready: &PreparedStep, from: u32) -> u32
    ensures value { result ≡ (if notes_held (note_in ready.now.step) then 0 else from) }
    ensures taken { (n : NodeState) (p : Kept) → IsNode n → AllFailedBelow n.member p from
        → AllFailedBelow (after n (taken_by n ready.now)).member p result }
{
    if notes_held(ready) { 0 } else { from }
}

/// Whether the step notes that a build is held.
fn notes_held(ready: &PreparedStep) -> bool
    ensures { result ≡ notes_held (note_in ready.now.step) }
{
    let Some(step) = ready.step() else {
        return false;
    };
    match step.note() {
        Some(note) => matches!(&note.fact, Fact::Held(_)),
        None => false,
    }
}

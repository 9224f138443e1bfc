//! The choice is carried out.
ghost use Rattle.std.specs.Prelude.{◌≡◌, ◌⊎◌, [], IfErr, IfOk, OnOk, OnErr, false};
ghost use Rattle.turn_rules.specs.Acts.{asked_by};
ghost use Rattle.turn_rules.specs.declared.fault.TurnFault.TheVariants as refused;
ghost use Rattle.node.specs.OnLog.{IsFull, IsLogged, IsOnLog, LeavesOneMoreAtMost};
ghost use Rattle.node.specs.Parcels.{datagrams_to};
ghost use Rattle.node.specs.Step.{IsReadyFor, after, note_in, taken_by};
ghost use Rattle.turn_rules.specs.Offered.{WasOffered, parcels_from};
ghost use Rattle.turn_rules.specs.CausedSteps.{IsCausedStep};
ghost use Rattle.turn_rules.specs.Unfailed.{AllFailedBelow};
ghost use Rattle.datagram_ports.specs.Kept.{GoesOnBy, KeepsVouching};
ghost use Rattle.stable_record.specs.Faults.{HasRisen};
ghost use Rattle.lone_node.specs.Turn.{IsUntouched, LeavesAtMost};
ghost use Rattle.lone_node.specs.inside.Turning.{IsTakingFault, TookStep, solo_of};

use crate::choosing::told;
use datagram_ports::Port;
use node::{Node, NodeFault, PreparedStep};
use stable_record::{Disk, LogFault};
use turn_rules::{Act, CausedStep, Pending, TurnFault, offer, unfailed_after};

/// Takes the prepared step: updates the state between turns, writes the step's note to the log, and
/// then offers its sends to the port. If the step is refused, nothing is updated or offered. Below
/// `unfailed` the only queued packages are those whose units failed.
///
/// # Errors
///
/// `Memory`; `Down` if the node's device failed; `Node` if its log has no room.
pub(crate) fn take<D: Disk, P: Port>(
    node: &mut Node<'_, D>,
    pending: &mut Pending,
    port: &mut P,
    unfailed: &mut u32,
    readied: CausedStep,
) -> Result<Act, TurnFault>
    requires readied { IsCausedStep node.old (asked_by readied.act) readied }
    requires below { AllFailedBelow node.old.node.member pending.old unfailed.old }
    ensures act { IfOk result (λ act. act ≡ readied.act) }
    ensures taken { IfOk result (λ act. TookStep P.Port
        (solo_of node.old pending.old port.old) (solo_of node.new pending.new port.new)
        (asked_by readied.act)) }
    ensures given { GoesOnBy [] (P.given port.old) (P.given port.new) }
    ensures vouches_on { KeepsVouching P.vouches port.old port.new }
    ensures refused { IfErr result
        (IsTakingFault node.old node.new (note_in readied.ready.step)) }
    ensures left { OnErr result ((pending.new ≡ pending.old) × (port.new ≡ port.old)) }
    ensures device { IfErr result (λ f. (k : _) → f ≡ refused.Down k
        → HasRisen (D.failures_of node.old.log.disk) (D.failures_of node.new.log.disk)) }
    ensures on_log { D.is_kept node.new.log.disk → IsOnLog D.history node.old
        → node.new.node.stopped ≡ false → IsOnLog D.history node.new }
    ensures any_moment { LeavesAtMost D.Disk
        (solo_of node.old pending.old port.old) (solo_of node.new pending.new port.new)
        (asked_by readied.act) }
    ensures untouched { IfErr result (λ f. ((k : _) × (f ≡ refused.Down k))
        ⊎ IsUntouched D.Disk (solo_of node.old pending.old port.old)
        (solo_of node.new pending.new port.new)) }
    ensures kept { D.is_kept node.new.log.disk → D.is_kept node.old.log.disk }
    ensures below { AllFailedBelow node.new.node.member pending.new unfailed.new }
{
    let me = node.me();
    *unfailed = unfailed_after(&readied.ready, *unfailed);
    let before = match pending.keep(node.member(), me, &readied.act) {
        Ok(before) => before,
        Err(memory) => {
            drop(readied);
            return Err(TurnFault::from(memory));
        }
    };
    let CausedStep { act, ready } = readied;
    match finish(node, port, me, ready) {
        Ok(()) => Ok(act),
        Err(fault) => {
            drop(act);
            pending.put_back(before);
            Err(fault)
        }
    }
}

/// Takes the step, and offers what it sends to the port. `me` is the node's number.
fn finish<D: Disk, P: Port>(
    node: &mut Node<'_, D>,
    port: &mut P,
    me: u8,
    ready: PreparedStep,
) -> Result<(), TurnFault>
    requires me { me ≡ node.old.node.member.me }
    requires logged { IsLogged node.old }
    requires ready { IsReadyFor node.old.node ready }
    ensures taken { OnOk result
        (node.new.node ≡ after node.old.node (taken_by node.old.node ready)) }
    ensures room { OnOk result
        (¬ (IsFull node.old.node (taken_by node.old.node ready).answer.note)) }
    ensures offered { OnOk result (GoesOnBy
        (parcels_from me (datagrams_to (taken_by node.old.node ready).answer.sends))
        (P.offered port.old) (P.offered port.new)) }
    ensures calls { OnOk result (WasOffered P.does port.old
        (parcels_from me (datagrams_to (taken_by node.old.node ready).answer.sends)) port.new) }
    ensures given { GoesOnBy [] (P.given port.old) (P.given port.new) }
    ensures vouches_on { KeepsVouching P.vouches port.old port.new }
    ensures no_offer { OnErr result (port.new ≡ port.old) }
    ensures refused { IfErr result (IsTakingFault node.old node.new (note_in ready.step)) }
    ensures device { IfErr result (λ f. (k : _) → f ≡ refused.Down k
        → HasRisen (D.failures_of node.old.log.disk) (D.failures_of node.new.log.disk)) }
    ensures on_log { D.is_kept node.new.log.disk → IsOnLog D.history node.old
        → node.new.node.stopped ≡ false → IsOnLog D.history node.new }
    ensures any_moment { D.is_kept node.new.log.disk → IsOnLog D.history node.old
        → LeavesOneMoreAtMost node.old.node (note_in ready.step)
        (D.history node.old.log.disk) (D.history node.new.log.disk) }
    ensures untouched { D.is_kept node.new.log.disk → IsOnLog D.history node.old
        → IfErr result (λ f. ((k : _) × (f ≡ refused.Down k))
        ⊎ (D.history node.new.log.disk ≡ D.history node.old.log.disk)) }
    ensures kept { D.is_kept node.new.log.disk → D.is_kept node.old.log.disk }
{
    match node.finish(ready) {
        Ok(out) => {
            offer(node, port, me, &out.sends);
            Ok(())
        }
        Err(NodeFault::Log(LogFault::Device)) => Err(TurnFault::Down(me)),
        Err(fault) => Err(told(fault)),
    }
}

//! Messages from one node to another.
ghost use Rattle.std.specs.Prelude.{IfOk, OnOk, slice_get};
ghost use Rattle.node.specs.OnLog.{IsOnLog};
ghost use Rattle.node.specs.Ranges.{IsGoodInput};
ghost use Rattle.node.specs.Step.{Does};
ghost use Rattle.check_worlds.specs.Rows.{EachCrashLeavesItsNotes, IsPassedOn, IsReceived};

use member::Input;
use node::{Effects, Node, NodeFault, Parcels};
use stable_record::Disk;

/// A node handles an input, and another one handles the first datagram of its step.
pub fn pass_on<D: Disk, E: Disk>(
    sender: &mut Node<'_, D>,
    receiver: &mut Node<'_, E>,
    input: Input,
) -> Result<Option<Effects>, NodeFault>
    requires message { IsGoodInput input }
    ensures passed_on { IfOk result (IsPassedOn sender.old.node sender.new.node
        receiver.old.node receiver.new.node (Does input)) }

    // When a datagram is passed on, its note is already on the sender's disk.
    ensures noted { D.is_kept sender.new.log.disk → IsOnLog D.history sender.old
        → OnOk result (EachCrashLeavesItsNotes D.history sender.new) }
{
    let out = sender.handle(input)?;
    receive_first(receiver, &out.sends)
}

/// The node handles the first of these, if there is one.
fn receive_first<E: Disk>(
    receiver: &mut Node<'_, E>,
    sends: &Parcels,
) -> Result<Option<Effects>, NodeFault>
    ensures { IfOk result
        (IsReceived (slice_get sends.now 0) receiver.old.node receiver.new.node) }
{
    match sends.get(0) {
        Some((_to, text)) => match receiver.handle_datagram(text) {
            Ok(out) => Ok(Some(out)),
            Err(fault) => Err(fault),
        },
        None => Ok(None),
    }
}

//! Two calls in succession.
ghost use Rattle.std.specs.Prelude.{IfOk, OnOk};
ghost use Rattle.node.specs.OnLog.{IsOnLog};
ghost use Rattle.node.specs.Ranges.{IsGoodInput};
ghost use Rattle.node.specs.Step.{Comes, Does};
ghost use Rattle.check_worlds.specs.Rows.{HasHandledBoth, LosesNoNote};

use member::Input;
use node::{Effects, Node, NodeFault};
use stable_record::Disk;

/// Takes an input, and then a datagram.
pub fn take_then_receive<D: Disk>(
    node: &mut Node<'_, D>,
    input: Input,
    bytes: &[u8],
) -> Result<(Effects, Effects), NodeFault>
    requires message { IsGoodInput input }
    ensures handled { IfOk result
        (HasHandledBoth node.old.node node.new.node (Does input) (Comes bytes.now)) }
    ensures on_log { D.is_kept node.new.log.disk → IsOnLog D.history node.old
        → OnOk result (IsOnLog D.history node.new) }
    ensures no_note_lost { D.is_kept node.new.log.disk → IsOnLog D.history node.old
        → LosesNoNote node.old.node (D.history node.old.log.disk) (D.history node.new.log.disk) }
{
    let first = node.handle(input)?;
    let second = node.handle_datagram(bytes)?;
    Ok((first, second))
}

/// Takes two datagrams, one after the other.
pub fn receive_two<D: Disk>(
    node: &mut Node<'_, D>,
    first: &[u8],
    second: &[u8],
) -> Result<(Effects, Effects), NodeFault>
    ensures handled { IfOk result
        (HasHandledBoth node.old.node node.new.node (Comes first.now) (Comes second.now)) }
    ensures on_log { D.is_kept node.new.log.disk → IsOnLog D.history node.old
        → OnOk result (IsOnLog D.history node.new) }
    ensures no_note_lost { D.is_kept node.new.log.disk → IsOnLog D.history node.old
        → LosesNoNote node.old.node (D.history node.old.log.disk) (D.history node.new.log.disk) }
{
    let first = node.handle_datagram(first)?;
    let second = node.handle_datagram(second)?;
    Ok((first, second))
}

//! Steps that are made ready, and then taken or dropped.
ghost use Rattle.std.specs.Prelude.{◌≡◌, IfOk, OnOk};
ghost use Rattle.node.specs.Calls.{HasHandled};
ghost use Rattle.node.specs.OnLog.{IsOnLog};
ghost use Rattle.node.specs.Ranges.{IsGoodInput};
ghost use Rattle.node.specs.Step.{Comes, Does};

use member::Input;
use node::{Effects, Node, NodeFault};
use stable_record::Disk;

/// Makes the step on an input ready, and drops it.
pub fn let_go<D: Disk>(node: &mut Node<'_, D>, input: Input) -> Result<(), NodeFault>
    requires message { IsGoodInput input }
    ensures same { node.new ≡ node.old }
{
    let _ready = node.prepare(input)?;
    Ok(())
}

/// Makes the step on an input ready, and takes it.
pub fn take<D: Disk>(node: &mut Node<'_, D>, input: Input) -> Result<Effects, NodeFault>
    requires message { IsGoodInput input }
    ensures handled { IfOk result (HasHandled node.old.node node.new.node (Does input)) }
    ensures on_log { D.is_kept node.new.log.disk → IsOnLog D.history node.old
        → OnOk result (IsOnLog D.history node.new) }
{
    let ready = node.prepare(input)?;
    node.finish(ready)
}

/// Makes the step on an input ready and drops it, and then handles bytes.
pub fn let_go_then_receive<D: Disk>(
    node: &mut Node<'_, D>,
    input: Input,
    bytes: &[u8],
) -> Result<Effects, NodeFault>
    requires message { IsGoodInput input }
    ensures handled { IfOk result (HasHandled node.old.node node.new.node (Comes bytes.now)) }
    ensures on_log { D.is_kept node.new.log.disk → IsOnLog D.history node.old
        → OnOk result (IsOnLog D.history node.new) }
{
    let_go(node, input)?;
    let ready = node.prepare_datagram(bytes)?;
    node.finish(ready)
}

//! Calls after a refused one.
ghost use Rattle.std.specs.Prelude.{◌≡◌, ◌⊎◌, IfOk, true};
ghost use Rattle.node.specs.Calls.{HasHandled};
ghost use Rattle.node.specs.Ranges.{IsGoodInput};
ghost use Rattle.node.specs.Step.{Comes, Does};
ghost use Rattle.check_worlds.specs.Rows.{HasHandledLater};

use member::Input;
use node::{Effects, Node, NodeFault};
use stable_record::Disk;

/// Handles the input, or if it is refused, the bytes.
pub fn take_or_receive<D: Disk>(
    node: &mut Node<'_, D>,
    input: Input,
    bytes: &[u8],
) -> Result<Effects, NodeFault>
    requires message { IsGoodInput input }
    // The refused call has changed nothing.
    ensures { IfOk result (λ out. HasHandled node.old.node node.new.node (Does input) out
        ⊎ HasHandled node.old.node node.new.node (Comes bytes.now) out) }
{
    match node.handle(input) {
        Ok(out) => Ok(out),
        Err(_refused) => node.handle_datagram(bytes),
    }
}

/// Handles the first bytes, or if they are refused, the second ones.
pub fn receive_either<D: Disk>(
    node: &mut Node<'_, D>,
    first: &[u8],
    second: &[u8],
) -> Result<Effects, NodeFault>
    // Refused bytes have changed nothing, except for dropping the pieces that don't join to a
    // message.
    ensures { IfOk result (λ out. HasHandled node.old.node node.new.node (Comes first.now) out
        ⊎ HasHandledLater node.old.node node.new.node (Comes first.now) (Comes second.now) out) }
{
    match node.handle_datagram(first) {
        Ok(out) => Ok(out),
        Err(_refused) => node.handle_datagram(second),
    }
}

/// Whether a stopped node says so and does nothing, also on bytes.
pub fn take_when_stopped<D: Disk>(node: &mut Node<'_, D>, input: Input, bytes: &[u8]) -> bool
    requires message { IsGoodInput input }
    requires stopped { node.old.node.stopped ≡ true }
    ensures told { result ≡ true }
    ensures same { node.new ≡ node.old }
{
    let is_told = match node.handle(input) {
        Err(NodeFault::Stopped) => true,
        _ => false,
    };
    match node.handle_datagram(bytes) {
        Err(NodeFault::Stopped) => is_told,
        _ => false,
    }
}

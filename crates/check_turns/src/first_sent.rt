//! The first datagram of a step, sent over a port in memory.
ghost use Rattle.std.specs.Prelude.{IfOk};
ghost use Rattle.node.specs.Parcels.{datagrams_to};
ghost use Rattle.node.specs.Step.{IsReadyFor, taken_by};
ghost use Rattle.check_turns.specs.FirstSent.{QueuesFirst};

use datagram_ports::{MemPort, Port, PortFault};
use node::{Node, NodeFault, PreparedStep};
use stable_record::Disk;
use turn_rules::LastStep;

/// Takes a step that is ready, and then sends its first datagram, if it has one. It may be sent,
/// since the step was noted. If the port takes it, it is queued.
pub fn send_first<D: Disk>(
    node: &mut Node<'_, D>,
    port: &mut MemPort,
    ready: PreparedStep,
) -> Result<Option<Result<(), PortFault>>, NodeFault>
    requires { IsReadyFor node.old.node ready }
    ensures { IfOk result
        (QueuesFirst (datagrams_to (taken_by node.old.node ready).answer.sends)
        port.old port.new) }
{
    let _node = node.member();
    let out = node.finish(ready)?;
    let step = LastStep::of(node, &out.sends);
    match out.sends.get(0) {
        Some((to, bytes)) => {
            port.grant(&step, bytes);
            Ok(Some(port.send(node.me(), to, bytes)))
        }
        None => Ok(None),
    }
}

//! The first datagram of a step, sent over UDP.
ghost use Rattle.std.specs.Prelude.{IfOk};
ghost use Rattle.node.specs.Parcels.{datagrams_to};
ghost use Rattle.node.specs.Step.{IsReadyFor, taken_by};
ghost use Rattle.laws.specs.FirstSent.{SendsFirst};

use datagram_ports::{Port, PortFault};
use node::{Node, NodeFault, PreparedStep};
use stable_record::Disk;
use std::time::Clock;
use turn_rules::LastStep;
use udp::UdpPort;

/// Takes a step that is ready, and then sends its first datagram, if it has one. It may be sent,
/// since the step was noted. If the port takes it, it has a way from this node to the receiver.
pub fn send_first<C: Clock, D: Disk>(
    node: &mut Node<'_, D>,
    port: &mut UdpPort<'_, C>,
    ready: PreparedStep,
) -> Result<Option<Result<(), PortFault>>, NodeFault>
    requires { IsReadyFor node.old.node ready }
    ensures { IfOk result
        (SendsFirst node.new.node.member.me
        (datagrams_to (taken_by node.old.node ready).answer.sends) port.old port.new) }
{
    let _node = node.member();
    let out = node.finish(ready)?;
    let step = LastStep::of(node, &out.sends);
    match out.sends.get(0) {
        Some((to, bytes)) => {
            port.grant(&step, bytes);
            Ok(Some(port.send(node.me(), to, bytes)))
        }
        None => Ok(None),
    }
}

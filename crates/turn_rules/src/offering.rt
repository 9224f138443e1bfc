//! What a step sends is offered to the port.
ghost use Rattle.std.specs.Prelude.{All, []};
ghost use Rattle.node.specs.Parcels.{each_to, texts_in};
ghost use Rattle.datagram_ports.specs.Kept.{GoesOnBy, KeepsVouching};
ghost use Rattle.turn_rules.specs.LastStep.{IsOfLastStep};
ghost use Rattle.turn_rules.specs.Offered.{IsSent, WasOffered, parcels_from};

use crate::LastStep;
use datagram_ports::Port;
use node::{Node, Parcels};
use stable_record::Disk;

/// Offers the datagrams of the node's last step to the port, each once and in order. A datagram
/// that the port refuses is lost.
pub fn offer<D: Disk, P: Port>(node: &Node<'_, D>, port: &mut P, from: u8, sends: &Parcels)
    requires { IsOfLastStep D.is_kept D.history node.now sends.now }
    ensures offered { GoesOnBy (parcels_from from sends.now) (P.offered port.old)
        (P.offered port.new) }
    ensures given { GoesOnBy [] (P.given port.old) (P.given port.new) }
    ensures calls { WasOffered P.does port.old (parcels_from from sends.now) port.new }
    ensures vouches_on { KeepsVouching P.vouches port.old port.new }
{
    let step = LastStep::of(node, sends);
    let (receivers, texts) = sends.parts();
    for to in receivers {
        offer_to(port, &step, from, *to, texts);
    }
}

/// Offers these datagrams of the step to one receiver.
fn offer_to<P: Port>(port: &mut P, step: &LastStep<'_>, from: u8, to: u8, texts: &[Vec<u8>])
    requires { All (λ text. IsSent step.now.sends.now text.items) texts.now }
    ensures offered { GoesOnBy (parcels_from from (each_to (texts_in texts.now) to))
        (P.offered port.old) (P.offered port.new) }
    ensures given { GoesOnBy [] (P.given port.old) (P.given port.new) }
    ensures calls { WasOffered P.does port.old
        (parcels_from from (each_to (texts_in texts.now) to)) port.new }
    ensures vouches_on { KeepsVouching P.vouches port.old port.new }
{
    for text in texts {
        let bytes = text.as_slice();
        port.grant(step, bytes);
        let _ = port.send(from, to, bytes);
    }
}

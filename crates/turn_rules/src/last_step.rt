//! The step that a node took last: a warrant for what it sends.
ghost use Rattle.std.specs.Prelude.{◌≡◌};
ghost use Rattle.turn_rules.specs.LastStep.{IsOfLastStep};

use datagram_ports::Warrant;
use node::{Node, Parcels};
use stable_record::Disk;

/// What a node's last step sends. It may leave, since the step was noted first.
#[derive(Clone, Copy)]
pub struct LastStep<'s> {
    sends: &'s Parcels,
}

impl<'s> LastStep<'s> {
    /// The node's last step, which sends these datagrams.
    pub fn of<D: Disk>(_node: &Node<'_, D>, sends: &'s Parcels) -> LastStep<'s>
        requires { IsOfLastStep D.is_kept D.history _node.now sends.now }
        ensures { result.sends.now ≡ sends.now }
    {
        LastStep { sends }
    }
}

impl<'s> Warrant for LastStep<'s> {
    ghost use Rattle.turn_rules.specs.Offered.{IsSent};

    ghost covers = { λ step text. IsSent step.sends.now text };
}

//! What a node does in a turn, with the prepared step.
ghost use Rattle.std.specs.Prelude.{◌≡◌, ◌⊎◌, Err, IfErr, IfOk, false};
ghost use Rattle.node.specs.Calls.{left_by};
ghost use Rattle.node.specs.Ranges.{IsGoodInput};
ghost use Rattle.node.specs.Step.{Comes, Does, Takes};
ghost use Rattle.node.specs.declared.fault.NodeFault.TheVariants.{Memory as out_of_memory};
ghost use Rattle.turn_rules.specs.CausedSteps.{IsCausedStep};

use crate::Act;
use member::Input;
use node::{Node, NodeFault, PreparedStep};
use stable_record::Disk;

/// What a node does in a turn, with the prepared step.
#[derive(Drop)]
pub struct CausedStep {
    pub act: Act,
    pub ready: PreparedStep,
}

/// Prepares the node's step on an input of its own.
///
/// # Errors
///
/// `Memory`, or why the node refuses the input.
pub fn make_ready<D: Disk>(node: &mut Node<'_, D>, input: Input) -> Result<CausedStep, NodeFault>
    requires up { node.old.node.stopped ≡ false }
    requires input { IsGoodInput input }
    ensures same { node.new ≡ node.old }
    ensures readied { IfOk result (IsCausedStep node.new (Does input)) }
    ensures refused { IfErr result (λ f. (f ≡ out_of_memory)
        ⊎ Takes node.old.node (Does input) (Err f)) }
{
    let ready = node.prepare(input.copy()?)?;
    Ok(CausedStep {
        act: Act::Own(input),
        ready,
    })
}

/// Prepares the node's step on received bytes.
///
/// # Errors
///
/// `Memory`, or why the node refuses the bytes as foreign. In that case, pieces that join to no
/// message are dropped.
pub fn take_in<D: Disk>(node: &mut Node<'_, D>, bytes: Vec<u8>) -> Result<CausedStep, NodeFault>
    requires up { node.old.node.stopped ≡ false }
    ensures log { node.new.log ≡ node.old.log }
    ensures readied { IfOk result (λ r. (node.new ≡ node.old)
        × IsCausedStep node.new (Comes bytes.items) r) }
    ensures refused { IfErr result (λ f. (f ≡ out_of_memory)
        ⊎ Takes node.old.node (Comes bytes.items) (Err f)) }
    ensures left { IfErr result (λ f.
        node.new.node ≡ left_by node.old.node (Comes bytes.items) f) }
{
    match node.prepare_datagram(bytes.as_slice()) {
        Ok(ready) => Ok(CausedStep {
            act: Act::Datagram(bytes),
            ready,
        }),
        Err(fault) => Err(fault),
    }
}

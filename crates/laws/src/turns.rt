//! What a lone node's turn does to its host, derived from the contracts alone.
ghost use Rattle.std.specs.Prelude.{◌≡◌, [], IfErr, IfNone, IfOk, IfSome, None, option_map};
ghost use Rattle.turn_rules.specs.Acts.{asked_by};
ghost use Rattle.laws.specs.Turns.{IsRefusedTurn, IsStepTaken};
ghost use Rattle.lone_node.specs.Handed.{handed};
ghost use Rattle.lone_node.specs.Turn.{IsChosen};

use datagram_ports::Port;
use lone_node::{Initiative, Solo};
use protocol::Packages;
use stable_record::Disk;
use turn_rules::{Act, TurnFault};

/// Takes a turn. If it returns what the node did, the node took that step and offered just what the
/// step sends. If there was nothing to do, or memory or room ran out, the node is unchanged. If it
/// refused what it was asked, it is in the state after that refusal. If it went down, it did so
/// during a step.
///
/// # Errors
///
/// Those of the turn.
pub fn turn_on_host<D: Disk, P: Port>(
    solo: &mut Solo<'_, D, P>,
    made: Option<&Packages>,
    initiative: Initiative,
) -> Result<Option<Act>, TurnFault>
    ensures turned { IfOk result (λ o. IfSome o
        (λ act. IsStepTaken P.Port solo.old solo.new (asked_by act))) }
    ensures nothing { IfOk result (λ o. IfNone o
        (IsChosen P.Port solo.old solo.new
        (handed (option_map (λ b. b.now) made.entry) initiative) [] None)) }
    ensures stayed { IfOk result (λ o. IfNone o (solo.new.node ≡ solo.old.node)) }
    ensures refused { IfErr result (IsRefusedTurn solo.old solo.new) }
{
    let _node = solo.node().member();
    solo.turn_with(made, initiative)
}

//! Two turns.
ghost use Rattle.std.specs.Prelude.{[], ◌∷◌};
ghost use Rattle.lone_node.specs.Handed.{AllBuilds};
ghost use Rattle.lone_node.specs.Turns.{TurnsLead};
ghost use Rattle.check_turns.specs.Two.{TookTwo};

use datagram_ports::Port;
use lone_node::Solo;
use protocol::Packages;
use stable_record::Disk;
use turn_rules::{Act, TurnFault};

/// What a turn returns.
pub type Outcome = Result<Option<Act>, TurnFault>;

/// Takes two turns. If both return what the node did, it took a step on the first, and then, from
/// the state after that, a step on the second. Exactly what these send was offered, in that order.
pub fn two_turns<D: Disk, P: Port>(
    solo: &mut Solo<'_, D, P>,
    builds: &Packages,
) -> (Outcome, Outcome)
    ensures led { TurnsLead D.Disk P.Port
        (AllBuilds builds.now) solo.old (result.0 ∷ result.1 ∷ []) solo.new }
    ensures took { TookTwo P.Port solo.old solo.new result.0 result.1 }
{
    let one = solo.turn(builds);
    let other = solo.turn(builds);
    (one, other)
}

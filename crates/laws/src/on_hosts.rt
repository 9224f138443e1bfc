//! Laws: the turns that a program takes are among the things that may happen to hosts.
ghost use Rattle.laws.specs.OnHosts.{StoppedNodesStay, TurnsAreOfARun, VouchedTurnsAreOfARun};
ghost use Rattle.laws.specs.Reopening.{TurnsLeaveLogs};

use datagram_ports::Port;
use stable_record::Disk;

/// Law: a turn of the node on one of the hosts, as `Solo::turn` and `Solo::turn_with` promise it,
/// is one of the things that may happen to hosts. The condition is that bytes which it took were
/// offered before. The turn is a step whose sends were offered, a refusal, the node's end if its
/// device failed, or nothing. So `lone_nodes_make_a_world` covers any list of turns.
pub fn turns_are_of_a_run<D: Disk, P: Port>()
    ensures { TurnsAreOfARun D.Disk P.Port }
{}

/// Law: this also holds if all that the node's port vouched for, as the turn's receive left it, was
/// offered before.
pub fn vouched_turns_are_of_a_run<D: Disk, P: Port>()
    ensures { VouchedTurnsAreOfARun D.Disk P.Port }
{}

/// Law: a turn of a stopped node takes no step, leaves the node as it was, and offers nothing. So
/// its host stays as it is, however many turns a program takes.
pub fn stopped_nodes_stay<D: Disk, P: Port>()
    ensures { StoppedNodesStay D.Disk P.Port }
{}

/// Law: a crash at any moment of such a turn leaves a log that opens with the notes from before, or
/// with these and that of the step. `turn_then_open` has this of `Solo::turn_with` by a
/// call.
pub fn turns_leave_logs<D: Disk, P: Port>()
    ensures { TurnsLeaveLogs D.Disk P.Port }
{}

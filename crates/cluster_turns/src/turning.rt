//! The turns of a cluster.
ghost use Rattle.std.specs.Prelude.{◌≡◌, ◌≤◌, ◌++◌, ◌∷◌, [], IfErr, IfNone, IfOk, IfSome, None, length};
ghost use Rattle.cluster_turns.specs.Choosing.{NoneIsForeign};
ghost use Rattle.cluster_turns.specs.Unfailed.{EachFailedBelow};
ghost use Rattle.protocol.specs.Events.{event_view, node_of};
ghost use Rattle.cluster_turns.specs.Calls.{HasCalled};
ghost use Rattle.cluster_turns.specs.Disks.{LeavesDisks};
ghost use Rattle.cluster_turns.specs.Faults.{IsLeftBy, IsTurnFault};
ghost use Rattle.cluster_turns.specs.Headline.{HasHeadline};
ghost use Rattle.cluster_turns.specs.State.{AreOnLogs, taken};
ghost use Rattle.cluster_turns.specs.Turn.{HasHappened, IsChosen, IsEventChosen, IsSame, KeepsWith, Offers, OthersStay};
ghost use Rattle.cluster_turns.specs.inside.Turning.{IsTurn, IsTurnByCalls, as_turning};

use crate::taking::take;
use crate::{Cluster, choose};
use datagram_ports::Port;
use node::Node;
use protocol::{Event, Packages};
use stable_record::Disk;
use std::alloc::Global;
use turn_rules::{Pending, TurnFault};
use world::Datagrams;

impl<'a, D: Disk, P: Port> Cluster<'a, D, P> {
    /// Takes one turn, and returns its event, if there was anything to do. A datagram that a send
    /// refuses is lost, and a receive that fails counts as one that returned nothing.
    ///
    /// # Errors
    ///
    /// `Memory`; `NotSent` if bytes were received for a node that is up and no node sent them;
    /// `Down` if the device of the event's node failed; otherwise the refusal of that node.
    pub fn turn(&mut self, builds: &Packages) -> Result<Option<Event>, TurnFault>
        // The choice. As far as the port records its receives, it was asked once, unless a job
        // waited for its answer.
        ensures chosen { IfOk result (λ o. IfSome o
            (λ e. IsEventChosen P.Port self.old self.new builds.now (event_view e))) }
        ensures nothing { IfOk result (λ o. IfNone o
            (IsChosen P.Port self.old self.new builds.now None)) }

        // What was chosen happened; or only the port changed; or there is a refusal.
        ensures happened { IfOk result (λ o. IfSome o
            (λ e. HasHappened self.old self.new (event_view e))) }
        ensures others { IfOk result (λ o. IfSome o
            (λ e. OthersStay self.old self.new (node_of (event_view e)))) }
        ensures pending { IfOk result (λ o. IfSome o
            (λ e. KeepsWith self.old self.new (event_view e))) }
        ensures kept { IfOk result (λ o. IfSome o
            (λ e. taken self.new ≡ taken self.old ++ event_view e ∷ [])) }
        ensures same { IfOk result (λ o. IfNone o (IsSame self.old self.new)) }
        ensures refused { IfErr result (IsTurnFault P.Port self.old self.new builds.now) }
        ensures left { IfErr result (IsLeftBy self.old self.new) }

        // What was offered; and all calls of the port, even if it doesn't record them.
        ensures offers { Offers P.Port self.old self.new result }
        ensures calls { HasCalled P.Port self.old self.new builds.now result }

        // The disks at each moment, and what holds of the cluster whatever the result is.
        ensures disks { LeavesDisks D.Disk self.old self.new result }
        ensures on_logs { AreOnLogs D.Disk self.new }
        ensures fixed { (self.new.division ≡ self.old.division)
            × (self.new.weights ≡ self.old.weights) }
        ensures headline { HasHeadline self.new }
    {
        take_turn(
            self.alloc,
            &mut self.nodes,
            &mut self.port,
            &mut self.sent,
            &mut self.events,
            &mut self.pending,
            &mut self.unfailed,
            builds,
        )
    }
}

/// One turn of these nodes: what is chosen happens. Below its position in `unfailed`, each node's
/// only queued packages are those whose units failed.
fn take_turn<D: Disk, P: Port>(
    alloc: Global,
    nodes: &mut Vec<Node<'_, D>>,
    port: &mut P,
    sent: &mut Datagrams,
    events: &mut Vec<Event>,
    pending: &mut Pending,
    unfailed: &mut [u32; 9],
    builds: &Packages,
) -> Result<Option<Event>, TurnFault>
    requires few { length nodes.old.items ≤ 9 }
    requires next { pending.old.next ≤ length nodes.old.items }
    requires known { NoneIsForeign nodes.old.items sent.old }
    requires below { EachFailedBelow nodes.old.items pending.old unfailed.old }
    ensures below { EachFailedBelow nodes.new.items pending.new unfailed.new }
    ensures turn { IsTurn D.Disk P.Port
        (as_turning nodes.old.items sent.old events.old.items pending.old port.old)
        (as_turning nodes.new.items sent.new events.new.items pending.new port.new)
        builds.now result }
    ensures calls { IsTurnByCalls D.Disk P.Port
        (as_turning nodes.old.items sent.old events.old.items pending.old port.old)
        (as_turning nodes.new.items sent.new events.new.items pending.new port.new)
        builds.now result }
{
    match choose(alloc, nodes, port, sent, pending, unfailed, builds)? {
        Some(chosen) => {
            let event = take(alloc, nodes, port, sent, events, pending, unfailed, chosen)?;
            Ok(Some(event))
        }
        None => Ok(None),
    }
}

//! One node, its port, and its state between turns.
ghost use Rattle.std.specs.Prelude.{
  ◌≡◌,
  ◌⊎◌,
  [],
  IfErr,
  IfNone,
  IfOk,
  IfSome,
  MatchOption,
  MatchResult,
  None,
  Some,
  false,
  is_some,
  option_map,
  true,
};
ghost use Rattle.turn_rules.specs.Acts.{asked_by};
ghost use Rattle.turn_rules.specs.Pending.{above_at, nothing_kept};
ghost use Rattle.turn_rules.specs.declared.fault.TurnFault.TheVariants as refused;
ghost use Rattle.engine.specs.State as engines;
ghost use Rattle.node.specs.OnLog.{IsLogged, IsOnLog};
ghost use Rattle.datagram_ports.specs.Kept.{KeepsVouching};
ghost use Rattle.protocol.specs.State.{engine_of};
ghost use Rattle.stable_record.specs.Faults.{HasRisen};
ghost use Rattle.lone_node.specs.Faults.{IsTurnFault};
ghost use Rattle.lone_node.specs.Handed.{AllBuilds, handed};
ghost use Rattle.lone_node.specs.State.{me_of};
ghost use Rattle.lone_node.specs.Turns.{IsTurn};
ghost use Rattle.lone_node.specs.Turn.{HasTaken, IsChosen, IsHeard, IsUntouched, LeavesAtMost, OffersNothing};

use crate::choosing::choose;
use crate::taking::take;
use datagram_ports::Port;
use engine::Counts;
use node::Node;
use protocol::Packages;
use stable_record::Disk;
use std::marker::Model;
use turn_rules::{Act, Initiative, Pending, TurnFault};

/// One node whose peers run elsewhere, and the port that it reaches them through.
#[derive(Drop)]
pub struct Solo<'a, D: Disk, P: Port> {
    pub(crate) node: Node<'a, D>,
    pub(crate) pending: Pending,
    pub(crate) port: P,
    /// Below this position the only queued packages are those whose units failed. Turns needn't
    /// search there again.
    pub(crate) unfailed: u32,
}

impl<'a, D: Disk, P: Port> Model for Solo<'a, D, P> {
    ghost use Rattle.lone_node.specs.State.{SoloState};

    ghost Value = { SoloState D P };

    ghost view = { λ s. record { node = s.node; pending = s.pending; port = s.port } };

    ghost use Rattle.turn_rules.specs.Unfailed.{AllFailedBelow};

    ghost invariant = { λ s. AllFailedBelow s.node.node.member s.pending s.unfailed };
}

impl<'a, D: Disk, P: Port> Solo<'a, D, P> {
    ghost use Rattle.std.specs.Borrow.{follows, sem};
    ghost use Rattle.lone_node.specs.contracts.solo.Solo.{the_row};
    ghost use mir.Syntax.{named};

    /// A new `Solo` of this node and port.
    pub fn new(node: Node<'a, D>, port: P) -> Solo<'a, D, P>
        requires no_claim { node.node.member.claim ≡ None }
        requires runs { node.node.stopped ≡ false }
        ensures node { result.node ≡ node.entry }
        ensures pending { result.pending ≡ nothing_kept }
        ensures port { result.port ≡ port }
    {
        let pending = Pending::new(node.allocator());
        Solo {
            node,
            pending,
            port,
            unfailed: 0,
        }
    }

    /// Takes one turn with all builds made, on the node's own initiative, and returns what the node
    /// did, if anything.
    ///
    /// # Errors
    ///
    /// Those of `turn_with`.
    pub fn turn(&mut self, builds: &Packages) -> Result<Option<Act>, TurnFault>
        ensures { IsTurn D.Disk P.Port (AllBuilds builds.now) self.old self.new result }
    {
        self.turn_with(Some(builds), Initiative::Own)
    }

    /// Takes one turn, and returns what the node did, if anything. `made` has the files for the
    /// node's job; while it is `None`, the job waits. If the node has nothing to answer and
    /// received nothing, `initiative` decides what it does. A datagram that a send refuses is
    /// lost, and a receive that fails counts as one that returned nothing.
    ///
    /// # Errors
    ///
    /// `Memory`; `Down` if the node's device failed; otherwise the node's refusal.
    pub fn turn_with(
        &mut self,
        made: Option<&Packages>,
        initiative: Initiative,
    ) -> Result<Option<Act>, TurnFault>
        ensures { IsTurn D.Disk P.Port
            (handed (option_map (λ b. b.now) made.entry) initiative) self.old self.new result }
    {
        self.take_turn(made, initiative)
    }

    /// Whether a greater claim blocks the open one, according to the nays so far.
    pub fn is_in_the_way(&self) -> bool
        ensures { result ≡ is_some (above_at self.now.pending (me_of self.now)) }
    {
        let me = self.node.member().me();
        self.pending.above(me).is_some()
    }

    /// The number of packages with each letter at the node, if it is up.
    pub fn counts(&self) -> Option<Counts>
        ensures { MatchOption result (self.now.node.node.stopped ≡ true)
            (λ counts. (self.now.node.node.stopped ≡ false)
            × engines.AreCounts (engine_of self.now.node.node.member) counts) }
    {
        if self.node.is_stopped() {
            return None;
        }
        Some(self.node.counts())
    }

    /// The node.
    pub fn node(&self) -> &Node<'a, D>
        ensures { result.now ≡ self.now.node }
    {
        &self.node
    }

    /// Returns the node and the port.
    pub fn into_parts(self) -> (Node<'a, D>, P)
        ensures node { result.0 ≡ self.entry.node }
        ensures port { result.1 ≡ self.entry.port }
    {
        let Solo { node, port, .. } = self;
        (node, port)
    }

    /// The port.
    pub fn port(&mut self) -> &mut P
        ensures value { result.now ≡ self.old.port }
        ensures* lends { sem 𝓛 (follows
            (the_row (record { mir = named 1; lft = [] }) D.row P.row D.Disk P.Port) P.row
            self.entry.ghost_name result.ghost_name (λ p. record self.old { port = p })) }
    {
        &mut self.port
    }

    /// Takes the turn; its clauses are those of `IsTurn`, one by one.
    fn take_turn(
        &mut self,
        made: Option<&Packages>,
        initiative: Initiative,
    ) -> Result<Option<Act>, TurnFault>
        // The node took its step on the turn's choice. The port went through exactly these calls:
        // one receive, unless a job was answered, and then the step's sends. It vouches for bytes
        // that the node took.
        ensures taken { IfOk result (λ o. IfSome o (λ act. HasTaken P.Port self.old self.new
            (handed (option_map (λ b. b.now) made.entry) initiative) (asked_by act))) }
        ensures heard { IfOk result (λ o. IfSome o
            (λ act. IsHeard P.Port self.new.port (asked_by act))) }

        // There was nothing to do, and nothing was offered.
        ensures nothing { IfOk result (λ o. IfNone o
            (IsChosen P.Port self.old self.new
            (handed (option_map (λ b. b.now) made.entry) initiative) [] None)) }
        ensures same { IfOk result (λ o. IfNone o
            ((self.new.node ≡ self.old.node) × (self.new.pending ≡ self.old.pending)
            × OffersNothing P.Port self.old self.new)) }

        // Refusals, and the state that they leave.
        ensures refused { IfErr result (IsTurnFault P.Port self.old self.new
            (handed (option_map (λ b. b.now) made.entry) initiative)
            (LeavesAtMost D.Disk self.old self.new)) }
        ensures left { IfErr result (λ f. (self.new.pending ≡ self.old.pending)
            × OffersNothing P.Port self.old self.new) }
        ensures device { IfErr result (λ f. (k : _) → f ≡ refused.Down k
            → HasRisen (D.failures_of self.old.node.log.disk)
            (D.failures_of self.new.node.log.disk)) }

        // The log before and after each turn, and at each moment of it.
        ensures logged { IsLogged self.old.node }
        ensures on_log { D.is_kept self.new.node.log.disk → IsOnLog D.history self.old.node
            → self.new.node.node.stopped ≡ false → IsOnLog D.history self.new.node }
        ensures any_moment { IfOk result (λ o. IfSome o
            (λ act. LeavesAtMost D.Disk self.old self.new (asked_by act))) }
        ensures untouched { MatchResult result
            (λ o. IfNone o (IsUntouched D.Disk self.old self.new))
            (λ f. ((k : _) × (f ≡ refused.Down k))
            ⊎ IsUntouched D.Disk self.old self.new) }
        ensures kept { D.is_kept self.new.node.log.disk → D.is_kept self.old.node.log.disk }
        ensures vouches_on { KeepsVouching P.vouches self.old.port self.new.port }
    {
        match choose(
            &mut self.node,
            &mut self.port,
            &self.pending,
            &mut self.unfailed,
            made,
            initiative,
        )? {
            Some(readied) => {
                let act = take(
                    &mut self.node,
                    &mut self.pending,
                    &mut self.port,
                    &mut self.unfailed,
                    readied,
                )?;
                Ok(Some(act))
            }
            None => Ok(None),
        }
    }
}

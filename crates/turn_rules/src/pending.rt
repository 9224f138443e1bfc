//! The state that is kept between turns.
ghost use Rattle.std.specs.Prelude.{◌≡◌, ◌<◌, ◌≤◌, IfOk, OnErr, OnOk, option_map, slice_set};
ghost use Rattle.turn_rules.specs.Acts.{asked_by};
ghost use Rattle.turn_rules.specs.Nays.{above_after};
ghost use Rattle.turn_rules.specs.Pending.{
  above_at,
  after_input,
  has_failed,
  kept_after,
  nothing_kept,
  with_failed,
};
ghost use Rattle.turn_rules.specs.PuttingBack.{before_of, put_back};
ghost use Rattle.member.specs.OpenClaims.{open_of};
ghost use Rattle.std.specs.Option.{option_copied};

use crate::Act;
use crate::nays::above_after;
use faults::Memory;
use indexmap::IndexSet;
use member::{Input, Member, OpenClaim};
use std::alloc::Global;
use std::marker::Model;

/// The state that is kept between turns: the units of which a build failed, the rounds that nays
/// named to each node, and the node that is next to act on its own initiative.
#[derive(Drop)]
pub struct Pending {
    /// In the order in which they failed.
    failed: IndexSet<u32>,
    /// By node.
    above: [Option<u64>; 9],
    next: u8,
}

/// What has to be saved of the state before a node does something.
#[derive(Clone, Copy, Debug, PartialEq, Eq)]
pub struct Before {
    /// The number of failed units.
    failed: usize,
    above: [Option<u64>; 9],
    next: u8,
}

impl Model for Pending {
    ghost use Rattle.turn_rules.specs.Pending as kept;

    ghost Value = { kept.Pending };

    ghost use Rattle.turn_rules.specs.inside.Keeping.{kept_of};
    ghost use Rattle.std.specs.Prelude.{◌≤◌};

    ghost view = { kept_of };

    ghost invariant = { λ p. p.next ≤ 9 };
}

impl Pending {
    /// The state at the start.
    pub fn new(alloc: Global) -> Pending
        ensures { result ≡ nothing_kept }
    {
        Pending {
            failed: IndexSet::new(alloc),
            above: [None; 9],
            next: 0,
        }
    }

    /// Whether a build of the unit failed.
    pub fn has_failed(&self, unit: u32) -> bool
        ensures { result ≡ has_failed self.now unit }
    {
        self.failed.contains(&unit)
    }

    /// The round that the node's next claim for its unit has to exceed, if a greater claim blocks
    /// its open one.
    pub fn above(&self, node: u8) -> Option<u64>
        requires { node < 9 }
        ensures { result ≡ above_at self.now node }
    {
        self.above[node as usize]
    }

    /// The node after the one that last did something on its own initiative.
    pub fn next(&self) -> u8
        ensures { result ≡ self.now.next }
    {
        self.next
    }

    /// Updates the state for what the node, with this member, does. Returns what is needed to
    /// restore the state with `put_back`.
    ///
    /// # Errors
    ///
    /// Out of memory.
    pub fn keep(&mut self, member: &Member<'_>, node: u8, act: &Act) -> Result<Before, Memory>
        requires { node < 9 }
        ensures kept { OnOk result
            (self.new ≡ kept_after self.old node member.now (asked_by act.now)) }
        ensures before { IfOk result (λ before. (put_back self.new before ≡ self.old)
            × (before.next ≤ 9)) }
        ensures same { OnErr result (self.new ≡ self.old) }
    {
        let before = self.remembered();
        match act {
            Act::Own(input) => self.keep_input(member, node, input)?,
            Act::Datagram(bytes) => self.keep_named(member, node, bytes.as_slice())?,
        }
        Ok(before)
    }

    /// Restores the state from before a node did something. Does not allocate.
    pub fn put_back(&mut self, before: Before)
        requires { before.next ≤ 9 }
        ensures { self.new ≡ put_back self.old before }
    {
        self.failed.truncate(before.failed);
        let above = before.above;
        self.above = above;
        self.next = before.next;
    }

    /// What has to be saved of the state now.
    fn remembered(&self) -> Before
        ensures before { result ≡ before_of self.now }
        ensures next { result.next ≤ 9 }
    {
        let above = self.above;
        Before {
            failed: self.failed.len(),
            above,
            next: self.next,
        }
    }

    /// Updates the state for an input of the node.
    fn keep_input(&mut self, member: &Member<'_>, node: u8, input: &Input) -> Result<(), Memory>
        requires { node < 9 }
        ensures kept { OnOk result
            (self.new ≡ after_input self.old node member.now input.now) }
        ensures same { OnErr result (self.new ≡ self.old) }
    {
        match input {
            Input::Claim { .. } => {
                self.above[node as usize] = None;
                self.next = node + 1;
            }
            Input::Nudge => self.next = node + 1,
            Input::Failed { .. } => self.keep_failed(member.open_claim())?,
            Input::Built { .. } | Input::Ask { .. } | Input::Message(_) => {}
        }
        Ok(())
    }

    /// Notes that a build of the claim's unit failed.
    fn keep_failed(&mut self, claim: Option<&OpenClaim>) -> Result<(), Memory>
        ensures kept { OnOk result (self.new
            ≡ with_failed self.old (option_map open_of (option_copied claim.entry))) }
        ensures same { OnErr result (self.new ≡ self.old) }
    {
        if let Some(open) = claim {
            self.failed.insert(open.unit)?;
        }
        Ok(())
    }

    /// Notes the round that the bytes name to the node.
    fn keep_named(&mut self, member: &Member<'_>, node: u8, bytes: &[u8]) -> Result<(), Memory>
        requires { node < 9 }
        ensures kept { OnOk result (self.new ≡ record self.old {
          above = slice_set self.old.above node
              (above_after member.now member.now.claim (above_at self.old node) bytes.now);
        }) }
        ensures same { OnErr result (self.new ≡ self.old) }
    {
        let alloc: Global = *self.failed.allocator();
        let above = above_after(alloc, member, self.above[node as usize], bytes)?;
        self.above[node as usize] = above;
        Ok(())
    }
}

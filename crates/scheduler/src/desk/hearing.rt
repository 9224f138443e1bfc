//! What a desk keeps of what others said of units.
ghost use Rattle.std.specs.Prelude.{◌≡◌, ◌<◌, ◌==◌, ◌&&◌, None, OnErr, OnOk, Some, if◌then◌else◌, length, nat_eq, not, ℕ};
ghost use Rattle.std.specs.Duration.{as_nanos};
ghost use Rattle.ballots.specs.declared.message.Body.TheVariants.{Ask, Nay, Offer};
ghost use Rattle.scheduler.specs.Hearing.{Hears, HearsMessage, back_after, failures_after, given_by, is_named_of, named_after, put, with_back};
ghost use Rattle.scheduler.specs.Keeping.{IsNothingHeard, IsSameButHeard};
ghost use Rattle.scheduler.specs.Waiting.{back_of, has_waited, is_named, round_named, since_promised};
ghost use Rattle.engine.specs.Division.{number_found};
ghost use Rattle.indexmap.specs.IndexMap.{get};
ghost use Rattle.protocol.specs.State.{facts_at};

use crate::desk::Desk;
use crate::failures::remove_claimer;
use crate::heard::{GivenBack, Named};
use crate::pace::is_over;
use crate::seen::is_same_promise;
use crate::wishing::promised;
use ballots::{Body, Message};
use claims::{Claim, is_above};
use faults::Memory;
use indexmap::IndexMap;
use member::Member;
use std::alloc::Global;
use std::time::Instant;
use wire::{Datagram, WireFault, decode};

/// How many bytes a datagram may have that is read here: more than any question or nay.
const LONGEST: usize = 1_024;

impl Desk<'_> {
    /// Keeps what a datagram that the member took says of its unit.
    ///
    /// A question from the member whose claim this one promised last gives the unit back, since
    /// nobody asks for what it builds. A nay that names another member's claim says that the unit
    /// is that member's. A member that offers a claim tries the unit again if its build failed.
    ///
    /// # Errors
    ///
    /// Out of memory. Nothing is kept then.
    pub(crate) fn hear(
        &mut self,
        member: &Member<'_>,
        bytes: &[u8],
        now: Instant,
    ) -> Result<(), Memory>
        ensures heard { OnOk result (Hears member.now now bytes.now self.old self.new) }
        ensures rest { IsSameButHeard self.old self.new }
        ensures left { OnErr result (IsNothingHeard self.old self.new) }
    {
        if bytes.len() > LONGEST {
            return Ok(());
        }
        let alloc: Global = *self.failed.allocator();
        match decode(alloc, bytes) {
            Ok(Datagram::Whole(message)) => self.hear_message(member, &message, now),
            Ok(Datagram::Piece(_)) => Ok(()),
            Err(WireFault::Memory) => Err(Memory),
            Err(_) => Ok(()),
        }
    }

    /// Keeps what a message says of its unit.
    fn hear_message(
        &mut self,
        member: &Member<'_>,
        message: &Message,
        now: Instant,
    ) -> Result<(), Memory>
        ensures heard { OnOk result (HearsMessage member.now now message.now
            (number_found member.now.division message.now.path) self.old self.new) }
        ensures rest { IsSameButHeard self.old self.new }
        ensures left { OnErr result (IsNothingHeard self.old self.new) }
    {
        let Some(unit) = member.units().find(&message.path) else {
            return Ok(());
        };
        match &message.body {
            Body::Ask => self.hear_question(member, message.sender, unit, now),
            Body::Nay(refused, claim) => self.hear_nay(member, unit, *refused, *claim, now),
            Body::Offer(claim) => self.hear_offer(member, unit, *claim),
            _ => Ok(()),
        }
    }

    /// The sender asks for the unit, so it doesn't build it.
    fn hear_question(
        &mut self,
        member: &Member<'_>,
        sender: u8,
        unit: u32,
        now: Instant,
    ) -> Result<(), Memory>
        requires { unit < length member.now.division.units }
        ensures named { OnOk result ((v : ℕ) → get nat_eq self.new.named v
            ≡ put (get nat_eq self.old.named) unit
            (named_after member.now sender Ask now (get nat_eq self.old.named unit)) v) }
        ensures given_back { OnOk result ((v : ℕ) → get nat_eq self.new.given_back v
            ≡ put (get nat_eq self.old.given_back) unit
            (back_after member.now self.old unit sender Ask now
            (get nat_eq self.old.given_back unit)) v) }
        ensures elsewhere { self.new.failed_elsewhere ≡ self.old.failed_elsewhere }
        ensures rest { IsSameButHeard self.old self.new }
        ensures left { OnErr result (IsNothingHeard self.old self.new) }
    {
        let given = self.given_by(member, unit, sender, now);
        give_back(&mut self.given_back, unit, given, now)?;
        forget_named(&mut self.named, unit, sender, member.me());
        Ok(())
    }

    /// The claim that the sender gives back by a question for the unit, if it gives one back.
    fn given_by(&self, member: &Member<'_>, unit: u32, sender: u8, now: Instant) -> Option<Claim>
        requires { unit < length member.now.division.units }
        ensures { result ≡ given_by member.now self.now unit sender now
            (facts_at member.now unit).promised }
    {
        let claim = promised(member, unit)?;
        if sender != member.me() && claim.member == sender && self.is_old(unit, claim, now) {
            Some(claim)
        } else {
            None
        }
    }

    /// Whether this claim for the unit was promised a slot ago at least.
    fn is_old(&self, unit: u32, claim: Claim, now: Instant) -> bool
        ensures { result ≡ has_waited (as_nanos self.now.pace.slot)
            (since_promised (Some claim) (get nat_eq self.now.seen unit)) now }
    {
        match self.since_promised(unit, Some(claim)) {
            Some(since) => is_over(self.pace.slot, since, now),
            None => false,
        }
    }

    /// Since when the unit has this promise, if it was seen with that.
    pub(crate) fn since_promised(&self, unit: u32, promised: Option<Claim>) -> Option<Instant>
        ensures { result ≡ since_promised promised (get nat_eq self.now.seen unit) }
    {
        match self.seen.get(&unit) {
            Some(seen) if is_same_promise(seen.promised, promised) => Some(seen.since),
            _ => None,
        }
    }

    /// A nay to the first of these claims for the unit names the second.
    fn hear_nay(
        &mut self,
        member: &Member<'_>,
        unit: u32,
        refused: Claim,
        claim: Claim,
        now: Instant,
    ) -> Result<(), Memory>
        ensures named { OnOk result ((sender : ℕ) (v : ℕ) → get nat_eq self.new.named v
            ≡ put (get nat_eq self.old.named) unit (named_after member.now sender
            (Nay refused claim) now (get nat_eq self.old.named unit)) v) }
        ensures given_back { self.new.given_back ≡ self.old.given_back }
        ensures elsewhere { self.new.failed_elsewhere ≡ self.old.failed_elsewhere }
        ensures rest { IsSameButHeard self.old self.new }
        ensures left { OnErr result (IsNothingHeard self.old self.new) }
    {
        if refused.member != member.me() || claim.member == member.me() {
            return Ok(());
        }
        self.named.insert(unit, Named { claim, since: now })?;
        Ok(())
    }

    /// The claim's member offers it for the unit, so that one tries the unit again if its build
    /// failed there.
    fn hear_offer(&mut self, member: &Member<'_>, unit: u32, claim: Claim) -> Result<(), Memory>
        requires { unit < length member.now.division.units }
        ensures elsewhere { OnOk result ((v : ℕ) → get nat_eq self.new.failed_elsewhere v
            ≡ put (get nat_eq self.old.failed_elsewhere) unit
            (failures_after member.now unit (Offer claim)
            (get nat_eq self.old.failed_elsewhere unit)) v) }
        ensures named { (self.new.named ≡ self.old.named)
            × (self.new.given_back ≡ self.old.given_back) }
        ensures rest { IsSameButHeard self.old self.new }
        ensures left { OnErr result (IsNothingHeard self.old self.new) }
    {
        let promised = promised(member, unit);
        remove_claimer(&mut self.failed_elsewhere, unit, claim, promised)
    }

    /// Whether a nay named another member's claim for the unit, above what this member promised, so
    /// lately that the unit is left to that one.
    pub(crate) fn is_named(&self, member: &Member<'_>, unit: u32, now: Instant) -> bool
        requires { unit < length member.now.division.units }
        ensures { result ≡ is_named self.now.pace.takeover now
            (facts_at member.now unit).promised (get nat_eq self.now.named unit) }
    {
        match self.named.get(&unit) {
            Some(named) => {
                is_above(named.claim, promised(member, unit))
                    && !is_over(self.pace.takeover, named.since, now)
            }
            None => false,
        }
    }

    /// The round of the claim that a nay named for the unit, or 0.
    pub(crate) fn round_named(&self, unit: u32) -> u64
        ensures { result ≡ round_named (get nat_eq self.now.named unit) }
    {
        match self.named.get(&unit) {
            Some(named) => named.claim.round,
            None => 0,
        }
    }

    /// That the unit was given back, if it was under the claim that the member promised last.
    pub(crate) fn back_at(&self, member: &Member<'_>, unit: u32) -> Option<GivenBack>
        requires { unit < length member.now.division.units }
        ensures { result ≡ back_of (facts_at member.now unit).promised
            (get nat_eq self.now.given_back unit) }
    {
        let claim = promised(member, unit)?;
        match self.given_back.get(&unit) {
            Some(back) if back.claim == claim => Some(*back),
            _ => None,
        }
    }
}

/// Keeps that this claim for the unit was given back, if it is one. What was given back under the
/// same claim before was given back then.
fn give_back(
    all: &mut IndexMap<u32, GivenBack>,
    unit: u32,
    given: Option<Claim>,
    now: Instant,
) -> Result<(), Memory>
    ensures kept { OnOk result ((v : ℕ) → get nat_eq all.new v
        ≡ put (get nat_eq all.old) unit (with_back given now (get nat_eq all.old unit)) v) }
    ensures left { OnErr result (all.new.entries ≡ all.old.entries) }
{
    let Some(claim) = given else {
        return Ok(());
    };
    if let Some(before) = all.get(&unit) {
        if before.claim == claim {
            return Ok(());
        }
    }
    all.insert(unit, GivenBack { claim, since: now })?;
    Ok(())
}

/// Forgets what a nay named for the unit, if that is a claim of the sender, who is another member.
fn forget_named(all: &mut IndexMap<u32, Named>, unit: u32, sender: u8, me: u8)
    ensures { (v : ℕ) → get nat_eq all.new v ≡ put (get nat_eq all.old) unit
        (if not (sender == me) && is_named_of sender (get nat_eq all.old unit) then None
        else get nat_eq all.old unit) v }
{
    let is_named = match all.get(&unit) {
        Some(named) => named.claim.member == sender,
        None => false,
    };
    if sender != me && is_named {
        drop(all.swap_remove(&unit));
    }
}

//! What a desk wishes that its node does.
ghost use Rattle.std.specs.Prelude.{◌≡◌, ◌≢◌, ◌⊎◌, ◌<◌, IfErr, IfNone, IfOk, IfSome, None, Some, false, length, not, true};
ghost use Rattle.turn_rules.specs.Own.{is_barred};
ghost use Rattle.scheduler.specs.Wishing.{IsAllowed, IsAskFrom, IsClaimAt, IsClaimWished, IsClaimedAnew, IsDueQuestion, IsFirstInTurn, IsNextAsked, IsNothingNew, IsPressing, IsResumed, IsWishOf, LeavesNothing, NoneBefore, NoneToResume, above_at, above_for, builds, has_place, is_due, is_over_here, may_claim};
ghost use Rattle.engine.specs.Division.{number_of};
ghost use Rattle.listing.specs.Tree.{path_at};
ghost use Rattle.turn_rules.specs.declared.wish.Wish.TheVariants.{Claim};
ghost use Rattle.protocol.specs.State.{name_at};
ghost use Rattle.job_folder.specs.Refusals.{IsOfSystem};

use crate::desk::Desk;
use crate::pace::{has_waited, is_over};
use crate::posted::is_among;
use crate::sought::Sought;
use crate::wishing::{
    ask_at, ask_for, claim_at, claim_of, has_rounds, is_for, is_mine, may_claim, promised,
    waits_for,
};
use faults::Memory;
use job_folder::{Name, WorkFault};
use member::Member;
use std::time::Instant;
use turn_rules::Wish;

impl Desk<'_> {
    /// What the member's node should try next, if anything. The first of these that applies:
    ///
    /// - to claim anew a unit that is built and waits for its claim, or whose job is gone;
    /// - to claim a unit that was this member's own before its start, if there is a place;
    /// - to claim the least unit of the first turn in which there is one, if there is a place;
    /// - to ask for a unit, if a question is due.
    ///
    /// `gives_way` says whether its open claim may be dropped although it gathers promises.
    ///
    /// # Errors
    ///
    /// Out of memory; what the system refused.
    pub fn wish(
        &self,
        rt: &HostRuntime,
        member: &Member<'_>,
        gives_way: bool,
        now: Instant,
    ) -> Result<Option<Wish>, WorkFault>
        ensures wish { IfOk result (λ o. IfSome o (IsWishOf member.now self.now now)) }
        ensures allowed { IfOk result (λ o. IfSome o (IsAllowed member.now gives_way)) }
        ensures leaves { IfOk result (LeavesNothing member.now self.now gives_way now) }
        ensures refused { IfErr result IsOfSystem }
    {
        if !may_claim(member, gives_way) {
            return Ok(self.ask(member, now)?);
        }
        match self.claim(rt, member, now)? {
            Some(wish) => Ok(Some(wish)),
            None => Ok(self.ask(member, now)?),
        }
    }

    /// The wish to claim what is built, or what is to be built.
    fn claim(
        &self,
        rt: &HostRuntime,
        member: &Member<'_>,
        now: Instant,
    ) -> Result<Option<Wish>, WorkFault>
        ensures wish { IfOk result (λ o. IfSome o
            (λ wish. IsClaimWished member.now self.now now wish)) }
        ensures leaves { IfOk result (λ o. IfNone o (IsNothingNew member.now self.now now)) }
        ensures refused { IfErr result IsOfSystem }
    {
        match self.answered(rt, member)? {
            Some(unit) => Ok(Some(self.claim_anew(member, unit)?)),
            None => Ok(self.claim_new(member, now)?),
        }
    }

    /// The wish to claim the unit anew.
    fn claim_anew(&self, member: &Member<'_>, unit: u32) -> Result<Wish, Memory>
        requires { unit < length member.now.division.units }
        ensures { IfOk result (λ wish. wish
            ≡ Claim (name_at member.now unit) (above_at self.now member.now unit)) }
    {
        claim_of(member, unit, self.above_for(unit))
    }

    /// The wish to claim a unit that is to be built, if there is a place for it and a unit that may
    /// be claimed.
    fn claim_new(&self, member: &Member<'_>, now: Instant) -> Result<Option<Wish>, Memory>
        ensures wish { IfOk result (λ o. IfSome o
            (λ wish. IsClaimWished member.now self.now now wish)) }
        ensures leaves { IfOk result (λ o. IfNone o (IsNothingNew member.now self.now now)) }
    {
        if !self.has_place() {
            return Ok(None);
        }
        match self.resumed(member, now)? {
            Some(wish) => Ok(Some(wish)),
            None => self.first_in_turn(member, now),
        }
    }

    /// Whether another job may be out: this host takes jobs, the node has caught up, and fewer jobs
    /// are out than may be.
    pub(crate) fn has_place(&self) -> bool
        ensures { result ≡ has_place self.now }
    {
        !self.holds_off && !self.is_catching_up && self.out.len() < self.pace.jobs as usize
    }

    /// The wish to claim the least unit that was this member's own before this run, if there may be
    /// some.
    fn resumed(&self, member: &Member<'_>, now: Instant) -> Result<Option<Wish>, Memory>
        ensures wish { IfOk result (λ o. IfSome o (IsResumed member.now self.now now)) }
        ensures none { IfOk result (λ o. IfNone o (NoneToResume member.now self.now now)) }
    {
        if !self.resumes {
            return Ok(None);
        }
        match self.least_of(member, Some(now), Sought::Mine) {
            Some(position) => self.claim_at(member, position),
            None => Ok(None),
        }
    }

    /// The wish to claim the least unit of the first turn in which there is one.
    fn first_in_turn(&self, member: &Member<'_>, now: Instant) -> Result<Option<Wish>, Memory>
        ensures wish { IfOk result (λ o. IfSome o (IsFirstInTurn member.now self.now now)) }
        ensures leaves { IfOk result (λ o. IfNone o
            (NoneBefore member.now self.now now (length member.now.weights))) }
    {
        let members = member.weights().len() as u32;
        for turn in 0..members {
            if let Some(position) = self.least_of(member, Some(now), Sought::InTurn(turn)) {
                return self.claim_at(member, position);
            }
        }
        Ok(None)
    }

    /// The claim for the unit of the package at the position.
    fn claim_at(&self, member: &Member<'_>, position: u32) -> Result<Option<Wish>, Memory>
        requires there { position < length member.now.division.tree }
        requires unit { number_of member.now.division position ≢ None }
        ensures wish { IfOk result (λ o. IfSome o (IsClaimAt member.now self.now position)) }
        ensures some { IfOk result (λ o. o ≢ None) }
    {
        let Some(unit) = member.units().unit_of(position) else {
            return Ok(None);
        };
        Ok(Some(claim_at(member, position, unit, self.above_for(unit))?))
    }

    /// A unit that is out and has its answer, or whose job is gone, unless the open claim waits for
    /// its build or no round is left for it.
    fn answered(&self, rt: &HostRuntime, member: &Member<'_>) -> Result<Option<u32>, WorkFault>
        ensures unit { IfOk result (λ o. IfSome o (IsClaimedAnew member.now self.now)) }
        ensures refused { IfErr result IsOfSystem }
    {
        for posted in &self.out {
            if waits_for(member, posted.unit) {
                continue;
            }
            if !has_rounds(member, posted.unit) {
                continue;
            }
            if self.is_to_be_seen(rt, &posted.name)? {
                return Ok(Some(posted.unit));
            }
        }
        Ok(None)
    }

    /// Whether the job of this name has an answer, or is gone.
    fn is_to_be_seen(&self, rt: &HostRuntime, name: &Name) -> Result<bool, WorkFault>
        ensures { IfErr result IsOfSystem }
    {
        if self.folder.is_answered(rt, name)? {
            return Ok(true);
        }
        Ok(!self.folder.is_posted(rt, name)?)
    }

    /// The question for a unit that is queued and isn't built here, each in turn, if one is due.
    /// Fails only if memory runs out.
    pub fn ask(&self, member: &Member<'_>, now: Instant) -> Result<Option<Wish>, Memory>
        ensures { IfOk result (λ o. IfSome o (IsDueQuestion member.now self.now now)) }
    {
        if let Some(wish) = self.press(member, now)? {
            return Ok(Some(wish));
        }
        if !self.is_due(member, now) {
            return Ok(None);
        }
        match self.ask_from(member, self.next)? {
            Some(wish) => Ok(Some(wish)),
            None => self.ask_from(member, 0),
        }
    }

    /// The question for the first unit for which one is to be asked at once. It waits until the
    /// others have seen the claim that is given back.
    fn press(&self, member: &Member<'_>, now: Instant) -> Result<Option<Wish>, Memory>
        ensures { IfOk result (λ o. IfSome o (IsPressing member.now self.now)) }
    {
        let Some(unit) = self.pressing.first() else {
            return Ok(None);
        };
        if *unit < member.units().len() && self.is_known(member, *unit, now) {
            Ok(Some(ask_for(member, *unit)?))
        } else {
            Ok(None)
        }
    }

    /// Whether the unit is promised as it is for so long that the others have seen it, too.
    fn is_known(&self, member: &Member<'_>, unit: u32, now: Instant) -> bool
        requires { unit < length member.now.division.units }
    {
        let wait = self.slots(2).saturating_add(self.look_delay());
        let since = self.since_promised(unit, promised(member, unit));
        member.weights().len() == 1 || has_waited(wait, since, now)
    }

    /// Whether a question is due.
    fn is_due(&self, member: &Member<'_>, now: Instant) -> bool
        ensures { result ≡ is_due member.now self.now now }
    {
        self.is_catching_up && self.last.is_none()
            || self.is_hit(member)
            || is_over(self.pace.ask, self.asked_at, now)
    }

    /// The question for the first queued package from this position on whose unit this member
    /// doesn't build.
    fn ask_from(&self, member: &Member<'_>, from: u32) -> Result<Option<Wish>, Memory>
        ensures { IfOk result (IsAskFrom member.now self.now from) }
    {
        match self.next_asked(member, from) {
            Some(position) => Ok(Some(ask_at(member, position)?)),
            None => Ok(None),
        }
    }

    /// The position of the first queued package from this position on whose unit this member
    /// doesn't build.
    pub(crate) fn next_asked(&self, member: &Member<'_>, from: u32) -> Option<u32>
        ensures { IsNextAsked member.now self.now from result }
    {
        let mut at = from;
        for _ in 0..member.tree().len() {
            let position = member.queued_from(at)?;
            if !self.builds_at(member, position) {
                return Some(position);
            }
            at = position + 1;
        }
        None
    }

    /// Whether this member builds the package's unit, as far as others know. A package without a
    /// unit is as good as built.
    fn builds_at(&self, member: &Member<'_>, position: u32) -> bool
        requires { position < length member.now.division.tree }
        ensures { result ≡ is_barred (builds member.now self.now)
            (number_of member.now.division position) }
    {
        match member.units().unit_of(position) {
            Some(unit) => self.builds(member, unit),
            None => true,
        }
    }

    /// Whether this member builds the unit, as far as others know. A unit that is out is built
    /// here. So is one whose claim is open, and one that this member promised to its own claim
    /// last, unless a nay named another's. But a unit that is over here isn't built here.
    fn builds(&self, member: &Member<'_>, unit: u32) -> bool
        requires { unit < length member.now.division.units }
        ensures { result ≡ builds member.now self.now unit }
    {
        if is_among(self.out.as_slice(), unit) {
            return true;
        }
        if self.is_over_here(unit) {
            return false;
        }
        is_for(member, unit) || is_mine(member, unit) && !self.named.contains_key(&unit)
    }

    /// Whether the unit is no longer built here: its build failed, or it was returned.
    fn is_over_here(&self, unit: u32) -> bool
        ensures { result ≡ is_over_here self.now unit }
    {
        self.failed.contains_key(&unit) || self.returned.contains(&unit)
    }
}

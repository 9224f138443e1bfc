//! Which units may be claimed, and when.
ghost use Rattle.std.specs.Prelude.{◌≡◌, ◌<◌, ◌||◌, Some, is_some, length, max, min, nat_eq, option_map};
ghost use Rattle.std.specs.Duration.{as_nanos};
ghost use Rattle.turn_rules.specs.Own.{is_barred};
ghost use Rattle.scheduler.specs.Wishing.{IsLeastOf, above_for, back_at, barred_at, is_given_up, is_in_turn, is_left, is_other, may_begin, passed_at, slots, takeover_and_slots, turn_by, turn_now};
ghost use Rattle.engine.specs.Division.{number_of};
ghost use Rattle.indexmap.specs.IndexMap.{get};
ghost use Rattle.protocol.specs.State.{facts_at};

use crate::desk::Desk;
use crate::failures::count_at;
use crate::heard::GivenBack;
use crate::pace::has_waited;
use crate::posted::is_among;
use crate::sought::Sought;
use crate::wishing::{is_for, is_mine, promised, turn_after, turn_of};
use crate::{is_away, is_spent};
use member::Member;
use std::time::{Duration, Instant};

impl Desk<'_> {
    /// The first queued position of those that are looked for whose unit may be claimed at this
    /// time. Without a time it doesn't matter whether the unit is left to other members.
    pub(crate) fn least_of(
        &self,
        member: &Member<'_>,
        at: Option<Instant>,
        sought: Sought,
    ) -> Option<u32>
        ensures { IsLeastOf self.now member.now at sought result }
    {
        let mut from = 0;
        for _ in 0..member.tree().len() {
            let position = member.queued_from(from)?;
            if !self.is_passed_at(member, position, at, sought) {
                return Some(position);
            }
            from = position + 1;
        }
        None
    }

    /// Whether the package at the position is passed over. One without a unit is.
    fn is_passed_at(
        &self,
        member: &Member<'_>,
        position: u32,
        at: Option<Instant>,
        sought: Sought,
    ) -> bool
        requires { position < length member.now.division.tree }
        ensures { result ≡ is_barred (passed_at self.now member.now at sought)
            (number_of member.now.division position) }
    {
        match member.units().unit_of(position) {
            Some(unit) => self.is_passed(member, unit, at, sought),
            None => true,
        }
    }

    /// Whether the unit is passed over: it isn't looked for, or it may not be claimed.
    fn is_passed(&self, member: &Member<'_>, unit: u32, at: Option<Instant>, sought: Sought) -> bool
        requires { unit < length member.now.division.units }
        ensures { result ≡ passed_at self.now member.now at sought unit }
    {
        self.is_other(member, unit, sought) || self.is_barred(member, unit, at, sought)
    }

    /// Whether the unit isn't looked for.
    fn is_other(&self, member: &Member<'_>, unit: u32, sought: Sought) -> bool
        requires { unit < length member.now.division.units }
        ensures { result ≡ is_other self.now member.now sought unit }
    {
        match sought {
            Sought::Any => false,
            Sought::Mine => !is_mine(member, unit),
            Sought::InTurn(turn) => self.turn_now(member, unit) != turn,
        }
    }

    /// Whether the unit may not be claimed.
    fn is_barred(&self, member: &Member<'_>, unit: u32, at: Option<Instant>, sought: Sought) -> bool
        requires { unit < length member.now.division.units }
        ensures { result ≡ barred_at self.now member.now at sought unit }
    {
        is_among(self.out.as_slice(), unit)
            || self.failed.contains_key(&unit)
            || self.is_given_up(member, unit)
            || is_spent(member, unit)
            || self.is_left(member, unit, at, sought)
    }

    /// Whether nobody claims the unit any more, since its builds failed at as many members as it
    /// may be tried at. The claim that is open goes on.
    fn is_given_up(&self, member: &Member<'_>, unit: u32) -> bool
        ensures { result ≡ is_given_up self.now member.now unit }
    {
        !is_for(member, unit) && count_at(&self.failed_elsewhere, unit) >= self.pace.tries as usize
    }

    /// Whether the unit is left to other members.
    fn is_left(&self, member: &Member<'_>, unit: u32, at: Option<Instant>, sought: Sought) -> bool
        requires { unit < length member.now.division.units }
        ensures { result ≡ is_left self.now member.now at sought unit }
    {
        match at {
            Some(now) => {
                self.is_named(member, unit, now) || !self.may_begin(member, unit, now, sought)
            }
            None => false,
        }
    }

    /// Whether this member needn't wait for others to claim the unit: it was its own before its
    /// start, or it is its turn.
    fn may_begin(&self, member: &Member<'_>, unit: u32, now: Instant, sought: Sought) -> bool
        requires { unit < length member.now.division.units }
        ensures { result ≡ may_begin self.now member.now now sought unit }
    {
        match sought {
            Sought::Mine => true,
            Sought::Any | Sought::InTurn(_) => self.is_in_turn(member, unit, now),
        }
    }

    /// Whether it is this member's turn to claim the unit.
    fn is_in_turn(&self, member: &Member<'_>, unit: u32, now: Instant) -> bool
        requires { unit < length member.now.division.units }
        ensures { result ≡ is_in_turn self.now member.now now unit
            (back_at self.now member.now unit) }
    {
        match self.back_at(member, unit) {
            Some(back) => {
                let turn = turn_after(member, unit, back.claim.member);
                has_waited(self.slots(turn), Some(back.since), now)
            }
            None => self.is_in_first_turn(member, unit, now),
        }
    }

    /// Whether it is this member's turn to claim a unit that wasn't given back.
    fn is_in_first_turn(&self, member: &Member<'_>, unit: u32, now: Instant) -> bool
        requires { unit < length member.now.division.units }
        ensures { result ≡ is_in_turn self.now member.now now unit None }
    {
        let turn = turn_of(member, unit);
        let since = self.since_promised(unit, promised(member, unit));
        if is_away(member, unit) {
            has_waited(self.takeover_and_slots(turn), since, now)
        } else {
            turn == 0 || has_waited(self.slots(turn), since, now)
        }
    }

    /// The member's place among those that may claim the unit, as of now.
    fn turn_now(&self, member: &Member<'_>, unit: u32) -> u32
        requires { unit < length member.now.division.units }
        ensures { result ≡ turn_now self.now member.now unit }
    {
        turn_by(member, unit, self.back_at(member, unit))
    }

    /// The wait of this number of slots.
    pub(crate) fn slots(&self, turn: u32) -> Duration
        ensures { as_nanos result ≡ slots self.now turn }
    {
        self.pace.slot.saturating_mul(turn)
    }

    /// The time for which a unit is left to the member that claimed it, and this number of slots.
    fn takeover_and_slots(&self, turn: u32) -> Duration
        ensures { as_nanos result ≡ takeover_and_slots self.now turn }
    {
        self.pace.takeover.saturating_add(self.slots(turn))
    }

    /// Above which round the unit is claimed, besides what the member promised: the round that a
    /// nay named; and the first round, unless others may have claimed the unit before this node's
    /// start. So a node that starts late and claims it at round 1 gets a nay, whichever number it
    /// has.
    pub(crate) fn above_for(&self, unit: u32) -> u64
        ensures { result ≡ above_for self.now unit }
    {
        let least = if self.early.contains(&unit) { 0 } else { 1 };
        self.round_named(unit).max(least)
    }
}

/// The member's place among those that may claim the unit, by who gave it back last.
fn turn_by(member: &Member<'_>, unit: u32, back: Option<GivenBack>) -> u32
    ensures { result ≡ turn_by member.now unit back }
{
    match back {
        Some(back) => turn_after(member, unit, back.claim.member),
        None => turn_of(member, unit),
    }
}

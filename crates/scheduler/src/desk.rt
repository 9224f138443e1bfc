//! What is known about builds: which are under way, which failed, and what others said of units.
ghost use Rattle.std.specs.Prelude.{◌≡◌, ◌⊎◌, ◌==◌, ◌++◌, ◌∷◌, [], All, IfErr, IfOk, OnErr, OnOk, None, false, filter, length, nat_eq, not, true};
ghost use Rattle.std.specs.List.{Any};
ghost use Rattle.scheduler.specs.CatchingUp.{StillCatchesUp, StillResumes, has_caught_up};
ghost use Rattle.scheduler.specs.Keeping.{IsSameButFailed, IsSameButSeen};
ghost use Rattle.scheduler.specs.Posted.{not_held};
ghost use Rattle.scheduler.specs.Taking.{AreLeft};
ghost use Rattle.scheduler.specs.Waiting.{AreSeen};
ghost use Rattle.scheduler.specs.Wishing.{HasMore, is_for};
ghost use Rattle.indexmap.specs.IndexMap.{get};
ghost use Rattle.indexmap.specs.IndexSet.{contains};
ghost use Rattle.protocol.specs.State.{is_held, is_held_any};
ghost use Rattle.job_folder.specs.Refusals.{IsOfSystem};

mod free;
mod hearing;
mod looking;
mod noticing;
mod returning;
mod taking;
mod wishes;

use crate::failures::Failures;
use crate::heard::{GivenBack, Named};
use crate::notices::Notices;
use crate::pace::{Pace, is_over};
use crate::posted::{Posted, forget_held, forget_held_units, is_held};
use crate::seen::{Seen, seen_units};
use crate::sought::Sought;
use crate::wishing::{is_for, turn_of};
use faults::Memory;
use indexmap::{IndexMap, IndexSet};
use job_folder::{Folder, Name, WorkFault};
use member::Member;
use std::alloc::Global;
use std::time::{Duration, Instant};

/// How long a look at the promises of queued units serves, in milliseconds, if there are few.
const LOOK: u64 = 200;

/// For how many queued units a look serves a millisecond longer.
const MANY: usize = 16;

/// What is known about builds. The builder, and not the desk, removes the job and the result of a
/// unit that is held.
#[derive(Drop)]
pub struct Desk<'f> {
    folder: Folder<'f>,
    pace: Pace,
    /// The jobs that are handed out, and neither failed nor held.
    out: Vec<Posted>,
    /// The builds that failed here: by unit, the name of its job.
    failed: IndexMap<u32, Name>,
    /// Those of them whose marks couldn't be written.
    unwritten: IndexSet<u32>,
    /// By unit, at which other members a build of it failed.
    failed_elsewhere: IndexMap<u32, Failures>,
    /// Which notices of failed builds are to be sent.
    notices: Notices,
    /// Whether this node is catching up: since its start the others may have agreed on much that it
    /// hasn't heard of. It asks and claims nothing, until a question had a slot's time and no
    /// answer.
    is_catching_up: bool,
    /// Whether this host takes no jobs at the moment.
    holds_off: bool,
    /// The units that this host gave back since it took no jobs: none of them is handed out before
    /// it is claimed anew.
    returned: IndexSet<u32>,
    /// The units for which a question is due at once, since they are built here no more.
    pressing: Vec<u32>,
    /// Whether units may be left that were this member's before its start.
    resumes: bool,
    /// Units that others may have claimed before this node's start. They are those that were queued
    /// when it had caught up: all of them if it is known to have started late, or else those that
    /// other members claim first.
    early: IndexSet<u32>,
    /// The position after that of the last question.
    next: u32,
    /// The unit of the last question.
    last: Option<u32>,
    asked_at: Instant,
    /// The queued units, as they were seen last.
    seen: IndexMap<u32, Seen>,
    looked_at: Instant,
    /// By unit, which other member's claim a nay named last.
    named: IndexMap<u32, Named>,
    /// By unit, under which claim it was given back last.
    given_back: IndexMap<u32, GivenBack>,
}

impl<'f> Desk<'f> {
    /// Nothing is handed out yet. A node whose log has notes ran before.
    pub fn new(
        alloc: Global,
        folder: Folder<'f>,
        pace: Pace,
        has_notes: bool,
        now: Instant,
    ) -> Desk<'f>
        ensures out { result.out.items ≡ [] }
        ensures failed { (result.failed.entries ≡ []) × (result.unwritten.keys ≡ [])
            × (result.failed_elsewhere.entries ≡ []) × (result.notices.unsent.items ≡ []) }
        ensures catching_up { (result.is_catching_up ≡ true) × (result.resumes ≡ has_notes)
            × (result.early.keys ≡ []) }
        ensures seen { result.seen.entries ≡ [] }
        ensures heard { (result.named.entries ≡ []) × (result.given_back.entries ≡ []) }
        ensures question { (result.next ≡ 0) × (result.last ≡ None)
            × (result.pressing.items ≡ []) }
        ensures takes { (result.holds_off ≡ false) × (result.returned.keys ≡ []) }
        ensures pace { result.pace ≡ pace }
    {
        Desk {
            folder,
            pace,
            out: Vec::new(alloc),
            failed: IndexMap::new(alloc),
            unwritten: IndexSet::new(alloc),
            failed_elsewhere: IndexMap::new(alloc),
            notices: Notices::new(alloc, now),
            is_catching_up: true,
            holds_off: false,
            returned: IndexSet::new(alloc),
            pressing: Vec::new(alloc),
            resumes: has_notes,
            early: IndexSet::new(alloc),
            next: 0,
            last: None,
            asked_at: now,
            seen: IndexMap::new(alloc),
            looked_at: now,
            named: IndexMap::new(alloc),
            given_back: IndexMap::new(alloc),
        }
    }

    /// Whether nothing is out.
    pub fn is_clear(&self) -> bool
        ensures { result ≡ (length self.now.out.items == 0) }
    {
        self.out.is_empty()
    }

    /// Whether the unit of the last question is held now.
    pub fn is_hit(&self, member: &Member<'_>) -> bool
        ensures { result ≡ is_held_any member.now self.now.last }
    {
        match self.last {
            Some(unit) => is_held(member, unit),
            None => false,
        }
    }

    /// Whether something is being built here: a job is out that has no answer, and its unit's claim
    /// isn't the open one. If the system refuses to say, the job counts as one without an answer.
    pub fn is_building(&self, rt: &HostRuntime, member: &Member<'_>) -> bool
        ensures { result ≡ true
            → Any (λ p. is_for member.now.claim p.unit ≡ false) self.now.out.items }
    {
        for posted in &self.out {
            if is_for(member, posted.unit) {
                continue;
            }
            if !matches!(self.folder.is_answered(rt, &posted.name), Ok(true)) {
                return true;
            }
        }
        false
    }

    /// Forgets what is held now, checks whether the node has caught up, and looks now and then at
    /// the promises of queued units. Fails only if memory runs out.
    pub fn tick(&mut self, member: &Member<'_>, now: Instant) -> Result<(), Memory>
        ensures out { self.new.out.items ≡ not_held member.now self.old.out.items }
        ensures pressing { self.new.pressing.items
            ≡ filter (λ u. not (is_held member.now u)) self.old.pressing.items }
        ensures seen { (self.new.seen ≡ self.old.seen)
            ⊎ AreSeen member.now (get nat_eq self.old.seen) now (get nat_eq self.new.seen) }
        ensures catching_up { OnOk result (StillCatchesUp member.now
            (record self.old { out = self.new.out }) now self.new.is_catching_up) }
        ensures early { self.old.is_catching_up ≡ self.new.is_catching_up
            → self.new.early ≡ self.old.early }
        ensures resumes { OnOk result (StillResumes member.now
            (record self.old { out = self.new.out; is_catching_up = self.new.is_catching_up })
            self.new.resumes) }
        ensures rest { IsSameButSeen self.old self.new }
    {
        forget_held(&mut self.out, member);
        forget_held_units(&mut self.pressing, member);
        let is_catching_up = self.still_catches_up(member, now);
        self.keep_early(member, is_catching_up)?;
        self.is_catching_up = is_catching_up;
        self.resumes = self.still_resumes(member);
        if is_over(self.look_wait(), self.looked_at, now) {
            self.seen = seen_units(*self.failed.allocator(), member, &self.seen, now)?;
            self.looked_at = now;
        }
        Ok(())
    }

    /// Whether it is catching up still.
    fn still_catches_up(&self, member: &Member<'_>, now: Instant) -> bool
        ensures { StillCatchesUp member.now self.now now result }
    {
        if !self.is_catching_up {
            return false;
        }
        let next = self.next_asked(member, 0);
        !self.has_caught_up(member, now, next)
    }

    /// Whether it has caught up, if this is the first to ask for. So it has if there is nobody to
    /// ask. Else a slot's time has to pass after the last question, or after the start; and the
    /// unit of that question isn't held, or there is nothing to ask for. A node that has all but
    /// what it built itself before its start has nothing to ask for.
    fn has_caught_up(&self, member: &Member<'_>, now: Instant, next: Option<u32>) -> bool
        ensures { result ≡ has_caught_up member.now self.now now next }
    {
        member.weights().len() == 1
            || is_over(self.pace.slot, self.asked_at, now)
                && (!self.is_hit(member) || next.is_none())
    }

    /// Keeps which units others may have claimed before, if this node caught up in this step.
    fn keep_early(&mut self, member: &Member<'_>, is_catching_up: bool) -> Result<(), Memory>
        ensures early { self.old.is_catching_up ≡ is_catching_up
            → self.new.early ≡ self.old.early }
        ensures left { OnErr result (self.new.early ≡ self.old.early) }
        ensures rest { self.new ≡ record self.old { early = self.new.early } }
    {
        if self.is_catching_up && !is_catching_up {
            let is_late = self.is_late(member);
            self.early = queued_units(*self.failed.allocator(), member, is_late)?;
        }
        Ok(())
    }

    /// Whether the others began before this node: it ran before, or something is held already. If
    /// they began to build and nothing is agreed on yet, that can't be known.
    fn is_late(&self, member: &Member<'_>) -> bool {
        let counts = member.counts();
        self.resumes || counts.i > 0 || counts.b > 0
    }

    /// Whether units may still be left that were this member's before its start.
    fn still_resumes(&self, member: &Member<'_>) -> bool
        ensures { StillResumes member.now self.now result }
    {
        if !self.resumes || self.is_catching_up {
            return self.resumes;
        }
        self.least_of(member, None, Sought::Mine).is_some()
    }

    /// How long a look at the promises of queued units serves.
    fn look_wait(&self) -> Duration {
        Duration::from_millis(LOOK).saturating_add(self.look_delay())
    }

    /// By how much longer the last look serves, because a look at many units takes long.
    pub(crate) fn look_delay(&self) -> Duration {
        Duration::from_millis((self.seen.len() / MANY) as u64)
    }

    /// Forgets the failed builds whose marks are gone, and where else builds of these units failed:
    /// somebody wants them tried again. A build whose mark couldn't be written is not forgotten.
    ///
    /// # Errors
    ///
    /// Out of memory; what the system refused. Then nothing is forgotten.
    pub fn retry(&mut self, rt: &HostRuntime) -> Result<(), WorkFault>
        ensures failed { AreLeft self.old self.new }
        ensures rest { IsSameButFailed self.old self.new }
        ensures left { OnErr result (self.new ≡ self.old) }
        ensures refused { IfErr result IsOfSystem }
    {
        let unmarked = self.unmarked(rt)?;
        for unit in &unmarked {
            drop(self.failed.swap_remove(unit));
            drop(self.failed_elsewhere.swap_remove(unit));
        }
        Ok(())
    }

    /// The units of failed builds whose marks were written and are gone.
    fn unmarked(&self, rt: &HostRuntime) -> Result<Vec<u32>, WorkFault>
        ensures written { IfOk result (λ units.
            All (λ u. contains nat_eq self.now.unwritten u ≡ false) units.items) }
        ensures refused { IfErr result IsOfSystem }
    {
        let mut units = Vec::new(rt.alloc());
        for (unit, name) in &self.failed {
            if !self.unwritten.contains(unit) && !self.folder.has_failed(rt, name)? {
                note(&mut units, *unit)?;
            }
        }
        Ok(units)
    }

    /// Whether a package is queued whose unit is neither out nor failed, is to be tried again, and
    /// has a round left. It may be left to other members.
    pub fn has_more(&self, member: &Member<'_>) -> bool
        ensures { HasMore member.now self.now result }
    {
        self.least_of(member, None, Sought::Any).is_some()
    }
}

/// Adds a unit to these.
fn note(units: &mut Vec<u32>, unit: u32) -> Result<(), Memory>
    ensures { OnOk result (units.new.items ≡ units.old.items ++ unit ∷ []) }
{
    units.push(unit)?;
    Ok(())
}

/// The units that are queued: all of them, or those that other members claim first.
fn queued_units(alloc: Global, member: &Member<'_>, is_all: bool) -> Result<IndexSet<u32>, Memory> {
    let mut units = IndexSet::new(alloc);
    let mut from = 0;
    for _ in 0..member.tree().len() {
        let Some(position) = member.queued_from(from) else {
            return Ok(units);
        };
        if let Some(unit) = member.units().unit_of(position) {
            if is_all || turn_of(member, unit) != 0 {
                units.insert(unit)?;
            }
        }
        from = position + 1;
    }
    Ok(units)
}

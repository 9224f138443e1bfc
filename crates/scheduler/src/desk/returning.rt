//! What a host gives back that takes no jobs at the moment.
ghost use Rattle.std.specs.Prelude.{◌≡◌, IfErr, false};
ghost use Rattle.scheduler.specs.Keeping.{IsSameButReturned};
ghost use Rattle.job_folder.specs.Refusals.{IsOfSystem};

use crate::desk::Desk;
use crate::eligibility::is_away;
use crate::posted::is_among;
use faults::Memory;
use indexmap::IndexSet;
use job_folder::{Name, WorkFault};
use member::Member;

impl Desk<'_> {
    /// From now on this host takes jobs, or it doesn't.
    pub fn set_holding_off(&mut self, holds_off: bool)
        ensures { self.new ≡ record self.old { holds_off = holds_off } }
    {
        self.holds_off = holds_off;
    }

    /// Gives back the units that are out and whose builds haven't begun: all of them if this host
    /// takes no jobs, else those that another member claimed since. A question for each of them is
    /// due at once, from which the others learn of it.
    ///
    /// # Errors
    ///
    /// Out of memory; what the system refused. What was not given back is still out.
    pub fn give_back(&mut self, rt: &HostRuntime, member: &Member<'_>) -> Result<(), WorkFault>
        ensures rest { IsSameButReturned self.old self.new }
        ensures refused { IfErr result IsOfSystem }
    {
        self.give_back_unposted(member)?;
        for _ in 0..self.out.len() {
            match self.unbegun(rt, member)? {
                Some(place) => self.give_back_at(rt, place)?,
                None => return Ok(()),
            }
        }
        Ok(())
    }

    /// Gives back the unit of the member's job, if that wasn't handed out.
    fn give_back_unposted(&mut self, member: &Member<'_>) -> Result<(), WorkFault>
        ensures rest { IsSameButReturned self.old self.new }
        ensures refused { IfErr result IsOfSystem }
    {
        match self.unposted(member) {
            Some(unit) => self.note_returned(unit),
            None => Ok(()),
        }
    }

    /// The unit of the member's job, if this host takes no jobs and the unit is neither out nor
    /// given back yet.
    fn unposted(&self, member: &Member<'_>) -> Option<u32> {
        let unit = member.units().find(&member.job()?.path)?;
        if self.holds_off
            && !is_among(self.out.as_slice(), unit)
            && !self.returned.contains(&unit)
        {
            Some(unit)
        } else {
            None
        }
    }

    /// The place of the first that is to be given back: it is out, and neither begun nor answered.
    fn unbegun(&self, rt: &HostRuntime, member: &Member<'_>) -> Result<Option<usize>, WorkFault>
        ensures { IfErr result IsOfSystem }
    {
        for (place, posted) in self.out.iter().enumerate() {
            let is_left = self.holds_off || is_lost(member, posted.unit);
            if is_left && !self.is_under_way(rt, &posted.name)? {
                return Ok(Some(place));
            }
        }
        Ok(None)
    }

    /// Whether the job of this name has begun, or is answered.
    fn is_under_way(&self, rt: &HostRuntime, name: &Name) -> Result<bool, WorkFault>
        ensures { IfErr result IsOfSystem }
    {
        if self.folder.has_begun(rt, name)? {
            return Ok(true);
        }
        self.folder.is_answered(rt, name)
    }

    /// Gives back the one at the place: its job is taken away first.
    fn give_back_at(&mut self, rt: &HostRuntime, place: usize) -> Result<(), WorkFault>
        ensures rest { IsSameButReturned self.old self.new }
        ensures refused { IfErr result IsOfSystem }
    {
        let Some(posted) = self.out.get(place) else {
            return Ok(());
        };
        let unit = posted.unit;
        self.folder.withdraw(rt, &posted.name)?;
        self.note_returned(unit)?;
        drop(self.out.remove(place));
        Ok(())
    }

    /// Keeps that the unit was given back.
    fn note_returned(&mut self, unit: u32) -> Result<(), WorkFault>
        ensures rest { self.new
            ≡ record self.old { returned = self.new.returned; pressing = self.new.pressing } }
        ensures refused { IfErr result IsOfSystem }
    {
        self.pressing.reserve(1)?;
        keep(&mut self.returned, unit)?;
        self.pressing.push(unit).unwrap();
        Ok(())
    }
}

/// Adds a unit to these.
fn keep(units: &mut IndexSet<u32>, unit: u32) -> Result<(), Memory> {
    units.insert(unit)?;
    Ok(())
}

/// Whether another member claimed the unit since, as far as this one promised.
fn is_lost(member: &Member<'_>, unit: u32) -> bool {
    unit < member.units().len() && is_away(member, unit)
}

//! How a desk follows its node's steps.
ghost use Rattle.std.specs.Prelude.{◌≡◌, ◌<◌, ◌==◌, ℕ, IfErr, IfOk, IfSome, OnErr, OnOk, filter, if◌then◌else◌, nat_eq, not};
ghost use Rattle.indexmap.specs.IndexSet.{contains, spare};
ghost use Rattle.scheduler.specs.Keeping.{AreSameFailed, HasRoom, IsSameButAsked, IsSameButMoved, IsSameButTaken};
ghost use Rattle.scheduler.specs.Taking.{IsMarkKept, IsQuestionKept, IsPressed, IsUnpressed, IsReturnedBut, KeepsHeard, KeepsQuestion, KeepsQuestionOf, claimed_by, failed_by, place_after, unit_claimed, unit_failed, with_failed, without_unit};
ghost use Rattle.engine.specs.Division.{number_found};
ghost use Rattle.listing.specs.Tree.{position_of};
ghost use Rattle.job_folder.specs.Refusals.{IsOfSystem};

use crate::desk::Desk;
use crate::posted::place_of;
use faults::Memory;
use indexmap::IndexSet;
use job_folder::{Name, WorkFault};
use member::{Input, Member};
use pkgpath::PkgPath;
use std::time::Instant;
use turn_rules::Act;

impl Desk<'_> {
    /// Updates the desk after a step of the node, be it the one that the desk wished or not. If a
    /// build failed and its mark can't be written, that fault is returned, once: the build counts
    /// as failed all the same, until the node is started again.
    ///
    /// # Errors
    ///
    /// Out of memory. What is out and what failed is then as it was.
    pub fn took(
        &mut self,
        rt: &HostRuntime,
        member: &Member<'_>,
        act: &Act,
        now: Instant,
    ) -> Result<Option<WorkFault>, WorkFault>
        ensures out { OnOk result (self.new.out.items
            ≡ without_unit self.old.out.items (failed_by member.now act.now)) }
        ensures failed { OnOk result (self.new.failed.entries
            ≡ with_failed self.old.failed.entries self.old.out.items
            (failed_by member.now act.now)) }
        ensures returned { OnOk result
            (IsReturnedBut self.old (claimed_by member.now act.now) self.new) }
        ensures heard { OnOk result
            (KeepsHeard member.now act.now now self.old self.new) }
        ensures question { OnOk result
            (KeepsQuestionOf member.now act.now now self.old self.new) }
        ensures mark { IfOk result (λ fault.
            IsMarkKept self.old (failed_by member.now act.now) fault self.new) }
        ensures fault { IfOk result (λ fault. IfSome fault IsOfSystem) }
        ensures left { OnErr result ((self.new.out.items ≡ self.old.out.items)
            × (self.new.failed.entries ≡ self.old.failed.entries)) }
        ensures rest { IsSameButTaken self.old self.new }
        ensures refused { IfErr result IsOfSystem }
    {
        match act {
            Act::Own(input) => self.took_input(rt, member, input, now),
            Act::Datagram(bytes) => {
                self.hear(member, bytes.as_slice(), now)?;
                Ok(None)
            }
        }
    }

    /// Updates the desk after a step of the node's own.
    fn took_input(
        &mut self,
        rt: &HostRuntime,
        member: &Member<'_>,
        input: &Input,
        now: Instant,
    ) -> Result<Option<WorkFault>, WorkFault>
        ensures out { OnOk result (self.new.out.items
            ≡ without_unit self.old.out.items (unit_failed member.now input.now)) }
        ensures failed { OnOk result (self.new.failed.entries
            ≡ with_failed self.old.failed.entries self.old.out.items
            (unit_failed member.now input.now)) }
        ensures returned { OnOk result
            (IsReturnedBut self.old (unit_claimed member.now input.now) self.new) }
        ensures heard { (self.new.named ≡ self.old.named)
            × (self.new.given_back ≡ self.old.given_back)
            × (self.new.failed_elsewhere ≡ self.old.failed_elsewhere) }
        ensures question { OnOk result
            (KeepsQuestion member.now input.now now self.old self.new) }
        ensures mark { IfOk result (λ fault.
            IsMarkKept self.old (unit_failed member.now input.now) fault self.new) }
        ensures fault { IfOk result (λ fault. IfSome fault IsOfSystem) }
        ensures left { OnErr result ((self.new.out.items ≡ self.old.out.items)
            × (self.new.failed.entries ≡ self.old.failed.entries)) }
        ensures rest { IsSameButTaken self.old self.new }
        ensures refused { IfErr result IsOfSystem }
    {
        match input {
            Input::Ask { path } => {
                self.asked_for(member, path, now);
                Ok(None)
            }
            Input::Failed { path } => self.fail(rt, member, path),
            Input::Claim { path, .. } => {
                self.claimed(member, path);
                Ok(None)
            }
            Input::Built { .. } | Input::Nudge | Input::Message(_) => Ok(None),
        }
    }

    /// The unit that the path names was claimed: if it was given back before, it may be handed out,
    /// and no question is to give it back any more.
    fn claimed(&mut self, member: &Member<'_>, path: &PkgPath)
        ensures returned { IsReturnedBut self.old
            (number_found member.now.division path.now) self.new }
        ensures question { IsUnpressed self.old
            (number_found member.now.division path.now) self.new }
        ensures rest { self.new
            ≡ record self.old { returned = self.new.returned; pressing = self.new.pressing } }
    {
        if let Some(unit) = member.units().find(path) {
            let _ = self.returned.swap_remove(&unit);
            forget_asked(&mut self.pressing, unit);
        }
    }

    /// The others were asked for the unit that the path names.
    fn asked_for(&mut self, member: &Member<'_>, path: &PkgPath, now: Instant)
        ensures question { IsQuestionKept member.now path.now now self.old self.new }
        ensures rest { IsSameButAsked self.old self.new }
    {
        if let Some(unit) = member.units().find(path) {
            self.last = Some(unit);
            forget_asked(&mut self.pressing, unit);
        }
        self.next = position_after(member, path);
        self.asked_at = now;
    }

    /// The build of the unit that the path names failed. It isn't claimed again until its mark is
    /// removed. One without a mark gets one; if that can't be written, the fault is returned.
    fn fail(
        &mut self,
        rt: &HostRuntime,
        member: &Member<'_>,
        path: &PkgPath,
    ) -> Result<Option<WorkFault>, WorkFault>
        ensures out { OnOk result (self.new.out.items
            ≡ without_unit self.old.out.items (number_found member.now.division path.now)) }
        ensures failed { OnOk result (self.new.failed.entries
            ≡ with_failed self.old.failed.entries self.old.out.items
            (number_found member.now.division path.now)) }
        ensures question { OnOk result
            (IsPressed self.old (number_found member.now.division path.now) self.new) }
        ensures mark { IfOk result (λ fault.
            IsMarkKept self.old (number_found member.now.division path.now) fault self.new) }
        ensures fault { IfOk result (λ fault. IfSome fault IsOfSystem) }
        ensures left { OnErr result ((self.new.out.items ≡ self.old.out.items)
            × (self.new.failed.entries ≡ self.old.failed.entries)) }
        ensures rest { IsSameButMoved self.old self.new }
        ensures refused { IfErr result IsOfSystem }
    {
        let Some(unit) = member.units().find(path) else {
            return Ok(None);
        };
        let Some(place) = place_of(self.out.as_slice(), unit) else {
            return Ok(None);
        };
        self.reserve_failed()?;
        let fault = self.mark(rt, &self.out[place].name).err();
        let posted = self.out.remove(place);
        keep_unwritten(&mut self.unwritten, posted.unit, fault.is_some());
        // the question for the unit says to the others that it is built here no more
        self.pressing.push(posted.unit).unwrap();
        self.notices.unsent.push(posted.unit).unwrap();
        drop(self.failed.insert(posted.unit, posted.name).unwrap());
        Ok(fault)
    }

    /// Makes room for one more build that failed.
    fn reserve_failed(&mut self) -> Result<(), Memory>
        ensures room { OnOk result (HasRoom self.new) }
        ensures same { AreSameFailed self.old self.new }
        ensures rest { IsSameButMoved self.old self.new }
    {
        self.failed.reserve(1)?;
        self.unwritten.reserve(1)?;
        self.pressing.reserve(1)?;
        self.notices.unsent.reserve(1)?;
        Ok(())
    }

    /// Marks the build of this name as failed, if it has no mark.
    fn mark(&self, rt: &HostRuntime, name: &Name) -> Result<(), WorkFault>
        ensures { IfErr result IsOfSystem }
    {
        if self.folder.has_failed(rt, name)? {
            return Ok(());
        }
        self.folder
            .mark(rt, name, "what was handed in makes no build")
    }
}

/// Adds the unit to those whose marks couldn't be written, or removes it.
fn keep_unwritten(units: &mut IndexSet<u32>, unit: u32, is_unwritten: bool)
    requires { 0 < spare units.old }
    ensures { (v : ℕ) → contains nat_eq units.new v
        ≡ (if nat_eq unit v then is_unwritten else contains nat_eq units.old v) }
{
    if is_unwritten {
        units.insert(unit).unwrap();
    } else {
        let _ = units.swap_remove(&unit);
    }
}

/// Keeps the units other than this one, which was asked for.
fn forget_asked(units: &mut Vec<u32>, asked: u32)
    ensures { units.new.items ≡ filter (λ u. not (u == asked)) units.old.items }
{
    units.retain(|unit| *unit != asked);
}

/// The position after that of the package with this path, or 0 if there is no such package.
fn position_after(member: &Member<'_>, path: &PkgPath) -> u32
    ensures { result ≡ place_after (position_of member.now.division.tree path.now) }
{
    let tree = member.tree();
    match tree.position(path) {
        Some(position) if position < tree.len() => position + 1,
        _ => 0,
    }
}

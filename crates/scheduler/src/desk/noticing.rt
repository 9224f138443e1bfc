//! How members learn of each other's failed builds.
ghost use Rattle.std.specs.Prelude.{◌≡◌, ◌<◌, OnErr, OnOk, length, true};
ghost use Rattle.scheduler.specs.Hearing.{HearsNotice};
ghost use Rattle.scheduler.specs.Keeping.{IsSameButTried};
ghost use Rattle.scheduler.specs.Tries.{AreSent, due_notice, is_counted};

use crate::desk::Desk;
use crate::failures::add_member;
use crate::wishing::promised;
use faults::Memory;
use member::Member;
use std::time::Instant;

impl Desk<'_> {
    /// Another member's build of the unit failed there. A notice that names this member, or a
    /// member or a unit that doesn't exist, is passed over.
    ///
    /// # Errors
    ///
    /// Out of memory. Nothing is kept then.
    pub fn hear_notice(&mut self, member: &Member<'_>, from: u8, unit: u32) -> Result<(), Memory>
        ensures heard { OnOk result (HearsNotice member.now from unit self.old self.new) }
        ensures rest { IsSameButTried self.old self.new }
        ensures left { OnErr result
            (self.new.failed_elsewhere.entries ≡ self.old.failed_elsewhere.entries) }
    {
        if !is_counted(member, from, unit) {
            return Ok(());
        }
        let promised = promised(member, unit);
        add_member(&mut self.failed_elsewhere, unit, from, promised)
    }

    /// The unit of the notice that is due, if any. For each build that failed here one is due at
    /// once, and then again from time to time, since notices get lost and members start late.
    pub fn next_notice(&mut self, now: Instant) -> Option<u32>
        ensures due { result ≡ due_notice self.old.notices self.old.failed now }
        ensures sent { AreSent self.old.notices self.old.failed now self.new.notices }
        ensures rest { self.new ≡ record self.old { notices = self.new.notices } }
    {
        self.notices.next(&self.failed, now)
    }
}

/// Whether a notice of this member for the unit counts: there are such a member and such a unit,
/// and the member is another one.
fn is_counted(member: &Member<'_>, from: u8, unit: u32) -> bool
    ensures counted { result ≡ is_counted member.now from unit }
    ensures few { result ≡ true → from < 9 }
    ensures unit { result ≡ true → unit < length member.now.division.units }
{
    from != member.me() && (from as usize) < member.weights().len() && unit < member.units().len()
}

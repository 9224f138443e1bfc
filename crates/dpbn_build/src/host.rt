//! Whether this host takes jobs.

use crate::office::Office;
use job_folder::{Folder, Lock, WorkFault};
use member::Member;
use std::io::Write;
use std::time::{Duration, Instant, SystemTime};

/// How often to check whether this host takes jobs, in milliseconds.
const LOOK: u64 = 250;

/// For how many seconds nobody may hold the lock of the work folder before this host takes no jobs.
const UNLOCKED: u64 = 60;

/// What is known of whoever builds here.
#[derive(Clone, Copy)]
pub(crate) struct Builder<'f> {
    folder: Folder<'f>,
    /// The time of the last check.
    looked_at: Instant,
    /// When somebody last held the lock of the work folder, or when the node started.
    locked_at: Instant,
    /// When the lock's file was last touched.
    touched_at: Option<SystemTime>,
    /// Whether it was printed that nobody holds the lock.
    is_told: bool,
}

impl<'f> Builder<'f> {
    /// Nobody was seen yet.
    pub fn new(folder: Folder<'f>, now: Instant) -> Builder<'f> {
        Builder {
            folder,
            looked_at: now,
            locked_at: now,
            touched_at: None,
            is_told: false,
        }
    }

    /// Whether the next check is due.
    fn is_look_due(&mut self, now: Instant) -> bool {
        let is_due = now.duration_since(self.looked_at) >= Duration::from_millis(LOOK);
        if is_due {
            self.looked_at = now;
        }
        is_due
    }

    /// Whether somebody holds the lock of the work folder. Whoever touched its file since the last
    /// check does, too: the lock may not be visible here.
    fn is_locked(&mut self, rt: &HostRuntime) -> Result<bool, WorkFault> {
        Ok(self.is_touched(rt)? || self.folder.lock(rt)? == Lock::Held)
    }

    /// Whether the lock's file was touched since the last check.
    fn is_touched(&mut self, rt: &HostRuntime) -> Result<bool, WorkFault> {
        let touched_at = self.folder.touched_at(rt)?;
        let is_new = touched_at != self.touched_at;
        self.touched_at = touched_at;
        Ok(is_new)
    }

    /// Checks whether somebody holds the lock, and prints once that nobody did for too long.
    fn look_at_lock<E: Write>(
        &mut self,
        rt: &HostRuntime,
        now: Instant,
        err: &mut E,
    ) -> Result<(), WorkFault> {
        if self.is_locked(rt)? {
            self.locked_at = now;
            self.is_told = false;
            return Ok(());
        }
        let waited = now.duration_since(self.locked_at);
        if !self.is_told && waited >= Duration::from_secs(UNLOCKED) {
            self.is_told = true;
            let _ = writeln!(
                err,
                "dpbn: nobody has held the work folder's lock for {UNLOCKED} s: nothing is claimed"
            );
        }
        Ok(())
    }
}

impl Office<'_> {
    /// Checks now and then whether this host takes jobs, and gives back what it is not to begin.
    pub(crate) fn look_at_host<E: Write>(
        &mut self,
        rt: &HostRuntime,
        member: &Member<'_>,
        err: &mut E,
    ) -> Result<(), WorkFault> {
        let now = self.pacing.now;
        if self.builder.is_look_due(now) {
            self.builder.look_at_lock(rt, now, err)?;
            let holds_off = self.builder.is_told || self.builder.folder.is_away(rt)?;
            self.desk.set_holding_off(holds_off);
        }
        self.desk.give_back(rt, member)
    }
}

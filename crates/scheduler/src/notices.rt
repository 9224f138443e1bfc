//! Which notices of failed builds are to be sent, and when.
ghost use Rattle.std.specs.Prelude.{◌≡◌, ◌≢◌, ◌<◌, [], None, length, option_map, slice_get};
ghost use Rattle.scheduler.specs.Tries.{AreSent, due_notice, if_failed, place_after, place_in, repeated_at, sent_after};

use crate::pace::is_over;
use indexmap::IndexMap;
use job_folder::Name;
use std::alloc::Global;
use std::time::{Duration, Instant};

/// After how many milliseconds the next notice is repeated.
const AGAIN: u64 = 1_000;

/// Which notices of failed builds are to be sent. Each one is due at once, and then again from time
/// to time, in turn, since notices get lost and members start late.
#[derive(Drop)]
pub(crate) struct Notices {
    /// The units whose builds failed and of which no notice was sent yet.
    pub unsent: Vec<u32>,
    /// The place, among the failed builds, of the one whose notice is repeated next.
    pub place: usize,
    /// When the last one was sent.
    pub sent_at: Instant,
}

impl Notices {
    /// None is to be sent.
    pub fn new(alloc: Global, now: Instant) -> Notices
        ensures { (result.unsent.items ≡ []) × (result.place ≡ 0) × (result.sent_at ≡ now) }
    {
        Notices {
            unsent: Vec::new(alloc),
            place: 0,
            sent_at: now,
        }
    }

    /// The unit of the notice that is due, if one is, by the builds that failed.
    pub fn next(&mut self, failed: &IndexMap<u32, Name>, now: Instant) -> Option<u32>
        ensures due { result ≡ due_notice self.old failed.now now }
        ensures sent { AreSent self.old failed.now now self.new }
    {
        match self.unsent.pop() {
            Some(unit) => {
                self.sent_at = now;
                if_failed(failed, unit)
            }
            None => self.repeat(failed, now),
        }
    }

    /// The unit of the notice that is repeated, if it is time.
    fn repeat(&mut self, failed: &IndexMap<u32, Name>, now: Instant) -> Option<u32>
        ensures due { result ≡ repeated_at self.old failed.now now }
        ensures unsent { self.new.unsent ≡ self.old.unsent }
        ensures place { self.new.place ≡ place_after self.old failed.now now None }
        ensures sent_at { self.new.sent_at ≡ sent_after self.old failed.now now None }
    {
        if !is_over(Duration::from_millis(AGAIN), self.sent_at, now) {
            return None;
        }
        let place = place_in(self.place, failed.len());
        let unit = unit_at(failed, place)?;
        self.place = place + 1;
        self.sent_at = now;
        Some(unit)
    }
}

/// The unit, if its build failed.
fn if_failed(failed: &IndexMap<u32, Name>, unit: u32) -> Option<u32>
    ensures { result ≡ if_failed failed.now unit }
{
    if failed.contains_key(&unit) {
        Some(unit)
    } else {
        None
    }
}

/// The place, or the first one if it is past the last.
fn place_in(place: usize, count: usize) -> usize
    ensures { result ≡ place_in place count }
{
    if place < count { place } else { 0 }
}

/// The unit at this place of the builds that failed.
fn unit_at(failed: &IndexMap<u32, Name>, place: usize) -> Option<u32>
    ensures unit { result ≡ option_map (λ e. e.0) (slice_get failed.now.entries place) }
    ensures within { result ≢ None → place < length failed.now.entries }
{
    match failed.get_index(place) {
        Some((unit, _)) => Some(*unit),
        None => None,
    }
}

//! A list of calls that only contracts read.
ghost use Rattle.std.specs.Prelude.{◌≡◌, ℕ, List, [], ◌∷◌};
ghost use Rattle.std.specs.Borrow.{ftrue};
ghost use Rattle.stable_record.specs.Events.{Event, Past};
ghost use Rattle.stable_record.specs.inside.Coded.{past_code};
ghost use Rattle.stable_record.specs.inside.Noted.{event_of};

use std::marker::{Model, PhantomData};

#[derive(Drop)]
pub struct Record {
    marker: PhantomData<u8>,
    pub ghost past: { Past } by { past_code },
    pub ghost events: { List Event },
}

impl Model for Record {
    ghost also_owns = { λ _. ftrue };
}

impl Record {
    /// The record of a file with this past, before its first call.
    pub(crate) fn new() -> Record
        ghost past: { Past }
        ensures { (result.past ≡ past) × (result.events ≡ []) }
    {
        Record {
            marker: PhantomData,
        }
    }

    /// Records a call: its kind and its numbers, and its bytes.
    pub(crate) fn note(&mut self, _numbers: &[u64], _bytes: &[u8])
        ensures { (self.new.past ≡ self.old.past)
            × (self.new.events ≡ event_of _numbers.now _bytes.now ∷ self.old.events) }
    {}
}

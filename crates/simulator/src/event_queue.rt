//! A queue of events.
ghost use Rattle.std.specs.Prelude.{◌≡◌, ◌∷◌, [], MatchOption};

use protocol::Event;
use std::marker::Model;

/// A queue of events, stored in reverse, so that the memory of taken ones is freed. Contracts see
/// them in order, first event first.
#[derive(Drop)]
pub(crate) struct EventQueue {
    left: Vec<Event>,
}

impl Model for EventQueue {
    ghost use Rattle.std.specs.Prelude.{List, reverse};
    ghost use Rattle.std.specs.Coded.{codes};
    ghost use Rattle.protocol.specs.contracts.event.Event as events;
    ghost use Rattle.protocol.specs.declared.event.Event as declared;

    ghost Value = { List declared.Event };

    ghost coded = { Prim.hlevel (codes, events.the_row.coded) };

    ghost view = { λ h. reverse h.left.items };
}

impl EventQueue {
    /// A queue of all these events.
    pub(crate) fn new(events: Vec<Event>) -> EventQueue
        ensures { result ≡ events.items }
    {
        let mut left = events;
        left.reverse();
        EventQueue { left }
    }

    /// Takes the first event, if one is left.
    pub(crate) fn next(&mut self) -> Option<Event>
        ensures { MatchOption result (self.old ≡ []) (λ event. self.old ≡ event ∷ self.new) }
    {
        let event = self.left.pop()?;
        if self.left.len() <= self.left.capacity() / 2 {
            self.left.shrink_to_fit();
        }
        Some(event)
    }
}

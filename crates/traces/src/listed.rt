//! The items of an array as events.
ghost use Rattle.std.specs.Prelude.{◌≡◌, ◌≤◌, length, IfOk, IfErr, Some};
ghost use Rattle.protocol.specs.Events.{event_view};
ghost use Rattle.serde_json.specs.Data.{Data, Items, item as item_and};
ghost use Rattle.traces.specs.Events.{event_in};
ghost use Rattle.serde_json.specs.View.{view};
ghost use Rattle.traces.specs.declared.read_error.ReadError.TheVariants.{Memory as out_of_memory};
ghost use Rattle.traces.specs.inside.Listing.{answer_behind};

use crate::event::event;
use crate::read_error::ReadError;
use protocol::Event;
use serde_json::Value;
use std::alloc::Global;

/// The events of the items so far, or the number of the first item that isn't an event.
#[derive(Drop)]
pub enum Listed {
    Events(Vec<Event>),
    BadAt(u64),
}

impl Listed {
    /// The state after one more item.
    pub fn then(self, alloc: Global, item: &Value) -> Result<Listed, ReadError>
        ensures ok { IfOk result (λ listed. (rest : Items)
            → answer_behind self (item_and (view item.now) rest) ≡ answer_behind listed rest) }
        ensures err { IfErr result (λ e. e ≡ out_of_memory) }
    {
        let mut events = match self {
            Listed::Events(events) => events,
            Listed::BadAt(place) => return Ok(Listed::BadAt(place)),
        };
        match event(alloc, item) {
            Ok(event) => events.push(event)?,
            Err(ReadError::Memory) => return Err(ReadError::Memory),
            Err(ReadError::Bad) => return Ok(Listed::BadAt(events.len() as u64 + 1)),
        }
        Ok(Listed::Events(events))
    }

    /// The state after one more item, which is this event.
    pub fn with(self, event: Event) -> Result<Listed, ReadError>
        ensures ok { IfOk result (λ listed. (d : Data) → event_in d ≡ Some (event_view event)
            → (rest : Items)
            → answer_behind self (item_and d rest) ≡ answer_behind listed rest) }
        ensures err { IfErr result (λ e. e ≡ out_of_memory) }
    {
        match self {
            Listed::Events(mut events) => {
                events.push(event)?;
                Ok(Listed::Events(events))
            }
            Listed::BadAt(place) => {
                drop(event);
                Ok(Listed::BadAt(place))
            }
        }
    }
}

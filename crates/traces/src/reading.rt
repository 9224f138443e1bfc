//! Parsing of a trace by its members.
ghost use Rattle.std.specs.Prelude.{◌≡◌, ◌≤◌, IfErr, IfOk, Ok};
ghost use Rattle.faults.specs.Answers.{map_ok};
ghost use Rattle.serde_json.specs.View.{view};
ghost use Rattle.stable_record.specs.Magic.{are_ones};
ghost use Rattle.traces.specs.Fields.{array_at, number_of};
ghost use Rattle.traces.specs.Faults.{trace_view};
ghost use Rattle.traces.specs.Trace.{
  equals_in,
  ones_of,
  outer_in,
  table_of,
  trace_of,
  trace_with,
  value_of,
  weighted_in,
};
ghost use Rattle.traces.specs.inside.Given.{Fails, Gives, IsEventsFault};
ghost use Rattle.traces.specs.inside.Kept.{outer_of, weights_in};
ghost use Rattle.traces.specs.inside.Listing.{answer};

use crate::fields::{array, field_count, number, number_of};
use crate::listed::Listed;
use crate::read_error::ReadError;
use crate::{Trace, TraceFault, stream};
use ballots::Weights;
use serde_json::Value;
use std::alloc::Global;

/// The JSON value of the text.
pub fn value(alloc: Global, text: &[u8]) -> Result<Value, ReadError>
    ensures { Gives view result (value_of text.now) }
{
    match Value::from_slice(alloc, text) {
        Ok(value) => Ok(value),
        Err(error) if error.is_memory() => Err(ReadError::Memory),
        Err(_) => Err(ReadError::Bad),
    }
}

/// The weights of this number of members that each weigh 1.
fn ones(members: u64) -> Result<Weights, ReadError>
    requires { members ≤ 9 }
    ensures { Gives (λ w. w) result (ones_of members) }
{
    match Weights::new(&[1; 9][..members as usize]) {
        Ok(weights) => Ok(weights),
        Err(_) => Err(ReadError::Bad),
    }
}

/// The weights if all members weigh 1; the events have to be an array.
#[tactic(auto, unfolding(crate::specs::Trace::equals_in))]
fn equals(value: &Value) -> Result<Weights, ReadError>
    ensures { Gives (λ w. w) result (weights_in (equals_in (view value.now))) }
{
    let _items = array(value, "events")?;
    let weights = ones(number(value, "members", 9)?)?;
    if field_count(value) == 2 {
        Ok(weights)
    } else {
        Err(ReadError::Bad)
    }
}

/// The numbers of an array, of 8 bits each.
fn bytes(alloc: Global, value: &Value, key: &str) -> Result<Vec<u8>, ReadError>
    ensures { Gives (λ v. v.items) result (array_at key.now (number_of 255) (view value.now)) }
{
    let items = array(value, key)?;
    let mut numbers = Vec::with_capacity(alloc, items.len())?;
    for item in items {
        numbers.push(number_of(item, 255)? as u8)?;
    }
    Ok(numbers)
}

/// These weights, if they are of this number of members and not all 1.
fn table(members: u64, weights: &[u8]) -> Result<Weights, ReadError>
    ensures { Gives (λ w. w) result (table_of members weights.now) }
{
    if are_ones(weights) || weights.len() as u64 != members {
        return Err(ReadError::Bad);
    }
    match Weights::new(weights) {
        Ok(weights) => Ok(weights),
        Err(_) => Err(ReadError::Bad),
    }
}

/// The weights if not all members weigh 1; the events have to be an array.
#[tactic(auto, unfolding(crate::specs::Trace::weighted_in))]
fn weighted(alloc: Global, value: &Value) -> Result<Weights, ReadError>
    ensures { Gives (λ w. w) result (weights_in (weighted_in (view value.now))) }
{
    let _items = array(value, "events")?;
    let count = number(value, "members", 9)?;
    let weights = table(count, bytes(alloc, value, "weights")?.as_slice())?;
    if field_count(value) == 3 {
        Ok(weights)
    } else {
        Err(ReadError::Bad)
    }
}

/// Whether each weight is 1.
pub fn are_ones(weights: &[u8]) -> bool
    ensures { result ≡ are_ones weights.now }
{
    weights.iter().all(|weight| *weight == 1)
}

/// The weights; the events have to be an array.
fn outer(alloc: Global, value: &Value) -> Result<Weights, ReadError>
    ensures { Gives (λ w. w) result (weights_in (outer_in (view value.now))) }
{
    if value.get("weights").is_some() {
        weighted(alloc, value)
    } else {
        equals(value)
    }
}

/// The weights, and the events.
pub fn parts(alloc: Global, text: &[u8]) -> Result<(Weights, Listed), ReadError>
    ensures ok { IfOk result (λ r. trace_of text.now ≡ map_ok (trace_with r.0) (answer r.1)) }
    ensures err { IfErr result (λ e. Fails e (outer_of (value_of text.now))) }
{
    let (value, listed) = stream::object(alloc, text)?;
    let weights = outer(alloc, &value)?;
    Ok((weights, listed))
}

/// The trace with these weights and events.
pub fn trace(weights: Weights, listed: Listed) -> Result<Trace, TraceFault>
    ensures ok { IfOk result
        (λ t. map_ok (trace_with weights) (answer listed) ≡ Ok (trace_view t)) }
    ensures err { IfErr result
        (IsEventsFault (map_ok (trace_with weights) (answer listed))) }
{
    match listed {
        Listed::Events(events) => Ok(Trace { weights, events }),
        Listed::BadAt(place) => Err(TraceFault::BadTrace(place)),
    }
}

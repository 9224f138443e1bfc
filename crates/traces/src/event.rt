//! Events, by their kinds.
ghost use Rattle.std.specs.Prelude.{◌≡◌, ◌∷◌, [], IfOk, option_map};
ghost use Rattle.protocol.specs.Events.{event_view};
ghost use Rattle.serde_json.specs.View.{view};
ghost use Rattle.traces.specs.Events.{
  built_alone_in,
  built_in,
  built_several_in,
  claim_in,
  clean_stop_in,
  deliver_in,
  event_in,
  own_files,
  left_of,
  node_alone_in,
  node_and_path_in,
  of_node_in,
  of_path_in,
  step_in,
  step_of,
  stop_in,
  stop_inside,
  torn_stop_in,
};
ghost use Rattle.protocol.specs.Events as events;
ghost use Rattle.traces.specs.inside.Given.{Gives};

use crate::fields::{field, field_count, hex, node, number, path, text};
use crate::files::{files, packages};
use crate::read_error::ReadError;
use faults::Memory;
use package_record::Files;
use pkgpath::PkgPath;
use protocol::{Event, Left, Packages, Torn};
use serde_json::Value;
use std::alloc::Global;

/// A node opens a claim.
#[tactic(auto, unfolding(crate::specs::Events::claim_in))]
fn claim(alloc: Global, value: &Value) -> Result<Event, ReadError>
    ensures { Gives event_view result (claim_in (view value.now)) }
{
    let node = node(value)?;
    let path = path(alloc, value)?;
    let host = number(value, "host", 65_535)?;
    let above = number(value, "above", u64::MAX)?;
    if field_count(value) != 5 {
        return Err(ReadError::Bad);
    }
    Ok(Event::Claim {
        node,
        path,
        host: host as u16,
        above,
    })
}

/// The path with these files, as the only package.
pub fn alone(alloc: Global, path: &PkgPath, files: Files) -> Result<Packages, Memory>
    ensures { IfOk result (λ packages. packages ≡ (path.now, files) ∷ []) }
{
    let mut packages = Vec::new(alloc);
    packages.push((path.copy()?, files))?;
    Ok(Packages::new(packages))
}

/// The only package that was built has the event's own path.
#[tactic(auto, unfolding(crate::specs::Events::built_alone_in))]
fn built_alone(alloc: Global, value: &Value) -> Result<Event, ReadError>
    ensures { Gives event_view result (built_alone_in (view value.now)) }
{
    let node = node(value)?;
    let path = path(alloc, value)?;
    let files = files(alloc, field(value, "files")?)?;
    if field_count(value) != 4 {
        return Err(ReadError::Bad);
    }
    let packages = alone(alloc, &path, files)?;
    Ok(Event::Built {
        node,
        path,
        packages,
    })
}

/// The files of the package, if there is exactly one and it has this path.
pub fn own_files<'a>(path: &PkgPath, packages: &'a Packages) -> Option<&'a Files>
    ensures { option_map (λ f. f.now) result ≡ own_files path.now packages.entry.now }
{
    match packages.as_slice() {
        [(own, files)] if own.as_bytes() == path.as_bytes() => Some(files),
        _ => None,
    }
}

/// Other packages were built.
#[tactic(auto, unfolding(crate::specs::Events::built_several_in))]
fn built_several(alloc: Global, value: &Value) -> Result<Event, ReadError>
    ensures { Gives event_view result (built_several_in (view value.now)) }
{
    let node = node(value)?;
    let path = path(alloc, value)?;
    let packages = packages(alloc, field(value, "packages")?)?;
    if field_count(value) != 4 || own_files(&path, &packages).is_some() {
        return Err(ReadError::Bad);
    }
    Ok(Event::Built {
        node,
        path,
        packages,
    })
}

/// A node and a path, with no other member than the kind.
#[tactic(auto, unfolding(crate::specs::Events::node_and_path_in))]
fn node_and_path(alloc: Global, value: &Value) -> Result<(u8, PkgPath), ReadError>
    ensures { Gives (λ p. p) result (node_and_path_in (view value.now)) }
{
    let node = node(value)?;
    let path = path(alloc, value)?;
    if field_count(value) == 3 {
        Ok((node, path))
    } else {
        Err(ReadError::Bad)
    }
}

/// A node, with no other member than the kind.
#[tactic(auto, unfolding(crate::specs::Events::node_alone_in))]
fn node_alone(value: &Value) -> Result<u8, ReadError>
    ensures { Gives (λ n. n) result (node_alone_in (view value.now)) }
{
    let node = node(value)?;
    if field_count(value) == 2 {
        Ok(node)
    } else {
        Err(ReadError::Bad)
    }
}

/// A build failed.
fn failed(alloc: Global, value: &Value) -> Result<Event, ReadError>
    ensures { Gives event_view result (of_path_in events.Failed (view value.now)) }
{
    let (node, path) = node_and_path(alloc, value)?;
    Ok(Event::Failed { node, path })
}

/// A node asks the others.
fn ask(alloc: Global, value: &Value) -> Result<Event, ReadError>
    ensures { Gives event_view result (of_path_in events.Ask (view value.now)) }
{
    let (node, path) = node_and_path(alloc, value)?;
    Ok(Event::Ask { node, path })
}

/// A datagram is delivered to a node.
#[tactic(auto, unfolding(crate::specs::Events::deliver_in))]
fn deliver(value: &Value) -> Result<Event, ReadError>
    ensures { Gives event_view result (deliver_in (view value.now)) }
{
    let datagram = number(value, "datagram", u64::MAX)?;
    let node = node(value)?;
    if field_count(value) == 3 {
        Ok(Event::Deliver { datagram, node })
    } else {
        Err(ReadError::Bad)
    }
}

/// A build is done.
fn built(alloc: Global, value: &Value) -> Result<Event, ReadError>
    ensures { Gives event_view result (built_in (view value.now)) }
{
    if value.get("files").is_some() {
        built_alone(alloc, value)
    } else {
        built_several(alloc, value)
    }
}

/// A node is nudged.
fn nudge(value: &Value) -> Result<Event, ReadError>
    ensures { Gives event_view result (of_node_in events.Nudge (view value.now)) }
{
    let node = node_alone(value)?;
    Ok(Event::Nudge { node })
}

/// An event of this kind, if a stop may interrupt it.
fn step_of(alloc: Global, kind: &str, value: &Value) -> Result<Event, ReadError>
    ensures { Gives event_view result (step_of kind.now (view value.now)) }
{
    if kind == "claim" {
        claim(alloc, value)
    } else if kind == "built" {
        built(alloc, value)
    } else if kind == "failed" {
        failed(alloc, value)
    } else if kind == "nudge" {
        nudge(value)
    } else if kind == "ask" {
        ask(alloc, value)
    } else if kind == "deliver" {
        deliver(value)
    } else {
        Err(ReadError::Bad)
    }
}

/// One of the six events that a stop may interrupt.
fn step(alloc: Global, value: &Value) -> Result<Event, ReadError>
    ensures { Gives event_view result (step_in (view value.now)) }
{
    step_of(alloc, text(value, "event")?, value)
}

/// What is left of the note, if it isn't torn.
fn left(word: &str) -> Result<Left, ReadError>
    ensures { Gives (λ l. l) result (left_of word.now) }
{
    if word == "none" {
        Ok(Left::None)
    } else if word == "whole" {
        Ok(Left::Whole)
    } else {
        Err(ReadError::Bad)
    }
}

/// A stop inside the step that the value encodes, which leaves this.
fn stop_in(alloc: Global, input: &Value, left: Left) -> Result<Event, ReadError>
    ensures { Gives event_view result (stop_inside left (view input.now)) }
{
    let input = step(alloc, input)?;
    Ok(Event::stop_in(alloc, input, left)?)
}

/// A stop inside a step that leaves nothing or the whole note.
#[tactic(auto, unfolding(crate::specs::Events::clean_stop_in))]
fn clean_stop(alloc: Global, value: &Value) -> Result<Event, ReadError>
    ensures { Gives event_view result (clean_stop_in (view value.now)) }
{
    let input = field(value, "input")?;
    let left = left(text(value, "left")?)?;
    if field_count(value) != 3 {
        return Err(ReadError::Bad);
    }
    stop_in(alloc, input, left)
}

/// A stop inside a step that leaves these bytes.
#[tactic(auto, unfolding(crate::specs::Events::torn_stop_in))]
fn torn_stop(alloc: Global, value: &Value) -> Result<Event, ReadError>
    ensures { Gives event_view result (torn_stop_in (view value.now)) }
{
    let input = field(value, "input")?;
    let word = text(value, "left")?;
    if word != "torn" || field_count(value) != 4 {
        return Err(ReadError::Bad);
    }
    let bytes = hex(alloc, value)?;
    stop_in(alloc, input, Left::Torn(Torn::new(bytes)))
}

/// A stop inside a step.
fn stop(alloc: Global, value: &Value) -> Result<Event, ReadError>
    ensures { Gives event_view result (stop_in (view value.now)) }
{
    if value.get("hex").is_some() {
        torn_stop(alloc, value)
    } else {
        clean_stop(alloc, value)
    }
}

/// An event.
pub fn event(alloc: Global, value: &Value) -> Result<Event, ReadError>
    ensures { Gives event_view result (event_in (view value.now)) }
{
    let kind = text(value, "event")?;
    if kind == "stop" {
        let node = node_alone(value)?;
        Ok(Event::Stop { node })
    } else if kind == "restart" {
        let node = node_alone(value)?;
        Ok(Event::Restart { node })
    } else if kind == "stopin" {
        stop(alloc, value)
    } else {
        step_of(alloc, kind, value)
    }
}

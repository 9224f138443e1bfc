//! Traces as JSON values.
ghost use Rattle.std.specs.Prelude.{◌≡◌, IfOk, codes, map};
ghost use Rattle.protocol.specs.Events.{event_view};
ghost use Rattle.package_record.specs.FileView.{file_view};
ghost use Rattle.serde_json.specs.View.{members_view, view};
ghost use Rattle.traces.specs.Faults.{trace_view};
ghost use Rattle.traces.specs.Written.{
  built_data,
  claim_data,
  clean_data,
  deliver_data,
  event_data,
  file_data,
  files_data,
  hex,
  list_data,
  natural,
  node_data,
  node_members,
  package_data,
  packages_data,
  path_data,
  path_members,
  plain_members,
  stop_data,
  stop_members,
  text,
  trace_data,
  word,
};

use crate::Trace;
use crate::event::own_files;
use crate::reading::are_ones;
use faults::Memory;
use package_record::{File, Files};
use pkgpath::PkgPath;
use protocol::{Event, Left, Packages};
use serde_json::{Map, Value, put};
use std::alloc::Global;
use std::string::String;

/// Bytes as a text.
fn text(alloc: Global, bytes: &[u8]) -> Result<Value, Memory>
    ensures { IfOk result (λ v. view v ≡ text bytes.now) }
{
    let text = String::from_utf8_lossy(alloc, bytes)?;
    Ok(Value::String(text))
}

/// A word.
fn word(alloc: Global, letters: &str) -> Result<Value, Memory>
    ensures { IfOk result (λ v. view v ≡ word letters.now) }
{
    let word = String::from_str(alloc, letters)?;
    Ok(Value::String(word))
}

/// Bytes, as hexadecimal digits.
fn hex(alloc: Global, bytes: &[u8]) -> Result<Value, Memory>
    ensures { IfOk result (λ v. view v ≡ hex bytes.now) }
{
    let digits = hex::encode(alloc, bytes)?;
    Ok(Value::String(digits))
}

/// A file.
fn file(alloc: Global, file: &File) -> Result<Value, Memory>
    ensures { IfOk result (λ v. view v ≡ file_data (file_view file.now)) }
{
    let mut members = Map::new(alloc);
    put(
        &mut members,
        alloc,
        "hex",
        hex(alloc, file.bytes.as_slice())?,
    )?;
    put(
        &mut members,
        alloc,
        "name",
        text(alloc, file.name.as_slice())?,
    )?;
    Ok(Value::Object(members))
}

/// Files.
fn files(alloc: Global, files: &Files) -> Result<Value, Memory>
    ensures { IfOk result (λ v. view v ≡ files_data files.now) }
{
    let files = files.as_slice();
    let mut items = Vec::with_capacity(alloc, files.len())?;
    for one in files {
        items.push(file(alloc, one)?)?;
    }
    Ok(Value::Array(items))
}

/// A package.
fn package(alloc: Global, one: &(PkgPath, Files)) -> Result<Value, Memory>
    ensures { IfOk result (λ v. view v ≡ package_data one.now) }
{
    let (path, contents) = one;
    let mut members = Map::new(alloc);
    put(&mut members, alloc, "files", files(alloc, contents)?)?;
    put(&mut members, alloc, "path", text(alloc, path.as_bytes())?)?;
    Ok(Value::Object(members))
}

/// Packages.
fn packages(alloc: Global, packages: &Packages) -> Result<Value, Memory>
    ensures { IfOk result (λ v. view v ≡ packages_data packages.now) }
{
    let packages = packages.as_slice();
    let mut items = Vec::with_capacity(alloc, packages.len())?;
    for one in packages {
        items.push(package(alloc, one)?)?;
    }
    Ok(Value::Array(items))
}

/// The members of an event of this kind with a node.
fn node_members(alloc: Global, kind: &str, node: u8) -> Result<Map<String, Value>, Memory>
    ensures { IfOk result (λ m. members_view m.entries ≡ node_members kind.now node) }
{
    let mut members = Map::new(alloc);
    put(&mut members, alloc, "event", word(alloc, kind)?)?;
    put(&mut members, alloc, "node", Value::from(node))?;
    Ok(members)
}

/// An event of this kind with a node.
fn of_node(alloc: Global, kind: &str, node: u8) -> Result<Value, Memory>
    ensures { IfOk result (λ v. view v ≡ node_data kind.now node) }
{
    Ok(Value::Object(node_members(alloc, kind, node)?))
}

/// The members of an event of this kind with a node and a path.
fn node_and_path(
    alloc: Global,
    kind: &str,
    node: u8,
    path: &PkgPath,
) -> Result<Map<String, Value>, Memory>
    ensures { IfOk result (λ m. members_view m.entries ≡ path_members kind.now node path.now) }
{
    let mut members = node_members(alloc, kind, node)?;
    put(&mut members, alloc, "path", text(alloc, path.as_bytes())?)?;
    Ok(members)
}

/// An event of this kind with a node and a path.
fn of_path(alloc: Global, kind: &str, node: u8, path: &PkgPath) -> Result<Value, Memory>
    ensures { IfOk result (λ v. view v ≡ path_data kind.now node path.now) }
{
    Ok(Value::Object(node_and_path(alloc, kind, node, path)?))
}

/// A claim.
fn claim(alloc: Global, node: u8, path: &PkgPath, host: u16, above: u64) -> Result<Value, Memory>
    ensures { IfOk result (λ v. view v ≡ claim_data node path.now host above) }
{
    let mut members = node_and_path(alloc, "claim", node, path)?;
    put(&mut members, alloc, "above", Value::from(above))?;
    put(&mut members, alloc, "host", Value::from(host))?;
    Ok(Value::Object(members))
}

/// A unit was built.
fn built(alloc: Global, node: u8, path: &PkgPath, given: &Packages) -> Result<Value, Memory>
    ensures { IfOk result (λ v. view v ≡ built_data node path.now given.now) }
{
    let mut members = node_and_path(alloc, "built", node, path)?;
    if let Some(own) = own_files(path, given) {
        put(&mut members, alloc, "files", files(alloc, own)?)?;
        return Ok(Value::Object(members));
    }
    put(&mut members, alloc, "packages", packages(alloc, given)?)?;
    Ok(Value::Object(members))
}

/// A datagram is delivered to a node.
fn deliver(alloc: Global, datagram: u64, node: u8) -> Result<Value, Memory>
    ensures { IfOk result (λ v. view v ≡ deliver_data datagram node) }
{
    let mut members = node_members(alloc, "deliver", node)?;
    put(&mut members, alloc, "datagram", Value::from(datagram))?;
    Ok(Value::Object(members))
}

/// The members of a stop inside this step, without bytes.
fn stop_members(alloc: Global, input: Value, left: &str) -> Result<Map<String, Value>, Memory>
    ensures { IfOk result (λ m. members_view m.entries ≡ stop_members left.now (view input)) }
{
    let mut members = Map::new(alloc);
    put(&mut members, alloc, "input", input)?;
    put(&mut members, alloc, "event", word(alloc, "stopin")?)?;
    put(&mut members, alloc, "left", word(alloc, left)?)?;
    Ok(members)
}

/// A stop inside this step that leaves nothing or the whole note.
fn clean_stop(alloc: Global, input: Value, left: &str) -> Result<Value, Memory>
    ensures { IfOk result (λ v. view v ≡ clean_data left.now (view input)) }
{
    Ok(Value::Object(stop_members(alloc, input, left)?))
}

/// A stop inside this step.
fn stop(alloc: Global, input: Value, left: &Left) -> Result<Value, Memory>
    ensures { IfOk result (λ v. view v ≡ stop_data (view input) left.now) }
{
    match left {
        Left::None => clean_stop(alloc, input, "none"),
        Left::Whole => clean_stop(alloc, input, "whole"),
        Left::Torn(torn) => {
            let mut members = stop_members(alloc, input, "torn")?;
            put(&mut members, alloc, "hex", hex(alloc, torn.as_slice())?)?;
            Ok(Value::Object(members))
        }
    }
}

/// An event.
fn event(alloc: Global, one: &Event) -> Result<Value, Memory>
    ensures { IfOk result (λ v. view v ≡ event_data (event_view one.now)) }
{
    match one {
        Event::Claim {
            node,
            path,
            host,
            above,
        } => claim(alloc, *node, path, *host, *above),
        Event::Built {
            node,
            path,
            packages,
        } => built(alloc, *node, path, packages),
        Event::Failed { node, path } => of_path(alloc, "failed", *node, path),
        Event::Nudge { node } => of_node(alloc, "nudge", *node),
        Event::Ask { node, path } => of_path(alloc, "ask", *node, path),
        Event::Deliver { datagram, node } => deliver(alloc, *datagram, *node),
        Event::Stop { node } => of_node(alloc, "stop", *node),
        Event::StopIn { input, left } => {
            let input = event(alloc, input)?;
            stop(alloc, input, left)
        }
        Event::Restart { node } => of_node(alloc, "restart", *node),
    }
}

/// The events, in order.
fn events(alloc: Global, all: &[Event]) -> Result<Value, Memory>
    ensures { IfOk result (λ v. view v ≡ list_data (map event_data (map event_view all.now))) }
{
    let mut items = Vec::with_capacity(alloc, all.len())?;
    for one in all {
        items.push(event(alloc, one)?)?;
    }
    Ok(Value::Array(items))
}

/// Weights.
fn weights(alloc: Global, all: &[u8]) -> Result<Value, Memory>
    ensures { IfOk result (λ v. view v ≡ list_data (map natural all.now)) }
{
    let mut items = Vec::with_capacity(alloc, all.len())?;
    for one in all {
        items.push(Value::from(*one))?;
    }
    Ok(Value::Array(items))
}

/// The members of a trace without weights.
fn plain_members(alloc: Global, trace: &Trace) -> Result<Map<String, Value>, Memory>
    ensures { IfOk result (λ m. members_view m.entries ≡ plain_members (trace_view trace.now)) }
{
    let mut members = Map::new(alloc);
    put(
        &mut members,
        alloc,
        "events",
        events(alloc, trace.events.as_slice())?,
    )?;
    put(
        &mut members,
        alloc,
        "members",
        Value::from(trace.weights.len()),
    )?;
    Ok(members)
}

/// A trace.
pub fn value(alloc: Global, trace: &Trace) -> Result<Value, Memory>
    ensures { IfOk result (λ v. view v ≡ trace_data (trace_view trace.now)) }
{
    let mut members = plain_members(alloc, trace)?;
    let table = trace.weights.as_slice();
    if are_ones(table) {
        return Ok(Value::Object(members));
    }
    put(&mut members, alloc, "weights", weights(alloc, table)?)?;
    Ok(Value::Object(members))
}

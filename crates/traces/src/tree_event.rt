//! Events whose members, in the text's tree, are in the order of their keys, as they are written.
//! They are parsed from the tree directly; all others are parsed by `event`, from a value of
//! `serde_json`. Any other form is `Bad` here, even if it is an event.
ghost use Rattle.std.specs.Prelude.{◌≡◌, ◌≤◌, ℕ, IfOk, IfSome, OnOk};
ghost use Rattle.json.specs.Json.{string};
ghost use Rattle.json.specs.Value.{value_view};
ghost use Rattle.protocol.specs.Events.{event_view};
ghost use Rattle.package_record.specs.FileView.{file_view};
ghost use Rattle.traces.specs.Events.{event_in};
ghost use Rattle.traces.specs.Fields.{file_in, files_in, number_of};
ghost use Rattle.traces.specs.inside.Trees.{Reads, five, four, path_in, three, two};

use crate::event::alone;
use crate::fields::{bytes_of, path_of};
use crate::read_error::ReadError;
use json::Value;
use package_record::{File, Files};
use pkgpath::PkgPath;
use protocol::Event;
use std::alloc::Global;

/// A member of an object: its key and value.
type Member<'a> = (&'a str, Value<'a>);

/// The event that the tree encodes, if its members are in the order of their keys, and it is a
/// nudge, a delivery, a build of one package, or a claim.
pub fn tree_event(alloc: Global, tree: &Value<'_>) -> Result<Event, ReadError>
    ensures { IfOk result (λ e. Reads event_in (value_view tree.now) (event_view e)) }
{
    let Value::Object(members) = tree else {
        return Err(ReadError::Bad);
    };
    match members.as_slice() {
        [event, node] => nudge(event, node),
        [datagram, event, node] => delivery(datagram, event, node),
        [event, files, node, path] => build(alloc, event, files, node, path),
        [above, event, host, node, path] => claim(alloc, above, event, host, node, path),
        _ => Err(ReadError::Bad),
    }
}

/// A node is nudged.
fn nudge(first: &Member<'_>, second: &Member<'_>) -> Result<Event, ReadError>
    ensures { IfOk result (λ e. Reads event_in (two first.now second.now) (event_view e)) }
{
    let event = value_at(first, "event")?;
    let node = value_at(second, "node")?;
    test_text(event, "nudge")?;
    let node = number(node, 255)? as u8;
    Ok(Event::Nudge { node })
}

/// A datagram is delivered to a node.
fn delivery(first: &Member<'_>, second: &Member<'_>, third: &Member<'_>) -> Result<Event, ReadError>
    ensures { IfOk result
        (λ e. Reads event_in (three first.now second.now third.now) (event_view e)) }
{
    let datagram = value_at(first, "datagram")?;
    let event = value_at(second, "event")?;
    let node = value_at(third, "node")?;
    test_text(event, "deliver")?;
    let datagram = number(datagram, u64::MAX)?;
    let node = number(node, 255)? as u8;
    Ok(Event::Deliver { datagram, node })
}

/// The only package that was built has the event's own path.
fn build(
    alloc: Global,
    first: &Member<'_>,
    second: &Member<'_>,
    third: &Member<'_>,
    fourth: &Member<'_>,
) -> Result<Event, ReadError>
    ensures { IfOk result
        (λ e. Reads event_in (four first.now second.now third.now fourth.now) (event_view e)) }
{
    let event = value_at(first, "event")?;
    let files = value_at(second, "files")?;
    let node = value_at(third, "node")?;
    let unit = value_at(fourth, "path")?;
    test_text(event, "built")?;
    let node = number(node, 255)? as u8;
    test_files(files)?;
    let path = path(alloc, unit)?;
    let packages = alone(alloc, &path, read_files(alloc, files)?)?;
    Ok(Event::Built {
        node,
        path,
        packages,
    })
}

/// A node opens a claim.
fn claim(
    alloc: Global,
    first: &Member<'_>,
    second: &Member<'_>,
    third: &Member<'_>,
    fourth: &Member<'_>,
    fifth: &Member<'_>,
) -> Result<Event, ReadError>
    ensures { IfOk result (λ e. Reads event_in
        (five first.now second.now third.now fourth.now fifth.now) (event_view e)) }
{
    let above = value_at(first, "above")?;
    let event = value_at(second, "event")?;
    let host = value_at(third, "host")?;
    let node = value_at(fourth, "node")?;
    let unit = value_at(fifth, "path")?;
    test_text(event, "claim")?;
    let above = number(above, u64::MAX)?;
    let host = number(host, 65_535)? as u16;
    let node = number(node, 255)? as u8;
    let path = path(alloc, unit)?;
    Ok(Event::Claim {
        node,
        path,
        host,
        above,
    })
}

/// The files of an array.
fn read_files(alloc: Global, value: &Value<'_>) -> Result<Files, ReadError>
    ensures { IfOk result (Reads files_in (value_view value.now)) }
{
    let Value::Array(items) = value else {
        return Err(ReadError::Bad);
    };
    let mut files = Vec::with_capacity(alloc, items.len())?;
    for item in items {
        files.push(read_file(alloc, item)?)?;
    }
    Ok(Files::new(files))
}

/// Refuses an array with an item that doesn't have the form of a file, before allocating memory or
/// parsing a file.
fn test_files(value: &Value<'_>) -> Result<(), ReadError> {
    let Value::Array(items) = value else {
        return Err(ReadError::Bad);
    };
    for item in items {
        if !has_file_form(item) {
            return Err(ReadError::Bad);
        }
    }
    Ok(())
}

/// Whether the value is an object of two texts, with the keys of a file in order.
fn has_file_form(value: &Value<'_>) -> bool {
    let Value::Object(members) = value else {
        return false;
    };
    match members.as_slice() {
        [hex, name] => is_text_at(hex, "hex") && is_text_at(name, "name"),
        _ => false,
    }
}

/// Whether the member has this key and is a text.
fn is_text_at(member: &Member<'_>, key: &str) -> bool {
    member.0 == key && matches!(member.1, Value::String(_))
}

/// A file.
fn read_file(alloc: Global, value: &Value<'_>) -> Result<File, ReadError>
    ensures { IfOk result (λ file. Reads file_in (value_view value.now) (file_view file)) }
{
    let Value::Object(members) = value else {
        return Err(ReadError::Bad);
    };
    match members.as_slice() {
        [hex, name] => named(alloc, hex, name),
        _ => Err(ReadError::Bad),
    }
}

/// The file with these bytes and this name.
fn named(alloc: Global, first: &Member<'_>, second: &Member<'_>) -> Result<File, ReadError>
    ensures { IfOk result (λ file. Reads file_in (two first.now second.now) (file_view file)) }
{
    let hex = text(value_at(first, "hex")?)?;
    let name = text(value_at(second, "name")?)?;
    let bytes = bytes_of(alloc, hex)?;
    let name = Vec::from_slice(alloc, name.as_bytes())?;
    Ok(File { name, bytes })
}

/// The path that the value encodes.
fn path(alloc: Global, value: &Value<'_>) -> Result<PkgPath, ReadError>
    ensures { IfOk result (Reads path_in (value_view value.now)) }
{
    path_of(alloc, text(value)?)
}

/// The member's value, if this is its key.
fn value_at<'v, 'a>(member: &'v Member<'a>, key: &str) -> Result<&'v Value<'a>, ReadError>
    ensures key { OnOk result (member.entry.now.0.now ≡ key.now) }
    ensures value { IfOk result (λ v. v.now ≡ member.entry.now.1) }
{
    if member.0 == key {
        Ok(&member.1)
    } else {
        Err(ReadError::Bad)
    }
}

/// Whether the value is this text.
fn test_text(value: &Value<'_>, wanted: &str) -> Result<(), ReadError>
    ensures { OnOk result (value_view value.now ≡ string wanted.now) }
{
    if text(value)? == wanted {
        Ok(())
    } else {
        Err(ReadError::Bad)
    }
}

/// The text of the value.
fn text<'v, 'a>(value: &'v Value<'a>) -> Result<&'a str, ReadError>
    ensures { IfOk result (λ text. value_view value.entry.now ≡ string text.now) }
{
    match value {
        Value::String(text) => Ok(text),
        _ => Err(ReadError::Bad),
    }
}

/// A nonnegative integer of at most this value, written only in digits.
fn number(value: &Value<'_>, most: u64) -> Result<u64, ReadError>
    ensures reads { IfOk result (Reads (number_of most) (value_view value.now)) }
    ensures most { IfOk result (λ n. n ≤ most) }
{
    match small(value) {
        Some(number) if number <= most => Ok(number),
        _ => Err(ReadError::Bad),
    }
}

/// A nonnegative integer of 64 bits, written only in digits.
fn small(value: &Value<'_>) -> Option<u64>
    ensures { IfSome result (λ n. (most : ℕ) → n ≤ most
        → Reads (number_of most) (value_view value.now) n) }
{
    let text = value.as_number()?;
    let bytes = text.as_bytes();
    if bytes.is_empty() || bytes[0] == b'+' {
        return None;
    }
    text.parse().ok()
}

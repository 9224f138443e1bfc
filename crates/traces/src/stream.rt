//! Parses a trace's text with at most one event at a time as a JSON value. Arrays and objects nest
//! at most 127 deep in a text, so 126 in a value of its object, and 125 in an event.
ghost use Rattle.std.specs.Prelude.{◌≡◌, ◌≢◌, ◌<◌, ◌≤◌, ◌∷◌, length, IfErr, IfOk, IsSome, OnOk, Some, MatchResult, false, option_map};
ghost use Rattle.std.specs.Bool.{MatchBool};
ghost use Rattle.json.specs.Json.{read_key};
ghost use Rattle.json.specs.Print.{IsNumber, IsPrintable};
ghost use Rattle.json.specs.Reads.{token_of};
ghost use Rattle.json.specs.Token.{begin_object};
ghost use Rattle.json.specs.Tree.{HasNumbers, depth as nesting};
ghost use Rattle.json.specs.declared.error.Error.TheVariants.{Invalid as invalid};
ghost use Rattle.json.specs.Value.{value_view};
ghost use Rattle.serde_json.specs.Read.{number_of, of_json, read as read_text};
ghost use Rattle.serde_json.specs.View.{members_view, view};
ghost use Rattle.traces.specs.Trace.{value_of};
ghost use Rattle.protocol.specs.Events.{event_view};
ghost use Rattle.traces.specs.Events.{event_in};
ghost use Rattle.traces.specs.inside.Trees.{Reads};
ghost use Rattle.traces.specs.inside.Given.{Fails, Gives};
ghost use Rattle.traces.specs.inside.Kept.{Keeps, KeepsAll, KeepsEvents, KeepsWhole, ListsAll, ListsMore, ListsTree, PassesMembers, PassesNoArray, PassesValue, items_read, members_read, opens_object, outer_of, value_read, whole_read};

use crate::listed::Listed;
use crate::read_error::ReadError;
use crate::reading;
use crate::tree_event::tree_event;
use json::{Reader, Scratch, Token};
use protocol::Event;
use serde_json::{Map, Value, put};
use std::alloc::Global;
use std::string::String;

/// The value of the tree.
fn untreed(alloc: Global, tree: &json::Value<'_>) -> Result<Value, ReadError>
    requires numbers { HasNumbers (value_view tree.now) }
    requires nests { nesting (value_view tree.now) ≤ 127 }
    ensures { Gives view result (of_json (value_view tree.now)) }
{
    let text = json::to_vec(alloc, tree)?;
    reading::value(alloc, text.as_slice())
}

/// The reader's next value, in which arrays and objects may nest this deep.
fn next_value(alloc: Global, reader: &mut Reader<'_>, depth: usize) -> Result<Value, ReadError>
    requires { depth ≤ 127 }
    ensures ok { IfOk result
        (λ v. value_read depth reader.old ≡ Some (view v, reader.new)) }
    ensures shorter { OnOk result (length reader.new < length reader.old) }
    ensures err { IfErr result (λ e. Fails e (value_read depth reader.old)) }
{
    match json::Value::read(alloc, reader, depth) {
        Ok(tree) => untreed(alloc, &tree),
        Err(error) => Err(refused(error)),
    }
}

/// Why no tree can be parsed.
fn refused(error: json::Error) -> ReadError
    ensures { result ≡ ReadError.Bad → error ≡ invalid }
{
    match error {
        json::Error::Invalid => ReadError::Bad,
        _ => ReadError::Memory,
    }
}

/// The event that the tree encodes, if it has a form that is parsed directly, and an event is
/// expected.
fn event_at_once(alloc: Global, tree: &json::Value<'_>, listed: &Listed) -> Result<Event, ReadError>
    ensures { IfOk result (λ e. Reads event_in (value_view tree.now) (event_view e)) }
{
    match listed {
        Listed::Events(_) => tree_event(alloc, tree),
        Listed::BadAt(_) => Err(ReadError::Bad),
    }
}

/// The items so far and one more, which is the value of the tree.
fn with_tree(alloc: Global, tree: json::Value<'_>, listed: Listed) -> Result<Listed, ReadError>
    requires numbers { HasNumbers (value_view tree) }
    requires nests { nesting (value_view tree) ≤ 127 }
    ensures ok { IfOk result (ListsTree (value_view tree.entry) listed) }
    ensures err { IfErr result (λ e. Fails e (of_json (value_view tree.entry))) }
{
    match event_at_once(alloc, &tree, &listed) {
        Ok(event) => listed.with(event),
        Err(ReadError::Memory) => {
            drop(listed);
            Err(ReadError::Memory)
        }
        Err(ReadError::Bad) => {
            let item = untreed(alloc, &tree)?;
            drop(tree);
            listed.then(alloc, &item)
        }
    }
}

/// The items so far and one more, which is the reader's next value.
fn next_listed(
    alloc: Global,
    reader: &mut Reader<'_>,
    depth: usize,
    listed: Listed,
) -> Result<Listed, ReadError>
    requires { depth ≤ 127 }
    ensures ok { IfOk result (ListsMore depth reader.old reader.new listed) }
    ensures err { IfErr result (λ e. Fails e (value_read depth reader.old)) }
{
    match json::Value::read(alloc, reader, depth) {
        Ok(tree) => with_tree(alloc, tree, listed),
        Err(error) => {
            drop(listed);
            Err(refused(error))
        }
    }
}

/// The rest of an array whose items have to be events.
fn listed(alloc: Global, reader: &mut Reader<'_>, depth: usize) -> Result<Listed, ReadError>
    requires { depth ≤ 127 }
    ensures ok { IfOk result (ListsAll depth reader.old reader.new) }
    ensures err { IfErr result (λ e. Fails e (items_read depth reader.old)) }
{
    let mut listed = Listed::Events(Vec::new(alloc));
    'items: while !reader.take_end_array() {
        listed = next_listed(alloc, reader, depth, listed)?;
    }
    Ok(listed)
}

/// The next member's key, or None at the end of the object.
fn next_key<'a>(reader: &mut Reader<'a>) -> Result<Option<&'a str>, ReadError>
    ensures { MatchResult result
        (λ k. read_key reader.old ≡ Some (option_map (λ s. s.now) k, reader.new))
        (λ e. Fails e (read_key reader.old)) }
{
    match reader.next_key() {
        Ok(key) => Ok(key),
        Err(_) => Err(ReadError::Bad),
    }
}

/// Skips the reader's next value.
fn pass_value(alloc: Global, reader: &mut Reader<'_>, depth: usize) -> Result<(), ReadError>
    requires { depth ≤ 127 }
    ensures ok { OnOk result (PassesValue depth reader.old reader.new) }
    ensures err { IfErr result (λ e. Fails e (value_read depth reader.old)) }
{
    let _value = next_value(alloc, reader, depth)?;
    Ok(())
}

/// Skips the rest of an object.
fn pass_members(alloc: Global, reader: &mut Reader<'_>, depth: usize) -> Result<(), ReadError>
    requires { depth ≤ 127 }
    ensures ok { OnOk result (PassesMembers depth reader.old reader.new) }
    ensures err { IfErr result (λ e. Fails e (members_read depth reader.old)) }
{
    'members: while let Some(_) = next_key(reader)? {
        pass_value(alloc, reader, depth)?;
    }
    Ok(())
}

/// Tests whether the number is in range.
fn pass_number(alloc: Global, text: &str) -> Result<(), ReadError>
    requires { IsNumber text.now }
    ensures ok { OnOk result (IsSome (number_of text.now)) }
    ensures err { IfErr result (λ e. Fails e (number_of text.now)) }
{
    let _value = untreed(alloc, &json::Value::Number(text))?;
    Ok(())
}

/// Skips the value that begins with the token, which must not begin an array.
fn pass(alloc: Global, reader: &mut Reader<'_>, token: Token<'_>) -> Result<(), ReadError>
    requires number { token ≢ Token.Bad → IsPrintable (token_of token) }
    requires no_array { token ≢ Token.BeginArray }
    ensures ok { OnOk result (PassesNoArray (token_of token.entry ∷ reader.old) reader.new) }
    ensures err { IfErr result (λ e. Fails e (value_read 126 (token_of token.entry ∷ reader.old))) }
{
    match token {
        Token::BeginObject => pass_members(alloc, reader, 125),
        Token::Number(text) => pass_number(alloc, text),
        Token::String(_) | Token::Bool(_) | Token::Null => Ok(()),
        _ => Err(ReadError::Bad),
    }
}

/// What is kept of the value at the events' key.
fn events(alloc: Global, reader: &mut Reader<'_>) -> Result<(Value, Listed), ReadError>
    ensures ok { IfOk result (λ r. KeepsEvents reader.old reader.new r.0 r.1) }
    ensures err { IfErr result (λ e. Fails e (value_read 126 reader.old)) }
{
    match reader.next() {
        Some(Token::BeginArray) => {
            let listed = listed(alloc, reader, 125)?;
            Ok((Value::Array(Vec::new(alloc)), listed))
        }
        Some(token) => {
            pass(alloc, reader, token)?;
            Ok((Value::Null, Listed::Events(Vec::new(alloc))))
        }
        None => Err(ReadError::Bad),
    }
}

/// What is kept of the value at the key, and the events' items.
fn member(
    alloc: Global,
    reader: &mut Reader<'_>,
    key: &str,
    listed: Listed,
) -> Result<(Value, Listed), ReadError>
    ensures ok { IfOk result (λ r. Keeps key.now reader.old reader.new r.0 listed r.1) }
    ensures err { IfErr result (λ e. Fails e (value_read 126 reader.old)) }
{
    if key == "events" {
        events(alloc, reader)
    } else {
        let value = next_value(alloc, reader, 126)?;
        Ok((value, listed))
    }
}

/// What is kept of the rest of the text's object.
fn members(
    alloc: Global,
    reader: &mut Reader<'_>,
) -> Result<(Map<String, Value>, Listed), ReadError>
    ensures ok { IfOk result
        (λ r. KeepsAll reader.old reader.new (members_view r.0.entries) r.1) }
    ensures err { IfErr result (λ e. Fails e (members_read 126 reader.old)) }
{
    let mut members = Map::new(alloc);
    let mut listed = Listed::Events(Vec::new(alloc));
    'members: while let Some(name) = next_key(reader)? {
        let (value, last) = member(alloc, reader, name, listed)?;
        listed = last;
        put(&mut members, alloc, name, value)?;
    }
    Ok((members, listed))
}

/// Takes the reader's next token, and returns whether it begins an object.
fn opens_object(reader: &mut Reader<'_>) -> bool
    ensures { MatchBool result (reader.old ≡ begin_object ∷ reader.new)
        (opens_object reader.old ≡ false) }
{
    matches!(reader.next(), Some(Token::BeginObject))
}

/// What is kept of the object that is the rest of the reader's text.
fn last_object(alloc: Global, reader: &mut Reader<'_>) -> Result<(Value, Listed), ReadError>
    ensures ok { IfOk result (λ r. KeepsWhole (whole_read reader.old) r.0 r.1) }
    ensures err { IfErr result (λ e. Fails e (outer_of (whole_read reader.old))) }
{
    if !opens_object(reader) {
        return Err(ReadError::Bad);
    }
    let (members, listed) = members(alloc, reader)?;
    if reader.next().is_some() {
        return Err(ReadError::Bad);
    }
    Ok((Value::Object(members), listed))
}

/// What is kept of the object that the text encodes.
fn whole(alloc: Global, text: &str) -> Result<(Value, Listed), ReadError>
    ensures ok { IfOk result (λ r. KeepsWhole (read_text text.now) r.0 r.1) }
    ensures err { IfErr result (λ e. Fails e (outer_of (read_text text.now))) }
{
    let mut scratch = Scratch::new(alloc);
    let mut reader = Reader::new(text, &mut scratch)?;
    last_object(alloc, &mut reader)
}

/// What is kept of the object that the text encodes, if it is one in UTF-8.
pub fn object(alloc: Global, text: &[u8]) -> Result<(Value, Listed), ReadError>
    ensures ok { IfOk result (λ r. KeepsWhole (value_of text.now) r.0 r.1) }
    ensures err { IfErr result (λ e. Fails e (outer_of (value_of text.now))) }
{
    match simdutf8::compat::from_utf8(text) {
        Ok(text) => whole(alloc, text),
        Err(_) => Err(ReadError::Bad),
    }
}

//! The members of a JSON object, and their values.
ghost use Rattle.std.specs.Prelude.{◌≡◌, ◌≤◌, IfOk};
ghost use Rattle.serde_json.specs.Find.{get};
ghost use Rattle.serde_json.specs.View.{items_view, view};
ghost use Rattle.hex.specs.Hex.{decode_of};
ghost use Rattle.pkgpath.specs.PkgPath.{path_of};
ghost use Rattle.traces.specs.Fields.{
  answer_in,
  count_in,
  hex_at,
  items_at,
  node_at,
  number_at,
  number_of,
  path_at,
  text_at,
};
ghost use Rattle.traces.specs.inside.Given.{Gives};

use crate::digits::decoded;
use crate::read_error::ReadError;
use pkgpath::{PathFault, PkgPath};
use serde_json::Value;
use std::alloc::Global;

/// The number of members of an object, or 0 if the value is not an object.
pub fn field_count(value: &Value) -> usize
    ensures { result ≡ count_in (view value.now) }
{
    match value.as_object() {
        Some(members) => members.len(),
        None => 0,
    }
}

/// The value at the key.
pub fn field<'a>(value: &'a Value, key: &str) -> Result<&'a Value, ReadError>
    ensures { Gives (λ v. view v.now) result (get key.now (view value.entry.now)) }
{
    match value.get(key) {
        Some(field) => Ok(field),
        None => Err(ReadError::Bad),
    }
}

/// The text at the key.
pub fn text<'a>(value: &'a Value, key: &str) -> Result<&'a str, ReadError>
    ensures { Gives (λ s. s.now) result (text_at key.now (view value.entry.now)) }
{
    match field(value, key)?.as_str() {
        Some(text) => Ok(text),
        None => Err(ReadError::Bad),
    }
}

/// The items of the array at the key.
pub fn array<'a>(value: &'a Value, key: &str) -> Result<&'a Vec<Value>, ReadError>
    ensures { Gives (λ v. items_view v.now.items) result
        (items_at key.now (view value.entry.now)) }
{
    match field(value, key)?.as_array() {
        Some(items) => Ok(items),
        None => Err(ReadError::Bad),
    }
}

/// A number of at most this value.
#[tactic(auto, unfolding(crate::specs::Fields::number_of))]
pub fn number_of(value: &Value, most: u64) -> Result<u64, ReadError>
    ensures gives { Gives (λ n. n) result (number_of most (view value.now)) }
    ensures most { IfOk result (λ n. n ≤ most) }
{
    match value.as_u64() {
        Some(number) if number <= most => Ok(number),
        _ => Err(ReadError::Bad),
    }
}

/// A number at the key of at most this value.
pub fn number(value: &Value, key: &str, most: u64) -> Result<u64, ReadError>
    ensures gives { Gives (λ n. n) result (number_at key.now most (view value.now)) }
    ensures most { IfOk result (λ n. n ≤ most) }
{
    number_of(field(value, key)?, most)
}

/// The number of a node.
pub fn node(value: &Value) -> Result<u8, ReadError>
    ensures { Gives (λ n. n) result (node_at (view value.now)) }
{
    let node = number(value, "node", 255)?;
    Ok(node as u8)
}

/// The path that the text encodes.
pub fn path_of(alloc: Global, text: &str) -> Result<PkgPath, ReadError>
    ensures { Gives (λ p. p) result (answer_in (path_of text.now)) }
{
    match PkgPath::parse(alloc, text.as_bytes()) {
        Ok(path) => Ok(path),
        Err(PathFault::Memory) => Err(ReadError::Memory),
        Err(_) => Err(ReadError::Bad),
    }
}

/// The path.
pub fn path(alloc: Global, value: &Value) -> Result<PkgPath, ReadError>
    ensures { Gives (λ p. p) result (path_at (view value.now)) }
{
    path_of(alloc, text(value, "path")?)
}

/// The bytes that the digits encode.
pub fn bytes_of(alloc: Global, text: &str) -> Result<Vec<u8>, ReadError>
    ensures { Gives (λ v. v.items) result (answer_in (decode_of text.now)) }
{
    decoded(alloc, text.as_bytes())
}

/// The bytes of hexadecimal digits in either case.
pub fn hex(alloc: Global, value: &Value) -> Result<Vec<u8>, ReadError>
    ensures { Gives (λ v. v.items) result (hex_at (view value.now)) }
{
    bytes_of(alloc, text(value, "hex")?)
}

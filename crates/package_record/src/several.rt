//! Parsing of a text as the records of a build.
ghost use Rattle.std.specs.Prelude.{◌≡◌, ◌∷◌, [], IfOk};
ghost use Rattle.faults.specs.Answers.{IsRightUnless, map_ok};
ghost use Rattle.package_record.specs.BuildReading.{
  first_build_of,
  is_several,
  next_of,
  packages_of,
  records_in,
  several_of,
  whole_build_of,
  whole_several_of,
};
ghost use Rattle.package_record.specs.inside.Given.{Gives};

use crate::cursor::Cursor;
use crate::fault::ReadError;
use crate::number::number_within;
use crate::sharing::may_follow;
use crate::{LIMIT, MOST_PACKAGES, Record, RecordFault};
use faults::Memory;
use std::alloc::Global;

/// Whether the first line is that of a build of two or more.
#[tactic(auto, unfolding(crate::specs::Content::ended))]
fn is_several(text: &[u8]) -> bool
    ensures { result ≡ is_several text.now }
{
    text.starts_with(b"@dpb 2\n")
}

/// The number of records, and the text after the two lines.
#[tactic(auto, unfolding(crate::specs::BuildReading::packages_of))]
fn packages(text: &[u8]) -> Result<(u64, &[u8]), ReadError>
    ensures { Gives (λ x. (x.0, x.1.now)) result (packages_of text.entry.now) }
{
    let start = Cursor {
        rest: text,
        passed: 0,
    };
    let (_version, place) = start.line()?;
    let (count, place) = place.field(b"@packages ")?;
    let count = number_within(2, MOST_PACKAGES as u64, place.passed, count)?;
    Ok((count, place.rest))
}

/// The record at the front of the rest of a text of this length, after these records, and the text
/// after it.
fn next_record<'a>(
    alloc: Global,
    length: usize,
    records: &[Record],
    text: &'a [u8],
) -> Result<(Record, &'a [u8]), RecordFault>
    ensures { IsRightUnless RecordFault.Memory (map_ok (λ x. (x.0, x.1.now)) result)
        (next_of length records.now text.entry.now) }
{
    let (record, taken) = Record::read_first(alloc, text)?;
    let rest = &text[taken..];
    if length.saturating_sub(rest.len()) > LIMIT {
        return Err(RecordFault::TooLarge);
    }
    may_follow(records, &record)?;
    Ok((record, rest))
}

/// This number of records at the front of the rest of a text of this length, and the text after
/// them.
fn read_records<'a>(
    alloc: Global,
    length: usize,
    count: u64,
    text: &'a [u8],
) -> Result<(Vec<Record>, &'a [u8]), RecordFault>
    ensures { IsRightUnless RecordFault.Memory (map_ok (λ x. (x.0.items, x.1.now)) result)
        (records_in length count [] text.entry.now) }
{
    let mut records = Vec::new(alloc);
    let mut rest = text;
    let mut left = count;
    while left > 0 {
        let (record, behind) = next_record(alloc, length, records.as_slice(), rest)?;
        records.push(record)?;
        rest = behind;
        left -= 1;
    }
    Ok((records, rest))
}

fn first_several<'a>(alloc: Global, text: &'a [u8]) -> Result<(Vec<Record>, &'a [u8]), RecordFault>
    ensures { IsRightUnless RecordFault.Memory (map_ok (λ x. (x.0.items, x.1.now)) result)
        (several_of text.entry.now) }
{
    let (count, behind) = packages(text)?;
    read_records(alloc, text.len(), count, behind)
}

fn whole_several(alloc: Global, text: &[u8]) -> Result<Vec<Record>, RecordFault>
    ensures { IsRightUnless RecordFault.Memory (map_ok (λ x. x.items) result)
        (whole_several_of text.now) }
{
    if text.len() > LIMIT {
        return Err(RecordFault::TooLarge);
    }
    let (records, rest) = first_several(alloc, text)?;
    if !rest.is_empty() {
        return Err(RecordFault::Trailing);
    }
    Ok(records)
}

/// The list of only this record.
fn alone(alloc: Global, only: Record) -> Result<Vec<Record>, Memory>
    ensures { IfOk result (λ records. records.items ≡ only ∷ []) }
{
    let mut records = Vec::with_capacity(alloc, 1)?;
    records.push(only)?;
    Ok(records)
}

/// The records of the build that is the whole text.
pub fn whole(alloc: Global, text: &[u8]) -> Result<Vec<Record>, RecordFault>
    ensures { IsRightUnless RecordFault.Memory (map_ok (λ x. x.items) result)
        (whole_build_of text.now) }
{
    if is_several(text) {
        return whole_several(alloc, text);
    }
    let record = Record::parse(alloc, text)?;
    Ok(alone(alloc, record)?)
}

/// The records of the build at the front, and the text after them.
pub fn first<'a>(alloc: Global, text: &'a [u8]) -> Result<(Vec<Record>, &'a [u8]), RecordFault>
    ensures { IsRightUnless RecordFault.Memory (map_ok (λ x. (x.0.items, x.1.now)) result)
        (first_build_of text.entry.now) }
{
    if is_several(text) {
        return first_several(alloc, text);
    }
    let (record, taken) = Record::read_first(alloc, text)?;
    let records = alone(alloc, record)?;
    Ok((records, &text[taken..]))
}

//! The fields of datagrams and notes, each parsed from the front of the text.
ghost use Rattle.std.specs.Prelude.{◌≡◌, ◌≤◌, IfOk, length};
ghost use Rattle.package_record.specs.BuildReading.{whole_build_of};
ghost use Rattle.wire.specs.inside.Given.{Gives};
ghost use Rattle.wire.specs.Reading.{
  build_at,
  build_in,
  bytes_at,
  claim_at,
  front_at,
  kind_at,
  number_at,
  path_at,
  path_in,
};

use crate::WireFault;
use crate::fault::ReadError;
use byteorder::{BigEndian, ByteOrder};
use claims::{Claim, GREATEST_ROUND, MEMBERS};
use package_record::{Build, LIMIT, RecordFault};
use pkgpath::{PathFault, PkgPath};
use std::alloc::Global;

/// The first fields of each datagram.
#[derive(Drop)]
pub struct Front {
    pub kind: u8,
    pub sender: u8,
    pub tree: [u8; 32],
    pub path: PkgPath,
}

/// The fault that a field is not as it has to be.
fn bad_field() -> ReadError
    ensures { result ≡ ReadError.Fault WireFault.BadField }
{
    ReadError::Fault(WireFault::BadField)
}

/// This number of bytes, and what follows them.
pub fn bytes<'a>(n: usize, text: &'a [u8]) -> Result<(&'a [u8], &'a [u8]), ReadError>
    ensures gives { Gives (λ x. (x.0.now, x.1.now)) result (bytes_at n text.entry.now) }
    ensures length { IfOk result (λ x. length x.0.now ≡ n) }
{
    if n > text.len() {
        return Err(ReadError::Fault(WireFault::Truncated));
    }
    Ok(text.split_at(n))
}

/// A big-endian number of n bytes, in this range.
#[tactic(auto, unfolding(crate::specs::Reading::number_at))]
pub fn number<'a>(
    n: usize,
    least: u64,
    greatest: u64,
    text: &'a [u8],
) -> Result<(u64, &'a [u8]), ReadError>
    requires some { 1 ≤ n }
    requires few { n ≤ 8 }
    ensures gives { Gives (λ x. (x.0, x.1.now)) result (number_at n least greatest text.entry.now) }
    ensures least { IfOk result (λ x. least ≤ x.0) }
    ensures greatest { IfOk result (λ x. x.0 ≤ greatest) }
{
    let (field, rest) = bytes(n, text)?;
    let value = BigEndian::read_uint(field, n);
    if least <= value && value <= greatest {
        Ok((value, rest))
    } else {
        Err(bad_field())
    }
}

/// A round and a member.
#[tactic(auto, unfolding(crate::specs::Reading::claim_at))]
pub fn claim(text: &[u8]) -> Result<(Claim, &[u8]), ReadError>
    ensures { Gives (λ x. (x.0, x.1.now)) result (claim_at text.entry.now) }
{
    let (round, text) = number(8, 1, GREATEST_ROUND, text)?;
    let (member, text) = number(1, 0, u64::from(MEMBERS) - 1, text)?;
    let claim = Claim {
        round,
        member: member as u8,
    };
    Ok((claim, text))
}

/// The text as a path, which has to be in its canonical form.
#[tactic(auto, unfolding(crate::specs::Reading::path_in))]
fn canonical_path(alloc: Global, text: &[u8]) -> Result<PkgPath, ReadError>
    ensures { Gives (λ path. path) result (path_in text.now) }
{
    match PkgPath::parse(alloc, text) {
        Ok(path) if path.as_bytes() == text => Ok(path),
        Err(PathFault::Memory) => Err(ReadError::Memory),
        _ => Err(bad_field()),
    }
}

/// A path in its canonical form, preceded by its length.
#[tactic(auto, unfolding(crate::specs::Reading::path_at))]
pub fn path<'a>(alloc: Global, text: &'a [u8]) -> Result<(PkgPath, &'a [u8]), ReadError>
    ensures { Gives (λ x. (x.0, x.1.now)) result (path_at text.entry.now) }
{
    let (size, text) = number(2, 1, 255, text)?;
    let (field, text) = bytes(size as usize, text)?;
    let path = canonical_path(alloc, field)?;
    Ok((path, text))
}

/// One of these kinds.
#[tactic(auto, unfolding(crate::specs::Reading::kind_at))]
pub fn kind<'a>(kinds: &[u8], text: &'a [u8]) -> Result<(u8, &'a [u8]), ReadError>
    ensures { Gives (λ x. (x.0, x.1.now)) result (kind_at kinds.now text.entry.now) }
{
    let (field, rest) = bytes(1, text)?;
    let kind = field[0];
    if kinds.contains(&kind) {
        Ok((kind, rest))
    } else {
        Err(ReadError::Fault(WireFault::Kind))
    }
}

/// The build of this unit that is the whole text.
pub fn whole_build(alloc: Global, unit: &PkgPath, text: &[u8]) -> Result<Build, ReadError>
    ensures { Gives (λ build. build) result (build_in unit.now (whole_build_of text.now)) }
{
    match Build::parse(alloc, text) {
        Ok(build) if build.unit_path().as_bytes() == unit.as_bytes() => Ok(build),
        Err(RecordFault::Memory) => Err(ReadError::Memory),
        _ => Err(bad_field()),
    }
}

/// A build of this unit, preceded by the length of its text.
#[tactic(auto, unfolding(crate::specs::Reading::build_at))]
pub fn build<'a>(
    alloc: Global,
    unit: &PkgPath,
    text: &'a [u8],
) -> Result<(Build, &'a [u8]), ReadError>
    ensures { Gives (λ x. (x.0, x.1.now)) result (build_at unit.now text.entry.now) }
{
    let (size, text) = number(4, 0, LIMIT as u64, text)?;
    let (field, text) = bytes(size as usize, text)?;
    let build = whole_build(alloc, unit, field)?;
    Ok((build, text))
}

/// The digest of a tree.
fn digest(text: &[u8]) -> Result<([u8; 32], &[u8]), ReadError>
    ensures { Gives (λ x. (x.0, x.1.now)) result (bytes_at 32 text.entry.now) }
{
    let (field, rest) = bytes(32, text)?;
    let mut digest = [0; 32];
    digest.copy_from_slice(field);
    Ok((digest, rest))
}

/// The first fields of each datagram, after the four bytes that identify its format.
#[tactic(auto, unfolding(crate::specs::Reading::front_at))]
pub fn first_fields<'a>(
    alloc: Global,
    kinds: &[u8],
    text: &'a [u8],
) -> Result<(Front, &'a [u8]), ReadError>
    ensures { Gives (λ x. (x.0, x.1.now)) result (front_at kinds.now text.entry.now) }
{
    let (kind, text) = kind(kinds, text)?;
    let (sender, text) = number(1, 0, u64::from(MEMBERS) - 1, text)?;
    let (tree, text) = digest(text)?;
    let (path, text) = path(alloc, text)?;
    let front = Front {
        kind,
        sender: sender as u8,
        tree,
        path,
    };
    Ok((front, text))
}

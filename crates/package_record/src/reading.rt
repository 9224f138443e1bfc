//! The lines of a header, each parsed from left to right.
ghost use Rattle.std.specs.Prelude.{◌≡◌};
ghost use Rattle.package_record.specs.inside.Cursor.{cursor_view};
ghost use Rattle.package_record.specs.inside.Given.{Gives};
ghost use Rattle.package_record.specs.Reading.{
  claim_at,
  claim_in,
  cut_in,
  dependency_in,
  digest_in,
  host_at,
  name_at,
  name_in,
  path_at,
  path_in,
  version_at,
};

use crate::cursor::Cursor;
use crate::digest::digest_of;
use crate::fault::ReadError;
use crate::number::number_within;
use crate::{GREATEST_HOST, RecordFault};
use claims::{Claim, Dep, GREATEST_ROUND, MEMBERS, NameFault, PathFault, PkgName, PkgPath};
use faults::split_once;
use std::alloc::Global;

/// The fault that the line is not the one expected there.
fn bad_line(line: u64) -> ReadError
    ensures { result ≡ ReadError.Fault (RecordFault.BadLine line) }
{
    ReadError::Fault(RecordFault::BadLine(line))
}

/// The text as a package path, which has to be in its canonical form.
#[tactic(auto, unfolding(crate::specs::Reading::path_in))]
pub fn path(alloc: Global, line: u64, text: &[u8]) -> Result<PkgPath, ReadError>
    ensures { Gives (λ path. path) result (path_in line text.now) }
{
    match PkgPath::parse(alloc, text) {
        Ok(path) if path.as_bytes() == text => Ok(path),
        Err(PathFault::Memory) => Err(ReadError::Memory),
        _ => Err(bad_line(line)),
    }
}

/// The text as a package name.
#[tactic(auto, unfolding(crate::specs::Reading::name_in))]
fn name(alloc: Global, line: u64, text: &[u8]) -> Result<PkgName, ReadError>
    ensures { Gives (λ name. name) result (name_in line text.now) }
{
    match PkgName::parse(alloc, text) {
        Ok(name) if name.as_bytes() == text => Ok(name),
        Err(NameFault::Memory) => Err(ReadError::Memory),
        _ => Err(bad_line(line)),
    }
}

/// The bytes that 64 lower-case hexadecimal digits encode.
#[tactic(auto, unfolding(crate::specs::Reading::digest_in))]
pub fn digest(line: u64, text: &[u8]) -> Result<[u8; 32], ReadError>
    ensures { Gives (λ digest. digest) result (digest_in line text.now) }
{
    digest_of(text).ok_or(bad_line(line))
}

/// The text before the first such byte, and the text after it.
#[tactic(auto, unfolding(crate::specs::Reading::cut_in))]
fn cut<'a>(byte: u8, line: u64, text: &'a [u8]) -> Result<(&'a [u8], &'a [u8]), ReadError>
    ensures { Gives (λ x. (x.0.now, x.1.now)) result (cut_in byte line text.entry.now) }
{
    match split_once(text, byte) {
        Some((front, behind)) => Ok((front, behind)),
        None => Err(bad_line(line)),
    }
}

/// A path, a name and a digest, separated by single spaces.
#[tactic(auto, unfolding(crate::specs::Reading::dependency_in))]
pub fn dependency(alloc: Global, line: u64, text: &[u8]) -> Result<Dep, ReadError>
    ensures { Gives (λ dep. dep) result (dependency_in line text.now) }
{
    let (path_text, text) = cut(b' ', line, text)?;
    let path = path(alloc, line, path_text)?;
    let (name_text, text) = cut(b' ', line, text)?;
    let name = name(alloc, line, name_text)?;
    let digest = digest(line, text)?;
    Ok(Dep { path, name, digest })
}

/// The line `@dpb 1`.
#[tactic(auto, unfolding(crate::specs::Reading::version_at))]
pub fn version_line(place: Cursor<'_>) -> Result<Cursor<'_>, ReadError>
    ensures { Gives (λ x. cursor_view x) result (version_at (cursor_view place.entry)) }
{
    let (line, after) = place.line()?;
    if line != b"@dpb 1".as_slice() {
        return Err(after.bad_line());
    }
    Ok(after)
}

/// The line `@name NAME`.
#[tactic(auto, unfolding(crate::specs::Reading::name_at))]
pub fn name_line(alloc: Global, place: Cursor<'_>) -> Result<(PkgName, Cursor<'_>), ReadError>
    ensures { Gives (λ x. (x.0, cursor_view x.1)) result (name_at (cursor_view place.entry)) }
{
    let (text, after) = place.field(b"@name ")?;
    let name = name(alloc, after.passed, text)?;
    Ok((name, after))
}

/// The line `@comment pkgpath=PATH`.
#[tactic(auto, unfolding(crate::specs::Reading::path_at))]
pub fn path_line(alloc: Global, place: Cursor<'_>) -> Result<(PkgPath, Cursor<'_>), ReadError>
    ensures { Gives (λ x. (x.0, cursor_view x.1)) result (path_at (cursor_view place.entry)) }
{
    let (text, after) = place.field(b"@comment pkgpath=")?;
    let path = path(alloc, after.passed, text)?;
    Ok((path, after))
}

/// The line `@host N`.
#[tactic(auto, unfolding(crate::specs::Reading::host_at))]
pub fn host_line(place: Cursor<'_>) -> Result<(u16, Cursor<'_>), ReadError>
    ensures { Gives (λ x. (x.0, cursor_view x.1)) result (host_at (cursor_view place.entry)) }
{
    let (text, after) = place.field(b"@host ")?;
    let host = number_within(0, u64::from(GREATEST_HOST), after.passed, text)?;
    Ok((host as u16, after))
}

/// A round and a member, separated by a dot.
#[tactic(auto, unfolding(crate::specs::Reading::claim_in))]
fn claim(line: u64, text: &[u8]) -> Result<Claim, ReadError>
    ensures { Gives (λ claim. claim) result (claim_in line text.now) }
{
    let (round, member) = cut(b'.', line, text)?;
    let round = number_within(1, GREATEST_ROUND, line, round)?;
    let member = number_within(0, u64::from(MEMBERS) - 1, line, member)?;
    Ok(Claim {
        round,
        member: member as u8,
    })
}

/// The line `@claim ROUND.MEMBER`.
#[tactic(auto, unfolding(crate::specs::Reading::claim_at))]
pub fn claim_line(place: Cursor<'_>) -> Result<(Claim, Cursor<'_>), ReadError>
    ensures { Gives (λ x. (x.0, cursor_view x.1)) result (claim_at (cursor_view place.entry)) }
{
    let (text, after) = place.field(b"@claim ")?;
    let claim = claim(after.passed, text)?;
    Ok((claim, after))
}

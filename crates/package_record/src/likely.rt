//! Whether a text may begin with that of a known record. These tests cost no more than the text is
//! long: they end where the text does, and write nothing.

use crate::room::{BUILT, LEAST_FILE, RUN};
use crate::{File, Record};
use claims::{Dep, PkgPath};

/// The maximum number of digits of a number.
const DIGITS: usize = 20;

/// The text after these parts, if it begins with them, one after the other.
fn behind_all<'a>(parts: &[&[u8]], text: &'a [u8]) -> Option<&'a [u8]> {
    let mut rest = text;
    for part in parts {
        rest = rest.strip_prefix(*part)?;
    }
    Some(rest)
}

/// The text after the digits that it begins with, if they are those of the number.
fn behind_number(number: u64, text: &[u8]) -> Option<&[u8]> {
    let mut value: u64 = 0;
    let mut rest = text;
    for _ in 0..DIGITS {
        match rest.split_first() {
            Some((digit, behind)) if digit.is_ascii_digit() => {
                value = value
                    .saturating_mul(10)
                    .saturating_add(u64::from(*digit - b'0'));
                rest = behind;
            }
            _ => break,
        }
    }
    if value == number && rest.len() < text.len() {
        Some(rest)
    } else {
        None
    }
}

/// The text after the record's first five lines, if it begins with them. An honest build by another
/// host differs in the fourth, one under another claim in the fifth.
fn behind_front<'a>(own: &Record, text: &'a [u8]) -> Option<&'a [u8]> {
    let names = [
        b"@dpb 1\n@name ".as_slice(),
        own.name().as_bytes(),
        b"\n@comment pkgpath=".as_slice(),
        own.path().as_bytes(),
        b"\n@host ".as_slice(),
    ];
    let claim = own.claim();
    let rest = behind_all(&names, text)?;
    let rest = behind_number(u64::from(own.host()), rest)?;
    let rest = rest.strip_prefix(b"\n@claim ")?;
    let rest = behind_number(claim.round, rest)?;
    let rest = rest.strip_prefix(b".")?;
    let rest = behind_number(u64::from(claim.member), rest)?;
    rest.strip_prefix(b"\n")
}

/// What is left of this room after the lines of these dependencies.
fn behind_built(room: usize, deps: &[Dep]) -> Option<usize> {
    let mut left = room;
    for dep in deps {
        left = left
            .checked_sub(BUILT)?
            .checked_sub(dep.path.as_bytes().len())?
            .checked_sub(dep.name.as_bytes().len())?;
    }
    Some(left)
}

/// What is left of this room after the lines of these paths to run.
fn behind_run(room: usize, paths: &[PkgPath]) -> Option<usize> {
    let mut left = room;
    for path in paths {
        left = left.checked_sub(RUN)?.checked_sub(path.as_bytes().len())?;
    }
    Some(left)
}

/// The most that is left of this room after the lines and the bytes of these files.
fn behind_files(room: usize, files: &[File]) -> Option<usize> {
    let mut left = room;
    for file in files {
        left = left
            .checked_sub(LEAST_FILE)?
            .checked_sub(file.name.len())?
            .checked_sub(file.bytes.len())?;
    }
    Some(left)
}

/// The most that is left of this room after all that follows the record's first five lines, except
/// for the empty line.
fn behind_others(room: usize, own: &Record) -> Option<usize> {
    let left = behind_built(room, own.built())?;
    let left = behind_run(left, own.run())?;
    behind_files(left, own.files())
}

/// Whether the text may begin with the record's: it has its first five lines, and at least as many
/// bytes after them as the rest of the record takes. If so, the record's header is not longer than
/// the text, because a file's size has no more digits than the file has bytes, or one digit.
pub fn may_begin_with(own: &Record, text: &[u8]) -> bool {
    let Some(rest) = behind_front(own, text) else {
        return false;
    };
    match behind_others(rest.len(), own) {
        Some(left) => left > 0,
        None => false,
    }
}

//! The header of a record, line by line.
ghost use Rattle.std.specs.Prelude.{◌≡◌, ◌+◌, ◌≤◌, ◌++◌, ◌∷◌, [], Some, IfOk, IfSome, map, option_map, sum_by};
ghost use Rattle.package_record.specs.Content.{most_bytes};
ghost use Rattle.package_record.specs.inside.Cursor.{cursor_view};
ghost use Rattle.package_record.specs.inside.Given.{Gives};
ghost use Rattle.package_record.specs.inside.Heads.{front_of, head_of, header_view};
ghost use Rattle.package_record.specs.inside.Names.{names_in};
ghost use Rattle.package_record.specs.Reading.{all_at, built_at, entry_at, file_at, front_at, head_at, header_of, run_at, total_of};

use crate::RecordFault;
use crate::cursor::Cursor;
use crate::fault::ReadError;
use crate::names::admit;
use crate::number::size;
use crate::reading::{
    claim_line, dependency, digest, host_line, name_line, path, path_line, version_line,
};
use claims::{Claim, Dep, PkgName, PkgPath};
use indexmap::IndexSet;
use std::alloc::Global;

/// The contents of the first five lines.
#[derive(Drop)]
pub struct Front {
    pub name: PkgName,
    pub path: PkgPath,
    pub host: u16,
    pub claim: Claim,
}

/// The contents of the lines of a file, and the number of the line with the digest.
#[derive(Clone, Copy)]
pub struct Head<'a> {
    pub name: &'a [u8],
    pub digest: [u8; 32],
    pub size: usize,
    pub line: u64,
}

/// The five lines that each record begins with.
#[tactic(auto, unfolding(crate::specs::Reading::front_at))]
pub fn front_lines<'a>(alloc: Global, place: Cursor<'a>) -> Result<(Front, Cursor<'a>), ReadError>
    ensures { Gives (λ x. (front_of x.0, cursor_view x.1)) result
        (front_at (cursor_view place.entry)) }
{
    let place = version_line(place)?;
    let (name, place) = name_line(alloc, place)?;
    let (path, place) = path_line(alloc, place)?;
    let (host, place) = host_line(place)?;
    let (claim, place) = claim_line(place)?;
    let front = Front {
        name,
        path,
        host,
        claim,
    };
    Ok((front, place))
}

#[tactic(auto, unfolding(crate::specs::Reading::built_at))]
fn built_line<'a>(
    alloc: Global,
    deps: &[Dep],
    place: Cursor<'a>,
) -> Result<(Option<Dep>, Cursor<'a>), ReadError>
    ensures { Gives (λ x. (x.0, cursor_view x.1)) result
        (built_at deps.now (cursor_view place.entry)) }
{
    let (line, after) = place.line()?;
    let Some(text) = line.strip_prefix(b"@built ") else {
        return Ok((None, place));
    };
    let dep = dependency(alloc, after.passed, text)?;
    let is_above = match deps.last() {
        None => true,
        Some(before) => before.path < dep.path,
    };
    if !is_above {
        return Err(after.bad_line());
    }
    Ok((Some(dep), after))
}

#[tactic(auto, unfolding(crate::specs::Reading::run_at))]
fn run_line<'a>(
    alloc: Global,
    paths: &[PkgPath],
    place: Cursor<'a>,
) -> Result<(Option<PkgPath>, Cursor<'a>), ReadError>
    ensures { Gives (λ x. (x.0, cursor_view x.1)) result
        (run_at paths.now (cursor_view place.entry)) }
{
    let (line, after) = place.line()?;
    let Some(text) = line.strip_prefix(b"@run ") else {
        return Ok((None, place));
    };
    let path = path(alloc, after.passed, text)?;
    let is_above = match paths.last() {
        None => true,
        Some(before) => *before < path,
    };
    if !is_above {
        return Err(after.bad_line());
    }
    Ok((Some(path), after))
}

#[tactic(auto, unfolding(crate::specs::Reading::head_at))]
fn head_lines<'a>(
    total: usize,
    name: &'a [u8],
    place: Cursor<'a>,
) -> Result<(Head<'a>, Cursor<'a>), ReadError>
    requires { total ≤ most_bytes }
    ensures head { Gives (λ x. (Some (head_of x.0), cursor_view x.1)) result
        (head_at total name.entry.now (cursor_view place.entry)) }
    ensures within { IfOk result (λ x. total + x.0.size ≤ most_bytes) }
    ensures name { IfOk result (λ x. x.0.name.now ≡ name.entry.now) }
{
    let (text, after) = place.field(b"@sha ")?;
    let line = after.passed;
    let digest = digest(line, text)?;
    let (text, after) = after.field(b"@size ")?;
    let size = size(total, after.passed, text)?;
    let head = Head {
        name,
        digest,
        size,
        line,
    };
    Ok((head, after))
}

#[tactic(auto, unfolding(crate::specs::Reading::entry_at))]
fn entry<'a>(
    names: &mut IndexSet<&'a [u8]>,
    total: usize,
    place: Cursor<'a>,
) -> Result<(Option<Head<'a>>, Cursor<'a>), ReadError>
    requires { total ≤ most_bytes }
    ensures entry { Gives (λ x. (option_map head_of x.0, cursor_view x.1)) result
        (entry_at (names_in names.old) total (cursor_view place.entry)) }
    ensures within { IfOk result (λ x. IfSome x.0 (λ h. total + h.size ≤ most_bytes)) }
    ensures entered { IfOk result (λ x. IfSome x.0 (λ h.
        names_in names.new ≡ names_in names.old ++ h.name.now ∷ [])) }
{
    let (line, after) = place.line()?;
    if line.is_empty() {
        return Ok((None, after));
    }
    if line.starts_with(b"@") {
        return Err(after.bad_line());
    }
    if !admit(names, line)? {
        return Err(ReadError::Fault(RecordFault::BadFileName(after.passed)));
    }
    let (head, after) = head_lines(total, line, after)?;
    Ok((Some(head), after))
}

fn built_lines<'a>(alloc: Global, start: Cursor<'a>) -> Result<(Vec<Dep>, Cursor<'a>), ReadError>
    ensures { Gives (λ x. (x.0.items, cursor_view x.1)) result
        (all_at built_at (cursor_view start.entry)) }
{
    let mut deps = Vec::new(alloc);
    let mut place = start;
    'lines: loop {
        let (next, after) = built_line(alloc, deps.as_slice(), place)?;
        let Some(dep) = next else {
            return Ok((deps, after));
        };
        deps.push(dep)?;
        place = after;
    }
}

fn run_lines<'a>(alloc: Global, start: Cursor<'a>) -> Result<(Vec<PkgPath>, Cursor<'a>), ReadError>
    ensures { Gives (λ x. (x.0.items, cursor_view x.1)) result
        (all_at run_at (cursor_view start.entry)) }
{
    let mut paths = Vec::new(alloc);
    let mut place = start;
    'lines: loop {
        let (next, after) = run_line(alloc, paths.as_slice(), place)?;
        let Some(path) = next else {
            return Ok((paths, after));
        };
        paths.push(path)?;
        place = after;
    }
}

/// The contents of the files' lines, up to the empty line, and the total of the sizes.
#[derive(Drop)]
pub struct Heads<'a> {
    pub items: Vec<Head<'a>>,
    pub total: usize,
}

fn file_lines<'a>(alloc: Global, start: Cursor<'a>) -> Result<(Heads<'a>, Cursor<'a>), ReadError>
    ensures heads { Gives (λ x. (map head_of x.0.items.items, cursor_view x.1)) result
        (all_at file_at (cursor_view start.entry)) }
    ensures total { IfOk result (λ x.
        x.0.total ≡ sum_by (λ h. h.size) (map head_of x.0.items.items)) }
    ensures within { IfOk result (λ x. x.0.total ≤ most_bytes) }
{
    let mut heads = Vec::new(alloc);
    let mut names = IndexSet::new(alloc);
    let mut total = 0;
    let mut place = start;
    'files: loop {
        let (next, after) = entry(&mut names, total, place)?;
        let Some(head) = next else {
            let heads = Heads {
                items: heads,
                total,
            };
            return Ok((heads, after));
        };
        heads.push(head)?;
        total += head.size;
        place = after;
    }
}

/// The contents of a header.
#[derive(Drop)]
pub struct Header<'a> {
    pub front: Front,
    pub built: Vec<Dep>,
    pub run: Vec<PkgPath>,
    pub heads: Heads<'a>,
}

/// The header, and the bytes after it.
#[tactic(auto, unfolding(crate::specs::Reading::header_of))]
pub fn read_header<'a>(alloc: Global, text: &'a [u8]) -> Result<(Header<'a>, &'a [u8]), ReadError>
    ensures header { Gives (λ x. (header_view x.0, x.1.now)) result (header_of text.entry.now) }
    ensures total { IfOk result (λ x. x.0.heads.total ≡ total_of (header_view x.0)) }
    ensures within { IfOk result (λ x. x.0.heads.total ≤ most_bytes) }
{
    let place = Cursor {
        rest: text,
        passed: 0,
    };
    let (front, place) = front_lines(alloc, place)?;
    let (built, place) = built_lines(alloc, place)?;
    let (run, place) = run_lines(alloc, place)?;
    let (heads, place) = file_lines(alloc, place)?;
    let header = Header {
        front,
        built,
        run,
        heads,
    };
    Ok((header, place.rest))
}

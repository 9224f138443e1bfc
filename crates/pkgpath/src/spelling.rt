//! Parsing of a text as a path, and the canonical form of that.
ghost use Rattle.std.specs.Prelude.{◌≡◌, ◌<◌, ◌≤◌, ◌++◌, ◌∷◌, [], not, filter, length, nat_lt, option_to_list, take, ◌&&◌, ◌==◌, if◌then◌else◌, IfOk, MatchOption, OnOk};
ghost use Rattle.std.specs.List.{flat_map};
ghost use Rattle.std.specs.Option.{option_copied};
ghost use Rattle.faults.specs.Answers.{IsRightUnless, first_that_applies, map_ok};
ghost use Rattle.faults.specs.Bytes.{comma, has_byte, slash};
ghost use Rattle.faults.specs.Pieces.{pieces_at, set_of};
ghost use Rattle.pkgpath.specs.Kind.{IsTally};
ghost use Rattle.pkgpath.specs.PkgPath as grammar;

use crate::PathFault;
use crate::flavors::flavor_set;
use crate::grammar::is_directory;
use crate::parts::{Tally, count_parts};
use faults::{SharedBytes, split_once};
use std::alloc::{AllocError, Global};

/// The maximum length of a path's text in bytes.
const LONGEST: usize = 255;

fn directory_fault(directory: &[u8]) -> Option<PathFault>
    ensures { result ≡ first_that_applies (
        (not (has_byte slash directory.now), PathFault.NoSlash)
        ∷ (not (grammar.is_directory directory.now), PathFault.BadByte) ∷ []) }
{
    if !directory.contains(&b'/') {
        Some(PathFault::NoSlash)
    } else if !is_directory(directory) {
        Some(PathFault::BadByte)
    } else {
        None
    }
}

/// The canonical form of a text without commas.
fn read_directory(alloc: Global, text: &[u8]) -> Result<SharedBytes, PathFault>
    requires filled { 0 < length text.now }
    requires short { length text.now ≤ grammar.most_bytes }
    requires alone { pieces_at comma text.now ≡ text.now ∷ [] }
    ensures { IsRightUnless PathFault.Memory result (grammar.path_of text.now) }
{
    if let Some(fault) = directory_fault(text) {
        return Err(fault);
    }
    Ok(SharedBytes::of(alloc, text)?)
}

/// Appends a comma and the part.
fn push_part(out: &mut Vec<u8>, part: &[u8]) -> Result<(), AllocError>
    ensures { OnOk result (out.new.items ≡ out.old.items ++ comma ∷ part.now) }
{
    out.push(b',')?;
    out.extend_from_slice(part)?;
    Ok(())
}

/// Appends a comma and the part, for each part.
fn push_parts(out: &mut Vec<u8>, parts: &[&[u8]]) -> Result<(), AllocError>
    ensures { OnOk result
        (out.new.items ≡ out.old.items ++ flat_map (λ part. comma ∷ part.now) parts.now) }
{
    for part in parts {
        push_part(out, part)?;
    }
    Ok(())
}

/// Appends a comma if the path is marked as having no flavor.
fn push_mark(out: &mut Vec<u8>, tally: &Tally<'_>) -> Result<(), AllocError>
    ensures { let mark = nat_lt 0 tally.now.empties && (tally.now.flavors == 0) in
        OnOk result (out.new.items ≡ out.old.items ++ (if mark then comma ∷ [] else [])) }
{
    if tally.empties > 0 && tally.flavors == 0 {
        out.push(b',')?;
    }
    Ok(())
}

/// Appends the flavors among the parts, in byte order and without repetition.
fn push_flavors(
    alloc: Global,
    out: &mut Vec<u8>,
    parts: &[u8],
    tally: &Tally<'_>,
) -> Result<(), AllocError>
    requires { IsTally tally.now (pieces_at comma parts.now) }
    ensures { OnOk result (out.new.items ≡ out.old.items
        ++ flat_map (λ part. comma ∷ part)
        (set_of (filter grammar.is_flavor (pieces_at comma parts.now)))) }
{
    if tally.flavors > 1 {
        let set = flavor_set(alloc, parts)?;
        push_parts(out, set.as_slice())?;
    } else if let Some(flavor) = tally.flavor {
        push_part(out, flavor)?;
    }
    Ok(())
}

fn push_subpackage(out: &mut Vec<u8>, subpackage: Option<&[u8]>) -> Result<(), AllocError>
    ensures { OnOk result (out.new.items ≡ out.old.items
        ++ flat_map (λ part. comma ∷ part) (option_to_list (option_copied subpackage.entry))) }
{
    if let Some(subpackage) = subpackage {
        push_part(out, subpackage)?;
    }
    Ok(())
}

/// The canonical form of a directory and the parts after it.
fn write_canonical(
    alloc: Global,
    capacity: usize,
    directory: &[u8],
    parts: &[u8],
    tally: &Tally<'_>,
) -> Result<Vec<u8>, AllocError>
    requires { IsTally tally.now (pieces_at comma parts.now) }
    ensures { IfOk result (λ v.
        v.items
        ≡ grammar.canonical_text (grammar.value_from directory.now (pieces_at comma parts.now))) }
{
    let mut text = Vec::with_capacity(alloc, capacity)?;
    text.extend_from_slice(directory)?;
    push_mark(&mut text, tally)?;
    push_flavors(alloc, &mut text, parts, tally)?;
    push_subpackage(&mut text, tally.subpackage)?;
    Ok(text)
}

/// The canonical form of a text that is split at its first comma.
fn read_parts(
    alloc: Global,
    text: &[u8],
    directory: &[u8],
    parts: &[u8],
) -> Result<Vec<u8>, PathFault>
    requires filled { 0 < length text.now }
    requires short { length text.now ≤ grammar.most_bytes }
    requires cut { pieces_at comma text.now ≡ directory.now ∷ pieces_at comma parts.now }
    ensures { IsRightUnless PathFault.Memory (map_ok (λ v. v.items) result)
        (grammar.path_of text.now) }
{
    if let Some(fault) = directory_fault(directory) {
        return Err(fault);
    }
    let Some(tally) = count_parts(parts) else {
        return Err(PathFault::BadByte);
    };
    if tally.subpackages > 1 {
        return Err(PathFault::TwoSubpackages);
    }
    if tally.empties > 1 {
        return Err(PathFault::TwoEmptyParts);
    }
    Ok(write_canonical(alloc, text.len(), directory, parts, &tally)?)
}

/// The canonical form of the path that the text spells.
pub(crate) fn canonical_text(alloc: Global, text: &[u8]) -> Result<SharedBytes, PathFault>
    ensures { IsRightUnless PathFault.Memory result (grammar.path_of text.now) }
{
    if text.is_empty() {
        return Err(PathFault::Empty);
    }
    if text.len() > LONGEST {
        return Err(PathFault::TooLong);
    }
    match split_once(text, b',') {
        None => read_directory(alloc, text),
        Some((directory, parts)) => {
            let canonical = read_parts(alloc, text, directory, parts)?;
            Ok(SharedBytes::of_vec(alloc, canonical)?)
        }
    }
}

/// The number of bytes of a path before the comma and its subpackage; all if it has none.
pub(crate) fn len_without_subpackage(text: &[u8]) -> usize
    requires { grammar.IsPath text.now }
    ensures text { take result text.now ≡ grammar.without_subpackage text.now }
    ensures within { result ≤ length text.now }
{
    match text.iter().rposition(|byte| *byte == b',') {
        None => text.len(),
        Some(last_comma) => {
            if text[last_comma + 1..].starts_with(b"-") {
                last_comma
            } else {
                text.len()
            }
        }
    }
}

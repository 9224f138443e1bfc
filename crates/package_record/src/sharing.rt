//! What the records of one build have in common.
ghost use Rattle.std.specs.Prelude.{◌≡◌, IfOk};
ghost use Rattle.std.specs.Cmp.Lexicographic.{pointwise};
ghost use Rattle.std.specs.Str.{bytes_eq};
ghost use Rattle.faults.specs.Answers.{IsRightUnless, unless_fault};
ghost use Rattle.claims.specs.PkgPath.{without_subpackage};
ghost use Rattle.package_record.specs.BuildReading.{is_next_path, is_same_dep, next_fault, unlike_fault};

use crate::{Record, RecordFault};
use claims::{Dep, PkgPath};
use faults::Memory;

fn is_same_dep(dep: &Dep, other: &Dep) -> bool
    ensures { result ≡ is_same_dep dep.now other.now }
{
    dep.path == other.path && dep.name == other.name && dep.digest == other.digest
}

/// Whether the lists are equal.
pub fn are_same_deps(deps: &[Dep], others: &[Dep]) -> bool
    ensures { result ≡ pointwise is_same_dep deps.now others.now }
{
    if deps.len() != others.len() {
        return false;
    }
    for (index, dep) in deps.iter().enumerate() {
        if !is_same_dep(dep, &others[index]) {
            return false;
        }
    }
    true
}

fn is_of_group(path: &PkgPath, other: &PkgPath) -> Result<bool, Memory>
    ensures { IfOk result (λ same.
        same ≡ bytes_eq (without_subpackage path.now) (without_subpackage other.now)) }
{
    let group = path.without_subpackage()?;
    let other_group = other.without_subpackage()?;
    Ok(group == other_group)
}

/// Whether the path may follow those of these records, of which `first` is the first.
fn is_next_path(records: &[Record], first: &Record, next: &Record) -> Result<bool, Memory>
    ensures { IfOk result (λ is_next. is_next ≡ is_next_path records.now first.now next.now) }
{
    let is_above = match records.last() {
        None => true,
        Some(before) => before.path() < next.path(),
    };
    if !is_above {
        return Ok(false);
    }
    is_of_group(next.path(), first.path())
}

fn is_alike(records: &[Record], first: &Record, next: &Record) -> Result<(), RecordFault>
    ensures { IsRightUnless RecordFault.Memory result
        (unless_fault (unlike_fault records.now first.now next.now) tt) }
{
    if !is_next_path(records, first, next)? {
        return Err(RecordFault::BadLine(3));
    }
    if next.host() != first.host() {
        return Err(RecordFault::BadLine(4));
    }
    if next.claim() != first.claim() {
        return Err(RecordFault::BadLine(5));
    }
    if !are_same_deps(next.built(), first.built()) {
        return Err(RecordFault::BadLine(6));
    }
    Ok(())
}

/// Tests whether the record may follow these in a build.
pub fn may_follow(records: &[Record], next: &Record) -> Result<(), RecordFault>
    ensures { IsRightUnless RecordFault.Memory result
        (unless_fault (next_fault records.now next.now) tt) }
{
    match records.first() {
        None => Ok(()),
        Some(first) => is_alike(records, first, next),
    }
}

//! Equality of records.
ghost use Rattle.std.specs.Prelude.{◌≡◌, map};
ghost use Rattle.std.specs.Cmp.Lexicographic.{pointwise};
ghost use Rattle.package_record.specs.FileView.{file_view};
ghost use Rattle.package_record.specs.inside.Same.{is_same_content, is_same_file};

use crate::sharing::are_same_deps;
use crate::{File, Record};

fn is_same_file(file: &File, other: &File) -> bool
    ensures { result ≡ is_same_file (file_view file.now) (file_view other.now) }
{
    file.name == other.name && file.bytes == other.bytes
}

fn are_same_files(files: &[File], others: &[File]) -> bool
    ensures { result
        ≡ pointwise is_same_file (map file_view files.now) (map file_view others.now) }
{
    if files.len() != others.len() {
        return false;
    }
    for (index, file) in files.iter().enumerate() {
        if !is_same_file(file, &others[index]) {
            return false;
        }
    }
    true
}

fn is_same_record(one: &Record, other: &Record) -> bool
    ensures { result ≡ is_same_content one.now other.now }
{
    one.path() == other.path()
        && one.name() == other.name()
        && one.host() == other.host()
        && one.claim() == other.claim()
        && are_same_deps(one.built(), other.built())
        && one.run() == other.run()
        && are_same_files(one.files(), other.files())
}

/// Whether the records are equal, pairwise.
pub fn are_same_records(records: &[Record], others: &[Record]) -> bool
    ensures { result ≡ pointwise is_same_content records.now others.now }
{
    if records.len() != others.len() {
        return false;
    }
    for (index, one) in records.iter().enumerate() {
        if !is_same_record(one, &others[index]) {
            return false;
        }
    }
    true
}

//! The records of the packages of a build.
ghost use Rattle.std.specs.Prelude.{◌≡◌, ◌+◌, All, IfOk, OnOk, length, true};
ghost use Rattle.faults.specs.Answers.{IsRightUnless, first_given, map_ok, unless_fault};
ghost use Rattle.claims.specs.Claim.{IsClaim};
ghost use Rattle.claims.specs.Deps.{AreInOrder, is_ascending};
ghost use Rattle.package_record.specs.Build.{build_text, lines_before};
ghost use Rattle.package_record.specs.Content.{AreFileNames, IsRecord, names_of, record_text};
ghost use Rattle.package_record.specs.Making.{names_fault, too_large};
ghost use Rattle.package_record.specs.Packages.{content_from, contents_of};

use crate::build::Package;
use crate::build_writing::put_lines;
use crate::fields::Fields;
use crate::hashed_files::HashedFiles;
use crate::making::test_names;
use crate::package::sized;
use crate::{LIMIT, Record, RecordFault};
use claims::{Claim, Deps};
use faults::Memory;
use std::alloc::Global;

/// Tests that the files of each package have valid names, and that none occurs twice in a package.
pub fn test_all_names(alloc: Global, packages: &[Package]) -> Result<(), RecordFault>
    ensures names { OnOk result
        (All (λ (p : Package). AreFileNames (names_of p.files)) packages.now) }
    ensures exact { IsRightUnless RecordFault.Memory result
        (unless_fault
        (first_given (λ (p : Package). names_fault (names_of p.files)) packages.now) tt) }
{
    for package in packages {
        test_names(alloc, package.files.as_slice())?;
    }
    Ok(())
}

/// The record of a package, and the length of its text.
fn record_of(
    alloc: Global,
    host: u16,
    claim: Claim,
    built: &Deps,
    source: Package,
) -> Result<(Record, usize), RecordFault>
    requires claim { IsClaim claim }
    requires built { AreInOrder built.now }
    requires run { is_ascending source.run.items ≡ true }
    requires names { AreFileNames (names_of source.files) }
    ensures record { IsRightUnless RecordFault.Memory (map_ok (λ x. x.0) result)
        (let content = content_from host claim built.now source in
        unless_fault (too_large (length (record_text content))) content) }
    ensures good { IfOk result (λ x. IsRecord x.0) }
    ensures length { IfOk result (λ x. x.1 ≡ length (record_text x.0)) }
{
    let Package {
        path,
        name,
        run,
        files,
    } = source;
    let built = built.copy()?;
    let files = HashedFiles::of(alloc, files.into_vec())?;
    let fields = Fields {
        path,
        name,
        host,
        claim,
        built,
        run,
        files,
    };
    sized(alloc, fields)
}

/// Tests that this number of bytes, and the lines before this number of records, don't exceed the
/// maximum length.
fn test_length(alloc: Global, count: usize, bytes: usize) -> Result<(), RecordFault>
    ensures { IsRightUnless RecordFault.Memory result
        (unless_fault (too_large (length (lines_before count) + bytes)) tt) }
{
    let mut lines = Vec::new(alloc);
    put_lines(&mut lines, count)?;
    if lines.len().saturating_add(bytes) > LIMIT {
        return Err(RecordFault::TooLarge);
    }
    Ok(())
}

/// The records of all packages, if their text as a whole doesn't exceed the maximum length.
pub fn gather(
    alloc: Global,
    host: u16,
    claim: Claim,
    built: &Deps,
    packages: Vec<Package>,
) -> Result<Vec<Record>, RecordFault>
    requires claim { IsClaim claim }
    requires built { AreInOrder built.now }
    requires run { All (λ (p : Package). is_ascending p.run.items ≡ true) packages.items }
    requires names { All (λ (p : Package). AreFileNames (names_of p.files)) packages.items }
    ensures records { IsRightUnless RecordFault.Memory (map_ok (λ x. x.items) result)
        (let contents = contents_of host claim built.now packages.items in
        unless_fault (too_large (length (build_text contents))) contents) }
    ensures good { IfOk result (λ x. All IsRecord x.items) }
{
    let mut bytes: usize = 0;
    let mut records = Vec::with_capacity(alloc, packages.len())?;
    for package in packages {
        let (record, length) = record_of(alloc, host, claim, built, package)?;
        bytes = bytes.saturating_add(length);
        if bytes > LIMIT {
            return Err(RecordFault::TooLarge);
        }
        records.push(record)?;
    }
    test_length(alloc, records.len(), bytes)?;
    Ok(records)
}

//! A build. Contracts see it as the contents of its records.
ghost use Rattle.std.specs.Prelude.{◌≡◌, ◌≤◌, ◌<◌, ◌++◌, All, Ok, drop, length, map, take, true, IfOk, OnOk, OnErr};
ghost use Rattle.std.specs.Bool.{Decides};
ghost use Rattle.faults.specs.Answers.{IsRightUnless, map_ok, unless_fault};
ghost use Rattle.claims.specs.Claim.{IsClaim};
ghost use Rattle.claims.specs.Deps.{AreInOrder, is_ascending};
ghost use Rattle.package_record.specs.Build.{IsBuild, build_text, lines_before, most_packages, paths_of, unit_path};
ghost use Rattle.package_record.specs.BuildReading.{first_build_of, whole_build_of};
ghost use Rattle.package_record.specs.Making.{build_fault};
ghost use Rattle.package_record.specs.Packages.{AreOfOneGroup, contents_of};

use crate::equality::are_same_records;
use crate::gathering::{gather, test_all_names};
use crate::{Files, Record, RecordFault, build_writing, several};
use claims::{Claim, Deps, PkgName, PkgPath, Texts};
use faults::Memory;
use std::alloc::Global;
use std::marker::Model;
use std::rc::Rc;

/// One package of a build.
#[derive(Drop)]
pub struct Package {
    pub path: PkgPath,
    pub name: PkgName,
    /// The paths that the package needs to run.
    pub run: Vec<PkgPath>,
    pub files: Files,
}

/// The records of all packages of one build, ascending by path. There are 1 to 16,384 of them, all
/// of one group, with one host, one claim, and one list of what they were built on. The text of a
/// whole build has at most `LIMIT` bytes; that of a build of one package is its record's text.
/// Copies share the contents, which never change.
#[derive(Drop)]
pub struct Build {
    made: Rc<Made>,
}

/// The contents of a build.
#[derive(Drop)]
struct Made {
    /// The name of the unit that was built.
    unit: PkgPath,
    records: Vec<Record>,
}

impl Model for Build {
    ghost use Rattle.std.specs.Prelude.{◌≡◌, List};
    ghost use Rattle.package_record.specs.Build.{IsBuild, unit_path};
    ghost use Rattle.package_record.specs.Content.{Content};

    ghost Value = { List Content };

    ghost view = { λ b. b.made.value.records.items };

    ghost invariant = { λ b. IsBuild b.made.value.records.items
        × (b.made.value.unit ≡ unit_path b.made.value.records.items) };
}

impl Build {
    /// Makes a build. File names are tested first, package by package: `BadFileName` has the number
    /// of the file within the first package with a bad or repeated name. A text longer than `LIMIT`
    /// is `TooLarge`.
    pub fn make(
        alloc: Global,
        host: u16,
        claim: Claim,
        built: Deps,
        packages: Vec<Package>,
    ) -> Result<Build, RecordFault>
        requires claim { IsClaim claim }
        requires built { AreInOrder built }
        requires run { All (λ (p : Package). is_ascending p.run.items ≡ true) packages.items }
        requires some { 1 ≤ length packages.items }
        requires few { length packages.items ≤ most_packages }
        requires paths { is_ascending (map (λ (p : Package). p.path) packages.items) ≡ true }
        requires group { AreOfOneGroup packages.items }
        ensures { let contents = contents_of host claim built packages.items in
            IsRightUnless RecordFault.Memory result (unless_fault (build_fault contents) contents) }
    {
        test_all_names(alloc, packages.as_slice())?;
        let records = gather(alloc, host, claim, &built, packages)?;
        Ok(Build::of(records)?)
    }

    /// The build of these records.
    fn of(records: Vec<Record>) -> Result<Build, Memory>
        requires { IsBuild records.items }
        ensures { IfOk result (λ b. b ≡ records.items) }
    {
        let alloc: Global = *records.allocator();
        let unit = unit_of(records.as_slice())?;
        let made = Rc::new(alloc, Made { unit, records })?;
        Ok(Build { made })
    }

    /// The build with this text. A text that begins with the line `@dpb 2` is of two or more
    /// packages; any other is parsed by `Record::parse`. The tests are, in this order:
    ///
    /// 1. The length of the whole text: `TooLarge` if it exceeds `LIMIT`.
    /// 2. The line `@packages N`, N from 2 to 16,384: `Truncated` without its LF, and else
    ///    `BadLine` at 2 if it differs.
    /// 3. Each record, as by `Record::read_first`, and after each what it has to share with the
    ///    first one: a path that doesn't ascend or is of another group is `BadLine` at 3, another
    ///    host at 4, another claim at 5, another list of what it was built on at 6. Lines are
    ///    counted from the record's own first line.
    /// 4. The end: bytes after the build are `Trailing`.
    pub fn parse(alloc: Global, text: &[u8]) -> Result<Build, RecordFault>
        // The text is that of the result.
        ensures text { IfOk result (λ b. IsBuild b × (text.now ≡ build_text b)) }
        // Which build or fault it is.
        ensures exact { IsRightUnless RecordFault.Memory result (whole_build_of text.now) }
    {
        let records = several::whole(alloc, text)?;
        Ok(Build::of(records)?)
    }

    /// The build at the front of the text, and the length of its text in bytes. Anything may follow
    /// it. A text of one package is parsed by `Record::read_first`. For two or more the tests are
    /// those of `parse` without the last; the length is that of what was parsed so far, and is
    /// tested after each record.
    pub fn read_first(alloc: Global, text: &[u8]) -> Result<(Build, usize), RecordFault>
        ensures text { IfOk result (λ first.
            IsBuild first.0 × (take first.1 text.now ≡ build_text first.0)) }
        ensures length { IfOk result (λ first. first.1 ≡ length (build_text first.0)) }
        ensures exact { IsRightUnless RecordFault.Memory
            (map_ok (λ first. (first.0, drop first.1 text.now)) result)
            (first_build_of text.now) }
    {
        let (records, rest) = several::first(alloc, text)?;
        let length = text.len().saturating_sub(rest.len());
        let build = Build::of(records)?;
        Ok((build, length))
    }

    /// Appends the text, or nothing if memory runs out.
    pub fn write_to(&self, out: &mut Vec<u8>) -> Result<(), Memory>
        ensures ok { OnOk result (out.new.items ≡ out.old.items ++ build_text self.now) }
        ensures err { OnErr result (out.new.items ≡ out.old.items) }
    {
        let alloc: Global = *self.made.records.allocator();
        let text = build_writing::text(alloc, self.made.records.as_slice())?;
        out.extend_from_slice(text.as_slice())?;
        Ok(())
    }

    /// The lines before the records' texts, if there are two or more records; else nothing.
    pub fn lines(&self) -> Result<Vec<u8>, Memory>
        ensures { IfOk result (λ lines. lines.items ≡ lines_before (length self.now)) }
    {
        let mut lines = Vec::new(*self.made.records.allocator());
        build_writing::put_lines(&mut lines, self.made.records.len())?;
        Ok(lines)
    }

    /// The name of the unit that was built: the path of its only package, or the path without
    /// subpackage that its packages share.
    pub fn unit_path(&self) -> &PkgPath
        ensures path { result.now ≡ unit_path self.now }
        ensures build { IsBuild self.now }
    {
        &self.made.unit
    }

    /// The records, ascending by path.
    pub fn packages(&self) -> &[Record]
        ensures records { result.now ≡ self.now }
        ensures ascending { is_ascending (paths_of result.now) ≡ true }
    {
        self.made.records.as_slice()
    }

    /// Whether the two are equal.
    pub fn is_same(&self, other: &Build) -> bool
        ensures { Decides result (self.now ≡ other.now) }
    {
        are_same_records(self.made.records.as_slice(), other.made.records.as_slice())
    }

    /// An equal build. Unless its contents are shared with another build, it uses the given texts
    /// of the packages that it names.
    pub fn with_texts<T: Texts>(self, texts: &T) -> Result<Build, Memory>
        ensures { IfOk result (λ b. b ≡ self) }
    {
        match Rc::try_unwrap(self.made) {
            Ok(made) => Build::of(records_with_texts(made.records, texts)?),
            Err(made) => Ok(Build { made }),
        }
    }

    /// An equal build, which shares its contents with this one.
    pub fn copy(&self) -> Result<Build, Memory>
        ensures { IfOk result (λ b. b ≡ self.now) }
    {
        let made = self.made.clone()?;
        Ok(Build { made })
    }
}

/// Equal records, which use the given texts of the packages that they name.
fn records_with_texts<T: Texts>(records: Vec<Record>, texts: &T) -> Result<Vec<Record>, Memory>
    ensures { IfOk result (λ same. same.items ≡ records.items) }
{
    let alloc: Global = *records.allocator();
    let mut same = Vec::with_capacity(alloc, records.len())?;
    for record in records {
        same.push(record.with_texts(texts)?)?;
    }
    Ok(same)
}

/// The name of the unit that these records are of.
fn unit_of(records: &[Record]) -> Result<PkgPath, Memory>
    requires { 1 ≤ length records.now }
    ensures { IfOk result (λ path. path ≡ unit_path records.now) }
{
    if records.len() == 1 {
        return records[0].path().copy();
    }
    records[0].path().without_subpackage()
}

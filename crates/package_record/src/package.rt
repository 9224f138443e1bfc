//! A record. Contracts see its contents.
ghost use Rattle.std.specs.Prelude.{◌≡◌, ◌++◌, drop, length, map, take, true, IfOk, OnOk, OnErr};
ghost use Rattle.sha2.specs.Sha256.{sha256};
ghost use Rattle.faults.specs.Answers.{IsRightUnless, map_ok, unless_fault};
ghost use Rattle.claims.specs.Claim.{IsClaim};
ghost use Rattle.claims.specs.Deps.{AreInOrder, is_ascending};
ghost use Rattle.package_record.specs.Content.{AreFileNames, Content, IsRecord, header_text, names_of, record_text};
ghost use Rattle.package_record.specs.Making.{make_fault, too_large};
ghost use Rattle.package_record.specs.FileView.{file_view};
ghost use Rattle.package_record.specs.Views.{content_of};
ghost use Rattle.package_record.specs.Reading.{first_of, whole_of};

use crate::fields::Fields;
use crate::hashed_files::HashedFiles;
use crate::making::{test_names, text_length};
use crate::{File, LIMIT, RecordFault, parsing, writing};
use claims::{Claim, Dep, Deps, PkgName, PkgPath, Texts};
use faults::Memory;
use sha2::{Digest, Sha256};
use std::alloc::Global;
use std::marker::Model;
use std::rc::Rc;

/// A package that was built: its path and name, the host that built it and the claim, the
/// dependencies that it was built on, the paths that it needs to run, and its files. The text of a
/// record has at most `LIMIT` bytes. The dependencies ascend by path and the paths to run ascend,
/// without repetition. The files have valid names, without repetition. Copies share the contents,
/// which never change.
#[derive(Drop)]
pub struct Record {
    fields: Rc<Fields>,
}

impl Model for Record {
    ghost use Rattle.package_record.specs.Content.{Content, IsRecord};
    ghost use Rattle.package_record.specs.Views.{content_of};

    ghost Value = { Content };

    ghost view = { λ r. content_of r.fields.value };

    ghost invariant = { λ r. IsRecord (content_of r.fields.value) };
}

/// Makes a record. File names are tested first: `BadFileName` has the number, counted from 1, of
/// the first file with a bad or repeated name. A text longer than `LIMIT` is `TooLarge`.
pub fn make(
    alloc: Global,
    path: PkgPath,
    name: PkgName,
    host: u16,
    claim: Claim,
    built: Deps,
    run: Vec<PkgPath>,
    files: Vec<File>,
) -> Result<Record, RecordFault>
    requires claim { IsClaim claim }
    requires built { AreInOrder built }
    requires run { is_ascending run.items ≡ true }
    ensures { let content : Content = record {
      path = path;
      name = name;
      host = host;
      claim = claim;
      built = built;
      run = run.items;
      files = map file_view files.items;
    } in IsRightUnless RecordFault.Memory result (unless_fault (make_fault content) content) }
{
    test_names(alloc, files.as_slice())?;
    let files = HashedFiles::of(alloc, files)?;
    let fields = Fields {
        path,
        name,
        host,
        claim,
        built,
        run,
        files,
    };
    let (record, _length) = sized(alloc, fields)?;
    Ok(record)
}

/// The record with these fields, whose files have valid names, and the length of its text.
pub fn sized(alloc: Global, fields: Fields) -> Result<(Record, usize), RecordFault>
    requires claim { IsClaim fields.claim }
    requires built { AreInOrder fields.built }
    requires run { is_ascending fields.run.items ≡ true }
    requires names { AreFileNames (names_of fields.files) }
    ensures record { IsRightUnless RecordFault.Memory (map_ok (λ x. x.0) result)
        (unless_fault (too_large (length (record_text (content_of fields)))) (content_of fields)) }
    ensures good { IfOk result (λ x. IsRecord x.0) }
    ensures length { IfOk result (λ x. x.1 ≡ length (record_text x.0)) }
{
    let length = text_length(alloc, &fields)?;
    if length > LIMIT {
        drop(fields);
        return Err(RecordFault::TooLarge);
    }
    let made = Record::of(alloc, fields)?;
    Ok((made, length))
}

impl Record {
    /// The record with these fields.
    fn of(alloc: Global, fields: Fields) -> Result<Record, Memory>
        requires { IsRecord (content_of fields) }
        ensures { IfOk result (λ r. r ≡ content_of fields) }
    {
        let fields = Rc::new(alloc, fields)?;
        Ok(Record { fields })
    }

    /// The record with this text. The tests are, in this order:
    ///
    /// 1. The length of the whole text: `TooLarge` if it exceeds `LIMIT`.
    /// 2. The header, line by line. A line without its LF is `Truncated`. A line in the place of a
    ///    file's name that is bad or repeated is `BadFileName`, unless it begins with `@`. A size
    ///    that brings the total of the files above `LIMIT` is `TooLarge`. Any other mismatch is
    ///    `BadLine`.
    /// 3. The bytes of the files: fewer than the sizes require are `Truncated`.
    /// 4. The digests of the files: `DigestDiffers` has the `@sha` line of the first file whose
    ///    bytes have another one.
    /// 5. The end: bytes after the record are `Trailing`.
    pub fn parse(alloc: Global, text: &[u8]) -> Result<Record, RecordFault>
        // The text is that of the result.
        ensures text { IfOk result (λ r. IsRecord r × (text.now ≡ record_text r)) }
        // Which record or fault it is.
        ensures exact { IsRightUnless RecordFault.Memory result (whole_of text.now) }
    {
        let fields = parsing::whole(alloc, text)?;
        Ok(Record::of(alloc, fields)?)
    }

    /// The record at the front of the text, and the length of its text in bytes. Anything may
    /// follow it. The tests are those of `parse` without the last; the length is tested after the
    /// header, and is `TooLarge` if the header and the sizes together exceed `LIMIT`.
    pub fn read_first(alloc: Global, text: &[u8]) -> Result<(Record, usize), RecordFault>
        ensures text { IfOk result (λ first.
            IsRecord first.0 × (take first.1 text.now ≡ record_text first.0)) }
        ensures length { IfOk result (λ first. first.1 ≡ length (record_text first.0)) }
        ensures exact { IsRightUnless RecordFault.Memory
            (map_ok (λ first. (first.0, drop first.1 text.now)) result)
            (first_of text.now) }
    {
        let (fields, rest) = parsing::first(alloc, text)?;
        let length = text.len().saturating_sub(rest.len());
        Ok((Record::of(alloc, fields)?, length))
    }

    /// Appends the text, or a part of it if memory runs out.
    pub(crate) fn put_text(&self, out: &mut Vec<u8>) -> Result<(), Memory>
        ensures { OnOk result (out.new.items ≡ out.old.items ++ record_text self.now) }
    {
        writing::put_text(out, &self.fields)
    }

    /// Appends the text, or nothing if memory runs out.
    pub fn write_to(&self, out: &mut Vec<u8>) -> Result<(), Memory>
        ensures ok { OnOk result (out.new.items ≡ out.old.items ++ record_text self.now) }
        ensures err { OnErr result (out.new.items ≡ out.old.items) }
    {
        let text = writing::text(self.allocator(), &self.fields)?;
        out.extend_from_slice(text.as_slice())?;
        Ok(())
    }

    /// The header with the empty line at its end. In the text of the record the bytes of the files
    /// follow.
    pub fn header(&self) -> Result<Vec<u8>, Memory>
        ensures { IfOk result (λ text. text.items ≡ header_text self.now) }
    {
        writing::header(self.allocator(), &self.fields)
    }

    /// The SHA-256 (FIPS 180-4) of the text.
    pub fn digest(&self) -> Result<[u8; 32], Memory>
        ensures { IfOk result (λ digest. digest ≡ sha256 (record_text self.now)) }
    {
        let text = writing::text(self.allocator(), &self.fields)?;
        Ok(Sha256::digest(text.as_slice()))
    }

    fn allocator(&self) -> Global {
        self.fields.files.allocator()
    }

    /// The path of the package.
    pub fn path(&self) -> &PkgPath
        ensures path { result.now ≡ self.now.path }
        ensures record { IsRecord self.now }
    {
        &self.fields.path
    }

    /// The name of the package: its stem, version and flavors.
    pub fn name(&self) -> &PkgName
        ensures { result.now ≡ self.now.name }
    {
        &self.fields.name
    }

    /// The host that built the package.
    pub fn host(&self) -> u16
        ensures { result ≡ self.now.host }
    {
        self.fields.host
    }

    /// The claim under which the package was built.
    pub fn claim(&self) -> Claim
        ensures { result ≡ self.now.claim }
    {
        self.fields.claim
    }

    /// The signatures of the packages that it was built on, ascending by path.
    pub fn built(&self) -> &[Dep]
        ensures { result.now ≡ self.now.built }
    {
        self.fields.built.as_slice()
    }

    /// The paths that the package needs to run, ascending.
    pub fn run(&self) -> &[PkgPath]
        ensures { result.now ≡ self.now.run }
    {
        self.fields.run.as_slice()
    }

    /// The files of the package, in the given order.
    pub fn files(&self) -> &[File]
        ensures { map file_view result.now ≡ self.now.files }
    {
        self.fields.files.as_slice()
    }

    /// An equal record. Unless its contents are shared with another record, it uses the given texts
    /// of the packages that it names.
    pub(crate) fn with_texts<T: Texts>(self, texts: &T) -> Result<Record, Memory>
        ensures { IfOk result (λ r. r ≡ self) }
    {
        let alloc = self.allocator();
        match Rc::try_unwrap(self.fields) {
            Ok(fields) => Record::of(alloc, fields.with_texts(texts)?),
            Err(fields) => Ok(Record { fields }),
        }
    }

    /// An equal record, which shares its contents with this one.
    pub fn copy(&self) -> Result<Record, Memory>
        ensures { IfOk result (λ r. r ≡ self.now) }
    {
        let fields = self.fields.clone()?;
        Ok(Record { fields })
    }
}

//! A text that is cut into pieces while it is written. Each byte is stored only in its piece.
ghost use Rattle.std.specs.Prelude.{◌≡◌, ◌++◌, ◌∷◌, ◌<◌, ◌≤◌, [], IfOk, OnOk, flat_map, length};
ghost use Rattle.package_record.specs.Build.{build_text};
ghost use Rattle.package_record.specs.Content.{header_text, most_bytes, record_text};

use crate::datagram::{Bytes, PIECE_SIZE};
use faults::Memory;
use package_record::{Build, Record};
use std::alloc::Global;
use std::mem;

/// The pieces of the text so far.
#[derive(Drop)]
pub struct Cuts {
    /// The pieces of `PIECE_SIZE` bytes.
    pub full: Vec<Bytes>,
    /// The bytes after these, which are fewer.
    pub last: Vec<u8>,
}

impl Cuts {
    ghost use Rattle.wire.specs.inside.Cuts.{AreCuts, IsCut, text_in};

    /// The pieces of an empty text.
    fn new(alloc: Global) -> Result<Cuts, Memory>
        ensures cut { IfOk result (λ cuts. IsCut cuts) }
        ensures text { IfOk result (λ cuts. text_in cuts ≡ []) }
    {
        let last = Vec::with_capacity(alloc, PIECE_SIZE)?;
        Ok(Cuts {
            full: Vec::new(alloc),
            last,
        })
    }

    /// Moves the last bytes to the full pieces.
    fn close(&mut self, alloc: Global) -> Result<(), Memory>
        ensures full { OnOk result (self.new.full.items
            ≡ self.old.full.items ++ self.old.last.items ∷ []) }
        ensures last { OnOk result (self.new.last.items ≡ []) }
    {
        let next = Vec::with_capacity(alloc, PIECE_SIZE)?;
        let last = mem::replace(&mut self.last, next);
        self.full.push(Bytes::new(last))?;
        Ok(())
    }

    /// Appends as many bytes as the last piece has room for, and returns the rest.
    fn fill<'a>(&mut self, alloc: Global, text: &'a [u8]) -> Result<&'a [u8], Memory>
        requires cut { IsCut self.old }
        requires some { 1 ≤ length text.now }
        ensures cut { OnOk result (IsCut self.new) }
        ensures text { IfOk result (λ rest.
            text_in self.new ++ rest.now ≡ text_in self.old ++ text.entry.now) }
        ensures fewer { IfOk result (λ rest. length rest.now < length text.entry.now) }
    {
        let room = PIECE_SIZE - self.last.len();
        let (front, rest) = text.split_at(text.len().min(room));
        self.last.extend_from_slice(front)?;
        if self.last.len() == PIECE_SIZE {
            self.close(alloc)?;
        }
        Ok(rest)
    }

    /// Appends the bytes.
    fn put(&mut self, alloc: Global, text: &[u8]) -> Result<(), Memory>
        requires { IsCut self.old }
        ensures cut { OnOk result (IsCut self.new) }
        ensures text { OnOk result (text_in self.new ≡ text_in self.old ++ text.now) }
    {
        let mut rest = text;
        while !rest.is_empty() {
            rest = self.fill(alloc, rest)?;
        }
        Ok(())
    }

    /// Appends the record's header.
    fn put_header(&mut self, alloc: Global, source: &Record) -> Result<(), Memory>
        requires { IsCut self.old }
        ensures cut { OnOk result (IsCut self.new) }
        ensures text { OnOk result (text_in self.new ≡ text_in self.old ++ header_text source.now) }
    {
        let header = source.header()?;
        self.put(alloc, header.as_slice())
    }

    /// Appends the record's text.
    fn put_record(&mut self, alloc: Global, source: &Record) -> Result<(), Memory>
        requires { IsCut self.old }
        ensures cut { OnOk result (IsCut self.new) }
        ensures text { OnOk result (text_in self.new ≡ text_in self.old ++ record_text source.now) }
    {
        self.put_header(alloc, source)?;
        for file in source.files() {
            self.put(alloc, file.bytes.as_slice())?;
        }
        Ok(())
    }

    /// The pieces of the build's text. The build is dropped.
    pub fn of(alloc: Global, build: Build) -> Result<Cuts, Memory>
        ensures cut { IfOk result (λ cuts. IsCut cuts) }
        ensures text { IfOk result (λ cuts. text_in cuts ≡ build_text build) }
    {
        let mut cuts = Cuts::new(alloc)?;
        let lines = build.lines()?;
        cuts.put(alloc, lines.as_slice())?;
        for record in build.packages() {
            cuts.put_record(alloc, record)?;
        }
        Ok(cuts)
    }

    /// The length of the text in bytes.
    pub fn len(&self) -> usize
        requires cut { IsCut self.now }
        requires few { length (text_in self.now) ≤ most_bytes }
        ensures { result ≡ length (text_in self.now) }
    {
        PIECE_SIZE * self.full.len() + self.last.len()
    }

    /// The pieces' bytes, in order of number.
    pub fn into_bytes(self, alloc: Global) -> Result<Vec<Bytes>, Memory>
        requires cut { IsCut self }
        requires few { length (text_in self) ≤ most_bytes }
        ensures cuts { IfOk result (λ pieces. AreCuts pieces.items) }
        ensures text { IfOk result (λ pieces.
            flat_map (λ bytes. bytes) pieces.items ≡ text_in self) }
    {
        let Cuts { mut full, last } = self;
        if !last.is_empty() {
            let last = Vec::from_slice(alloc, last.as_slice())?;
            full.push(Bytes::new(last))?;
        }
        Ok(full)
    }
}

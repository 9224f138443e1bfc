//! A disk in memory.
ghost use Rattle.std.specs.Prelude.{◌≡◌, ◌-◌, ◌+◌, ◌≤◌, ◌<◌, ◌^◌, ℕ, [], ◌∷◌, ◌++◌, length, map, min, take, drop, replicate, IfOk, IsOk, OnOk, false, if◌then◌else◌, ⊤, vec_len, vec_capacity};
ghost use Rattle.stable_record.specs.Crash.{MayLeave};
ghost use Rattle.stable_record.specs.Events.{replay};
ghost use Rattle.stable_record.specs.inside.Noted.{WereBytes};
ghost use Rattle.stable_record.specs.History.{History, overwritten, seen, stands};
ghost use Rattle.stable_record.specs.Memory.{after_crash, blanked, filled, left_file, on_disk, unsynced};
ghost use Rattle.stable_record.specs.Pasts.{no_past};
ghost use Rattle.stable_record.specs.inside.Possible.{replay_possible};
ghost use Rattle.stable_record.specs.Room.{Room};

use crate::record::Record;
use crate::{Disk, DiskFault};
use faults::Memory;
use std::alloc::Global;

const BEGUN: u64 = 0;

const WRITTEN: u64 = 1;

const CUT: u64 = 2;

const SYNCED: u64 = 3;

/// What a crash leaves.
#[derive(Clone, Copy, Debug, PartialEq, Eq)]
pub enum Left {
    /// Unsynced writes and cuts are undone.
    Before,
    /// Unsynced writes and cuts survive.
    Written,
    /// Unsynced writes and cuts survive, with this byte in every unsynced place.
    Fill(u8),
}

/// A file in memory, with what a crash would leave of it. Its device never fails. A write that
/// would end past 2^64 is refused with `Memory`, like one for which there is not enough memory: a
/// file in memory cannot be that long.
#[derive(Drop)]
pub struct MemDisk {
    file: Vec<u8>,
    /// Nothing before this place changed since the last sync.
    unchanged: usize,
    /// What the disk has from there on.
    before: Vec<u8>,
    /// The start and length of each range that was written since the last sync.
    ranges: Vec<(usize, usize)>,
    noted: Record,
    ghost file_is: { file.items ≡ seen (replay no_past noted.events) },
    ghost before_is: { take unchanged file.items ++ before.items
        ≡ on_disk (replay no_past noted.events) },
    ghost ranges_are: { ranges.items ≡ unsynced (replay no_past noted.events) },
    ghost within: { unchanged ≤ length file.items },
    ghost fits: { length file.items ≤ vec_capacity before },
    ghost fits_before: { unchanged + length before.items ≤ vec_capacity before },
    ghost fits_back: { unchanged + length before.items ≤ vec_capacity file },
    ghost were_bytes: { WereBytes no_past noted.events },
}

impl MemDisk {
    ghost use Rattle.stable_record.specs.InMemory.{mem_history};

    /// A file with these bytes, all of them on the disk.
    pub fn new(alloc: Global, bytes: &[u8]) -> Result<MemDisk, Memory>
        ensures { IfOk result (λ disk. mem_history disk ≡ stands bytes.now ∷ []) }
    {
        let file = bytes.to_vec(alloc)?;
        let before = Vec::with_capacity(alloc, bytes.len())?;
        let mut noted = Record::new();
        noted.note(&[BEGUN], bytes);
        Ok(MemDisk {
            unchanged: file.len(),
            file,
            before,
            ranges: Vec::new(alloc),
            noted,
        })
    }

    /// What a read returns.
    pub fn bytes(&self) -> &[u8]
        ensures { result.now ≡ seen (mem_history self.now) }
    {
        &self.file
    }
}

impl MemDisk {
    ghost use Rattle.stable_record.specs.InMemory.{mem_history};

    /// The disk after a crash that left the file as `left` says, all of it on the disk.
    pub fn crash(self, left: Left) -> MemDisk
        ensures left { mem_history result ≡ after_crash left (mem_history self) }
        ensures possible { MayLeave (mem_history self) (left_file left (mem_history self)) }
    {
        let MemDisk {
            mut file,
            unchanged,
            mut before,
            mut ranges,
            ..
        } = self;
        match left {
            Left::Before => {
                file.truncate(unchanged);
                file.extend_from_slice(&before).unwrap();
            }
            Left::Written => {}
            Left::Fill(byte) => fill(&mut file, &ranges, byte),
        }
        ranges.clear();
        before.clear();
        let mut noted = Record::new();
        noted.note(&[BEGUN], &file);
        MemDisk {
            unchanged: file.len(),
            file,
            before,
            ranges,
            noted,
        }
    }
}

impl MemDisk {
    /// Makes room for a file that ends here, and for one more range.
    fn make_room(&mut self, end: usize) -> Result<(), Memory>
        ensures same { (self.new.noted ≡ self.old.noted)
            × (self.new.unchanged ≡ self.old.unchanged) }
        ensures items { (self.new.file.items ≡ self.old.file.items)
            × (self.new.before.items ≡ self.old.before.items)
            × (self.new.ranges.items ≡ self.old.ranges.items) }
        ensures room { OnOk result
            ((end ≤ vec_capacity self.new.file) × (end ≤ vec_capacity self.new.before)
            × (length self.new.ranges.items < vec_capacity self.new.ranges)) }
        ensures grown { (vec_capacity self.old.file ≤ vec_capacity self.new.file)
            × (vec_capacity self.old.before ≤ vec_capacity self.new.before)
            × (vec_capacity self.old.ranges ≤ vec_capacity self.new.ranges) }
        ensures needed { end ≤ min (vec_capacity self.old.file) (vec_capacity self.old.before)
            → length self.old.ranges.items < vec_capacity self.old.ranges → IsOk result }
    {
        if end > self.file.capacity() {
            self.file.reserve(end - self.file.len())?;
        }
        widen(&mut self.before, end, self.file.capacity())?;
        self.ranges.reserve(1)?;
        Ok(())
    }

    /// Saves what the disk has from the place on, before that is changed.
    fn keep_from(&mut self, place: usize)
        ensures same { (self.new.noted ≡ self.old.noted) × (self.new.file ≡ self.old.file)
            × (self.new.ranges ≡ self.old.ranges) }
        ensures unchanged { self.new.unchanged ≤ place }
        ensures capacity { vec_capacity self.old.before ≤ vec_capacity self.new.before }
    {
        if place < self.unchanged {
            let kept = &self.file[place..self.unchanged];
            self.before.extend_from_slice(kept).unwrap();
            self.before.rotate_right(self.unchanged - place);
            self.unchanged = place;
        }
    }
}

/// Makes room for `least` bytes in total. If nothing has to be kept, this allocates anew, for
/// `wanted` bytes at once if that is more. Growing would copy the unused capacity too, and touch
/// its pages.
fn widen(bytes: &mut Vec<u8>, least: usize, wanted: usize) -> Result<(), Memory>
    ensures items { bytes.new.items ≡ bytes.old.items }
    ensures room { OnOk result (least ≤ vec_capacity bytes.new) }
    ensures grown { vec_capacity bytes.old ≤ vec_capacity bytes.new }
    ensures needed { least ≤ vec_capacity bytes.old → IsOk result }
{
    if least <= bytes.capacity() {
        return Ok(());
    }
    if !bytes.is_empty() {
        bytes.reserve(least - bytes.len())?;
        return Ok(());
    }
    let alloc: Global = *bytes.allocator();
    *bytes = Vec::with_capacity(alloc, least.max(wanted))?;
    Ok(())
}

/// Writes a byte everywhere in these ranges.
fn fill(file: &mut Vec<u8>, ranges: &[(usize, usize)], byte: u8)
    ensures items { file.new.items ≡ filled byte ranges.now file.old.items }
    ensures is_byte { byte < 256 }
    ensures len { length file.new.items ≡ length file.old.items }
    ensures capacity { vec_capacity file.new ≡ vec_capacity file.old }
{
    for range in ranges {
        fill_range(file, *range, byte);
    }
}

/// Writes a byte everywhere in a range, given by its start and its length.
fn fill_range(file: &mut Vec<u8>, range: (usize, usize), byte: u8)
    ensures items { file.new.items ≡ blanked byte range file.old.items }
    ensures len { length file.new.items ≡ length file.old.items }
    ensures capacity { vec_capacity file.new ≡ vec_capacity file.old }
{
    let (at, count) = range;
    let start = at.min(file.len());
    let end = start + count.min(file.len() - start);
    file[start..end].fill(byte);
}

/// Writes bytes at a place, with zeros between the end and the place.
fn overwrite(file: &mut Vec<u8>, at: usize, bytes: &[u8])
    requires far { at + length bytes.now < 2 ^ 64 }
    requires room { at + length bytes.now ≤ vec_capacity file.old }
    ensures items { file.new.items ≡ overwritten at bytes.now file.old.items }
    ensures capacity { vec_capacity file.old ≤ vec_capacity file.new }
{
    if bytes.is_empty() {
        return;
    }
    reach(file, at);
    put(file, at, bytes);
}

/// Appends zeros up to a place.
fn reach(file: &mut Vec<u8>, at: usize)
    requires room { at ≤ vec_capacity file.old }
    ensures items { file.new.items ≡ file.old.items ++ replicate (at - length file.old.items) 0 }
    ensures capacity { vec_capacity file.old ≤ vec_capacity file.new }
{
    if at > file.len() {
        file.resize(at, 0).unwrap();
    }
}

/// Writes bytes at a place up to the end, overwriting and extending the file.
fn put(file: &mut Vec<u8>, at: usize, bytes: &[u8])
    requires within { at ≤ length file.old.items }
    requires far { at + length bytes.now < 2 ^ 64 }
    requires room { at + length bytes.now ≤ vec_capacity file.old }
    ensures items { file.new.items ≡ take at file.old.items ++ bytes.now
        ++ drop (at + length bytes.now) file.old.items }
    ensures capacity { vec_capacity file.old ≤ vec_capacity file.new }
{
    let over = bytes.len().min(file.len() - at);
    file[at..at + over].copy_from_slice(&bytes[..over]);
    file.extend_from_slice(&bytes[over..]).unwrap();
}

impl Disk for MemDisk {
    ghost use Rattle.stable_record.specs.InMemory.{mem_history, mem_room};

    ghost history = { mem_history };

    ghost is_kept = { λ _. ⊤ };

    ghost failures_of = { λ _. 0 };

    ghost room = { mem_room };

    ghost stays_possible = { λ d. replay_possible no_past d.noted.events d.were_bytes };

    fn len(&mut self) -> Result<u64, DiskFault> {
        Ok(self.file.len() as u64)
    }

    fn read(&mut self, at: u64, buf: &mut [u8]) -> Result<usize, DiskFault> {
        let start = (at as usize).min(self.file.len());
        let count = buf.len().min(self.file.len() - start);
        buf[..count].copy_from_slice(&self.file[start..start + count]);
        Ok(count)
    }

    fn write_at(&mut self, at: u64, bytes: &[u8]) -> Result<(), DiskFault> {
        if bytes.is_empty() {
            self.noted.note(&[WRITTEN, at], bytes);
            return Ok(());
        }
        let start = at as usize;
        if bytes.len() > usize::MAX - start {
            return Err(DiskFault::Memory);
        }
        let end = start + bytes.len();
        self.make_room(end)?;
        let first = start.min(self.file.len());
        self.keep_from(first);
        self.ranges.push_reserved((first, end - first));
        overwrite(&mut self.file, start, bytes);
        self.noted.note(&[WRITTEN, at], bytes);
        Ok(())
    }

    fn cut(&mut self, len: u64) -> Result<(), DiskFault> {
        let end = (len as usize).min(self.file.len());
        self.keep_from(end);
        self.file.truncate(end);
        self.noted.note(&[CUT, len], &[]);
        Ok(())
    }

    fn sync(&mut self) -> Result<(), DiskFault> {
        self.unchanged = self.file.len();
        self.before.clear();
        self.ranges.clear();
        self.noted.note(&[SYNCED], &[]);
        Ok(())
    }

    fn reserve(&mut self, bytes: u64, calls: u32) -> Result<(), Memory> {
        let bytes = bytes as usize;
        self.file.reserve(bytes)?;
        if bytes > usize::MAX - self.file.len() {
            return Err(Memory);
        }
        let end = self.file.len() + bytes;
        widen(&mut self.before, end, self.file.capacity())?;
        self.ranges.reserve(calls as usize)?;
        Ok(())
    }

    fn failures(&self) -> u64 {
        0
    }
}

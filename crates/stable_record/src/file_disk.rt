//! A file of the operating system. Each call is recorded with its result, for contracts only.
ghost use Rattle.std.specs.Prelude.{◌≡◌, ◌≢◌, ◌≤◌, ◌∷◌, [], length, IfOk, IfSome, IsErrOf};
ghost use Rattle.std.specs.Path.{path_parent};
ghost use Rattle.stable_record.specs.Crash.{CutOrNot, Torn};
ghost use Rattle.stable_record.specs.Events.{Past};
ghost use Rattle.stable_record.specs.inside.Noted.{WereBytes};
ghost use Rattle.stable_record.specs.Faults.{Cuts, Writes, counted, one_more};
ghost use Rattle.stable_record.specs.History.{cut_to, seen, written};
ghost use Rattle.stable_record.specs.Pasts.{TornCutsAreForetold, TornWritesAreForetold};
ghost use Rattle.stable_record.specs.inside.Possible.{replay_possible};
ghost use Rattle.stable_record.specs.Room.{UsesRoom};

use crate::record::Record;
use crate::{Disk, DiskFault};
use faults::Memory;
use std::fs::{File, OpenOptions};
use std::io;
use std::os::unix::fs::FileExt;
use std::path::Path;

const WRITTEN: u64 = 1;

const CUT: u64 = 2;

const SYNCED: u64 = 3;

const READ: u64 = 4;

const MEASURED: u64 = 5;

const NOT_WRITTEN: u64 = 6;

const NOT_CUT: u64 = 7;

/// A file of the operating system. What contracts say about its bytes, and about what a crash
/// leaves, holds as long as each read returned what the history says. The history begins with the
/// past with which the file was opened. The outcome of a write or cut that failed can only be
/// learned from later reads. So contracts are stated for every possible past, and some past
/// predicts whatever the device actually did: it is a prophecy variable.
#[derive(Drop)]
pub struct FileDisk {
    file: File,
    failures: u64,
    noted: Record,
    ghost were_bytes: { WereBytes noted.past noted.events },
}

impl FileDisk {
    ghost use Rattle.stable_record.specs.RealFile.{file_agrees, file_history, file_past};

    /// Opens the file at a path for reading and writing, and creates it empty if it doesn't exist.
    /// Then syncs the folder, so that a crash doesn't remove a new file; fails if that fails. It
    /// has no contract, because std's call to open a file has none about the file's bytes.
    pub fn open_file(rt: &HostRuntime, path: &str) -> io::Result<File> {
        let mut options = OpenOptions::new();
        options.read(true).write(true).create(true);
        let file = options.open(rt, path)?;
        File::open(rt, folder_of(path))?.sync_all()?;
        Ok(file)
    }

    /// A disk over an open file with a past, which only contracts see: what is known of the file,
    /// and of what a crash leaves of it. Once a read contradicts the past, nothing more is claimed.
    pub fn new(file: File) -> FileDisk
        ghost past: { Past }
        ensures past { file_past result ≡ past }
        ensures history { file_history result ≡ past.calls }
        ensures kept { file_agrees result }
        ensures no_failure { result.failures ≡ 0 }

        // Whatever a failed write or cut leaves, some past predicts it.
        ensures torn_writes { TornWritesAreForetold }
        ensures torn_cuts { TornCutsAreForetold }
    {
        FileDisk {
            file,
            failures: 0,
            noted: Record::new(),
        }
    }

    /// Counts a failure of the device.
    fn failed(&mut self) -> DiskFault
        ensures fault { result ≡ DiskFault.Device }
        ensures counted { self.new.failures ≡ one_more self.old.failures }
        ensures noted { self.new.noted ≡ self.old.noted }
    {
        self.failures = self.failures.saturating_add(1);
        DiskFault::Device
    }
}

/// The folder that contains the last component of a path.
fn folder_of(path: &str) -> &str
    ensures { IfSome (path_parent path.now) (λ folder. folder ≢ [] → result.now ≡ folder) }
{
    match Path::new(path).parent() {
        Some(folder) if !folder.as_str().is_empty() => folder.as_str(),
        _ => ".",
    }
}

/// Reads until the buffer is full or the file ends.
fn read_full(file: &File, at: u64, buf: &mut [u8]) -> io::Result<usize>
    ensures { IfOk result (λ n. n ≤ length buf.old) }
{
    let len = buf.len();
    let mut done = 0;
    for _ in 0..len {
        if done >= len || at > u64::MAX - done as u64 {
            break;
        }
        let count = file.read_at(&mut buf[done..], at + done as u64)?;
        if count == 0 {
            break;
        }
        done += count;
    }
    Ok(done)
}

/// Truncates the file if it is longer than that.
fn cut_file(file: &File, len: u64) -> io::Result<()> {
    if file.metadata()?.len() > len {
        file.set_len(len)?;
    }
    Ok(())
}

impl Disk for FileDisk {
    ghost use Rattle.stable_record.specs.RealFile.{after_failed_cut, after_failed_write};
    ghost use Rattle.stable_record.specs.RealFile.{file_agrees, file_history, file_room};

    ghost history = { file_history };

    ghost is_kept = { file_agrees };

    ghost failures_of = { λ d. d.failures };

    ghost room = { λ _. file_room };

    ghost stays_possible = { λ d. replay_possible d.noted.past d.noted.events d.were_bytes };

    fn len(&mut self) -> Result<u64, DiskFault> {
        match self.file.metadata() {
            Ok(found) => {
                let len = found.len();
                self.noted.note(&[MEASURED, len], &[]);
                Ok(len)
            }
            Err(_error) => Err(self.failed()),
        }
    }

    fn read(&mut self, at: u64, buf: &mut [u8]) -> Result<usize, DiskFault> {
        match read_full(&self.file, at, buf) {
            Ok(count) => {
                self.noted
                    .note(&[READ, at, buf.len() as u64], &buf[..count]);
                Ok(count)
            }
            Err(_error) => Err(self.failed()),
        }
    }

    fn write_at(&mut self, at: u64, bytes: &[u8]) -> Result<(), DiskFault>
        ensures kept { file_agrees self.new → file_agrees self.old }
        ensures effect { file_agrees self.new
            → Writes at bytes.now (file_history self.old) (file_history self.new) result }
        ensures cause { self.new.failures ≡ counted result self.old.failures }
        ensures room { at ≤ length (seen (file_history self.old))
            → UsesRoom (length bytes.now) file_room file_room result }

        // A write that failed is in the history, and left a torn file.
        ensures failed { IsErrOf result DiskFault.Device
            → (file_history self.new ≡ written at (length bytes.now)
            (after_failed_write self.old at (length bytes.now)) ∷ file_history self.old)
            × Torn at (length bytes.now) (seen (file_history self.old))
            (after_failed_write self.old at (length bytes.now)) }
    {
        match self.file.write_all_at(bytes, at) {
            Ok(()) => {
                self.noted.note(&[WRITTEN, at], bytes);
                Ok(())
            }
            Err(_error) => {
                let count = bytes.len() as u64;
                self.noted.note(&[NOT_WRITTEN, at, count], &[]);
                Err(self.failed())
            }
        }
    }

    fn cut(&mut self, len: u64) -> Result<(), DiskFault>
        ensures kept { file_agrees self.new → file_agrees self.old }
        ensures effect { file_agrees self.new
            → Cuts len (file_history self.old) (file_history self.new) result }
        ensures cause { self.new.failures ≡ counted result self.old.failures }
        ensures room { UsesRoom 0 file_room file_room result }

        // A cut that failed is in the history, and was done or not done.
        ensures failed { IsErrOf result DiskFault.Device
            → (file_history self.new ≡ cut_to len (after_failed_cut self.old len)
            ∷ file_history self.old)
            × CutOrNot len (seen (file_history self.old)) (after_failed_cut self.old len) }
    {
        match cut_file(&self.file, len) {
            Ok(()) => {
                self.noted.note(&[CUT, len], &[]);
                Ok(())
            }
            Err(_error) => {
                self.noted.note(&[NOT_CUT, len], &[]);
                Err(self.failed())
            }
        }
    }

    fn sync(&mut self) -> Result<(), DiskFault> {
        match self.file.sync_all() {
            Ok(()) => {
                self.noted.note(&[SYNCED], &[]);
                Ok(())
            }
            Err(_error) => Err(self.failed()),
        }
    }

    fn reserve(&mut self, _bytes: u64, _calls: u32) -> Result<(), Memory> {
        Ok(())
    }

    fn failures(&self) -> u64 {
        self.failures
    }
}

//! Calls on a real file, derived from its past and the contracts alone.
ghost use Rattle.std.specs.Prelude.{[], ◌∷◌, ◌++◌, List, length, IfOk, IfSome, OnOk, Ok};
ghost use Rattle.stable_record.specs.Crash.{AllAlong, IsOnDisk, Leaves, Torn};
ghost use Rattle.stable_record.specs.Events.{Past};
ghost use Rattle.stable_record.specs.Faults.{ReadsAt};
ghost use Rattle.stable_record.specs.History.{seen};
ghost use Rattle.stable_record.specs.Log.{HasNotes, Note};
ghost use Rattle.stable_record.specs.Opening.{Opens};
ghost use Rattle.stable_record.specs.RealFile.{file_agrees, file_history};
ghost use Rattle.check_log.specs.RealFile.{IsAsBeforeOrAfter};

use stable_record::{Disk, DiskFault, FileDisk, Identity, Log, LogFault};
use std::alloc::Global;
use std::fs::File;

/// Opens the log in a file with a past, appends a note, and returns the disk and the answer.
pub fn append_to_file(
    alloc: Global,
    file: File,
    identity: &Identity,
    note: &[u8],
) -> (FileDisk, Result<(), LogFault>)
    ghost past: { Past }

    // A crash at any moment leaves what a crash could leave by the past, or the notes that are read
    // then, with this one or without it.
    ensures any_moment { file_agrees result.0
        → AllAlong (IsAsBeforeOrAfter identity.now past.calls note.now) past.calls
        (file_history result.0) }

    // After `Ok` each crash leaves the note, after those that were there.
    ensures acknowledged { file_agrees result.0 → OnOk result.1
        ((notes : List Note) × Opens identity.now (seen past.calls) (Ok notes)
        × Leaves (HasNotes identity.now (notes ++ note.now ∷ [])) (file_history result.0)) }
{
    match Log::open(alloc, FileDisk::new(file), identity) {
        Ok((log, _notes)) => {
            let mut log = log;
            let answer = log.append(note);
            (log.into_disk(), answer)
        }
        Err((fault, disk)) => (disk, Err(fault)),
    }
}

/// Writes to a file. If the device fails, it reads what the file has now, on the same handle, and
/// syncs that. Then it returns how many bytes were read.
pub fn write_or_look(
    disk: &mut FileDisk,
    at: u64,
    bytes: &[u8],
    buf: &mut [u8],
) -> Result<Option<usize>, DiskFault>
    // The write was torn, these bytes were read of the result, and each crash leaves exactly that.
    ensures { file_agrees disk.new → IfOk result (λ o. IfSome o (λ n.
        Torn at (length bytes.now) (seen (file_history disk.old)) (seen (file_history disk.new))
        × ReadsAt (seen (file_history disk.new)) at n buf.new
        × IsOnDisk (file_history disk.new))) }
{
    match disk.write_at(at, bytes) {
        Ok(()) => Ok(None),
        Err(DiskFault::Memory) => Err(DiskFault::Memory),
        Err(DiskFault::Device) => {
            let count = disk.read(at, buf)?;
            disk.sync()?;
            Ok(Some(count))
        }
    }
}

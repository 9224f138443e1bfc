//! Opening a file that a crash may have left.
ghost use Rattle.std.specs.Prelude.{◌≡◌, ◌≢◌, ◌⊎◌, ◌+◌, ◌^◌, ◌<◌, ◌≤◌, ◌∷◌, List, Result, length, map, false};
ghost use Rattle.std.specs.Prelude.{IsErrOf, IfOk, IfErr, MatchResult, OnOk, OnErr, Ok, Err};
ghost use Rattle.stable_record.specs.Crash.{AllAlong, IsOnDisk, OnlySyncs};
ghost use Rattle.stable_record.specs.Faults.{HasRisen};
ghost use Rattle.stable_record.specs.History.{seen, synced};
ghost use Rattle.stable_record.specs.Log.{HasNotes, IsSettled, Note, gate_place, note_of};
ghost use Rattle.stable_record.specs.OpenLog.{Holds};
ghost use Rattle.stable_record.specs.Opening.{HasOneAnswer, Opens, OpensAsLeft};
ghost use Rattle.stable_record.specs.inside.Reading.{StaysAs};

use crate::down::cut_down;
use crate::making::make;
use crate::reading::{Opening, opening_of, read_all};
use crate::{Disk, DiskFault, Identity, Log, LogFault};
use std::alloc::Global;

impl<D: Disk> Log<D> {
    /// Opens a file that a crash may have left, repairs its end, and returns its notes in order. In
    /// an empty file, or in one whose creation was interrupted by a crash, it creates a log. A
    /// crash may come at any point. `Err` returns the disk, and with `NotALog` and `OtherCluster`
    /// the file is unchanged.
    pub fn open(
        alloc: Global,
        disk: D,
        identity: &Identity,
    ) -> Result<(Log<D>, Vec<Vec<u8>>), (LogFault, D)>
        // The result is the file's notes, and they are on the disk.
        ensures notes { IfOk result
            (λ r. D.is_kept r.0.disk
            → Opens identity.now (seen (D.history disk)) (Ok (map note_of r.1.items))) }
        ensures holds { IfOk result
            (λ r. D.is_kept r.0.disk → Holds D.history r.0 (map note_of r.1.items)) }
        ensures owner { IfOk result (λ r. r.0.identity ≡ identity.now) }

        // It accepts appends, after these notes.
        ensures end { IfOk result (λ r. r.0.end ≡ gate_place identity.now (map note_of r.1.items)) }
        ensures takes_notes { IfOk result (λ r. r.0.stopped ≡ false) }

        // What was known of the disk before still holds.
        ensures kept { MatchResult result (λ r. D.is_kept r.0.disk → D.is_kept disk)
            (λ e. D.is_kept e.1 → D.is_kept disk) }
        ensures later { MatchResult result (λ r. D.failures_of disk ≤ D.failures_of r.0.disk)
            (λ e. D.failures_of disk ≤ D.failures_of e.1) }

        // Opening a file of bytes has exactly one answer.
        ensures one_answer { HasOneAnswer identity.now }

        // A crash at any point leaves notes that a crash at the start could have left.
        ensures any_moment { IfOk result (λ r. D.is_kept r.0.disk
            → AllAlong (OpensAsLeft identity.now (D.history disk)) (D.history disk)
            (D.history r.0.disk)) }
        ensures any_moment_err { IfErr result (λ e. D.is_kept e.1
            → AllAlong (OpensAsLeft identity.now (D.history disk)) (D.history disk)
            (D.history e.1)) }

        // A file that is not a log of this member stays unchanged.
        ensures refused { IfErr result (λ e. D.is_kept e.1
            → e.0 ≡ LogFault.NotALog ⊎ (e.0 ≡ LogFault.OtherCluster)
            → Opens identity.now (seen (D.history disk)) (Err e.0)
            × OnlySyncs (D.history disk) (D.history e.1)) }

        // Each refusal has its cause.
        ensures device { IfErr result
            (λ e. e.0 ≡ LogFault.Device → HasRisen (D.failures_of disk) (D.failures_of e.1)) }
        ensures no_append { IfErr result (λ e. e.0 ≢ LogFault.Full × (e.0 ≢ LogFault.MustReopen)) }
    {
        let owner = identity.copy();
        let mut disk = disk;
        match ready(alloc, &mut disk, identity) {
            Ok((notes, end)) => Ok((
                Log {
                    alloc,
                    disk,
                    identity: owner,
                    end,
                    stopped: false,
                },
                notes,
            )),
            Err(fault) => Err((fault, disk)),
        }
    }
}

/// Makes the file ready for appends. Returns its notes, and the position of the closed gate after
/// them.
fn ready<D: Disk>(
    alloc: Global,
    disk: &mut D,
    identity: &Identity,
) -> Result<(Vec<Vec<u8>>, u64), LogFault>
    ensures notes { D.is_kept disk.new
        → IfOk result (λ r. Opens identity.now (seen (D.history disk.old))
        (Ok (map note_of r.0.items))) }
    ensures settled { D.is_kept disk.new
        → IfOk result (λ r. IsSettled (D.history disk.new) identity.now
        (map note_of r.0.items) r.1) }
    ensures end { IfOk result (λ r. r.1 ≡ gate_place identity.now (map note_of r.0.items)) }
    ensures fits { IfOk result (λ r. r.1 + 1 < 2 ^ 64) }
    ensures kept { D.is_kept disk.new → D.is_kept disk.old }
    ensures any_moment { D.is_kept disk.new
        → AllAlong (OpensAsLeft identity.now (D.history disk.old)) (D.history disk.old)
        (D.history disk.new) }
    ensures refused { D.is_kept disk.new
        → IfErr result (λ e. e ≡ LogFault.NotALog ⊎ (e ≡ LogFault.OtherCluster)
        → Opens identity.now (seen (D.history disk.old)) (Err e)
        × OnlySyncs (D.history disk.old) (D.history disk.new)) }
    ensures later { D.failures_of disk.old ≤ D.failures_of disk.new }
    ensures device { IsErrOf result LogFault.Device
        → HasRisen (D.failures_of disk.old) (D.failures_of disk.new) }
    ensures no_append { IfErr result (λ e. e ≢ LogFault.Full × (e ≢ LogFault.MustReopen)) }
{
    let file = synced_bytes(alloc, disk)?;
    match opening_of(alloc, &file, identity)? {
        Opening::Blank => {
            let owner = identity.header(alloc)?;
            let place = make(disk, owner)?;
            Ok((Vec::new(alloc), place))
        }
        Opening::Notes(notes, end) => {
            let end = end as u64;
            trim(disk, end, file.len() as u64)?;
            Ok((notes, end))
        }
    }
}

/// Syncs the file, then returns its bytes. So what was read stays, even if an earlier sync failed
/// and no crash came since.
fn synced_bytes<D: Disk>(alloc: Global, disk: &mut D) -> Result<Vec<u8>, DiskFault>
    ensures bytes { D.is_kept disk.new
        → IfOk result (λ bytes. bytes.items ≡ seen (D.history disk.old)) }
    ensures synced { D.is_kept disk.new
        → OnOk result (D.history disk.new ≡ synced ∷ D.history disk.old) }
    ensures failed { D.is_kept disk.new
        → OnErr result ((D.history disk.new ≡ D.history disk.old)
        ⊎ (D.history disk.new ≡ synced ∷ D.history disk.old)) }
    ensures kept { D.is_kept disk.new → D.is_kept disk.old }
    ensures later { D.failures_of disk.old ≤ D.failures_of disk.new }
    ensures cause { IsErrOf result DiskFault.Device
        → HasRisen (D.failures_of disk.old) (D.failures_of disk.new) }
{
    disk.reserve(0, 3)?;
    disk.sync()?;
    read_all(alloc, disk)
}

/// Cuts off what comes after the closed gate at a position.
fn trim<D: Disk>(disk: &mut D, end: u64, len: u64) -> Result<(), DiskFault>
    ensures any_moment { D.is_kept disk.new → (i : Identity) (notes : List Note)
        → IsOnDisk (D.history disk.old)
        → HasNotes i notes (seen (D.history disk.old)) → end ≡ gate_place i notes
        → StaysAs i notes (D.history disk.old) (D.history disk.new) }
    ensures settled { D.is_kept disk.new → (i : Identity) (notes : List Note)
        → IsOnDisk (D.history disk.old)
        → HasNotes i notes (seen (D.history disk.old)) → end ≡ gate_place i notes
        → len ≡ length (seen (D.history disk.old))
        → OnOk result (IsSettled (D.history disk.new) i notes end) }
    ensures kept { D.is_kept disk.new → D.is_kept disk.old }
    ensures later { D.failures_of disk.old ≤ D.failures_of disk.new }
    ensures cause { IsErrOf result DiskFault.Device
        → HasRisen (D.failures_of disk.old) (D.failures_of disk.new) }
{
    if end >= len.saturating_sub(1) {
        return Ok(());
    }
    disk.reserve(0, 2)?;
    cut_down(disk, end + 1)
}

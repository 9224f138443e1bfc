//! Notes after gates. The closed gate is on the disk before anything is written after it. It is
//! opened by a separate write, once what comes after it is on the disk.
ghost use Rattle.std.specs.Prelude.{◌≡◌, ◌<◌, ◌≤◌, ◌↔◌, ◌+◌, ◌^◌, ◌∷◌, [], ◌++◌, ◌⊎◌};
ghost use Rattle.std.specs.Prelude.{List, length, IsErrOf, IfOk, IsTrue, OnOk, OnErr, false, true};
ghost use Rattle.stable_record.specs.Crash.{AllAlong};
ghost use Rattle.stable_record.specs.Faults.{HasRisen};
ghost use Rattle.stable_record.specs.inside.Down.{UsesRoomFor};
ghost use Rattle.stable_record.specs.History.{History, seen};
ghost use Rattle.stable_record.specs.Log.{HasBeforeOrAfter, IsSettled, Note, most_bytes};
ghost use Rattle.stable_record.specs.inside.Staged.{staged};

use crate::down::write_down;
use crate::{Disk, DiskFault, Identity, LogFault};
use faults::Memory;
use std::alloc::Global;

const MAX_LEN: u64 = 2_147_483_648;

/// An open log of notes in a file.
#[derive(Drop)]
pub struct Log<D> {
    pub(crate) alloc: Global,
    pub(crate) disk: D,
    pub(crate) identity: Identity,
    /// The position of the closed gate.
    pub(crate) end: u64,
    /// Whether the device failed in `append`.
    pub(crate) stopped: bool,
    ghost end_fits: { end + 1 < 2 ^ 64 },
}

impl<D: Disk> Log<D> {
    ghost use Rattle.stable_record.specs.OpenLog.{Holds, WouldPassLimit, file_len};

    /// Appends a note. On `Ok` it is on the disk, and each crash leaves it from then on. After
    /// `Device` a crash leaves the earlier notes, with or without the new one, and each later call
    /// returns `MustReopen`. `Full` and `Memory` change nothing.
    pub fn append(&mut self, note: &[u8]) -> Result<(), LogFault>
        ensures acknowledged { D.is_kept self.new.disk → (notes : List Note)
            → Holds D.history self.old notes
            → OnOk result (Holds D.history self.new (notes ++ note.now ∷ [])) }

        // A crash at any point of the call leaves the earlier notes, with or without the new one.
        ensures any_moment { D.is_kept self.new.disk → (notes : List Note)
            → Holds D.history self.old notes
            → AllAlong (HasBeforeOrAfter self.old.identity notes note.now) (D.history self.old.disk)
            (D.history self.new.disk) }

        // What was known of the disk before still holds, so that calls can follow one another.
        ensures kept { D.is_kept self.new.disk → D.is_kept self.old.disk }
        ensures later { D.failures_of self.old.disk ≤ D.failures_of self.new.disk }
        ensures owner { self.new.identity ≡ self.old.identity }

        // The end of the log.
        ensures end { OnOk result (self.new.end ≡ self.old.end + 5 + length note.now) }
        ensures same_end { OnErr result (self.new.end ≡ self.old.end) }

        // It is full if and only if the file would become too long.
        ensures full { IsErrOf result LogFault.Full
            ↔ (self.old.stopped ≡ false) × WouldPassLimit self.old note.now }
        ensures within { OnOk result (file_len self.old + 5 + length note.now ≤ most_bytes) }

        // Each other refusal has its cause.
        ensures device { IsErrOf result LogFault.Device
            → HasRisen (D.failures_of self.old.disk) (D.failures_of self.new.disk) }
        ensures stopped { IsErrOf result LogFault.MustReopen → self.old.stopped ≡ true }
        ensures no_opening { IsErrOf result LogFault.NotALog ⊎ IsErrOf result LogFault.OtherCluster
            → ⊥ }

        // After a failure of the device, and only then, the log must be reopened.
        ensures stops { IsErrOf result LogFault.Device → self.new.stopped ≡ true }
        ensures goes_on { self.new.stopped ≡ true
            → self.old.stopped ≡ true ⊎ IsErrOf result LogFault.Device }
        ensures must_reopen { self.old.stopped ≡ true
            → IsErrOf result LogFault.MustReopen × (self.new ≡ self.old) }

        // If memory ran out or the log is full, nothing happened.
        ensures refused { D.is_kept self.new.disk → (notes : List Note)
            → Holds D.history self.old notes
            → IsErrOf result LogFault.Memory ⊎ IsErrOf result LogFault.Full
            → Holds D.history self.new notes × (D.history self.new.disk ≡ D.history self.old.disk) }
    {
        if self.stopped {
            return Err(LogFault::MustReopen);
        }
        let len = note.len() as u64;
        if !has_room(self.end, len) {
            return Err(LogFault::Full);
        }
        if let Err(fault) = add_note(self.alloc, &mut self.disk, self.end, note) {
            self.stopped = fault == DiskFault::Device;
            return Err(fault.into());
        }
        self.end += len + 5;
        Ok(())
    }

    /// The length of the log's file in bytes.
    pub fn len(&self) -> u64
        ensures len { result ≡ file_len self.now }
        ensures file { (notes : List Note) → Holds D.history self.now notes
            → result ≡ length (seen (D.history self.now.disk)) }
    {
        self.end + 1
    }

    /// The log's disk.
    pub fn disk(&self) -> &D
        ensures { result.now ≡ self.now.disk }
    {
        &self.disk
    }

    /// Returns the log's disk, unchanged.
    pub fn into_disk(self) -> D
        ensures { result ≡ self.disk }
    {
        self.disk
    }
}

/// Whether a note of this length fits after the closed gate at a position.
fn has_room(end: u64, len: u64) -> bool
    ensures { IsTrue result ↔ (end + 6 + len ≤ most_bytes) }
{
    end <= MAX_LEN && len <= MAX_LEN && end + 6 + len <= MAX_LEN
}

/// The note's length, the note and a closed gate.
fn behind_the_gate(alloc: Global, note: &[u8]) -> Result<Vec<u8>, Memory>
    requires { length note.now ≤ MAX_LEN }
    ensures { IfOk result (λ bytes. bytes.items ≡ staged note.now) }
{
    let mut bytes = Vec::new(alloc);
    bytes.extend_from_slice(&(note.len() as u32).to_be_bytes())?;
    bytes.extend_from_slice(note)?;
    bytes.push(0)?;
    Ok(bytes)
}

/// Reserves room, then writes a note after the closed gate at a position and opens the gate.
fn add_note<D: Disk>(alloc: Global, disk: &mut D, gate: u64, note: &[u8]) -> Result<(), DiskFault>
    requires { gate + 6 + length note.now ≤ MAX_LEN }

    ensures settled { D.is_kept disk.new → (i : Identity) (notes : List Note)
        → IsSettled (D.history disk.old) i notes gate
        → OnOk result (IsSettled (D.history disk.new) i (notes ++ note.now ∷ [])
        (gate + (length note.now + 5))) }

    ensures any_moment { D.is_kept disk.new → (i : Identity) (notes : List Note)
        → IsSettled (D.history disk.old) i notes gate
        → AllAlong (HasBeforeOrAfter i notes note.now) (D.history disk.old) (D.history disk.new) }

    ensures refused { D.is_kept disk.new → gate < length (seen (D.history disk.old))
        → IsErrOf result DiskFault.Memory → D.history disk.new ≡ D.history disk.old }

    ensures kept { D.is_kept disk.new → D.is_kept disk.old }
    ensures later { D.failures_of disk.old ≤ D.failures_of disk.new }
    ensures cause { IsErrOf result DiskFault.Device
        → HasRisen (D.failures_of disk.old) (D.failures_of disk.new) }
{
    disk.reserve(note.len() as u64 + 6, 4)?;
    let bytes = behind_the_gate(alloc, note)?;
    write_note(disk, gate, &bytes)
}

/// Writes a note after the closed gate at a position, and opens the gate.
fn write_note<D: Disk>(disk: &mut D, gate: u64, bytes: &[u8]) -> Result<(), DiskFault>
    requires { gate ≤ MAX_LEN }

    ensures settled { D.is_kept disk.new → (i : Identity) (notes : List Note) (note : Note)
        → bytes.now ≡ staged note → length note ≤ MAX_LEN
        → IsSettled (D.history disk.old) i notes gate
        → OnOk result (IsSettled (D.history disk.new) i (notes ++ note ∷ [])
        (gate + (length note + 5))) }

    ensures any_moment { D.is_kept disk.new → (i : Identity) (notes : List Note) (note : Note)
        → bytes.now ≡ staged note → length note ≤ MAX_LEN
        → IsSettled (D.history disk.old) i notes gate
        → AllAlong (HasBeforeOrAfter i notes note) (D.history disk.old) (D.history disk.new) }

    ensures room { D.is_kept disk.new → gate < length (seen (D.history disk.old))
        → UsesRoomFor (length bytes.now + 1) 4 (D.room disk.old) (D.room disk.new) result }
    ensures kept { D.is_kept disk.new → D.is_kept disk.old }
    ensures later { D.failures_of disk.old ≤ D.failures_of disk.new }
    ensures cause { IsErrOf result DiskFault.Device
        → HasRisen (D.failures_of disk.old) (D.failures_of disk.new) }
{
    write_down(disk, gate + 1, bytes)?;
    write_down(disk, gate, &[1])
}

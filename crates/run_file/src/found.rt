//! The state of a log's file before it is opened.
ghost use Rattle.std.specs.Prelude.{◌≡◌, ◌≤◌, ◌↔◌, IfOk, IsErrOf, IsTrue, List, length, take, ℕ};
ghost use Rattle.run_file.specs.Found.{IsFound};
ghost use Rattle.run_file.specs.inside.Blank.{IsBlankBehind};
ghost use Rattle.stable_record.specs.Faults.{HasRisen};
ghost use Rattle.stable_record.specs.History.{seen};
ghost use Rattle.stable_record.specs.Log.{magic, written_weights};
ghost use Rattle.stable_record.specs.Magic.{are_ones};
ghost use Rattle.stable_record.specs.Opening.{IsBlank, shortest};
ghost use Rattle.stable_record.specs.declared.identity.Identity.{Identity};

use crate::judging::LogFound;
use stable_record::{Disk, DiskFault, Identity};

/// The value of the gate, the first byte, if it is closed.
const CLOSED: u8 = 0;

/// The value of the gate if it is open.
const OPEN: u8 = 1;

/// The number of bytes that decide whether opening a file would make a log of it: the gate and the
/// magic.
const FRONT: usize = 9;

/// Whether opening the file would make a log of it. Reads only the file's length and its first
/// bytes, and changes nothing.
pub fn is_blank<D: Disk>(disk: &mut D, identity: &Identity) -> Result<bool, DiskFault>
    ensures blank { D.is_kept disk.new → IfOk result
        (λ is. IsTrue is ↔ IsBlank identity.now (seen (D.history disk.old))) }
    ensures same { D.is_kept disk.new → D.history disk.new ≡ D.history disk.old }
    ensures kept { D.is_kept disk.new → D.is_kept disk.old }
    ensures later { D.failures_of disk.old ≤ D.failures_of disk.new }
    ensures device { IsErrOf result DiskFault.Device
        → HasRisen (D.failures_of disk.old) (D.failures_of disk.new) }
{
    match found_in(disk, identity)? {
        LogFound::Blank => Ok(true),
        LogFound::Absent => Ok(false),
        LogFound::Fresh => Ok(false),
        LogFound::Noted => Ok(false),
    }
}

/// The state of the file: `Blank`, `Fresh` or `Noted`. Changes nothing.
pub fn found_in<D: Disk>(disk: &mut D, identity: &Identity) -> Result<LogFound, DiskFault>
    ensures found { D.is_kept disk.new → IfOk result
        (IsFound identity.now (seen (D.history disk.old))) }
    ensures same { D.is_kept disk.new → D.history disk.new ≡ D.history disk.old }
    ensures kept { D.is_kept disk.new → D.is_kept disk.old }
    ensures later { D.failures_of disk.old ≤ D.failures_of disk.new }
    ensures device { IsErrOf result DiskFault.Device
        → HasRisen (D.failures_of disk.old) (D.failures_of disk.new) }
{
    disk.reserve(0, 2)?;
    let len = disk.len()?;
    let mut front = [0; FRONT];
    let count = disk.read(0, &mut front)?;
    Ok(found_by(len, &front[..count], identity))
}

/// The state of a file with this length that begins with these bytes. Bytes after the gate and the
/// magic aren't needed.
fn found_by(len: u64, front: &[u8], identity: &Identity) -> LogFound
    ensures { (file : List ℕ) → len ≡ length file → front.now ≡ take FRONT file
        → IsFound identity.now file result }
{
    let shortest = shortest_of(identity);
    if is_blank_by(len, front, shortest, magic_of(identity)) {
        return LogFound::Blank;
    }
    if len == shortest {
        LogFound::Fresh
    } else {
        LogFound::Noted
    }
}

/// Whether opening such a file would make a log of it, if a log without notes has `new_len` bytes
/// and this magic.
fn is_blank_by(len: u64, front: &[u8], new_len: u64, own_magic: &[u8]) -> bool
    ensures { (i : Identity) (file : List ℕ) → new_len ≡ shortest i → own_magic.now ≡ magic i
        → len ≡ length file → front.now ≡ take FRONT file → IsTrue result ↔ IsBlank i file }
{
    if len < 2 {
        return true;
    }
    match front.split_first() {
        Some((gate, behind)) => is_blank_behind(len, *gate, behind, new_len, own_magic),
        None => false,
    }
}

/// Like `is_blank_by`, for a file of at least two bytes: its gate, and the bytes after it.
fn is_blank_behind(len: u64, gate: u8, behind: &[u8], new_len: u64, own_magic: &[u8]) -> bool
    ensures { IsTrue result
        ↔ IsBlankBehind len gate behind.now new_len own_magic.now }
{
    gate == CLOSED && len <= new_len || gate != OPEN && len == new_len && behind == own_magic
}

/// The length of the owner's log without notes.
#[tactic(auto, using(crate::proofs::Blanks::header_length))]
fn shortest_of(identity: &Identity) -> u64
    ensures { result ≡ shortest identity.now }
{
    let _digest = digest(identity);
    44 + written_weights(identity).len() as u64
}

/// The digest of the owner's tree.
fn digest(identity: &Identity) -> &[u8]
    ensures bytes { result.now ≡ identity.now.tree }
    ensures len { length result.now ≡ 32 }
{
    &identity.tree
}

/// The weights that are written in the owner's log: none if each is 1.
fn written_weights(identity: &Identity) -> &[u8]
    ensures { result.now ≡ written_weights identity.now }
{
    let weights = identity.weights.as_slice();
    if are_ones(weights) { &[] } else { weights }
}

/// The magic bytes of the owner's log.
fn magic_of(identity: &Identity) -> &'static [u8]
    ensures magic { result.now ≡ magic identity.now }
    ensures len { length result.now ≡ 8 }
{
    if are_ones(identity.weights.as_slice()) {
        b"DPBLOG01"
    } else {
        b"DPBLOG02"
    }
}

/// Whether each weight is 1.
fn are_ones(weights: &[u8]) -> bool
    ensures { result ≡ are_ones weights.now }
{
    weights.iter().all(|weight| *weight == 1)
}

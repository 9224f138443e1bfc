//! What opening the bytes of a file returns.
ghost use Rattle.std.specs.Prelude.{◌≡◌, ◌⊎◌, ◌≤◌, ◌↔◌, ◌∷◌, length, take, IfOk, IfErr, IsErrOf, IsTrue, Err};
ghost use Rattle.stable_record.specs.Faults.{HasRisen};
ghost use Rattle.stable_record.specs.History.{seen};
ghost use Rattle.stable_record.specs.Log.{header, magic, open_gate};
ghost use Rattle.stable_record.specs.Opening.{IsBlank, IsBroken, IsLog, LacksWeights, Opens, shortest};
ghost use Rattle.stable_record.specs.inside.Reading.{OpensTo, StandsAt};

use crate::identity::{MAGIC, WEIGHTED_MAGIC};
use crate::{Disk, DiskFault, Identity, LogFault};
use std::alloc::Global;

const CLOSED: u8 = 0;

const OPEN: u8 = 1;

/// The length of a log without notes, and without weights.
const SHORTEST: usize = 44;

/// The position of the number of members.
const COUNT_PLACE: usize = 41;

/// What a file is opened as.
#[derive(Drop)]
pub(crate) enum Opening {
    /// A log must be created.
    Blank,
    /// The notes, and the position of the closed gate after them.
    Notes(Vec<Vec<u8>>, usize),
}

/// What is found at a gate.
enum AtGate<'a> {
    /// The gate is closed.
    Closed,
    /// The gate is open: the note after it, and the bytes from the next gate on.
    Note(&'a [u8], &'a [u8]),
    /// There is no gate, or what comes after it is incomplete.
    CutShort,
}

/// Reads the whole file.
pub(crate) fn read_all<D: Disk>(alloc: Global, disk: &mut D) -> Result<Vec<u8>, DiskFault>
    ensures kept { D.is_kept disk.new → D.is_kept disk.old }
    ensures same { D.is_kept disk.new → D.history disk.new ≡ D.history disk.old }
    ensures bytes { D.is_kept disk.new
        → IfOk result (λ bytes. bytes.items ≡ seen (D.history disk.old)) }
    ensures later { D.failures_of disk.old ≤ D.failures_of disk.new }
    ensures cause { IsErrOf result DiskFault.Device
        → HasRisen (D.failures_of disk.old) (D.failures_of disk.new) }
{
    let len = disk.len()?;
    let mut bytes = vec![in alloc; 0; len as usize]?;
    let count = disk.read(0, bytes.as_mut_slice())?;
    bytes.truncate(count);
    Ok(bytes)
}

/// What opening the bytes of a file returns.
pub(crate) fn opening_of(
    alloc: Global,
    file: &[u8],
    identity: &Identity,
) -> Result<Opening, LogFault>
    ensures ok { IfOk result (OpensTo identity.now file.now) }
    ensures refused { IfErr result
        (λ e. (e ≡ LogFault.Memory) ⊎ Opens identity.now file.now (Err e)) }
    ensures tree { length identity.now.tree ≡ 32 }
{
    let header = identity.header(alloc)?;
    let size = header.len();
    if is_blank(file, size + 2, identity.magic()) {
        return Ok(Opening::Blank);
    }
    if !is_log(file) {
        return Err(LogFault::NotALog);
    }
    if lacks_weights(file) {
        return Err(LogFault::NotALog);
    }
    if !begins_with(&file[1..], &header) {
        return Err(LogFault::OtherCluster);
    }
    notes_behind(alloc, file, size + 1)
}

/// Whether a crash may have left these bytes while a log was being created that has this length
/// without notes, and this magic.
fn is_blank(file: &[u8], len: usize, own_magic: &[u8]) -> bool
    requires { length own_magic.now ≡ 8 }
    ensures { (i : Identity) → len ≡ shortest i → own_magic.now ≡ magic i → IsTrue result
        ↔ IsBlank i file.now }
{
    if file.len() < 2 || file[0] == CLOSED && file.len() <= len {
        return true;
    }
    file[0] != OPEN && file.len() == len && begins_with(&file[1..], own_magic)
}

/// Whether it is a log, of any owner.
fn is_log(file: &[u8]) -> bool
    ensures { IsTrue result ↔ IsLog file.now }
{
    file.len() >= SHORTEST
        && file[0] == OPEN
        && (begins_with(&file[1..], MAGIC) || begins_with(&file[1..], WEIGHTED_MAGIC))
}

/// Whether it is a log with weights, but too short to have them all.
fn lacks_weights(file: &[u8]) -> bool
    requires { 44 ≤ length file.now }
    ensures { IsTrue result ↔ LacksWeights file.now }
{
    begins_with(&file[1..], WEIGHTED_MAGIC) && file.len() < SHORTEST + file[COUNT_PLACE] as usize
}

fn begins_with(bytes: &[u8], front: &[u8]) -> bool
    ensures { IsTrue result ↔ (take (length front.now) bytes.now ≡ front.now) }
{
    bytes.starts_with(front)
}

/// The notes after the gates from this position on.
fn notes_behind(alloc: Global, file: &[u8], first: usize) -> Result<Opening, LogFault>
    requires { first ≤ length file.now }
    ensures ok { IfOk result
        (λ opening. (i : Identity) → take first file.now ≡ open_gate ∷ header i
        → OpensTo i file.now opening) }
    ensures refused { IfErr result (λ e. (e ≡ LogFault.Memory) ⊎ ((e ≡ LogFault.NotALog)
        × ((i : Identity) → take first file.now ≡ open_gate ∷ header i → IsBroken i file.now))) }
{
    let mut notes = Vec::new(alloc);
    let mut rest = &file[first..];
    loop {
        match at_gate(rest) {
            AtGate::Closed => return Ok(Opening::Notes(notes, file.len() - rest.len())),
            AtGate::CutShort => return Err(LogFault::NotALog),
            AtGate::Note(note, behind) => {
                notes.push(note.to_vec(alloc)?)?;
                rest = behind;
            }
        }
    }
}

/// What is found at the gate with which these bytes begin.
fn at_gate(file: &[u8]) -> AtGate<'_>
    ensures { StandsAt file.now result }
{
    let Some((gate, behind)) = file.split_first() else {
        return AtGate::CutShort;
    };
    if *gate != OPEN {
        return AtGate::Closed;
    }
    let Some((len, behind)) = behind.split_first_chunk::<4>() else {
        return AtGate::CutShort;
    };
    let len = u32::from_be_bytes(*len) as usize;
    if behind.len() <= len {
        return AtGate::CutShort;
    }
    let (note, rest) = behind.split_at(len);
    AtGate::Note(note, rest)
}

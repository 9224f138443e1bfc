//! The command `dpbn build`.
ghost use Rattle.std.specs.Prelude.{
  ◌≡◌,
  ◌<◌,
  ◌≤◌,
  IfErr,
  IfOk,
  false,
  length,
  true,
};
ghost use Rattle.dpbn_build.specs.Build.{
  HasBuilt,
  IsBuildText,
  IsDiskRefusal,
  IsLineAfter,
  IsLineWith,
  IsNoted,
  LacksNotes,
  RefusesBuild,
  RefusesBuildOn,
  RefusesWork,
  status_of,
};
ghost use Rattle.dpbn_node.specs.Runs.{AreGood, IsOfNode, IsOfNodeOn, RefusesOnLog, letters_of, run_at};
ghost use Rattle.stable_record.specs.RealFile.{file_agrees, file_history};

use crate::ending::Rest;
use crate::host::Builder;
use crate::office::Office;
use crate::pacing::Pacing;
use crate::turning::run;
use crate::work_folder::test_work;
use ballots::Weights;
use datagram_ports::Port;
use dpbn_cli::{Peers, Run, Site};
use dpbn_node::{
    Begun, Place, Solo, SystemKeys, Telling, begin, identity_of, place_of_words, solo_on_log,
    weights_of_words,
};
use engine::{Counts, Units};
use job_folder::Folder;
use listing::Tree;
use program_io::{Answer, Refusal, node_text, tree_of_file};
use run_file::{LogFolder, LogFound, Start, SupposedEmpty, SystemFolder, found_in};
use scheduler::{Desk, Pace};
use stable_record::{Disk, FileDisk, Identity};
use std::alloc::{AllocError, Global};
use std::io::Write;
use std::time::{Duration, Instant};
use udp::UdpPort;

/// For how many seconds a unit is left to another member by default.
const TAKEOVER: u32 = 600;

/// At how many members a unit's build may fail by default.
const TRIES: u8 = 2;

/// Runs the member's node until it is down or at rest, and returns its line. The status is 0 if all
/// that isn't ignored is held, and 3 otherwise. Faults of turns and of the work folder are printed
/// on `err`, and the node goes on.
///
/// Everything is checked before the first turn, in this order: the listing, the weights, the key's
/// file, the hosts, the member, the log's file and its run file, the socket, the work
/// folder, and the clock. No byte of the log is written before all of these passed. Then come the
/// log itself and the writing of the run file.
///
/// # Errors
///
/// The first check that failed.
pub fn build_of_words<E: Write>(
    rt: &HostRuntime,
    site: &Site<'_>,
    me: u8,
    peers: &Peers<'_>,
    patience: Option<u16>,
    run: &Run<'_>,
    err: &mut E,
) -> Result<Answer, Refusal>
    requires few { site.now.members ≤ 9 }
    requires peers { AreGood peers.now }
    ensures ok { IfOk result (λ answer.
        IsBuildText site.now me peers.now run.now answer.text.items answer.status) }
    ensures refused { IfErr result (RefusesBuild site.now me peers.now run.now) }
{
    let tree = tree_of_file(rt, site.listing, site.is_single)?;
    let weights = weights_of_words(rt.alloc(), site.members, site.weights)?;
    let keys = SystemKeys::of(rt);
    let place = place_of_words(rt.alloc(), &keys, site.members, peers, patience, run)?;
    let folder: SystemFolder<'_, SupposedEmpty> = SystemFolder::at(rt, site.dir);
    build_on(rt, &folder, &tree, &weights, site, me, place, err)
}

/// Runs the member's node, which starts at this place on its log in the folder.
fn build_on<F: LogFolder, E: Write>(
    rt: &HostRuntime,
    folder: &F,
    tree: &Tree,
    weights: &Weights,
    site: &Site<'_>,
    me: u8,
    place: Place,
    err: &mut E,
) -> Result<Answer, Refusal>
    requires { length place.addresses.items ≡ length weights.now }
    ensures built { IfOk result (λ answer. (me < length weights.now)
        × IsOfNode (F.gave folder.now me) (F.known folder.now me)
        (run_at tree.now weights.now place) me
        (λ before. IsLineAfter site.now.rest before me answer.text.items answer.status)) }
    ensures refused { IfErr result (RefusesBuildOn (F.had_mode folder.now)
        (F.gave folder.now me) (F.known folder.now me) (run_at tree.now weights.now place) me) }
{
    let solo = build_from_start(rt, folder, tree, weights, site, me, place, err)?;
    match last_answer(rt.alloc(), solo, me) {
        Ok(answer) => Ok(answer),
        Err(_) => Err(Refusal::memory()),
    }
}

/// Starts the member's node at this place on its log in the folder, takes turns until the node is
/// down or at rest, and returns it. `dpbn build` makes this call once it has read its files, and
/// then prints the node's line. Of a node at rest the contract says that `--rest` was given, and
/// that no job waits.
///
/// # Errors
///
/// Those of the start and of the work folder, in the order of `build_of_words`; out of memory if
/// the node isn't at its end after as many turns as can be counted.
pub fn build_from_start<'a, 'c, F: LogFolder, E: Write>(
    rt: &'c HostRuntime,
    folder: &F,
    tree: &'a Tree,
    weights: &Weights,
    site: &Site<'_>,
    me: u8,
    place: Place,
    err: &mut E,
) -> Result<Solo<'a, FileDisk, UdpPort<'c, HostRuntime>>, Refusal>
    requires { length place.addresses.items ≡ length weights.now }
    ensures member { IfOk result (λ solo. me < length weights.now) }
    ensures built { IfOk result (λ solo. IsOfNode (F.gave folder.now me) (F.known folder.now me)
        (run_at tree.entry.now weights.now place) me
        (λ before. HasBuilt site.now.rest before solo)) }
    ensures refused { IfErr result (RefusesBuildOn (F.had_mode folder.now) (F.gave folder.now me)
        (F.known folder.now me) (run_at tree.entry.now weights.now place) me) }
{
    let is_watched = place.sealing.is_watched();
    let mut place = place;
    place.units = Some(Units::new(rt.alloc(), tree)?.len());
    let begun = begin(rt, tree, weights, folder, me, place)?;
    let Begun { start, port } = begun;
    let Start { disk, unwritten } = start;
    let mut disk = disk;
    let is_noted = has_notes(&mut disk, &identity_of(tree, weights, me))?;
    let telling = Telling::new(rt.alloc(), me, None, is_watched);
    let office = office_of(rt, site, me, is_noted, telling)?;
    let start = Start { disk, unwritten };
    build_on_log(rt, start, port, office, tree, weights, site, me, err)
}

/// Whether the owner's log has notes, judged by its length: a log that is longer than an empty one
/// has some. The log is only read and measured.
///
/// # Errors
///
/// The log can't be read, or memory ran out.
pub fn has_notes(disk: &mut FileDisk, owner: &Identity) -> Result<bool, Refusal>
    ensures lacks { IfOk result (λ has. has ≡ false → LacksNotes owner.now disk.new) }
    ensures noted { IfOk result (λ has. has ≡ true → IsNoted owner.now disk.new) }
    ensures kept { file_agrees disk.new → file_agrees disk.old }
    ensures same { file_agrees disk.new → file_history disk.new ≡ file_history disk.old }
    ensures refused { IfErr result IsDiskRefusal }
{
    match found_in(disk, owner) {
        Ok(LogFound::Noted) => Ok(true),
        Ok(LogFound::Absent) => Ok(false),
        Ok(LogFound::Blank) => Ok(false),
        Ok(LogFound::Fresh) => Ok(false),
        Err(fault) => Err(Refusal::of(&fault)),
    }
}

/// The work between the turns of the member's node, which has the work folder to itself.
/// `has_notes` says whether the node's log has notes.
///
/// # Errors
///
/// The system refused to open the work folder or to read the clock; the folder has files although
/// the node's log has no notes; or others may write in it.
pub fn office_of<'f>(
    rt: &HostRuntime,
    site: &Site<'f>,
    me: u8,
    has_notes: bool,
    telling: Telling,
) -> Result<Office<'f>, Refusal>
    ensures { IfErr result (RefusesWork has_notes) }
{
    let folder = folder_of(rt, site.work, me, has_notes)?;
    let now = Instant::now(rt)?;
    let takeover = site.takeover.unwrap_or(TAKEOVER);
    let pace = pace_of(site, takeover);
    Ok(Office {
        desk: Desk::new(rt.alloc(), folder, pace, has_notes, now),
        pacing: Pacing::new(now),
        builder: Builder::new(folder, now),
        rest: Rest::new(now, takeover, site.members),
        telling,
        progress: site.progress,
        told_at: now,
        looked_at: now,
        is_full_told: false,
    })
}

/// Opens the work folder.
fn folder_of<'f>(
    rt: &HostRuntime,
    path: &'f str,
    me: u8,
    has_notes: bool,
) -> Result<Folder<'f>, Refusal>
    ensures { IfErr result (RefusesWork has_notes) }
{
    match Folder::open(rt, path, me, has_notes) {
        Ok(folder) => {
            test_work(rt, path)?;
            Ok(folder)
        }
        Err(fault) => Err(Refusal::of(&fault)),
    }
}

/// How many units are built here at a time, by default one; at how many members a unit's build may
/// fail; and the waits. The units of other members are left to them for `takeover` seconds.
fn pace_of(site: &Site<'_>, takeover: u32) -> Pace {
    Pace {
        jobs: u32::from(site.jobs.unwrap_or(1)),
        ask: Duration::from_secs(1),
        takeover: Duration::from_secs(u64::from(takeover)),
        slot: Duration::from_millis(250),
        tries: site.tries.unwrap_or(TRIES),
    }
}

/// Runs the member's node on the log on which it starts, and returns it.
fn build_on_log<'a, 'c, E: Write>(
    rt: &'c HostRuntime,
    start: Start,
    port: UdpPort<'c, HostRuntime>,
    office: Office<'_>,
    tree: &'a Tree,
    weights: &Weights,
    site: &Site<'_>,
    me: u8,
    err: &mut E,
) -> Result<Solo<'a, FileDisk, UdpPort<'c, HostRuntime>>, Refusal>
    requires { me < length weights.now }
    ensures built { IfOk result (λ solo. IsOfNodeOn start.disk port.entry
        tree.entry.now weights.now me (λ before. HasBuilt site.now.rest before solo)) }
    ensures refused { IfErr result RefusesOnLog }
{
    let mut office = office;
    run_on_log(rt, start, port, &mut office, tree, weights, site, me, err)
}

/// Opens the member's node on the log on which it starts, runs it, and returns it.
fn run_on_log<'a, 'c, E: Write>(
    rt: &'c HostRuntime,
    start: Start,
    port: UdpPort<'c, HostRuntime>,
    office: &mut Office<'_>,
    tree: &'a Tree,
    weights: &Weights,
    site: &Site<'_>,
    me: u8,
    err: &mut E,
) -> Result<Solo<'a, FileDisk, UdpPort<'c, HostRuntime>>, Refusal>
    requires { me < length weights.now }
    ensures built { IfOk result (λ solo. IsOfNodeOn start.disk port.entry
        tree.entry.now weights.now me (λ before. HasBuilt site.now.rest before solo)) }
    ensures refused { IfErr result RefusesOnLog }
{
    let mut solo = solo_on_log(rt, start, port, tree, weights, site.dir, me)?;
    if run(rt, &mut solo, office, site.rest, err) {
        Ok(solo)
    } else {
        Err(Refusal::memory())
    }
}

/// The line and status of the node in its last state. The node is dropped here, where no other
/// value is.
fn last_answer(
    alloc: Global,
    solo: Solo<'_, FileDisk, UdpPort<'_, HostRuntime>>,
    me: u8,
) -> Result<Answer, AllocError>
    ensures { IfOk result (λ answer. IsLineWith me (letters_of solo.entry.node.node)
        answer.text.items answer.status) }
{
    answer_of(alloc, &solo, me)
}

/// The node's line and status at the moment.
fn answer_of<D: Disk, P: Port>(
    alloc: Global,
    solo: &Solo<'_, D, P>,
    me: u8,
) -> Result<Answer, AllocError>
    ensures { IfOk result (λ answer. IsLineWith me (letters_of solo.now.node.node)
        answer.text.items answer.status) }
{
    let counts = solo.counts();
    let text = node_text(alloc, me, counts)?;
    Ok(Answer {
        text: text.into_bytes(),
        status: status_of(counts),
    })
}

/// The status for these counts: 0 if the node is up, no package is queued, and none waits.
fn status_of(counts: Option<Counts>) -> u8
    ensures { result ≡ status_of counts }
{
    match counts {
        Some(counts) if counts.q == 0 && counts.t == 0 => 0,
        _ => 3,
    }
}

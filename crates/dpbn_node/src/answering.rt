//! The result of `dpbn node`.
ghost use Rattle.std.specs.Prelude.{◌≡◌, ◌<◌, ◌≤◌, IfErr, IfOk, length, string_bytes};
ghost use Rattle.dpbn_node.specs.Node.{HasRun, IsNodeText, IsShown, RefusesNode};
ghost use Rattle.dpbn_node.specs.Runs.{AreGood, IsOfNode, RefusesStart, letters_of, run_at};
ghost use Rattle.program_io.specs.NodeLine.{IsLineOf};
ghost use Rattle.program_io.specs.Refusals.{memory_refusal};

use crate::Telling;
use crate::given::{Given, given_of_words};
use crate::starting::{Begun, Place, begin, place_of_words, solo_on_log};
use crate::turning::run;
use datagram_ports::Port;
use dpbn_cli::{Files, Peers, Run};
use dpbn_key::SystemKeys;
use listing::Tree;
use lone_node::Solo;
use program_io::{Answer, Refusal, node_text, tree_of_file};
use protocol::Packages;
use run_file::{LogFolder, SupposedEmpty, SystemFolder};
use stable_record::{Disk, FileDisk};
use std::alloc::{AllocError, Global};
use std::io::Write;
use udp::UdpPort;

/// Runs the member's node for the given number of turns, and returns its line. Why a turn is
/// refused is printed on `err`; the turn counts, unless memory ran out.
///
/// Everything that can be wrong is checked before the first turn. First come the listing, the
/// builds, the weights, the key's file, the hosts and the member. Then come the log's file and its
/// run file, the socket, the log, and whether the run file can be written.
///
/// # Errors
///
/// The first of these that is wrong; out of memory, for the line or in too many turns.
pub fn node_of_words<E: Write>(
    rt: &HostRuntime,
    files: &Files<'_>,
    me: u8,
    peers: &Peers<'_>,
    patience: Option<u16>,
    run: &Run<'_>,
    err: &mut E,
) -> Result<Answer, Refusal>
    requires few { files.now.members ≤ 9 }
    requires peers { AreGood peers.now }
    ensures ok { IfOk result (λ answer. (answer.status ≡ 0)
        × IsNodeText files.now me peers.now run.now answer.text.items) }
    ensures refused { IfErr result (RefusesNode files.now me peers.now run.now) }
{
    let tree = tree_of_file(rt, files.listing, files.is_single)?;
    let given = given_of_words(rt, files)?;
    let keys = SystemKeys::of(rt);
    let place = place_of_words(rt.alloc(), &keys, files.members, peers, patience, run)?;
    let folder: SystemFolder<'_, SupposedEmpty> = SystemFolder::at(rt, files.dir);
    match run_on(rt, &folder, &tree, &given, files, me, place, err) {
        Ok(text) => Ok(Answer {
            text: text.into_bytes(),
            status: 0,
        }),
        Err(refusal) => Err(refusal),
    }
}

/// The line of the member's node after it ran on its log.
fn run_on<F: LogFolder, E: Write>(
    rt: &HostRuntime,
    folder: &F,
    tree: &Tree,
    given: &Given,
    files: &Files<'_>,
    me: u8,
    place: Place,
    err: &mut E,
) -> Result<String, Refusal>
    requires each { length place.addresses.items ≡ files.now.members }
    requires weights { length given.now.weights ≡ files.now.members }
    ensures member { IfOk result (λ text. me < files.now.members) }
    ensures shown { IfOk result (λ text. IsShown (F.gave folder.now me) (F.known folder.now me)
        (run_at tree.now given.now.weights place) me given.now.builds files.now.turns
        (string_bytes text)) }
    ensures refused { IfErr result (RefusesStart (F.had_mode folder.now) (F.gave folder.now me) me
        (run_at tree.now given.now.weights place)) }
{
    let mut telling = Telling::new(rt.alloc(), me, files.progress, place.sealing.is_watched());
    let solo = run_from_start(
        rt,
        folder,
        files.dir,
        tree,
        given,
        me,
        place,
        files.turns,
        &mut telling,
        err,
    )?;
    match last_line(rt.alloc(), solo, me) {
        Ok(line) => Ok(line),
        Err(_) => Err(Refusal::memory()),
    }
}

/// Starts the member's node at this place on its log in the folder, whose path is `dir`. Takes the
/// given number of turns, and returns the node as they left it. `dpbn node` makes this call once it
/// has read its files, and then prints the node's line.
///
/// # Errors
///
/// Those of the start; out of memory in too many turns.
pub fn run_from_start<'a, 'c, F: LogFolder, E: Write>(
    rt: &'c HostRuntime,
    folder: &F,
    dir: &str,
    tree: &'a Tree,
    given: &Given,
    me: u8,
    place: Place,
    turns: u32,
    telling: &mut Telling,
    err: &mut E,
) -> Result<Solo<'a, FileDisk, UdpPort<'c, HostRuntime>>, Refusal>
    requires { length place.addresses.items ≡ length given.now.weights }
    ensures member { IfOk result (λ solo. me < length given.now.weights) }
    ensures ran { IfOk result (λ solo. IsOfNode (F.gave folder.now me) (F.known folder.now me)
        (run_at tree.entry.now given.now.weights place) me
        (λ before. HasRun given.now.builds turns before solo)) }
    ensures refused { IfErr result (RefusesStart (F.had_mode folder.now) (F.gave folder.now me) me
        (run_at tree.entry.now given.now.weights place)) }
{
    let begun = begin(rt, tree, &given.weights, folder, me, place)?;
    let Begun { start, port } = begun;
    let solo = solo_on_log(rt, start, port, tree, &given.weights, dir, me)?;
    after_turns(rt.alloc(), solo, &given.builds, turns, telling, err)
}

/// The node after it took the given number of turns.
///
/// # Errors
///
/// Out of memory in too many turns.
fn after_turns<'a, 'c, E: Write>(
    alloc: Global,
    solo: Solo<'a, FileDisk, UdpPort<'c, HostRuntime>>,
    builds: &Packages,
    turns: u32,
    telling: &mut Telling,
    err: &mut E,
) -> Result<Solo<'a, FileDisk, UdpPort<'c, HostRuntime>>, Refusal>
    ensures ran { IfOk result (λ after. HasRun builds.now turns solo.entry after) }
    ensures refused { IfErr result (λ r. r ≡ memory_refusal) }
{
    let mut solo = solo;
    if run(alloc, &mut solo, builds, turns, telling, err) == turns {
        Ok(solo)
    } else {
        Err(Refusal::memory())
    }
}

/// The line of the node in its last state. The node is dropped here, where no other value is.
fn last_line(
    alloc: Global,
    solo: Solo<'_, FileDisk, UdpPort<'_, HostRuntime>>,
    me: u8,
) -> Result<String, AllocError>
    ensures { IfOk result (λ text.
        IsLineOf me (letters_of solo.entry.node.node) (string_bytes text)) }
{
    line_of(alloc, &solo, me)
}

/// The line of the node in its present state.
///
/// # Errors
///
/// Out of memory.
pub fn line_of<D: Disk, P: Port>(
    alloc: Global,
    solo: &Solo<'_, D, P>,
    me: u8,
) -> Result<String, AllocError>
    ensures { IfOk result (λ text.
        IsLineOf me (letters_of solo.now.node.node) (string_bytes text)) }
{
    node_text(alloc, me, solo.counts())
}

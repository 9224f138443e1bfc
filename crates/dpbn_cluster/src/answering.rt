//! The result of `dpbn cluster`.
ghost use Rattle.std.specs.Prelude.{◌≡◌, ◌≤◌, ◌⊎◌, ◌++◌, ◌∷◌, [], IfErr, IfOk, length, map};
ghost use Rattle.dpbn_cluster.specs.Cluster.{
  IsClusterRefusal,
  IsClusterText,
  IsShown,
  RefusesCluster,
  RefusesStart,
};
ghost use Rattle.dpbn_cluster.specs.Running.{AreEventsOfTurns, HasRunTo};
ghost use Rattle.dpbn_node.specs.Node.{socket_refusal};
ghost use Rattle.protocol.specs.Events.{event_view};
ghost use Rattle.faults.specs.Bytes.{line_feed};
ghost use Rattle.program_io.specs.Refusals.{IsSystemRefusal, memory_refusal};
ghost use Rattle.traces.specs.Written.{trace_text};
ghost use Rattle.cluster_turns.specs.State.{IsWorldOf};
ghost use Rattle.engine.specs.Division.{Division};
ghost use Rattle.world.specs.World.{World, start};

use crate::turning::{lines_of, run};
use ballots::Weights;
use cluster_turns::Cluster;
use datagram_ports::Port;
use dpbn_cli::Files;
use dpbn_node::{Given, given_of_words, log_of_file};
use faults::Memory;
use listing::Tree;
use program_io::{Answer, Refusal, tree_of_file};
use protocol::{Event, Packages};
use run_file::read_run;
use stable_record::{Disk, FileDisk};
use std::alloc::{AllocError, Global};
use std::fs;
use std::io::Write;
use traces::{Trace, write_trace};
use turn_rules::TurnFault;
use udp::UdpPort;

/// Runs all members' nodes for the given number of turns, and returns the line of each. Why a turn
/// is refused is printed on `err`; the turn counts. The turns' events are written to the trace
/// file, if one is named.
///
/// Everything that can be wrong is checked before the first turn, in this order: the listing, the
/// builds, the weights, the logs' files, whether they have run files, the sockets, the logs.
///
/// # Errors
///
/// The first of these that is wrong; after the turns, that the trace can't be written.
pub fn cluster_of_words<E: Write>(
    rt: &HostRuntime,
    files: &Files<'_>,
    trace: Option<&str>,
    err: &mut E,
) -> Result<Answer, Refusal>
    requires { files.now.members ≤ 9 }
    ensures ok { IfOk result
        (λ answer. (answer.status ≡ 0) × IsClusterText files.now answer.text.items) }
    ensures refused { IfErr result (RefusesCluster files.now) }
{
    let tree = tree_of_file(rt, files.listing, files.is_single)?;
    let given = given_of_words(rt, files)?;
    match run_on(rt, &tree, &given, files, trace, err) {
        Ok(text) => Ok(Answer { text, status: 0 }),
        Err(refusal) => Err(refusal),
    }
}

/// The lines of the nodes after they ran on their logs.
fn run_on<E: Write>(
    rt: &HostRuntime,
    tree: &Tree,
    given: &Given,
    files: &Files<'_>,
    trace: Option<&str>,
    err: &mut E,
) -> Result<Vec<u8>, Refusal>
    requires { length given.now.weights ≡ files.now.members }
    ensures shown { IfOk result (λ text. (division : Division) × (division.tree ≡ tree.now)
        × (events : _) × AreEventsOfTurns files.now.turns events
        × IsShown division given.now.weights events text.items) }
    ensures refused { IfErr result RefusesStart }
{
    let cluster = cluster_of(rt, tree, &given.weights, files)?;
    match after(rt.alloc(), cluster, &given.builds, files, err) {
        Ok((lines, events)) => {
            keep(rt, trace, &given.weights, events)?;
            Ok(lines)
        }
        Err(_) => Err(Refusal::memory()),
    }
}

/// The lines of the nodes after their turns, and the events.
fn after<D: Disk, P: Port, E: Write>(
    alloc: Global,
    cluster: Cluster<'_, D, P>,
    builds: &Packages,
    files: &Files<'_>,
    err: &mut E,
) -> Result<(Vec<u8>, Vec<Event>), AllocError>
    requires each { length cluster.weights ≡ files.now.members }
    ensures shown { IfOk result (λ r. IsShown cluster.entry.division cluster.entry.weights
        (map event_view r.1.items) r.0.items) }
    ensures ran { IfOk result (λ r.
        HasRunTo P.Port builds.now cluster.entry files.now.turns r.1.items) }
    ensures events { IfOk result (λ r. cluster.entry.events ≡ []
        → AreEventsOfTurns files.now.turns (map event_view r.1.items)) }
{
    let mut cluster = cluster;
    run(
        alloc,
        &mut cluster,
        builds,
        files.turns,
        files.progress,
        files.members,
        err,
    );
    let _events = cluster.events();
    let lines = lines_of(alloc, &cluster, files.members)?;
    Ok((lines, cluster.into_events()))
}

/// All members' nodes on their logs, each at a free port.
fn cluster_of<'a>(
    rt: &'a HostRuntime,
    tree: &'a Tree,
    weights: &Weights,
    files: &Files<'_>,
) -> Result<Cluster<'a, FileDisk, UdpPort<'a, HostRuntime>>, Refusal>
    requires { length weights.now ≡ files.now.members }
    ensures tree { IfOk result (λ c. c.division.tree ≡ tree.entry.now) }
    ensures weights { IfOk result (λ c. c.weights ≡ weights.now) }
    ensures fresh { IfOk result (λ c. IsWorldOf c (start c.division weights.now)) }
    ensures events { IfOk result (λ c. c.events ≡ []) }
    ensures refused { IfErr result RefusesStart }
{
    let disks = logs_of_files(rt, files.dir, files.members)?;
    refuse_runs(rt, files.dir, files.members)?;
    let port = port_of(rt, files.members)?;
    match Cluster::new(rt.alloc(), tree, weights, disks, port) {
        Ok(cluster) => Ok(cluster),
        Err(fault) => Err(Refusal::of(&fault)),
    }
}

/// The disks of the members' logs.
fn logs_of_files(rt: &HostRuntime, folder: &str, members: u8) -> Result<Vec<FileDisk>, Refusal>
    ensures count { IfOk result (λ disks. length disks.items ≡ members) }
    ensures refused { IfErr result IsSystemRefusal }
{
    let mut disks = Vec::with_capacity(rt.alloc(), members as usize)?;
    for member in 0..members {
        let disk = log_of_file(rt, folder, member)?;
        match disks.push(disk) {
            Ok(()) => {}
            Err(_) => return Err(Refusal::memory()),
        }
    }
    Ok(disks)
}

/// Refuses logs if one has a run file: a node runs on it, or did.
fn refuse_runs(rt: &HostRuntime, folder: &str, members: u8) -> Result<(), Refusal>
    ensures { IfErr result (λ r. IsSystemRefusal r ⊎ IsClusterRefusal r) }
{
    for member in 0..members {
        match read_run(rt, folder, member) {
            Ok(None) => {}
            Ok(Some(_)) => return Err(Refusal::of(&TurnFault::NotFresh)),
            Err(fault) => return Err(Refusal::of(&fault)),
        }
    }
    Ok(())
}

/// The port of all nodes.
fn port_of<'c>(rt: &'c HostRuntime, members: u8) -> Result<UdpPort<'c, HostRuntime>, Refusal>
    ensures { IfErr result (λ r. (r ≡ memory_refusal) ⊎ (r ≡ socket_refusal)) }
{
    match UdpPort::together(rt, rt, rt.alloc(), members) {
        Ok(port) => Ok(port),
        Err(fault) => Err(Refusal::of(&fault)),
    }
}

/// Writes the trace of the events to the file, if one is named.
fn keep(
    rt: &HostRuntime,
    path: Option<&str>,
    weights: &Weights,
    events: Vec<Event>,
) -> Result<(), Refusal>
    ensures { IfErr result IsSystemRefusal }
{
    let Some(path) = path else {
        return Ok(());
    };
    let text = text_of(rt.alloc(), weights, events)?;
    fs::write(rt, path, text.as_slice())?;
    Ok(())
}

/// The trace of the events as text, with a line feed at the end.
fn text_of(alloc: Global, weights: &Weights, events: Vec<Event>) -> Result<Vec<u8>, Memory>
    ensures { IfOk result (λ text. text.items
        ≡ trace_text (record { weights = weights.now; events = map event_view events.items })
        ++ line_feed ∷ []) }
{
    let weights = weights.copy();
    let mut text = Vec::new(alloc);
    write_trace(&Trace { weights, events }, &mut text)?;
    text.extend_from_slice(b"\n")?;
    Ok(text)
}

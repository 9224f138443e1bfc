//! The turns of a cluster, and what its nodes show.
ghost use Rattle.std.specs.Prelude.{◌≡◌, ◌≤◌, IfOk, length};
ghost use Rattle.dpbn_cluster.specs.Running.{Answer, HasRun, IsTurn};
ghost use Rattle.dpbr_run.specs.shared.NodeLines.{HasNodeLines};
ghost use Rattle.dpbr_run.specs.Run.{IsNodeLine};
ghost use Rattle.std.specs.Prelude.{string_bytes};
ghost use Rattle.cluster_turns.specs.State.{IsWorldOf};
ghost use Rattle.world.specs.World.{World};

use cluster_turns::Cluster;
use datagram_ports::Port;
use program_io::{Refusal, node_text};
use protocol::{Event, Packages};
use stable_record::Disk;
use std::alloc::{AllocError, Global};
use std::io::Write;
use turn_rules::TurnFault;

/// Takes the given number of turns. Why a turn is refused is printed on `err`, and so are the
/// nodes' lines after each `progress` turns, if that is set.
pub fn run<D: Disk, P: Port, E: Write>(
    alloc: Global,
    cluster: &mut Cluster<'_, D, P>,
    builds: &Packages,
    turns: u32,
    progress: Option<u32>,
    members: u8,
    err: &mut E,
)
    ensures ran { HasRun P.Port builds.now cluster.old cluster.new turns }
    ensures fixed { (cluster.new.division ≡ cluster.old.division)
        × (cluster.new.weights ≡ cluster.old.weights) }
{
    let mut left = progress.unwrap_or(0);
    for _ in 0..turns {
        take_turn(cluster, builds, err);
        left = next_lines(alloc, cluster, progress, left, members, err);
    }
}

/// Takes a turn, and prints why it is refused, if it is.
fn take_turn<D: Disk, P: Port, E: Write>(
    cluster: &mut Cluster<'_, D, P>,
    builds: &Packages,
    err: &mut E,
)
    ensures { (answer : Answer) × IsTurn P.Port cluster.old cluster.new builds.now answer }
{
    let answer = cluster.turn(builds);
    tell(answer, err);
}

/// Prints why a turn is refused, if it is.
fn tell<E: Write>(answer: Result<Option<Event>, TurnFault>, err: &mut E) {
    match answer {
        Ok(done) => drop(done),
        Err(fault) => {
            let _ = writeln!(err, "dpbn: {}", Refusal::of(&fault));
        }
    }
}

/// Prints the nodes' lines if they are due, and returns in how many turns the next ones are.
fn next_lines<D: Disk, P: Port, E: Write>(
    alloc: Global,
    cluster: &Cluster<'_, D, P>,
    progress: Option<u32>,
    left: u32,
    members: u8,
    err: &mut E,
) -> u32 {
    let Some(progress) = progress else {
        return 0;
    };
    if left > 1 {
        return left - 1;
    }
    if let Ok(lines) = lines_of(alloc, cluster, members) {
        let _ = err.write_all(lines.as_slice());
    }
    progress
}

/// The lines of the first nodes, by number.
pub fn lines_of<D: Disk, P: Port>(
    alloc: Global,
    cluster: &Cluster<'_, D, P>,
    members: u8,
) -> Result<Vec<u8>, AllocError>
    ensures { (w : World) → IsWorldOf cluster.now w
        → IfOk result (λ text. HasNodeLines w members text.items) }
{
    let mut text = Vec::new(alloc);
    for node in 0..members {
        let line = line_of(alloc, cluster, node)?;
        text.extend_from_slice(line.as_bytes())?;
    }
    Ok(text)
}

/// The line of the node with this number.
fn line_of<D: Disk, P: Port>(
    alloc: Global,
    cluster: &Cluster<'_, D, P>,
    node: u8,
) -> Result<String, AllocError>
    ensures { (w : World) → IsWorldOf cluster.now w
        → IfOk result (λ text. IsNodeLine w node (string_bytes text)) }
{
    node_text(alloc, node, cluster.counts(node))
}

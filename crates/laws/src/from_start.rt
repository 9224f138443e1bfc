//! What `dpbn node` and `dpbn build` do from their start on is among the things that programs do.
ghost use Rattle.std.specs.Prelude.{◌≡◌, IfErr, IfOk, length};
ghost use Rattle.dpbn_build.specs.Build.{RefusesBuildOn};
ghost use Rattle.dpbn_node.specs.Runs.{IsOfNode, RefusesStart, run_at};
ghost use Rattle.laws.specs.FromStart.{HasBuiltFromStart, HasRunFromStart, OthersStayDown};

use ballots::Weights;
use dpbn_cli::Site;
use dpbn_node::{Given, Place, Solo, Telling, run_from_start};
use listing::Tree;
use program_io::Refusal;
use run_file::LogFolder;
use stable_record::FileDisk;
use std::io::Write;
use udp::UdpPort;

/// Starts the member's node and takes this number of turns, by the call that `dpbn node` makes:
/// `run_from_start` of crate `dpbn_node`.
///
/// Suppose that in a run of programs this member's program was down, with the file that its log is
/// known to have, and that this file did what its history says. Suppose also that each turn took
/// only what was offered before in this run. Then the run goes on by the start and the turns, and
/// the program runs there with the returned node, among what others did meanwhile.
///
/// # Errors
///
/// Those of that call.
pub fn node_from_start<'a, 'c, F: LogFolder, E: Write>(
    rt: &'c HostRuntime,
    folder: &F,
    dir: &str,
    tree: &'a Tree,
    given: &Given,
    me: u8,
    place: Place,
    turns: u32,
    telling: &mut Telling,
    err: &mut E,
) -> Result<Solo<'a, FileDisk, UdpPort<'c, HostRuntime>>, Refusal>
    requires { length place.addresses.items ≡ length given.now.weights }
    ensures ran { IfOk result (λ solo. IsOfNode (F.gave folder.now me) (F.known folder.now me)
        (run_at tree.entry.now given.now.weights place) me
        (λ before. HasRunFromStart tree.entry.now given.now.weights me (F.known folder.now me)
        given.now.builds turns before solo)) }
    ensures refused { IfErr result (RefusesStart (F.had_mode folder.now) (F.gave folder.now me) me
        (run_at tree.entry.now given.now.weights place)) }
{
    run_from_start(rt, folder, dir, tree, given, me, place, turns, telling, err)
}

/// Starts the member's node and takes turns until it is down or at rest, by the call that `dpbn
/// build` makes: `build_from_start` of crate `dpbn_build`.
///
/// What is said of `node_from_start` holds here, too.
///
/// # Errors
///
/// Those of that call.
pub fn build_from_start<'a, 'c, F: LogFolder, E: Write>(
    rt: &'c HostRuntime,
    folder: &F,
    tree: &'a Tree,
    weights: &Weights,
    site: &Site<'_>,
    me: u8,
    place: Place,
    err: &mut E,
) -> Result<Solo<'a, FileDisk, UdpPort<'c, HostRuntime>>, Refusal>
    requires { length place.addresses.items ≡ length weights.now }
    ensures built { IfOk result (λ solo. IsOfNode (F.gave folder.now me) (F.known folder.now me)
        (run_at tree.entry.now weights.now place) me
        (λ before. HasBuiltFromStart tree.entry.now weights.now me (F.known folder.now me)
        site.now.rest before solo)) }
    ensures refused { IfErr result (RefusesBuildOn (F.had_mode folder.now) (F.gave folder.now me)
        (F.known folder.now me) (run_at tree.entry.now weights.now place) me) }
{
    dpbn_build::build_from_start(rt, folder, tree, weights, site, me, place, err)
}

/// Once a member's program has started and taken its turns, a member whose program rested meanwhile
/// is down in that run of programs. This is a premise of its own start, so it can start next.
pub fn others_stay_down()
    ensures { OthersStayDown }
{}

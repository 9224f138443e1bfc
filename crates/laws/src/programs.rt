//! Laws: programs on hosts of their own are one world.
ghost use Rattle.std.specs.Prelude.{◌≡◌, true};
ghost use Rattle.laws.specs.BuildPrograms.{BuildTurnsAreOfPrograms, ExchangesAreNotices, HasBuiltAmong};
ghost use Rattle.laws.specs.ProgramLaws.{NodeTurnsAreOfPrograms, ProgramsMakeAWorld};

use dpbn_build::{Office, run};
use dpbn_node::Solo;
use stable_record::FileDisk;
use std::io::Write;
use udp::UdpPort;

/// Each member's program is `dpbn node` or `dpbn build`, over one tree and the same weights. It
/// opens its own log's file, as it was left. It takes turns, and waits between them. Bytes that a
/// turn takes were sent before by one of the nodes, in this run. A program ends, or it is killed:
/// while it starts, between turns or in one. Its file is left as a crash then may leave it. So far
/// each file did what its history says.
///
/// Whatever programs do in that way is a run of hosts, and so one world. So there is one list of
/// packages at each moment.
pub fn programs_make_a_world()
    ensures { ProgramsMakeAWorld }
{}

/// The turns that `dpbn node` promises in its contract are among the things that programs do there,
/// together with whatever the programs of other members do meanwhile, if the premises held in each
/// turn.
pub fn node_turns_are_of_programs()
    ensures { NodeTurnsAreOfPrograms }
{}

/// So are the turns that `dpbn build` promises.
pub fn build_turns_are_of_programs()
    ensures { BuildTurnsAreOfPrograms }
{}

/// Before a turn `dpbn build` exchanges notices of failed builds with other members. However many
/// these are, they change nothing of its port but the notices that wait there, to be read or to
/// leave.
pub fn exchanges_are_notices()
    ensures { ExchangesAreNotices }
{}

/// Takes the turns of `dpbn build`, and returns whether the node is at its end. Then these turns,
/// from the state that the node had to the one that it has, are among the things that programs do,
/// if the premises held in each turn.
pub fn build_among_programs<E: Write>(
    rt: &HostRuntime,
    solo: &mut Solo<'_, FileDisk, UdpPort<'_, HostRuntime>>,
    office: &mut Office<'_>,
    rest: Option<u32>,
    err: &mut E,
) -> bool
    ensures { result ≡ true → HasBuiltAmong rest solo.old solo.new }
{
    run(rt, solo, office, rest, err)
}

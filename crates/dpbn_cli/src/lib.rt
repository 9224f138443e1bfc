//! The command line of `dpbn`: which call of the program it is, as clap parses it.
#![tactic(auto)]

ghost use Rattle.std.specs.Prelude.{◌≡◌, IfErr, IfOk, [], map};
ghost use Rattle.clap.specs.Words.{FailsBy, app_of, fault_of, kind_of, subcommand_of, subcommand_rows_of};
ghost use Rattle.dpbn_cli.specs.Calls.{IsCallOf, call_fault, dpbn_app, faults_of, matched, parse_faults};
ghost use Rattle.dpbn_cli.specs.inside.Naming.{RefusesBy};

mod build;
mod call_table;
mod cluster;
mod explain;
mod key;
mod node;
mod one_node;
mod shared;

use call_table::CALLS;
use clap::error::ErrorKind;
use clap::{ArgMatches, Command, Error};
use dpbr_cli::{asks_release, with_subcommands};
use std::alloc::{AllocError, Global};
use std::convert::AsStr;

/// The values for the subcommands whose nodes take a given number of turns.
#[derive(Debug, Drop)]
pub struct Files<'a> {
    pub listing: &'a str,
    pub builds: &'a str,
    /// The folder of the logs.
    pub dir: &'a str,
    /// The number of members: 1 to 9.
    pub members: u8,
    /// The number of turns: at most 1,000,000.
    pub turns: u32,
    /// The members' weights, as written.
    pub weights: Option<&'a str>,
    /// The number of turns after which the nodes' lines are printed: 1 to 1,000,000.
    pub progress: Option<u32>,
    /// Whether each path of the listing is a group of its own.
    pub is_single: bool,
}

/// The values about the site of a node whose claims are built.
#[derive(Debug, Drop)]
pub struct Site<'a> {
    pub listing: &'a str,
    /// The folder through which jobs are given and builds returned.
    pub work: &'a str,
    /// The folder of the logs.
    pub dir: &'a str,
    /// The number of members: 1 to 9.
    pub members: u8,
    /// The members' weights, as written.
    pub weights: Option<&'a str>,
    /// The number of units that are built here at a time: 1 to 64.
    pub jobs: Option<u8>,
    /// The number of seconds for which a unit that was promised to another member is left to that
    /// member: 1 to 1,000,000.
    pub takeover: Option<u32>,
    /// At how many members a unit's build may fail before nobody else claims the unit: 1 to 9.
    pub tries: Option<u8>,
    /// The number of seconds without anything to do after which the node ends: 1 to 1,000,000. If
    /// None, only a signal ends it.
    pub rest: Option<u32>,
    /// The number of seconds after which the node's line is printed: 1 to 1,000,000.
    pub progress: Option<u32>,
    /// Whether each path of the listing is a group of its own.
    pub is_single: bool,
}

/// Where the members of a cluster listen.
#[derive(Debug, Drop)]
pub enum Peers<'a> {
    /// On 127.0.0.1, each at this port plus its own number: 1,024 to 65,526.
    Base(u16),
    /// At the addresses and ports of this text, as written.
    Hosts(&'a str),
}

/// The run of a node.
#[derive(Debug, Drop)]
pub struct Run<'a> {
    /// The file of the key that the node seals its messages with. If None, it trusts what it
    /// receives.
    pub key: Option<&'a str>,
    /// Whether a log of the run has to exist.
    pub is_continued: bool,
}

/// A call of the program.
#[derive(Debug, Drop)]
pub enum Call<'a> {
    /// The nodes of all members, in this process, and the file for the trace of the run.
    Cluster {
        files: Files<'a>,
        trace: Option<&'a str>,
    },
    /// The node of member `me`, and the number of milliseconds that a turn waits for a datagram: at
    /// most 60,000.
    Node {
        files: Files<'a>,
        me: u8,
        peers: Peers<'a>,
        patience: Option<u16>,
        run: Run<'a>,
    },
    /// The same node, whose claims are built here.
    Build {
        site: Site<'a>,
        me: u8,
        peers: Peers<'a>,
        patience: Option<u16>,
        run: Run<'a>,
    },
    /// Creates a file with a new key.
    Key {
        file: &'a str,
    },
    /// What a fault of this number means, and what to do.
    Explain {
        number: u16,
    },
    /// The release of the program.
    Release,
}

/// The call of these words, of which the first is the program's name.
///
/// Words that are not a call, or that ask for help, are refused with clap's text. So are words that
/// ask for the explanation of a number that no fault has, and words of `node` and `build` with one
/// of these faults:
///
/// - neither the first port nor the hosts of the peers, or both of these;
/// - hosts, and neither a key nor the flag that the run has no key;
/// - both a key and that flag.
pub fn dpbn_words<'a, S: AsStr>(alloc: Global, words: &'a [S]) -> Result<Call<'a>, Error>
    ensures call { IfOk result (IsCallOf (matched (map S.text words.entry.now))) }
    // If there is a call, there is no fault in the words. A refusal is either out of memory or of
    // the kind of one of their faults.
    ensures faults { FailsBy (faults_of (map S.text words.entry.now)) result }
{
    if asks_release(words) {
        Ok(Call::Release)
    } else {
        parsed(alloc, words)
    }
}

/// The call that clap parses from the words.
fn parsed<'a, S: AsStr>(alloc: Global, words: &'a [S]) -> Result<Call<'a>, Error>
    ensures call { IfOk result
        (IsCallOf (subcommand_of dpbn_app (map S.text words.entry.now))) }
    ensures faults { FailsBy (parse_faults (map S.text words.entry.now)) result }
{
    let matches = matches_of(alloc, words)?;
    match call_of(&matches) {
        Ok(call) => Ok(call),
        Err(kind) => Err(refusal(alloc, kind)?),
    }
}

/// clap's matches of the words.
fn matches_of<'a, S: AsStr>(alloc: Global, words: &'a [S]) -> Result<ArgMatches<'a>, Error>
    ensures matched { IfOk result (λ m. subcommand_rows_of m
        ≡ subcommand_of dpbn_app (map S.text words.entry.now)) }
    ensures faults { FailsBy (fault_of dpbn_app (map S.text words.entry.now)) result }
{
    let command = dpbn_command(alloc)?;
    command.try_get_matches_from(words)
}

/// The call with the matched values, or the kind of their fault.
fn call_of<'a>(matches: &ArgMatches<'a>) -> Result<Call<'a>, ErrorKind>
    ensures call { IfOk result (IsCallOf (subcommand_rows_of matches.now)) }
    ensures sound { IfOk result (λ call. call_fault (subcommand_rows_of matches.now) ≡ []) }
    ensures kind { IfErr result (RefusesBy (subcommand_rows_of matches.now)) }
{
    match matches.subcommand() {
        Some(("cluster", found)) => cluster::call_of(found).ok_or(ErrorKind::MissingSubcommand),
        Some(("node", found)) => node::call_of(found),
        Some(("build", found)) => build::call_of(found),
        Some(("key", found)) => key::call_of(found).ok_or(ErrorKind::MissingSubcommand),
        Some(("explain", found)) => explain::call_of(found),
        _ => Err(ErrorKind::MissingSubcommand),
    }
}

/// The refusal of words with a fault of this kind.
fn refusal(alloc: Global, kind: ErrorKind) -> Result<Error, AllocError>
    ensures { IfOk result (λ error. kind_of error ≡ kind) }
{
    let message = match kind {
        ErrorKind::MissingRequiredArgument => {
            "one of --base and --hosts has to be given, and with --hosts --key or --unsealed"
        }
        ErrorKind::ArgumentConflict => {
            "--base and --hosts cannot be given together, nor --key and --unsealed"
        }
        ErrorKind::ValueValidation => "no fault has this number",
        _ => "the words name no call",
    };
    dpbn_command(alloc)?.error(kind, message)
}

/// clap's command for the program.
#[tactic(auto, unfolding(crate::specs::Calls::dpbn_app))]
fn dpbn_command<'a>(alloc: Global) -> Result<Command<'a>, AllocError>
    ensures { IfOk result (λ command. app_of command ≡ dpbn_app) }
{
    let command = Command::new(alloc, "dpbn")
        .about("Nodes that build a listing's packages together.")
        .after_help("dpbn --version prints the release.")
        .subcommand_required(true);
    with_subcommands(alloc, command, CALLS.as_slice())
}

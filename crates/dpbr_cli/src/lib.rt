//! The command line of `dpbr`: which call of the program it is, as clap parses it.
#![tactic(auto)]

ghost use Rattle.std.specs.Prelude.{◌≡◌, IfErr, IfOk, [], map};
ghost use Rattle.clap.specs.Words.{FailsBy, app_of, fault_of, kind_of, subcommand_of, subcommand_rows_of};
ghost use Rattle.dpbr_cli.specs.Calls.{IsCallOf, call_fault, dpbr_app, faults_of, matched, parse_faults};
ghost use Rattle.dpbr_cli.specs.inside.Naming.{RefusesBy};

mod arguments;
mod audit;
mod call_table;
mod explain;
mod explaining;
mod fault_table;
mod release;
mod run;
mod status;
mod wayon;

pub use arguments::{is_set, number_if, number_of, text_of, with_subcommands};
use call_table::CALLS;
pub use call_table::{Argument, EXPLAIN, Kind, Place, SINGLE, Subcommand};
use clap::error::ErrorKind;
use clap::{ArgMatches, Command, Error};
pub use explain::explained_number;
pub use explaining::{explanation, is_fault};
pub use release::{asks_release, release_text};
use std::alloc::{AllocError, Global};
use std::convert::AsStr;

/// A call of the program, with its arguments, such as the names of files, and whether each path of
/// the listing is a group of its own.
#[derive(Debug, Drop)]
pub enum Call<'a> {
    /// The letters of a listing's packages, if those in a text of package paths are held.
    Status {
        listing: &'a str,
        held: &'a str,
        is_single: bool,
    },
    /// Whether a list of packages is allowed by a listing.
    Audit {
        listing: &'a str,
        list: &'a str,
        is_single: bool,
    },
    /// The state that a trace of events leaves, of nodes that build a listing's packages; before
    /// it a line for each event, if asked for.
    Run {
        listing: &'a str,
        trace: &'a str,
        is_single: bool,
        has_events: bool,
    },
    /// Events after those of a trace that make a node hold the packages of a path, which a host
    /// builds from the given files.
    Wayon {
        listing: &'a str,
        trace: &'a str,
        node: u8,
        path: &'a str,
        host: u16,
        builds: &'a str,
        is_single: bool,
    },
    /// What a fault of this number means, and what to do.
    Explain {
        number: u16,
    },
    /// The release of the program.
    Release,
}

/// The call of these words, of which the first is the program's name.
///
/// Words that are not a call, or that ask for help, are refused with clap's text. So are words that
/// ask for the explanation of a number that no fault has.
pub fn dpbr_words<'a, S: AsStr>(alloc: Global, words: &'a [S]) -> Result<Call<'a>, Error>
    ensures call { IfOk result (IsCallOf (matched (map S.text words.entry.now))) }
    // If there is a call, there is no fault in the words. A refusal is either out of memory or of
    // the kind of one of their faults.
    ensures faults { FailsBy (faults_of (map S.text words.entry.now)) result }
{
    if asks_release(words) {
        Ok(Call::Release)
    } else {
        parsed(alloc, words)
    }
}

/// The call that clap parses from the words.
fn parsed<'a, S: AsStr>(alloc: Global, words: &'a [S]) -> Result<Call<'a>, Error>
    ensures call { IfOk result
        (IsCallOf (subcommand_of dpbr_app (map S.text words.entry.now))) }
    ensures faults { FailsBy (parse_faults (map S.text words.entry.now)) result }
{
    let matches = matches_of(alloc, words)?;
    match call_of(&matches) {
        Ok(call) => Ok(call),
        Err(kind) => Err(refusal(alloc, kind)?),
    }
}

/// clap's matches of the words.
fn matches_of<'a, S: AsStr>(alloc: Global, words: &'a [S]) -> Result<ArgMatches<'a>, Error>
    ensures matched { IfOk result (λ m. subcommand_rows_of m
        ≡ subcommand_of dpbr_app (map S.text words.entry.now)) }
    ensures faults { FailsBy (fault_of dpbr_app (map S.text words.entry.now)) result }
{
    let command = dpbr_command(alloc)?;
    command.try_get_matches_from(words)
}

/// The call with the matched values, or the kind of their fault.
fn call_of<'a>(matches: &ArgMatches<'a>) -> Result<Call<'a>, ErrorKind>
    ensures call { IfOk result (IsCallOf (subcommand_rows_of matches.now)) }
    ensures sound { IfOk result (λ call. call_fault (subcommand_rows_of matches.now) ≡ []) }
    ensures kind { IfErr result (RefusesBy (subcommand_rows_of matches.now)) }
{
    match matches.subcommand() {
        Some(("status", found)) => status::call_of(found).ok_or(ErrorKind::MissingSubcommand),
        Some(("audit", found)) => audit::call_of(found).ok_or(ErrorKind::MissingSubcommand),
        Some(("run", found)) => run::call_of(found).ok_or(ErrorKind::MissingSubcommand),
        Some(("wayon", found)) => wayon::call_of(found).ok_or(ErrorKind::MissingSubcommand),
        Some(("explain", found)) => explain::call_of(found),
        _ => Err(ErrorKind::MissingSubcommand),
    }
}

/// The refusal of words with a fault of this kind.
fn refusal(alloc: Global, kind: ErrorKind) -> Result<Error, AllocError>
    ensures { IfOk result (λ error. kind_of error ≡ kind) }
{
    let message = match kind {
        ErrorKind::ValueValidation => "no fault has this number",
        _ => "the words name no call",
    };
    dpbr_command(alloc)?.error(kind, message)
}

/// clap's command for the program.
#[tactic(auto, unfolding(crate::specs::Calls::dpbr_app))]
fn dpbr_command<'a>(alloc: Global) -> Result<Command<'a>, AllocError>
    ensures { IfOk result (λ command. app_of command ≡ dpbr_app) }
{
    let command = Command::new(alloc, "dpbr")
        .about("Letters, audits and runs of a bulk build of ports, and ways on from a run.")
        .after_help("dpbr --version prints the release.")
        .subcommand_required(true);
    with_subcommands(alloc, command, CALLS.as_slice())
}

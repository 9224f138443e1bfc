//! The values of the subcommands whose nodes take a given number of turns.
ghost use Rattle.std.specs.Prelude.{IfNone, IfSome};
ghost use Rattle.clap.specs.Words.{found_of, rows_of};
ghost use Rattle.dpbn_cli.specs.Calls.{AreFiles};
ghost use Rattle.dpbn_cli.specs.inside.Naming.{HasFiles};

use crate::Files;
use crate::call_table::{BUILDS, DIR, LISTING, MEMBERS, PROGRESS_IN_TURNS, TURNS, WEIGHTS};
use clap::ArgMatches;
use dpbr_cli::{SINGLE, is_set, number_if, number_of, text_of};

/// The matched values.
pub fn files_of<'a>(found: &ArgMatches<'a>) -> Option<Files<'a>>
    ensures some { IfSome result (AreFiles (rows_of (found_of found.now))) }
    ensures none { IfNone result (¬ HasFiles (rows_of (found_of found.now))) }
{
    Some(Files {
        listing: text_of(found, LISTING.0)?,
        builds: text_of(found, BUILDS.0)?,
        dir: text_of(found, DIR.0)?,
        members: number_of(found, &MEMBERS)? as u8,
        turns: number_of(found, &TURNS)?,
        weights: text_of(found, WEIGHTS.0),
        progress: number_if(found, &PROGRESS_IN_TURNS)?,
        is_single: is_set(found, SINGLE.0),
    })
}

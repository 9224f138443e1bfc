//! `dpbr run [--events] [--single] LISTING TRACE`.
ghost use Rattle.std.specs.Prelude.{IfNone, IfSome, Some, codes};
ghost use Rattle.clap.specs.Words.{found_of, rows_of};
ghost use Rattle.dpbr_cli.specs.Calls.{IsCallOf};
ghost use Rattle.dpbr_cli.specs.inside.Naming.{NamesCall};

use crate::Call;
use crate::arguments::{is_set, text_of};
use crate::call_table::{EVENTS, LISTING, SINGLE, TRACE};
use clap::ArgMatches;

/// The call with the matched values.
pub fn call_of<'a>(found: &ArgMatches<'a>) -> Option<Call<'a>>
    ensures some { IfSome result (IsCallOf (Some (codes "run", rows_of (found_of found.now)))) }
    ensures none { IfNone result
        (¬ NamesCall (Some (codes "run", rows_of (found_of found.now)))) }
{
    let listing = text_of(found, LISTING.0)?;
    let trace = text_of(found, TRACE.0)?;
    Some(Call::Run {
        listing,
        trace,
        is_single: is_set(found, SINGLE.0),
        has_events: is_set(found, EVENTS.0),
    })
}

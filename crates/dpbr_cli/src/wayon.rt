//! `dpbr wayon [--single] LISTING TRACE NODE PATH HOST BUILDS`.
ghost use Rattle.std.specs.Prelude.{IfNone, IfSome, Some, codes};
ghost use Rattle.clap.specs.Words.{found_of, rows_of};
ghost use Rattle.dpbr_cli.specs.Calls.{IsCallOf};
ghost use Rattle.dpbr_cli.specs.inside.Naming.{NamesCall};

use crate::Call;
use crate::arguments::{is_set, number_of, text_of};
use crate::call_table::{BUILDS, HOST, LISTING, NODE, PATH, SINGLE, TRACE};
use clap::ArgMatches;

/// The call with the matched values.
pub fn call_of<'a>(found: &ArgMatches<'a>) -> Option<Call<'a>>
    ensures some { IfSome result (IsCallOf (Some (codes "wayon", rows_of (found_of found.now)))) }
    ensures none { IfNone result
        (¬ NamesCall (Some (codes "wayon", rows_of (found_of found.now)))) }
{
    let listing = text_of(found, LISTING.0)?;
    let trace = text_of(found, TRACE.0)?;
    let node = number_of(found, &NODE)? as u8;
    let path = text_of(found, PATH.0)?;
    let host = number_of(found, &HOST)? as u16;
    let builds = text_of(found, BUILDS.0)?;
    Some(Call::Wayon {
        listing,
        trace,
        node,
        path,
        host,
        builds,
        is_single: is_set(found, SINGLE.0),
    })
}

//! `dpbr audit [--single] LISTING LIST`.
ghost use Rattle.std.specs.Prelude.{IfNone, IfSome, Some, codes};
ghost use Rattle.clap.specs.Words.{found_of, rows_of};
ghost use Rattle.dpbr_cli.specs.Calls.{IsCallOf};
ghost use Rattle.dpbr_cli.specs.inside.Naming.{NamesCall};

use crate::Call;
use crate::arguments::{is_set, text_of};
use crate::call_table::{LIST, LISTING, SINGLE};
use clap::ArgMatches;

/// The call with the matched values.
pub fn call_of<'a>(found: &ArgMatches<'a>) -> Option<Call<'a>>
    ensures some { IfSome result (IsCallOf (Some (codes "audit", rows_of (found_of found.now)))) }
    ensures none { IfNone result
        (¬ NamesCall (Some (codes "audit", rows_of (found_of found.now)))) }
{
    let listing = text_of(found, LISTING.0)?;
    let list = text_of(found, LIST.0)?;
    Some(Call::Audit {
        listing,
        list,
        is_single: is_set(found, SINGLE.0),
    })
}

//! `dpbn cluster`.
ghost use Rattle.std.specs.Prelude.{IfNone, IfSome, Some, codes};
ghost use Rattle.clap.specs.Words.{found_of, rows_of};
ghost use Rattle.dpbn_cli.specs.Calls.{IsCallOf};
ghost use Rattle.dpbn_cli.specs.inside.Naming.{NamesCall};

use crate::Call;
use crate::call_table::TRACE;
use crate::shared::files_of;
use clap::ArgMatches;
use dpbr_cli::text_of;

/// The call with the matched values.
pub fn call_of<'a>(found: &ArgMatches<'a>) -> Option<Call<'a>>
    ensures some { IfSome result (IsCallOf (Some (codes "cluster", rows_of (found_of found.now)))) }
    ensures none { IfNone result
        (¬ NamesCall (Some (codes "cluster", rows_of (found_of found.now)))) }
{
    let files = files_of(found)?;
    Some(Call::Cluster {
        files,
        trace: text_of(found, TRACE.0),
    })
}

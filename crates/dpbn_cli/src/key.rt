//! `dpbn key`.
ghost use Rattle.std.specs.Prelude.{IfNone, IfSome, Some, codes};
ghost use Rattle.clap.specs.Words.{found_of, rows_of};
ghost use Rattle.dpbn_cli.specs.Calls.{IsCallOf};
ghost use Rattle.dpbn_cli.specs.inside.Naming.{NamesCall};

use crate::Call;
use crate::call_table::FILE;
use clap::ArgMatches;
use dpbr_cli::text_of;

/// The call with the matched file.
pub fn call_of<'a>(found: &ArgMatches<'a>) -> Option<Call<'a>>
    ensures some { IfSome result (IsCallOf (Some (codes "key", rows_of (found_of found.now)))) }
    ensures none { IfNone result (¬ NamesCall (Some (codes "key", rows_of (found_of found.now)))) }
{
    let file = text_of(found, FILE.0)?;
    Some(Call::Key { file })
}

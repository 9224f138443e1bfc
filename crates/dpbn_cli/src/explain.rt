//! `dpbn explain NUMBER`.
ghost use Rattle.std.specs.Prelude.{◌≡◌, IfErr, IfOk, [], Some, codes};
ghost use Rattle.clap.specs.Words.{found_of, rows_of};
ghost use Rattle.dpbn_cli.specs.Calls.{IsCallOf, call_fault};
ghost use Rattle.dpbn_cli.specs.inside.Naming.{RefusesBy};

use crate::Call;
use clap::ArgMatches;
use clap::error::ErrorKind;
use dpbr_cli::explained_number;

/// The call with the matched number, or the kind of its fault.
pub fn call_of<'a>(found: &ArgMatches<'a>) -> Result<Call<'a>, ErrorKind>
    ensures call { IfOk result (IsCallOf (Some (codes "explain", rows_of (found_of found.now)))) }
    ensures sound { IfOk result
        (λ call. call_fault (Some (codes "explain", rows_of (found_of found.now))) ≡ []) }
    ensures kind { IfErr result
        (RefusesBy (Some (codes "explain", rows_of (found_of found.now)))) }
{
    let number = explained_number(found)?;
    Ok(Call::Explain { number })
}

//! `dpbr explain NUMBER` and `dpbn explain NUMBER`.
ghost use Rattle.std.specs.Prelude.{◌≡◌, IfErr, IfOk, [], Some, codes};
ghost use Rattle.clap.specs.Words.{IsAmong, found_of, rows_of};
ghost use Rattle.dpbr_cli.specs.Calls.{IsCallOf, IsExplained, call_fault, number_fault};
ghost use Rattle.dpbr_cli.specs.inside.Naming.{RefusesBy};
ghost use Rattle.dpbr_cli.specs.shared.Matches.{HasNumberOf};

use crate::Call;
use crate::arguments::number_of;
use crate::call_table::NUMBER;
use crate::explaining::is_fault;
use clap::ArgMatches;
use clap::error::ErrorKind;

/// The number that was matched, or the kind of its fault.
pub fn explained_number(found: &ArgMatches<'_>) -> Result<u16, ErrorKind>
    ensures number { IfOk result (IsExplained (rows_of (found_of found.now))) }
    ensures sound { IfOk result (λ n. number_fault (rows_of (found_of found.now)) ≡ []) }
    ensures kind { IfErr result
        (λ kind. HasNumberOf (rows_of (found_of found.now)) (codes "NUMBER") NUMBER.2
        → IsAmong kind (number_fault (rows_of (found_of found.now)))) }
{
    let Some(number) = number_of(found, &NUMBER) else {
        return Err(ErrorKind::MissingRequiredArgument);
    };
    let number = number as u16;
    if is_fault(number) {
        Ok(number)
    } else {
        Err(ErrorKind::ValueValidation)
    }
}

/// The call with the matched number, or the kind of its fault.
pub fn call_of<'a>(found: &ArgMatches<'a>) -> Result<Call<'a>, ErrorKind>
    ensures call { IfOk result (IsCallOf (Some (codes "explain", rows_of (found_of found.now)))) }
    ensures sound { IfOk result
        (λ call. call_fault (Some (codes "explain", rows_of (found_of found.now))) ≡ []) }
    ensures kind { IfErr result
        (RefusesBy (Some (codes "explain", rows_of (found_of found.now)))) }
{
    let number = explained_number(found)?;
    Ok(Call::Explain { number })
}

//! `dpbn node`.
ghost use Rattle.std.specs.Prelude.{◌≡◌, IfErr, IfOk, Some, [], codes};
ghost use Rattle.clap.specs.Words.{found_of, rows_of};
ghost use Rattle.dpbn_cli.specs.Calls.{IsCallOf, call_fault};
ghost use Rattle.dpbn_cli.specs.inside.Naming.{RefusesBy};

use crate::Call;
use crate::one_node::one_node_of;
use crate::shared::files_of;
use clap::ArgMatches;
use clap::error::ErrorKind;

/// The call with the matched values, or the kind of their fault.
pub fn call_of<'a>(found: &ArgMatches<'a>) -> Result<Call<'a>, ErrorKind>
    ensures call { IfOk result (IsCallOf (Some (codes "node", rows_of (found_of found.now)))) }
    ensures sound { IfOk result
        (λ call. call_fault (Some (codes "node", rows_of (found_of found.now))) ≡ []) }
    ensures kind { IfErr result (RefusesBy (Some (codes "node", rows_of (found_of found.now)))) }
{
    let node = one_node_of(found)?;
    let Some(files) = files_of(found) else {
        return Err(ErrorKind::MissingRequiredArgument);
    };
    Ok(Call::Node {
        files,
        me: node.me,
        peers: node.peers,
        patience: node.patience,
        run: node.run,
    })
}

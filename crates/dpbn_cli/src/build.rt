//! `dpbn build`.
ghost use Rattle.std.specs.Prelude.{◌≡◌, IfErr, IfNone, IfOk, IfSome, Some, [], codes};
ghost use Rattle.clap.specs.Words.{found_of, rows_of};
ghost use Rattle.dpbn_cli.specs.Calls.{IsCallOf, IsSite, call_fault};
ghost use Rattle.dpbn_cli.specs.inside.Naming.{HasSite, RefusesBy};
ghost use Rattle.dpbr_cli.specs.Values.{IsNumberIf};
ghost use Rattle.dpbr_cli.specs.shared.Matches.{MayHaveNumber};

use crate::call_table::{
    DIR, JOBS, LISTING, MEMBERS, PROGRESS_IN_SECONDS, REST, TAKEOVER, TRIES, WEIGHTS, WORK,
};
use crate::one_node::one_node_of;
use crate::{Call, Site};
use clap::ArgMatches;
use clap::error::ErrorKind;
use dpbr_cli::{SINGLE, is_set, number_if, number_of, text_of};

/// The call with the matched values, or the kind of their fault.
pub fn call_of<'a>(found: &ArgMatches<'a>) -> Result<Call<'a>, ErrorKind>
    ensures call { IfOk result (IsCallOf (Some (codes "build", rows_of (found_of found.now)))) }
    ensures sound { IfOk result
        (λ call. call_fault (Some (codes "build", rows_of (found_of found.now))) ≡ []) }
    ensures kind { IfErr result (RefusesBy (Some (codes "build", rows_of (found_of found.now)))) }
{
    let node = one_node_of(found)?;
    let Some(site) = site_of(found) else {
        return Err(ErrorKind::MissingRequiredArgument);
    };
    Ok(Call::Build {
        site,
        me: node.me,
        peers: node.peers,
        patience: node.patience,
        run: node.run,
    })
}

/// The matched values of the site.
fn site_of<'a>(found: &ArgMatches<'a>) -> Option<Site<'a>>
    ensures some { IfSome result (IsSite (rows_of (found_of found.now))) }
    ensures none { IfNone result (¬ HasSite (rows_of (found_of found.now))) }
{
    Some(Site {
        listing: text_of(found, LISTING.0)?,
        work: text_of(found, WORK.0)?,
        dir: text_of(found, DIR.0)?,
        members: number_of(found, &MEMBERS)? as u8,
        weights: text_of(found, WEIGHTS.0),
        jobs: jobs_of(found)?,
        takeover: number_if(found, &TAKEOVER)?,
        tries: tries_of(found)?,
        rest: number_if(found, &REST)?,
        progress: number_if(found, &PROGRESS_IN_SECONDS)?,
        is_single: is_set(found, SINGLE.0),
    })
}

/// The number of builds at a time, if it was given.
fn jobs_of(found: &ArgMatches<'_>) -> Option<Option<u8>>
    ensures some { IfSome result
        (IsNumberIf (rows_of (found_of found.now)) (codes "jobs") JOBS.2) }
    ensures none { IfNone result
        (¬ MayHaveNumber (rows_of (found_of found.now)) (codes "jobs") JOBS.2) }
{
    match number_if(found, &JOBS)? {
        Some(jobs) => Some(Some(jobs as u8)),
        None => Some(None),
    }
}

/// At how many members a unit's build may fail, if it was given.
fn tries_of(found: &ArgMatches<'_>) -> Option<Option<u8>>
    ensures some { IfSome result
        (IsNumberIf (rows_of (found_of found.now)) (codes "tries") TRIES.2) }
    ensures none { IfNone result
        (¬ MayHaveNumber (rows_of (found_of found.now)) (codes "tries") TRIES.2) }
{
    match number_if(found, &TRIES)? {
        Some(tries) => Some(Some(tries as u8)),
        None => Some(None),
    }
}

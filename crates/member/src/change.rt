//! How a step changes the open claim.
ghost use Rattle.std.specs.Prelude.{◌≡◌, List, ℕ, None, if◌then◌else◌, option_map};
ghost use Rattle.std.specs.Option.{ForSome, option_copied};
ghost use Rattle.faults.specs.Answers.{option_or};
ghost use Rattle.member.specs.OpenClaims.{IsWeighedBy, open_of};
ghost use Rattle.member.specs.Prepared.{IsChangeWeighedBy, IsCountWeighedBy};
ghost use Rattle.member.specs.Prepared.{changed, counted, moved};
ghost use Rattle.member.specs.inside.Waiting.{waits};

use crate::{ClaimChange, OpenClaim};
use ballots::{Claimer, ClaimerChange};
use claims::Job;
use std::mem;

/// Applies the change to the open claim. Does not allocate.
pub(crate) fn change_claim(claim: &mut Option<OpenClaim>, change: ClaimChange)
    ensures claim { option_map open_of claim.new ≡ changed change (option_map open_of claim.old) }
    ensures weighed { (weights : List ℕ)
        → ForSome claim.old (λ o. IsWeighedBy weights o.claimer)
        → IsChangeWeighedBy weights change (option_map open_of claim.old)
        → ForSome claim.new (λ o. IsWeighedBy weights o.claimer) }
{
    let next = changed(claim.take(), change);
    drop(mem::replace(claim, next));
}

/// The claim that is open after the change.
fn changed(claim: Option<OpenClaim>, change: ClaimChange) -> Option<OpenClaim>
    ensures claim { option_map open_of result ≡ changed change (option_map open_of claim) }
    ensures weighed { (weights : List ℕ)
        → ForSome claim (λ o. IsWeighedBy weights o.claimer)
        → IsChangeWeighedBy weights change (option_map open_of claim)
        → ForSome result (λ o. IsWeighedBy weights o.claimer) }
{
    match change {
        ClaimChange::Stays => claim,
        ClaimChange::Becomes(open) => Some(open),
        ClaimChange::Ends => None,
        ClaimChange::Counts(change) => counted(claim?, change),
    }
}

/// The claim after a promise or a vote is counted for it, or None if it ends.
fn counted(claim: OpenClaim, change: ClaimerChange) -> Option<OpenClaim>
    ensures claim { option_map open_of result
        ≡ option_map (moved (open_of claim)) (counted change (open_of claim).progress) }
    ensures weighed { (weights : List ℕ)
        → IsWeighedBy weights claim.claimer
        → IsCountWeighedBy weights change (open_of claim).progress
        → ForSome result (λ o. IsWeighedBy weights o.claimer) }
{
    match change {
        ClaimerChange::Ends => None,
        change => {
            let mut open = claim;
            open.claimer.apply(change);
            Some(open)
        }
    }
}

/// Whether the claim waits for a build.
pub(crate) fn is_building(claim: Option<&OpenClaim>) -> bool
    ensures { result ≡ waits (option_map open_of (option_copied claim.entry)) }
{
    match claim {
        Some(open) => match &open.claimer {
            Claimer::Building { .. } => true,
            _ => false,
        },
        None => false,
    }
}

/// Sets the job to that of the open claim. Does not allocate.
pub(crate) fn change_job(job: &mut Option<Job>, claim: Option<&OpenClaim>, given: Option<Job>)
    ensures { job.new
        ≡ (if waits (option_map open_of (option_copied claim.entry)) then option_or given job.old
        else None) }
{
    let next = job_of(claim, given, job.take());
    drop(mem::replace(job, next));
}

/// The job of the open claim, if that waits for a build: the one given now, or else the previous
/// one.
fn job_of(claim: Option<&OpenClaim>, given: Option<Job>, before: Option<Job>) -> Option<Job>
    ensures { result
        ≡ (if waits (option_map open_of (option_copied claim.entry)) then option_or given before
        else None) }
{
    if !is_building(claim) {
        return None;
    }
    match given {
        Some(job) => Some(job),
        None => before,
    }
}

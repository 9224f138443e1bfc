//! Repeats what the open claim waits for.
ghost use Rattle.std.specs.Prelude.{◌≡◌, [], IfOk, None};
ghost use Rattle.member.specs.shared.Fields.{job_in};
ghost use Rattle.member.specs.inside.Steps.{IsPrepared};

use crate::receivers::missing;
use crate::{ClaimChange, Member, MemberStep};
use ballots::{Body, Claimer};
use faults::Memory;
use protocol::{Input, Outcome, Refusal, Sends};

impl<'a> Member<'a> {
    /// Sends the offer or the proposal again to those that have not answered, or gives the job
    /// again.
    pub(crate) fn nudged(&self) -> Result<MemberStep, Refusal>
        ensures { IsPrepared self.now Input.Nudge result }
    {
        let Some(open) = &self.claim else {
            return Err(Refusal::NoClaim);
        };
        match &open.claimer {
            Claimer::Gathering {
                claim,
                promised,
                ..
            } => {
                let to = missing(&self.weights, promised);
                let sends = self.sent(open.unit, to, Body::Offer(*claim))?;
                Ok(MemberStep::saying(sends, ClaimChange::Stays))
            }
            Claimer::Building { .. } => Ok(self.building_again()?),
            Claimer::Voting {
                claim,
                value,
                voted,
            } => {
                let to = missing(&self.weights, voted);
                let sends = self.proposed(open.unit, *claim, value, to)?;
                Ok(MemberStep::saying(sends, ClaimChange::Stays))
            }
        }
    }

    /// Gives the job again.
    fn building_again(&self) -> Result<MemberStep, Memory>
        ensures { IfOk result (λ step. step ≡ record {
          note = None;
          sends = [];
          job = job_in self.now;
          change = ClaimChange.Stays;
        }) }
    {
        let (job, kept_job) = match &self.job {
            Some(job) => (Some(job.copy()?), Some(job.copy()?)),
            None => (None, None),
        };
        Ok(MemberStep {
            outcome: Outcome {
                note: None,
                sends: Sends::nothing(),
                job,
            },
            kept_fact: None,
            kept_job,
            change: ClaimChange::Stays,
        })
    }
}

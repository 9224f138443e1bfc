//! Opening claims, and asking for what is agreed.
ghost use Rattle.std.specs.Prelude.{◌<◌, IfOk, length};
ghost use Rattle.protocol.specs.Answers.{answered, everyone};
ghost use Rattle.protocol.specs.InTheAgreement.{view};
ghost use Rattle.member.specs.inside.Steps.{IsPrepared, Makes, opened_in};

use crate::receivers::{everyone, others};
use crate::{ClaimChange, Member, MemberStep, OpenClaim};
use ballots::{Body, Claimer, Fact, Tally};
use claims::{Claim, next_round};
use engine::Letter;
use faults::Memory;
use pkgpath::PkgPath;
use protocol::{Input, Outcome, Refusal};

impl<'a> Member<'a> {
    /// Opens a claim for the unit and offers it to all. Its round is above `above` and above all
    /// rounds that the member opened for the unit.
    pub(crate) fn claimed(
        &self,
        path: &PkgPath,
        host: u16,
        above: u64,
    ) -> Result<MemberStep, Refusal>
        ensures { IsPrepared self.now (Input.Claim path.now host above) result }
    {
        let unit = self.unit_of(path)?;
        let letter = self.unit_letter(unit);
        if self.known[unit as usize].held.is_some() {
            return Err(Refusal::Held);
        }
        if matches!(letter, Letter::T) {
            return Err(Refusal::Waiting);
        }
        let opened = self.known[unit as usize].opened;
        match next_round(above.max(opened)) {
            Ok(round) => Ok(self.opening(unit, host, round)?),
            Err(_) => Err(Refusal::RoundsSpent),
        }
    }

    /// Opens a claim for the unit in this round.
    fn opening(&self, unit: u32, host: u16, round: u64) -> Result<MemberStep, Memory>
        requires { unit < length self.now.division.units }
        ensures { IfOk result (Makes self.now (answered self.now unit host (everyone self.now)
            (opened_in (view self.now unit) self.now.me round))) }
    {
        let claim = Claim {
            round,
            member: self.me,
        };
        let note = self.note_on(unit, Fact::Opened(round))?;
        let sends = self.sent(unit, everyone(&self.weights), Body::Offer(claim))?;
        let claimer = Claimer::Gathering {
            claim,
            promised: Tally::new(&self.weights),
            report: None,
        };
        Ok(MemberStep {
            outcome: Outcome {
                note: Some(note),
                sends,
                job: None,
            },
            kept_fact: Some(Fact::Opened(round)),
            kept_job: None,
            change: ClaimChange::Becomes(OpenClaim {
                unit,
                host,
                claimer,
            }),
        })
    }

    /// Asks all other members for the agreed build of the unit.
    pub(crate) fn asked(&self, path: &PkgPath) -> Result<MemberStep, Refusal>
        ensures { IsPrepared self.now (Input.Ask path.now) result }
    {
        let unit = self.unit_of(path)?;
        if self.known[unit as usize].held.is_some() {
            return Err(Refusal::Held);
        }
        let sends = self.sent(unit, others(&self.weights, self.me), Body::Ask)?;
        Ok(MemberStep::saying(sends, ClaimChange::Stays))
    }
}

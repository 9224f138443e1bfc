//! How a member answers messages.
ghost use Rattle.std.specs.Prelude.{◌≡◌, ◌<◌, [], ◌∷◌, IfOk, MatchOption, MatchResult, Ok, Err};
ghost use Rattle.std.specs.Prelude.{Some, false, length, option_map};
ghost use Rattle.protocol.specs.Answers.{message_of};
ghost use Rattle.protocol.specs.Member.{IsMember};
ghost use Rattle.protocol.specs.Sends.{sent_to};
ghost use Rattle.protocol.specs.State.{Value};
ghost use Rattle.protocol.specs.Step.{heard, hears, members_of};
ghost use Rattle.ballots.specs.declared.claimer.ClaimerChange.{ClaimerChange};
ghost use Rattle.member.specs.OpenClaims.{IsWeighedBy, open_of};
ghost use Rattle.member.specs.inside.Steps.{IsPrepared, Makes};
ghost use Rattle.member.specs.inside.Counting.{counter_prepared, counting, held_prepared, on_unit};
ghost use Rattle.member.specs.inside.Counting.{quiet_prepared, voter_prepared};
ghost use Rattle.member.specs.inside.Waiting.{is_for};

use crate::naming::unit_named;
use crate::receivers::{everyone, one, others};
use crate::texts::Listed;
use crate::{ClaimChange, Member, MemberStep, OpenClaim};
use arrayvec::ArrayVec;
use ballots::{Body, Claimer, ClaimerStep, Fact, Message, Next, Note, VoterStep};
use claims::{Claim, Job};
use faults::Memory;
use package_record::Build;
use protocol::{Input, Outcome, Refusal, Sends};

impl<'a> Member<'a> {
    /// Answers a message.
    pub(crate) fn heard(&self, message: Message) -> Result<MemberStep, Refusal>
        ensures { IsPrepared self.now (Input.Message message) result }
    {
        match self.unit_heard(&message) {
            Ok(unit) => Ok(self.read(unit, message)?),
            Err(refusal) => {
                drop(message);
                Err(refusal)
            }
        }
    }

    /// The unit that the message is about, or the reason why it is refused.
    pub(crate) fn unit_heard(&self, message: &Message) -> Result<u32, Refusal>
        ensures ok { IfOk result (λ unit. (unit < length self.now.division.units)
            × (message.now.sender < length self.now.weights)) }
        ensures heard { MatchResult result
            (λ unit. heard self.now message.now
            ≡ Ok (hears self.now unit message.now.sender message.now.body))
            (λ e. heard self.now message.now ≡ Err e) }
    {
        let members = members_of(message.sender, &message.body);
        self.test_header(&message.tree, members.as_slice(), &message.path)?;
        match unit_named(&self.units, &message.path) {
            Some(unit) => Ok(unit),
            None => Err(Refusal::Unlisted),
        }
    }

    /// Answers the message about the unit. A build that may be kept shares the tree's texts.
    fn read(&self, unit: u32, message: Message) -> Result<MemberStep, Memory>
        requires unit { unit < length self.now.division.units }
        requires sender { message.sender < length self.now.weights }
        ensures { IfOk result (Makes self.now (hears self.now unit message.sender message.body)) }
    {
        let Message {
            sender,
            path,
            body,
            ..
        } = message;
        drop(path);
        let body = if self.may_keep(unit, &body) {
            Listed { tree: self.tree }.body(body)?
        } else {
            body
        };
        self.answered(unit, sender, body)
    }

    /// Whether the body carries a build that may be kept. An agreed build may if the unit isn't
    /// held yet. A proposed one may unless the last vote was under its claim. A reported one may if
    /// its vote is under a greater claim than the one reported so far.
    fn may_keep(&self, unit: u32, body: &Body) -> bool
        requires { unit < length self.now.division.units }
    {
        let known = &self.known[unit as usize];
        match body {
            Body::Agreed(_) => known.held.is_none(),
            Body::Propose(claim, _) => match &known.voter.voted {
                Some((voted, _)) => voted != claim,
                None => true,
            },
            Body::Promise(claim, Some((voted, _))) => self.keeps(unit, *claim, *voted),
            Body::Promise(_, None) | Body::Offer(_) | Body::Vote(_) | Body::Ask | Body::Nay(_, _) =>
                false,
        }
    }

    /// Whether this is the open claim, is for the unit, and keeps the report of a vote under
    /// `voted`. It does while it gathers promises, if that vote is greater than the one reported so
    /// far.
    fn keeps(&self, unit: u32, claim: Claim, voted: Claim) -> bool {
        let Some(open) = self.claim_for(unit) else {
            return false;
        };
        match &open.claimer {
            Claimer::Gathering {
                claim: offered,
                report,
                ..
            } if *offered == claim => match report {
                Some((kept, _)) => voted > *kept,
                None => true,
            },
            _ => false,
        }
    }

    /// Answers the message about the unit.
    fn answered(&self, unit: u32, sender: u8, body: Body) -> Result<MemberStep, Memory>
        requires unit { unit < length self.now.division.units }
        requires sender { sender < length self.now.weights }
        ensures { IfOk result (Makes self.now (hears self.now unit sender body)) }
    {
        let voter = &self.known[unit as usize].voter;
        match body {
            Body::Offer(claim) => {
                let step = voter.offer(claim)?;
                self.voting(unit, claim, step)
            }
            Body::Promise(claim, report) => self.promised_by(unit, sender, claim, report),
            Body::Propose(claim, build) => {
                let step = voter.propose(claim, &build)?;
                self.voting(unit, claim, step)
            }
            Body::Vote(claim) => self.voted_by(unit, sender, claim),
            Body::Agreed(build) => self.agreed(unit, build),
            Body::Ask => self.asked_by(unit, sender),
            Body::Nay(_, _) => Ok(MemberStep::nothing()),
        }
    }

    /// The voter's step, which answers the member that made the claim.
    fn voting(&self, unit: u32, claim: Claim, step: VoterStep) -> Result<MemberStep, Memory>
        requires unit { unit < length self.now.division.units }
        requires kept { step.change ≡ step.note }
        ensures { IfOk result
            (λ made. made ≡ voter_prepared self.now unit claim.member step.note step.answer) }
    {
        let VoterStep {
            note,
            answer,
            change,
        } = step;
        match self.texts_of(unit, claim, note, answer) {
            Ok((note, sends)) => Ok(MemberStep {
                outcome: Outcome {
                    note,
                    sends,
                    job: None,
                },
                kept_fact: change,
                kept_job: None,
                change: ClaimChange::Stays,
            }),
            Err(memory) => {
                drop(change);
                Err(memory)
            }
        }
    }

    /// The note of the fact about the unit, if there is one, and the answer to the member that made
    /// the claim.
    fn texts_of(
        &self,
        unit: u32,
        claim: Claim,
        fact: Option<Fact>,
        answer: Body,
    ) -> Result<(Option<Note>, Sends), Memory>
        requires unit { unit < length self.now.division.units }
        ensures note { IfOk result (λ texts. texts.0 ≡ option_map (on_unit self.now unit) fact) }
        ensures sends { IfOk result (λ texts. texts.1
            ≡ sent_to (Some (message_of self.now unit answer)) (claim.member ∷ [])) }
    {
        let note = self.note_of(unit, fact)?;
        let sends = self.sent(unit, one(claim.member), answer)?;
        Ok((note, sends))
    }

    /// The note of the fact about the unit, if there is one.
    fn note_of(&self, unit: u32, fact: Option<Fact>) -> Result<Option<Note>, Memory>
        requires { unit < length self.now.division.units }
        ensures { IfOk result (λ note. note ≡ option_map (on_unit self.now unit) fact) }
    {
        match fact {
            Some(fact) => Ok(Some(self.note_on(unit, fact)?)),
            None => Ok(None),
        }
    }

    /// The open claim, if it is for the unit.
    pub(crate) fn claim_for(&self, unit: u32) -> Option<&OpenClaim>
        ensures claim { MatchOption result (is_for self.now.claim unit ≡ false)
            (λ o. (self.now.claim ≡ Some (open_of o.now)) × (o.now.unit ≡ unit)
            × IsWeighedBy self.now.weights o.now.claimer) }
        ensures member { IsMember self.now }
    {
        let open = self.claim.as_ref()?;
        if open.unit == unit { Some(open) } else { None }
    }

    /// The sender promises the claim.
    fn promised_by(
        &self,
        unit: u32,
        sender: u8,
        claim: Claim,
        report: Option<(Claim, Build)>,
    ) -> Result<MemberStep, Memory>
        requires unit { unit < length self.now.division.units }
        requires sender { sender < length self.now.weights }
        ensures { IfOk result
            (Makes self.now (hears self.now unit sender (Body.Promise claim report))) }
    {
        let Some(open) = self.claim_for(unit) else {
            return Ok(MemberStep::nothing());
        };
        let step = open.claimer.promise(sender, claim, report.as_ref())?;
        self.counting(open, step)
    }

    /// The sender votes for the claim's proposal.
    fn voted_by(&self, unit: u32, sender: u8, claim: Claim) -> Result<MemberStep, Memory>
        requires unit { unit < length self.now.division.units }
        requires sender { sender < length self.now.weights }
        ensures { IfOk result (Makes self.now (hears self.now unit sender (Body.Vote claim))) }
    {
        let Some(open) = self.claim_for(unit) else {
            return Ok(MemberStep::nothing());
        };
        let step = open.claimer.vote(sender, claim)?;
        self.counting(open, step)
    }

    /// The claimer's step.
    fn counting(&self, own: &OpenClaim, step: ClaimerStep) -> Result<MemberStep, Memory>
        requires { self.now.claim ≡ Some (open_of own.now) }
        ensures { IfOk result
            (λ made. made ≡ counter_prepared self.now (open_of own.now) step.next step.change) }
    {
        let ClaimerStep { next, change } = step;
        match self.following(own, next) {
            Ok(step) => Ok(step.with_change(ClaimChange::Counts(change))),
            Err(memory) => {
                drop(change);
                Err(memory)
            }
        }
    }

    /// What follows from a claimer's step, before it changes the claim.
    fn following(&self, own: &OpenClaim, next: Next) -> Result<MemberStep, Memory>
        requires { self.now.claim ≡ Some (open_of own.now) }
        ensures { (change : ClaimerChange Value) → IfOk result
            (λ made. counting made change
            ≡ counter_prepared self.now (open_of own.now) next change) }
    {
        match next {
            Next::Nothing => Ok(MemberStep::nothing()),
            Next::Build => {
                let job = self.job_for(own.unit, own.host, own.claimer.claim())?;
                giving(job)
            }
            Next::Propose(claim, build) => {
                let sends = self.sent(
                    own.unit,
                    everyone(&self.weights),
                    Body::Propose(claim, build),
                )?;
                Ok(MemberStep::saying(sends, ClaimChange::Stays))
            }
            Next::Hold { noted, sent } => self.holding(own.unit, noted, sent),
        }
    }

    /// A majority voted: the build is held, and sent to all others.
    fn holding(&self, unit: u32, noted: Build, sent: Build) -> Result<MemberStep, Memory>
        requires { unit < length self.now.division.units }
        ensures { (change : ClaimerChange Value) → IfOk result
            (λ made. counting made change ≡ held_prepared self.now unit noted sent change) }
    {
        let (note, kept) = self.note_held(unit, noted)?;
        let sends = self.sent(unit, others(&self.weights, self.me), Body::Agreed(sent))?;
        Ok(MemberStep {
            outcome: Outcome {
                note: Some(note),
                sends,
                job: None,
            },
            kept_fact: Some(kept),
            kept_job: None,
            change: ClaimChange::Stays,
        })
    }

    /// The note that the build of the unit is held, and the fact that the member keeps.
    fn note_held(&self, unit: u32, build: Build) -> Result<(Note, Fact), Memory>
        requires { unit < length self.now.division.units }
        ensures note { IfOk result
            (λ told. told.0 ≡ on_unit self.now unit (Fact.Held build)) }
        ensures kept { IfOk result (λ told. told.1 ≡ Fact.Held build) }
    {
        let kept = build.copy()?;
        let note = self.note_on(unit, Fact::Held(build))?;
        Ok((note, Fact::Held(kept)))
    }

    /// The agreed build becomes held, unless one of the unit is held already.
    fn agreed(&self, unit: u32, build: Build) -> Result<MemberStep, Memory>
        requires { unit < length self.now.division.units }
        ensures { IfOk result (Makes self.now (hears self.now unit 0 (Body.Agreed build))) }
    {
        if self.known[unit as usize].held.is_some() {
            return Ok(MemberStep::nothing());
        }
        let (note, kept) = self.note_held(unit, build)?;
        let change = match self.claim_for(unit) {
            Some(_) => ClaimChange::Ends,
            None => ClaimChange::Stays,
        };
        Ok(MemberStep {
            outcome: Outcome {
                note: Some(note),
                sends: Sends::nothing(),
                job: None,
            },
            kept_fact: Some(kept),
            kept_job: None,
            change,
        })
    }

    /// The sender asks for the agreed build. It gets it if one is held here.
    fn asked_by(&self, unit: u32, sender: u8) -> Result<MemberStep, Memory>
        requires { unit < length self.now.division.units }
        ensures { IfOk result (Makes self.now (hears self.now unit sender Body.Ask)) }
    {
        match &self.known[unit as usize].held {
            Some(held) => {
                let build = held.build().copy()?;
                let sends = self.sent(unit, one(sender), Body::Agreed(build))?;
                Ok(MemberStep::saying(sends, ClaimChange::Stays))
            }
            None => Ok(MemberStep::nothing()),
        }
    }
}

/// Gives this job to be built.
fn giving(job: Job) -> Result<MemberStep, Memory>
    ensures { (change : ClaimerChange Value) → IfOk result
        (λ made. counting made change ≡ quiet_prepared [] (Some job) change) }
{
    let kept_job = job.copy()?;
    Ok(MemberStep {
        outcome: Outcome {
            note: None,
            sends: Sends::nothing(),
            job: Some(job),
        },
        kept_fact: None,
        kept_job: Some(kept_job),
        change: ClaimChange::Stays,
    })
}

/// The sender, and the members of the claims that the body names, except for claims in records.
fn members_of(sender: u8, body: &Body) -> ArrayVec<u8, 9>
    ensures { result.items ≡ sender ∷ members_of body.now }
{
    let mut members = ArrayVec::new();
    members.push(sender);
    match body {
        Body::Offer(claim) | Body::Propose(claim, _) | Body::Vote(claim) => {
            members.push(claim.member);
        }
        Body::Promise(claim, report) => {
            members.push(claim.member);
            if let Some((voted, _)) = report {
                members.push(voted.member);
            }
        }
        Body::Nay(claim, promised) => {
            members.push(claim.member);
            members.push(promised.member);
        }
        Body::Agreed(_) | Body::Ask => {}
    }
    members
}

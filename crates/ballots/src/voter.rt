//! The voter of one unit: what it promised, and what it last voted for.
ghost use Rattle.std.specs.Prelude.{◌≡◌, IfOk, Some};
ghost use Rattle.claims.specs.Member.{greater};
ghost use Rattle.claims.specs.Step.{on_offer, on_propose};
ghost use Rattle.claims.specs.Votes.{ballot, is_voted, report_of};
ghost use Rattle.ballots.specs.InTheAgreement.{IsStepOf, promised_then, voted_then};
ghost use Rattle.ballots.specs.inside.Steps.{refusal_of};

use crate::value::copy_of_vote;
use crate::{Body, Fact, Value};
use claims::{Claim, is_above, is_below, is_promised};
use faults::Memory;
use package_record::Build;
use std::marker::Model;

/// What a member promised, and its last vote, for one unit. Each vote raises the promise, so a
/// voter that has voted has promised. The code that makes a voter proves that.
#[derive(Drop)]
pub struct Voter<V = Build> {
    /// The greatest claim that the member promised or voted under.
    pub promised: Option<Claim>,
    /// The claim and the value of its last vote.
    pub voted: Option<(Claim, V)>,
}

impl<V> Model for Voter<V> {
    ghost use Rattle.ballots.specs.Pledge.{HasPromised, Pledge};

    ghost Value = { Pledge V };

    ghost view = { λ voter. record { promised = voter.promised; voted = voter.voted } };

    ghost invariant = { λ voter. HasPromised voter.promised voter.voted };
}

/// What a voter has to note first, what it then answers to the claim's member, and what it keeps.
/// It has all that was allocated for it. What it keeps is separate from the note, so that the note
/// can be written to a log before the change is made.
#[derive(Drop)]
pub struct VoterStep<V = Build> {
    /// What has to be on the log before the answer is sent.
    pub note: Option<Fact<V>>,
    /// A promise, a vote or a nay.
    pub answer: Body<V>,
    /// The change of the voter: it keeps what is noted.
    pub change: Option<Fact<V>>,
}

impl<V: Value> Voter<V> {
    /// The step on an offer: a promise that reports the last vote, or a nay. Fails only if memory
    /// runs out.
    pub fn offer(&self, claim: Claim) -> Result<VoterStep<V>, Memory>
        ensures { IfOk result (IsStepOf V self.now (λ i x. on_offer i x claim)) }
    {
        if is_above(claim, self.promised) {
            let voted = copy_of_vote(self.voted.as_ref())?;
            return Ok(VoterStep {
                note: Some(Fact::Promised(claim)),
                answer: Body::Promise(claim, voted),
                change: Some(Fact::Promised(claim)),
            });
        }
        if is_promised(claim, self.promised) && !self.has_voted(claim) {
            let voted = copy_of_vote(self.voted.as_ref())?;
            return Ok(VoterStep {
                note: None,
                answer: Body::Promise(claim, voted),
                change: None,
            });
        }
        Ok(self.refusal(claim))
    }

    /// The step on a proposal: a vote, or a nay. Fails only if memory runs out.
    pub fn propose(&self, claim: Claim, value: &V) -> Result<VoterStep<V>, Memory>
        ensures { IfOk result
            (IsStepOf V self.now (λ i x. on_propose i x (ballot claim value.now))) }
    {
        let voted = self.has_voted(claim);
        if !is_below(claim, self.promised) && !voted {
            let noted = value.copy()?;
            let kept = value.copy()?;
            return Ok(VoterStep {
                note: Some(Fact::Voted(claim, noted)),
                answer: Body::Vote(claim),
                change: Some(Fact::Voted(claim, kept)),
            });
        }
        if voted && is_promised(claim, self.promised) {
            return Ok(VoterStep {
                note: None,
                answer: Body::Vote(claim),
                change: None,
            });
        }
        Ok(self.refusal(claim))
    }

    /// Makes the change of a step, or restores a fact that was noted. Keeps the greatest claim that
    /// the member promised or voted under, and its last vote. The fact is moved; does not allocate.
    pub fn apply(&mut self, change: Option<Fact<V>>)
        ensures promised { self.new.promised ≡ promised_then self.old change }
        ensures voted { report_of self.new.voted ≡ voted_then self.old change }
    {
        match change {
            Some(Fact::Promised(claim)) => self.promised = self.greater(claim),
            Some(Fact::Voted(claim, value)) => {
                self.promised = self.greater(claim);
                self.voted = Some((claim, value));
            }
            _ => {}
        }
    }

    fn has_voted(&self, claim: Claim) -> bool
        ensures { result ≡ is_voted claim (report_of self.now.voted) }
    {
        match &self.voted {
            Some((voted, _)) => claim == *voted,
            None => false,
        }
    }

    fn refusal(&self, claim: Claim) -> VoterStep<V>
        ensures { result ≡ refusal_of self.now claim }
    {
        let promised = self.promised.unwrap_or(claim);
        VoterStep {
            note: None,
            answer: Body::Nay(claim, promised),
            change: None,
        }
    }

    fn greater(&self, claim: Claim) -> Option<Claim>
        ensures { result ≡ greater self.now.promised claim }
    {
        if is_above(claim, self.promised) {
            Some(claim)
        } else {
            self.promised
        }
    }
}

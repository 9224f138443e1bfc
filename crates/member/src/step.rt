//! A step that is prepared but not yet taken.
ghost use Rattle.std.specs.Prelude.{◌≡◌, [], None};
ghost use Rattle.std.specs.Option.{option_copied};

use crate::OpenClaim;
use ballots::{ClaimerChange, Fact, Note};
use claims::Job;
use protocol::{Outcome, Sends};
use std::marker::Model;

/// How a step changes the open claim.
#[derive(Drop)]
pub enum ClaimChange {
    /// It stays as it is.
    Stays,
    /// It is replaced by this one.
    Becomes(OpenClaim),
    /// It ends.
    Ends,
    /// A promise or a vote is counted for it.
    Counts(ClaimerChange),
}

/// A prepared step with all that it allocated. Its note and messages can be read before it is
/// taken.
#[derive(Drop)]
pub struct MemberStep {
    pub(crate) outcome: Outcome,
    /// The fact that the member keeps.
    pub(crate) kept_fact: Option<Fact>,
    /// The job that the member keeps, if the claim now waits for a build.
    pub(crate) kept_job: Option<Job>,
    pub(crate) change: ClaimChange,
}

impl Model for MemberStep {
    ghost use Rattle.member.specs.Prepared.{Prepared};

    ghost Value = { Prepared };

    ghost use Rattle.member.specs.inside.Steps.{IsKept, prepared_by};

    ghost view = { prepared_by };

    ghost invariant = { IsKept };
}

impl MemberStep {
    /// The note that has to be on the log before anything is sent.
    pub fn note(&self) -> Option<&Note>
        ensures { option_copied result ≡ self.now.note }
    {
        self.outcome.note.as_ref()
    }

    /// What is sent then, in order of receiver.
    pub fn sends(&self) -> &Sends
        ensures { result.now ≡ self.now.sends }
    {
        &self.outcome.sends
    }

    /// The step, with its change of the open claim replaced by this one.
    pub(crate) fn with_change(self, change: ClaimChange) -> MemberStep
        ensures { result ≡ record self { change = change } }
    {
        MemberStep { change, ..self }
    }

    /// A step without a note, which sends these messages and makes this change of the open claim.
    pub(crate) fn saying(sends: Sends, change: ClaimChange) -> MemberStep
        ensures note { result.note ≡ None }
        ensures sends { result.sends ≡ sends }
        ensures job { result.job ≡ None }
        ensures change { result.change ≡ change }
    {
        MemberStep {
            outcome: Outcome {
                note: None,
                sends,
                job: None,
            },
            kept_fact: None,
            kept_job: None,
            change,
        }
    }

    /// A step that notes, sends and changes nothing.
    pub(crate) fn nothing() -> MemberStep
        ensures note { result.note ≡ None }
        ensures sends { result.sends ≡ [] }
        ensures job { result.job ≡ None }
        ensures change { result.change ≡ ClaimChange.Stays }
    {
        MemberStep::saying(Sends::nothing(), ClaimChange::Stays)
    }
}

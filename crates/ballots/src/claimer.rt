//! The claimer of one unit, from its offer to the agreed value.
ghost use Rattle.std.specs.Prelude.{◌≡◌, IfOk};
ghost use Rattle.std.specs.Option.{option_copied};
ghost use Rattle.ballots.specs.InTheAgreement.{
  IsStepOnPromise,
  IsStepOnVote,
  claim_of,
  claimer_joined,
  claimer_then,
  weights_of,
};
ghost use Rattle.ballots.specs.inside.Steps.{
  gathering_step,
  idle_step,
  joining_step,
  quorum_step,
  voting_step,
};
ghost use Rattle.ballots.specs.Support.{IsMember};

use crate::value::copy_of_vote;
use crate::{Tally, Value, Weights};
use claims::{Claim, keep};
use faults::Memory;
use package_record::Build;

/// An open claim of one unit, with its progress and the members' weights.
#[derive(Drop)]
pub enum Claimer<V = Build> {
    /// Collects promises; those in `promised` have arrived. Of the reported votes, the one under
    /// the greatest claim is kept, and among equal claims the first.
    Gathering {
        claim: Claim,
        promised: Tally,
        report: Option<(Claim, V)>,
    },
    /// A majority promised and reported no vote, so a value is to be built.
    Building {
        claim: Claim,
        weights: Weights,
    },
    /// Collects votes for the proposal; those in `voted` have arrived.
    Voting {
        claim: Claim,
        value: V,
        voted: Tally,
    },
}

/// What follows from a step, and its change of the open claim. The two are separate, so that a note
/// can be written to a log before the change is made.
#[derive(Drop)]
pub struct ClaimerStep<V = Build> {
    pub next: Next<V>,
    pub change: ClaimerChange<V>,
}

/// What follows a step.
#[derive(Drop)]
pub enum Next<V = Build> {
    /// Nothing is noted, sent or built.
    Nothing,
    /// A value is to be built.
    Build,
    /// The value is sent to all as the claim's proposal.
    Propose(Claim, V),
    /// `noted` is noted, and `sent` is sent to all others as agreed. Both are the claimer's value,
    /// which is then held, and the claim ends.
    Hold { noted: V, sent: V },
}

/// A step's change of the open claim. It has all that it needs, so that making it does not
/// allocate.
#[derive(Drop)]
pub enum ClaimerChange<V = Build> {
    /// The message is of another claim, or is too late: nothing changes.
    Stays,
    /// A member joined; this is the new tally, and the greatest report so far, if there is one.
    Joins {
        tally: Tally,
        report: Option<(Claim, V)>,
    },
    /// A majority promised and reported no vote.
    Builds,
    /// A majority promised and reported this value, which is proposed.
    Proposes {
        value: V,
        voted: Tally,
    },
    /// A majority voted, and the claim ends.
    Ends,
}

impl<V: Value> Claimer<V> {
    /// The step on a promise of the member `from`, which reports its last vote. Fails only if
    /// memory runs out.
    pub fn promise(
        &self,
        from: u8,
        claim: Claim,
        report: Option<&(Claim, V)>,
    ) -> Result<ClaimerStep<V>, Memory>
        requires { IsMember from }
        ensures { IfOk result (IsStepOnPromise self.now from claim (option_copied report.entry)) }
    {
        match self {
            Claimer::Gathering {
                claim: offered,
                promised,
                report: kept,
            } => {
                if claim != *offered {
                    return Ok(ClaimerStep::idle());
                }
                let tally = promised.with(from)?;
                gathering(*offered, tally, keep(kept.as_ref(), report))
            }
            Claimer::Building { .. } | Claimer::Voting { .. } => Ok(ClaimerStep::idle()),
        }
    }

    /// The step on a vote of the member `from`. Fails only if memory runs out.
    pub fn vote(&self, from: u8, claim: Claim) -> Result<ClaimerStep<V>, Memory>
        requires { IsMember from }
        ensures { IfOk result (IsStepOnVote self.now from claim) }
    {
        match self {
            Claimer::Voting {
                claim: proposed,
                value,
                voted,
            } => {
                if claim != *proposed {
                    return Ok(ClaimerStep::idle());
                }
                let tally = voted.with(from)?;
                voting(tally, value)
            }
            Claimer::Gathering { .. } | Claimer::Building { .. } => Ok(ClaimerStep::idle()),
        }
    }
}

impl<V: Value> Claimer<V> {
    /// Makes the change of a step. It moves the change's contents, and does not allocate. If the
    /// claim ends, the claimer stays as it was, and is to be dropped, or taken apart for its value.
    pub fn apply(&mut self, change: ClaimerChange<V>)
        ensures { self.new ≡ claimer_then self.old change }
    {
        match change {
            ClaimerChange::Stays | ClaimerChange::Ends => {}
            ClaimerChange::Joins { tally, report } => self.join(tally, report),
            ClaimerChange::Builds => {
                *self = Claimer::Building {
                    claim: self.claim(),
                    weights: self.weights().copy(),
                };
            }
            ClaimerChange::Proposes { value, voted } => {
                *self = Claimer::Voting {
                    claim: self.claim(),
                    value,
                    voted,
                };
            }
        }
    }

    /// The claim that is open.
    pub fn claim(&self) -> Claim
        ensures { result ≡ claim_of self.now }
    {
        match self {
            Claimer::Gathering { claim, .. } => *claim,
            Claimer::Building { claim, .. } => *claim,
            Claimer::Voting { claim, .. } => *claim,
        }
    }

    /// The members' weights.
    pub fn weights(&self) -> &Weights
        ensures { result.now ≡ weights_of self.now }
    {
        match self {
            Claimer::Gathering { promised, .. } => promised.weights(),
            Claimer::Building { weights, .. } => weights,
            Claimer::Voting { voted, .. } => voted.weights(),
        }
    }

    fn join(&mut self, tally: Tally, report: Option<(Claim, V)>)
        ensures { self.new ≡ claimer_joined self.old tally report }
    {
        match self {
            Claimer::Gathering {
                promised,
                report: kept,
                ..
            } => {
                *promised = tally;
                *kept = report;
            }
            Claimer::Building { .. } => {}
            Claimer::Voting { voted, .. } => *voted = tally,
        }
    }
}

impl<V: Value> ClaimerStep<V> {
    /// Nothing changes, and nothing follows.
    fn idle() -> ClaimerStep<V>
        ensures { result ≡ idle_step }
    {
        ClaimerStep {
            next: Next::Nothing,
            change: ClaimerChange::Stays,
        }
    }

    /// A member joined, without making a majority.
    fn joining(tally: Tally, report: Option<(Claim, V)>) -> ClaimerStep<V>
        ensures { result ≡ joining_step tally report }
    {
        ClaimerStep {
            next: Next::Nothing,
            change: ClaimerChange::Joins { tally, report },
        }
    }
}

/// The step after the promise is counted; this is the greatest report so far.
fn gathering<V: Value>(
    claim: Claim,
    tally: Tally,
    report: Option<&(Claim, V)>,
) -> Result<ClaimerStep<V>, Memory>
    ensures { IfOk result (λ step. step ≡ gathering_step claim tally (option_copied report.entry)) }
{
    if tally.is_majority() {
        return promised(claim, tally, report);
    }
    let report = copy_of_vote(report)?;
    Ok(ClaimerStep::joining(tally, report))
}

/// The step after a majority promised: the reported value is proposed, or else a value is built.
fn promised<V: Value>(
    claim: Claim,
    tally: Tally,
    report: Option<&(Claim, V)>,
) -> Result<ClaimerStep<V>, Memory>
    ensures { IfOk result (λ step. step ≡ quorum_step claim tally (option_copied report.entry)) }
{
    match report {
        Some((_, value)) => {
            let sent = value.copy()?;
            let value = value.copy()?;
            Ok(ClaimerStep {
                next: Next::Propose(claim, sent),
                change: ClaimerChange::Proposes {
                    value,
                    voted: tally.emptied(),
                },
            })
        }
        None => Ok(ClaimerStep {
            next: Next::Build,
            change: ClaimerChange::Builds,
        }),
    }
}

/// The step after the vote is counted: with a majority the value is held.
fn voting<V: Value>(tally: Tally, value: &V) -> Result<ClaimerStep<V>, Memory>
    ensures { IfOk result (λ step. step ≡ voting_step tally value.now) }
{
    if !tally.is_majority() {
        return Ok(ClaimerStep::joining(tally, None));
    }
    let noted = value.copy()?;
    let sent = value.copy()?;
    Ok(ClaimerStep {
        next: Next::Hold { noted, sent },
        change: ClaimerChange::Ends,
    })
}

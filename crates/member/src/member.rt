//! A member. Contracts see it as its tree with its units, its weights, its number, what it knows of
//! each unit, and its open claim.
ghost use Rattle.std.specs.Prelude.{◌≡◌, ◌<◌, IfErr, IfOk, OnOk, None, Some};
ghost use Rattle.std.specs.Prelude.{length, map, nat_lt, replicate};
ghost use Rattle.std.specs.List.{list_all};
ghost use Rattle.claims.specs.Member.{no_facts};
ghost use Rattle.faults.specs.Answers.{map_ok};
ghost use Rattle.engine.specs.Division.{IsDivision};
ghost use Rattle.protocol.specs.Answers.{after, tree_digest};
ghost use Rattle.protocol.specs.Restoring.{AreOnUnits, restored};
ghost use Rattle.protocol.specs.State.{Value, fresh};
ghost use Rattle.protocol.specs.Step.{HasAnswered, HasHandled, header_refusal};
ghost use Rattle.member.specs.Outcomes.{told};
ghost use Rattle.member.specs.Prepared.{MayBeTaken, answer_by};
ghost use Rattle.member.specs.shared.Fields.{facts_of_known};
ghost use Rattle.member.specs.inside.Steps.{IsPrepared};

use crate::change::{change_claim, change_job};
use crate::facts::keep_fact;
use crate::known::Known;
use crate::naming::unit_named;
use crate::{MemberStep, OpenClaim};
use ballots::{Note, Weights};
use claims::{Claim, Job};
use engine::{Engine, Tree, Units};
use faults::Memory;
use pkgpath::PkgPath;
use protocol::{Input, Outcome, Refusal};
use std::alloc::Global;
use std::marker::Model;

/// A member without a disk.
#[derive(Drop)]
pub struct Member<'a> {
    pub(crate) tree: &'a Tree,
    /// The tree's digest, by which messages of other trees are recognized.
    pub(crate) digest: [u8; 32],
    pub(crate) units: Units<'a>,
    pub(crate) weights: Weights,
    pub(crate) me: u8,
    pub(crate) known: Vec<Known>,
    pub(crate) claim: Option<OpenClaim>,
    /// The job of the open claim, while that waits for a build.
    pub(crate) job: Option<Job>,
    pub(crate) engine: Engine<'a>,
}

impl<'a> Model for Member<'a> {
    ghost use Rattle.protocol.specs.State.{State};

    ghost Value = { State };

    ghost use Rattle.member.specs.shared.Fields.{IsKept, state_of};

    ghost view = { state_of };

    ghost invariant = { IsKept };
}

impl<'a> Member<'a> {
    /// The member with this number, which knows nothing yet.
    pub fn new(
        alloc: Global,
        tree: &'a Tree,
        weights: &Weights,
        me: u8,
    ) -> Result<Member<'a>, Memory>
        requires { me < length weights.now }
        ensures fresh { IfOk result (λ m. m ≡ fresh m.division weights.now me) }
        ensures tree { IfOk result (λ m. m.division.tree ≡ tree.entry.now) }
        ensures division { IfOk result (λ m. IsDivision m.division) }
    {
        Member::with_digest(alloc, tree, &tree.digest(), weights, me)
    }

    /// As `new`, for a tree whose digest is known.
    pub fn with_digest(
        alloc: Global,
        tree: &'a Tree,
        digest: &[u8; 32],
        weights: &Weights,
        me: u8,
    ) -> Result<Member<'a>, Memory>
        requires member { me < length weights.now }
        requires digest { digest.now ≡ tree_digest tree.now }
        ensures fresh { IfOk result (λ m. m ≡ fresh m.division weights.now me) }
        ensures tree { IfOk result (λ m. m.division.tree ≡ tree.entry.now) }
        ensures division { IfOk result (λ m. IsDivision m.division) }
    {
        prove!(usize::from(me) < weights.as_slice().len());
        let engine = Engine::new(alloc, tree)?;
        match unknown_units(alloc, engine.units()) {
            Ok((units, known)) => Ok(Member {
                tree,
                digest: *digest,
                units,
                weights: weights.copy(),
                me,
                known,
                claim: None,
                job: None,
                engine,
            }),
            Err(memory) => {
                drop(engine);
                Err(memory)
            }
        }
    }

    /// Restores the notes, in order. An open claim is dropped. Does not allocate.
    pub fn restore(&mut self, notes: Vec<Note>)
        requires { AreOnUnits self.old.division notes.items }
        ensures { self.new ≡ restored self.old notes.items }
    {
        drop(self.claim.take());
        drop(self.job.take());
        for note in notes {
            let Note { path, fact } = note;
            keep_fact(
                &self.units,
                self.known.as_mut_slice(),
                &mut self.engine,
                &path,
                fact,
            );
        }
    }

    /// Prepares the step that answers the input: allocates what it needs, and changes no fact.
    ///
    /// # Errors
    ///
    /// `Memory`, if an allocation failed; else the first refusal that applies to the input.
    pub fn prepare(&mut self, input: Input) -> Result<MemberStep, Refusal>
        ensures same { self.new ≡ self.old }
        ensures step { HasAnswered self.old input (map_ok (answer_by self.old) result) }
        ensures taken { IfOk result (MayBeTaken self.old) }
    {
        self.sign_before(&input);
        self.prepared(input)
    }

    /// The step that answers the input.
    fn prepared(&self, input: Input) -> Result<MemberStep, Refusal>
        ensures { IsPrepared self.now input result }
    {
        match input {
            Input::Claim { path, host, above } => self.claimed(&path, host, above),
            Input::Built { path, packages } => self.built(&path, packages),
            Input::Failed { path } => self.failed(&path),
            Input::Nudge => self.nudged(),
            Input::Ask { path } => self.asked(&path),
            Input::Message(message) => self.heard(message),
        }
    }

    /// Takes the step, which must have been prepared in the present state. Does not allocate.
    pub fn commit(&mut self, step: MemberStep) -> Outcome
        requires { MayBeTaken self.old step }
        ensures state { self.new ≡ after self.old (answer_by self.old step) }
        ensures outcome { told result ≡ (step.note, step.sends, step.job) }
    {
        let MemberStep {
            outcome,
            kept_fact,
            kept_job,
            change,
        } = step;
        change_claim(&mut self.claim, change);
        change_job(&mut self.job, self.claim.as_ref(), kept_job);
        if let (Some(note), Some(fact)) = (&outcome.note, kept_fact) {
            keep_fact(
                &self.units,
                self.known.as_mut_slice(),
                &mut self.engine,
                &note.path,
                fact,
            );
        }
        outcome
    }

    /// Prepares the step and takes it.
    ///
    /// # Errors
    ///
    /// Those of `prepare`. The member is then unchanged.
    pub fn handle(&mut self, input: Input) -> Result<Outcome, Refusal>
        ensures { HasHandled self.old self.new input (map_ok told result) }
    {
        let step = self.prepare(input)?;
        Ok(self.commit(step))
    }

    /// Tests whether a message with this tree digest, these members and this path is answered. The
    /// members are the sender and those of the claims in the message.
    ///
    /// # Errors
    ///
    /// The first that applies: `OtherTree`; `NotAMember`; `Unlisted`, if the path isn't the name of
    /// a unit.
    pub fn test_header(
        &self,
        tree: &[u8; 32],
        members: &[u8],
        path: &PkgPath,
    ) -> Result<(), Refusal>
        ensures ok { OnOk result
            (header_refusal self.now tree.now members.now path.now ≡ None) }
        ensures err { IfErr result
            (λ e. header_refusal self.now tree.now members.now path.now ≡ Some e) }
    {
        if *tree != self.digest {
            return Err(Refusal::OtherTree);
        }
        if !are_below(members, self.weights.len()) {
            return Err(Refusal::NotAMember);
        }
        match unit_named(&self.units, path) {
            Some(_) => Ok(()),
            None => Err(Refusal::Unlisted),
        }
    }
}

/// A copy of the units, and an empty `Known` for each.
fn unknown_units<'a>(alloc: Global, units: &Units<'a>) -> Result<(Units<'a>, Vec<Known>), Memory>
    ensures units { IfOk result (λ made. made.0 ≡ units.now) }
    ensures known { IfOk result (λ made. map facts_of_known made.1.items
        ≡ replicate (length units.now.units) no_facts) }
    ensures division { IfOk result (λ made. IsDivision made.0) }
{
    let copy = units.copy()?;
    let known = all_unknown(alloc, units.len())?;
    Ok((copy, known))
}

/// An empty `Known` for each of this number of units.
fn all_unknown(alloc: Global, units: u32) -> Result<Vec<Known>, Memory>
    ensures { IfOk result (λ known. map facts_of_known known.items ≡ replicate units no_facts) }
{
    let mut known = Vec::with_capacity(alloc, units as usize)?;
    for _unit in 0..units {
        known.push(Known::nothing())?;
    }
    Ok(known)
}

/// Whether each of these is below the number.
fn are_below(members: &[u8], number: usize) -> bool
    ensures { result ≡ list_all (λ k. nat_lt k number) members.now }
{
    for member in members {
        if usize::from(*member) >= number {
            return false;
        }
    }
    true
}

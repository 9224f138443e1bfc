//! A step that is ready to be taken, and what it gives out.
ghost use Rattle.std.specs.Prelude.{◌≡◌, All, IfOk, None, Some, option_map};
ghost use Rattle.std.specs.Option.{ForSome, option_copied};
ghost use Rattle.node.specs.Parcels.{datagrams_to};
ghost use Rattle.node.specs.Step.{note_in, sends_in};
ghost use Rattle.wire.specs.Messages.{IsMessage, IsNote};
ghost use Rattle.wire.specs.Spelling.{note_text};

use crate::Parcels;
use crate::written::{note_text as text_of_note, parcels};
use claims::Job;
use faults::Memory;
use member::MemberStep;
use std::alloc::Global;
use std::marker::Model;
use wire::{Header, Piece};

/// How a step changes the pieces that a node keeps.
#[derive(Drop)]
pub enum Change {
    /// They stay.
    Stays,
    /// One is added.
    Keeps(Piece),
    /// Those with this header are dropped.
    Drops(Header),
}

/// A step with all that it allocated: the member's step, its note and datagrams as bytes, and the
/// change of the pieces. Contracts see what the member prepared, and that change.
#[derive(Drop)]
pub struct PreparedStep {
    /// None if a piece was received and its message is still incomplete: the member then takes no
    /// step.
    pub(crate) step: Option<MemberStep>,
    pub(crate) note: Option<Vec<u8>>,
    pub(crate) sends: Parcels,
    pub(crate) change: Change,
}

impl Model for PreparedStep {
    ghost use Rattle.node.specs.Step.{ReadyStep};
    ghost use Rattle.node.specs.inside.Prepared.{IsWritten, ready_by};

    ghost Value = { ReadyStep };

    ghost view = { ready_by };

    ghost invariant = { IsWritten };
}

impl PreparedStep {
    /// The member's step, with this change of the pieces.
    pub(crate) fn of(
        alloc: Global,
        step: MemberStep,
        change: Change,
    ) -> Result<PreparedStep, Memory>
        requires sends { All (λ x. IsMessage x.message) step.sends }
        requires note { ForSome step.note IsNote }
        ensures { IfOk result (λ r. r ≡ record { step = Some step; change = change }) }
    {
        match texts_of(alloc, &step) {
            Ok((note, sends)) => Ok(PreparedStep {
                step: Some(step),
                note,
                sends,
                change,
            }),
            Err(memory) => {
                drop(step);
                drop(change);
                Err(memory)
            }
        }
    }

    /// No step of the member, since a message is still incomplete.
    pub(crate) fn waiting(alloc: Global, change: Change) -> PreparedStep
        ensures { result ≡ record { step = None; change = change } }
    {
        PreparedStep {
            step: None,
            note: None,
            sends: Parcels::nothing(alloc),
            change,
        }
    }

    /// The text of its note, if it has one.
    pub(crate) fn note(&self) -> Option<&[u8]>
        ensures { option_copied result ≡ option_map note_text (note_in self.now.step) }
    {
        match &self.note {
            Some(text) => Some(text.as_slice()),
            None => None,
        }
    }

    /// The member's step, its datagrams, and the change of the pieces. Does not allocate.
    pub(crate) fn apart(self) -> (Option<MemberStep>, Parcels, Change)
        ensures step { result.0 ≡ self.step }
        ensures sends { result.1 ≡ datagrams_to (sends_in self.step) }
        ensures change { result.2 ≡ self.change }
    {
        let PreparedStep {
            step,
            note: _,
            sends,
            change,
        } = self;
        (step, sends, change)
    }

    /// The member's step, if there is one.
    pub fn step(&self) -> Option<&MemberStep>
        ensures { option_copied result ≡ self.now.step }
    {
        self.step.as_ref()
    }

    /// The datagrams that are sent once the step is taken, with their receivers: in order of
    /// receiver, and the pieces of a message in order.
    pub fn sends(&self) -> &Parcels
        ensures { result.now ≡ datagrams_to (sends_in self.now.step) }
    {
        &self.sends
    }
}

/// The text of the step's note, if it has one, and its messages as bytes.
fn texts_of(alloc: Global, step: &MemberStep) -> Result<(Option<Vec<u8>>, Parcels), Memory>
    requires sends { All (λ x. IsMessage x.message) step.now.sends }
    requires note { ForSome step.now.note IsNote }
    ensures note { IfOk result (λ texts. option_map (λ n. n.items) texts.0
        ≡ option_map note_text step.now.note) }
    ensures sends { IfOk result (λ texts. texts.1 ≡ datagrams_to step.now.sends) }
{
    let note = text_of_note(alloc, step.note())?;
    let sends = parcels(alloc, step.sends())?;
    Ok((note, sends))
}

/// What is given out once the step's note is on the disk.
#[derive(Drop)]
pub struct Effects {
    /// The datagrams with their receivers, in order of receiver, and the pieces of a message in
    /// order.
    pub sends: Parcels,
    /// The job, if a majority promised and reported no vote, or if the job is given again.
    pub job: Option<Job>,
}

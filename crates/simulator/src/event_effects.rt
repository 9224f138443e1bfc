//! What an event does at its node.
ghost use Rattle.std.specs.Prelude.{◌≡◌, [], None};
ghost use Rattle.node.specs.Step.{note_in, sends_in};
ghost use Rattle.simulator.specs.Effects.{
  IsDoneBy,
  kind_noted,
  kind_of_body,
  kind_of_fact,
  kind_sent,
  note_left,
};

use ballots::{Body, Fact};
use node::{Parcels, PreparedStep};
use protocol::Left;
use std::alloc::Global;

/// The kind of a note.
#[derive(Clone, Copy, Debug)]
pub enum NoteKind {
    /// The member opened a claim.
    Opened,
    /// It promised a claim.
    Promised,
    /// It voted for a build.
    Voted,
    /// The build is agreed, and it holds that.
    Held,
}

/// The kind of a message.
#[derive(Clone, Copy, Debug)]
pub enum MessageKind {
    Offer,
    Promise,
    Propose,
    Vote,
    Agreed,
    Ask,
    Nay,
}

/// What an event did at its node.
#[derive(Drop)]
pub struct EventEffects {
    /// The kind of the note that it added to the log, if it added one.
    pub noted: Option<NoteKind>,
    /// The kind of the message that it sent, if it sent one.
    pub message: Option<MessageKind>,
    /// The message's datagrams, with their receivers.
    pub sends: Parcels,
}

impl EventEffects {
    /// What a stop inside the step did: it added the step's note if the whole note is left, and
    /// sent nothing.
    pub(crate) fn of_stop(alloc: Global, ready: &PreparedStep, left: &Left) -> EventEffects
        ensures { IsDoneBy (note_left left.now (note_in ready.now.step)) [] result }
    {
        EventEffects {
            noted: kind_left(ready, left),
            message: None,
            sends: Parcels::nothing(alloc),
        }
    }

    /// Nothing was added to the log or sent.
    pub(crate) fn nothing(alloc: Global) -> EventEffects
        ensures { IsDoneBy None [] result }
    {
        EventEffects {
            noted: None,
            message: None,
            sends: Parcels::nothing(alloc),
        }
    }
}

/// The kind of the note that a stop inside the step leaves on the log.
fn kind_left(ready: &PreparedStep, left: &Left) -> Option<NoteKind>
    ensures { result ≡ kind_noted (note_left left.now (note_in ready.now.step)) }
{
    match left {
        Left::None => None,
        Left::Torn(_) => None,
        Left::Whole => note_kind(ready),
    }
}

/// The kind of the step's note, if it has one.
pub(crate) fn note_kind(ready: &PreparedStep) -> Option<NoteKind>
    ensures { result ≡ kind_noted (note_in ready.now.step) }
{
    let Some(step) = ready.step() else {
        return None;
    };
    let Some(note) = step.note() else {
        return None;
    };
    Some(kind_of_fact(&note.fact))
}

/// The kind of the message that the step sends, if it sends one.
pub(crate) fn message_kind(ready: &PreparedStep) -> Option<MessageKind>
    ensures { result ≡ kind_sent (sends_in ready.now.step) }
{
    let Some(step) = ready.step() else {
        return None;
    };
    let Some(message) = step.sends().message() else {
        return None;
    };
    Some(kind_of_body(&message.body))
}

/// The kind of a note of this fact.
fn kind_of_fact(fact: &Fact) -> NoteKind
    ensures { result ≡ kind_of_fact fact.now }
{
    match fact {
        Fact::Opened(_) => NoteKind::Opened,
        Fact::Promised(_) => NoteKind::Promised,
        Fact::Voted(_, _) => NoteKind::Voted,
        Fact::Held(_) => NoteKind::Held,
    }
}

/// The kind of a message with this body.
fn kind_of_body(body: &Body) -> MessageKind
    ensures { result ≡ kind_of_body body.now }
{
    match body {
        Body::Offer(_) => MessageKind::Offer,
        Body::Promise(_, _) => MessageKind::Promise,
        Body::Propose(_, _) => MessageKind::Propose,
        Body::Vote(_) => MessageKind::Vote,
        Body::Agreed(_) => MessageKind::Agreed,
        Body::Ask => MessageKind::Ask,
        Body::Nay(_, _) => MessageKind::Nay,
    }
}

//! The note and the messages of a step, as bytes.
ghost use Rattle.std.specs.Prelude.{◌≡◌, All, IfOk, map, option_map};
ghost use Rattle.std.specs.Option.{ForSome, option_copied};
ghost use Rattle.node.specs.Parcels.{datagrams_of, datagrams_to, texts_in};
ghost use Rattle.wire.specs.Messages.{IsMessage, IsNote};
ghost use Rattle.wire.specs.Pieces.{IsDatagram};
ghost use Rattle.wire.specs.Spelling.{datagram_text, note_text};

use crate::Parcels;
use ballots::{Message, Note};
use faults::Memory;
use protocol::Sends;
use std::alloc::Global;
use wire::{Datagram, encode, encode_note, split};

/// The note's text, if there is a note.
pub(crate) fn note_text(alloc: Global, note: Option<&Note>) -> Result<Option<Vec<u8>>, Memory>
    requires { ForSome (option_copied note) IsNote }
    ensures { IfOk result (λ text. option_map (λ t. t.items) text
        ≡ option_map note_text (option_copied note.entry)) }
{
    match note {
        Some(note) => {
            let mut text = Vec::new(alloc);
            encode_note(note, &mut text)?;
            Ok(Some(text))
        }
        None => Ok(None),
    }
}

/// The messages as bytes, which are stored once for all their receivers.
pub(crate) fn parcels(alloc: Global, sends: &Sends) -> Result<Parcels, Memory>
    requires { All (λ x. IsMessage x.message) sends.now }
    ensures { IfOk result (λ parcels. parcels ≡ datagrams_to sends.now) }
{
    if sends.receivers().is_empty() {
        return Ok(Parcels::nothing(alloc));
    }
    match sends.message() {
        Some(message) => {
            let texts = datagrams(alloc, message)?;
            let receivers = Vec::from_slice(alloc, sends.receivers())?;
            Ok(Parcels::new(texts, receivers))
        }
        None => Ok(Parcels::nothing(alloc)),
    }
}

/// The datagrams of the message.
fn datagrams(alloc: Global, message: &Message) -> Result<Vec<Vec<u8>>, Memory>
    requires { IsMessage message.now }
    ensures { IfOk result (λ texts. texts_in texts.items ≡ datagrams_of message.now) }
{
    let message = message.copy()?;
    let datagrams = split(alloc, message)?;
    all_texts(alloc, datagrams.as_slice())
}

/// The texts of these datagrams, in their order.
fn all_texts(alloc: Global, datagrams: &[Datagram]) -> Result<Vec<Vec<u8>>, Memory>
    requires { All IsDatagram datagrams.now }
    ensures { IfOk result (λ texts. texts_in texts.items
        ≡ map datagram_text datagrams.now) }
{
    let mut texts = Vec::with_capacity(alloc, datagrams.len())?;
    for datagram in datagrams {
        texts.push(text_of(alloc, datagram)?)?;
    }
    Ok(texts)
}

/// The datagram's text.
fn text_of(alloc: Global, datagram: &Datagram) -> Result<Vec<u8>, Memory>
    requires { IsDatagram datagram.now }
    ensures { IfOk result (λ text. text.items ≡ datagram_text datagram.now) }
{
    let mut text = Vec::new(alloc);
    encode(datagram, &mut text)?;
    Ok(text)
}

//! The bytes of datagrams and of notes.
#![tactic(auto)]

ghost use Rattle.std.specs.Prelude.{◌≡◌, ◌++◌, [], ◌∷◌, None, IfOk, OnErr, OnOk};
ghost use Rattle.faults.specs.Answers.{IsRightUnless};
ghost use Rattle.wire.specs.Joining.{bytes_of};
ghost use Rattle.wire.specs.Messages.{IsMessage, IsNote};
ghost use Rattle.wire.specs.Pieces.{IsDatagram, split_of};
ghost use Rattle.wire.specs.Reading.{datagram_of, joined, note_of};
ghost use Rattle.wire.specs.Refusals.{number_of};
ghost use Rattle.wire.specs.declared.WireFault.TheVariants.{Memory as out_of_memory};
ghost use Rattle.wire.specs.Spelling.{datagram_text, note_text};

use crate::cuts::Cuts;
use ballots::{Message, Note};
use faults::{Fault, Memory, WantOfMemory};
use package_record::Build;
use std::alloc::Global;
use thiserror::Error;

mod cuts;
mod datagram;
mod datagrams;
mod fault;
mod fields;
mod known;
mod laws;
mod notes;
mod pieces;
mod writing;

pub use crate::datagram::{
    Bytes, Carrier, Datagram, Header, LONGEST_PIECE, MOST_PIECES, PIECE_SIZE, Piece, SENDER_PLACE,
};
pub use crate::laws::{
    no_text_begins_another, pieces_join, places_and_lengths, texts_are_read_again,
};

/// The maximum length of a datagram in bytes.
pub const LONGEST: usize = 65_507;

/// Why bytes are not a datagram, or not a note: the first fault from the left.
#[derive(Clone, Copy, Debug, PartialEq, Eq, Error)]
pub enum WireFault {
    #[error("out of memory")]
    Memory,
    #[error("more bytes than a datagram may have")]
    TooLong,
    #[error("the bytes end early")]
    Truncated,
    #[error("the bytes don't begin like a datagram")]
    Magic,
    #[error("the kind is unknown")]
    Kind,
    #[error("a field is out of its range")]
    BadField,
    #[error("there are extra bytes at the end")]
    Trailing,
}

impl<E: WantOfMemory> From<E> for WireFault {
    ghost from_gives = { λ _ e. e ≡ out_of_memory };

    fn from(_e: E) -> WireFault {
        WireFault::Memory
    }
}

impl Fault for WireFault {
    ghost number_of = { number_of };

    ghost place_of = { λ _. None };

    fn number(&self) -> u32 {
        match self {
            WireFault::Memory => 1,
            WireFault::Truncated => 1101,
            WireFault::Magic => 1102,
            WireFault::Kind => 1103,
            WireFault::BadField => 1104,
            WireFault::Trailing => 1105,
            WireFault::TooLong => 1106,
        }
    }

    fn place(&self) -> Option<u64> {
        None
    }
}

/// A message that is sent in one datagram.
fn alone(alloc: Global, datagram: Datagram) -> Result<Vec<Datagram>, Memory>
    ensures { IfOk result (λ datagrams. datagrams.items ≡ datagram ∷ []) }
{
    let mut datagrams = Vec::new(alloc);
    datagrams.push(datagram)?;
    Ok(datagrams)
}

/// The datagrams in which the message is sent: one, or its pieces in order of number if it carries
/// a build. The message is consumed: besides the build itself and the header of one of its records,
/// its bytes are only stored in the pieces.
pub fn split(alloc: Global, message: Message) -> Result<Vec<Datagram>, Memory>
    requires { IsMessage message }
    ensures { IfOk result (λ datagrams. datagrams.items ≡ split_of message) }
{
    let Message {
        sender,
        tree,
        path,
        body,
    } = message;
    let (carrier, build) = match pieces::taken_apart(body) {
        Ok(parts) => parts,
        Err(body) => {
            let message = Message {
                sender,
                tree,
                path,
                body,
            };
            return alone(alloc, Datagram::Whole(message));
        }
    };
    let cuts = Cuts::of(alloc, build)?;
    let header = Header {
        sender,
        tree,
        path,
        carrier,
        length: cuts.len() as u32,
    };
    pieces::numbered(alloc, &header, cuts.into_bytes(alloc)?)
}

/// The message that these pieces join to: those with the header, in order of number, whatever order
/// they are in here. Bytes that are not a build, or are one of another unit, are `BadField`.
pub fn join(alloc: Global, header: Header, pieces: &[Piece]) -> Result<Message, WireFault>
    ensures { IsRightUnless WireFault.Memory result (joined header (bytes_of header pieces.now)) }
{
    let text = pieces::in_order(alloc, &header, pieces)?;
    let message = pieces::message(alloc, header, text.as_slice())?;
    Ok(message)
}

/// As `join`. If the build is the known one, it is shared and not parsed again.
pub fn join_known(
    alloc: Global,
    header: Header,
    pieces: &[Piece],
    known: Option<&Build>,
) -> Result<Message, WireFault>
    ensures { IsRightUnless WireFault.Memory result (joined header (bytes_of header pieces.now)) }
{
    let text = pieces::in_order(alloc, &header, pieces)?;
    let message = pieces::known_message(alloc, header, text.as_slice(), known)?;
    Ok(message)
}

/// Appends the datagram's text, or nothing if memory runs out.
pub fn encode(datagram: &Datagram, out: &mut Vec<u8>) -> Result<(), Memory>
    requires { IsDatagram datagram.now }
    ensures ok { OnOk result (out.new.items ≡ out.old.items ++ datagram_text datagram.now) }
    ensures err { OnErr result (out.new.items ≡ out.old.items) }
{
    let alloc: Global = *out.allocator();
    match datagram {
        Datagram::Whole(message) => {
            let text = writing::message(alloc, message)?;
            out.extend_from_slice(text.as_slice())?;
            Ok(())
        }
        Datagram::Piece(piece) => {
            let front = writing::header(alloc, &piece.header, piece.number)?;
            writing::append(out, front.as_slice(), piece.bytes.as_slice())
        }
    }
}

/// The datagram with this text. First its length is tested: `TooLong` above `LONGEST`. Then its
/// fields are tested from the left, first whether they are complete (`Truncated`) and then whether
/// they are in range: the first four bytes (`Magic`), the kind (`Kind`), and all others
/// (`BadField`). Bytes after the last field are `Trailing`.
pub fn decode(alloc: Global, text: &[u8]) -> Result<Datagram, WireFault>
    ensures datagram { IfOk result (λ d. IsDatagram d × (text.now ≡ datagram_text d)) }
    ensures exact { IsRightUnless WireFault.Memory result (datagram_of text.now) }
{
    let datagram = datagrams::datagram(alloc, text)?;
    Ok(datagram)
}

/// Appends the note's text, or nothing if memory runs out.
pub fn encode_note(note: &Note, out: &mut Vec<u8>) -> Result<(), Memory>
    requires { IsNote note.now }
    ensures ok { OnOk result (out.new.items ≡ out.old.items ++ note_text note.now) }
    ensures err { OnErr result (out.new.items ≡ out.old.items) }
{
    let alloc: Global = *out.allocator();
    let (front, text) = writing::note(alloc, &note.path, &note.fact)?;
    writing::append(out, front.as_slice(), text.as_slice())
}

/// The note with this text. Its fields are tested from the left, as those of a datagram, and bytes
/// after the last are `Trailing`. The length is not tested.
pub fn decode_note(alloc: Global, text: &[u8]) -> Result<Note, WireFault>
    ensures note { IfOk result (λ n. IsNote n × (text.now ≡ note_text n)) }
    ensures exact { IsRightUnless WireFault.Memory result (note_of text.now) }
{
    let note = notes::note(alloc, text)?;
    Ok(note)
}

//! Messages as datagrams, and pieces joined to messages.
ghost use Rattle.std.specs.Prelude.{◌≡◌, ◌++◌, IfOk, OnOk, flat_map};
ghost use Rattle.wire.specs.inside.Cuts.{AreCuts};
ghost use Rattle.wire.specs.inside.Given.{Gives};
ghost use Rattle.wire.specs.inside.Parts.{TakenApart};
ghost use Rattle.wire.specs.Joining.{bytes_numbered, bytes_of};
ghost use Rattle.wire.specs.Pieces.{body_with, message_with, pieces_of};
ghost use Rattle.wire.specs.Reading.{joined};

use crate::datagram::{Bytes, Carrier, Datagram, Header, MOST_PIECES, PIECE_SIZE, Piece};
use crate::fault::ReadError;
use crate::fields::whole_build;
use crate::known::same_build;
use ballots::{Body, Message};
use faults::Memory;
use package_record::Build;
use std::alloc::Global;

/// The carrier and the build, if the body has a build, and else the unchanged body.
pub fn taken_apart(body: Body) -> Result<(Carrier, Build), Body>
    ensures { TakenApart body result }
{
    match body {
        Body::Offer(claim) => Err(Body::Offer(claim)),
        Body::Promise(claim, None) => Err(Body::Promise(claim, None)),
        Body::Promise(claim, Some((voted, build))) => Ok((Carrier::Promise(claim, voted), build)),
        Body::Propose(claim, build) => Ok((Carrier::Propose(claim), build)),
        Body::Vote(claim) => Err(Body::Vote(claim)),
        Body::Agreed(build) => Ok((Carrier::Agreed, build)),
        Body::Ask => Err(Body::Ask),
        Body::Nay(offered, promised) => Err(Body::Nay(offered, promised)),
    }
}

/// The body with this carrier and this build.
pub fn body_with(carrier: Carrier, build: Build) -> Body
    ensures { result ≡ body_with carrier build }
{
    match carrier {
        Carrier::Promise(promised, voted) => Body::Promise(promised, Some((voted, build))),
        Carrier::Propose(claim) => Body::Propose(claim, build),
        Carrier::Agreed => Body::Agreed(build),
    }
}

/// The message with this header and this build.
fn message_with(header: Header, build: Build) -> Message
    ensures { result ≡ message_with header build }
{
    let Header {
        sender,
        tree,
        path,
        carrier,
        length: _,
    } = header;
    let body = body_with(carrier, build);
    Message {
        sender,
        tree,
        path,
        body,
    }
}

/// The message with the header and the build with this text.
pub fn message(alloc: Global, header: Header, text: &[u8]) -> Result<Message, ReadError>
    ensures { Gives (λ message. message) result (joined header text.now) }
{
    let build = whole_build(alloc, &header.path, text)?;
    Ok(message_with(header, build))
}

/// As `message`. If the build is the known one, it is shared and not parsed again.
pub fn known_message(
    alloc: Global,
    header: Header,
    text: &[u8],
    known: Option<&Build>,
) -> Result<Message, ReadError>
    ensures { Gives (λ message. message) result (joined header text.now) }
{
    let build = match known {
        Some(known) => same_build(known, &header.path, text),
        None => None,
    };
    match build {
        Some(build) => Ok(message_with(header, build)),
        None => message(alloc, header, text),
    }
}

/// The piece of this number, with these bytes.
fn piece(header: &Header, number: u16, bytes: Bytes) -> Result<Datagram, Memory>
    ensures { IfOk result (λ d. d
        ≡ Datagram.Piece (record { header = header.now; number = number; bytes = bytes })) }
{
    let header = header.copy()?;
    Ok(Datagram::Piece(Piece {
        header,
        number,
        bytes,
    }))
}

/// The header's pieces with these bytes, in order of number.
pub fn numbered(alloc: Global, header: &Header, cuts: Vec<Bytes>) -> Result<Vec<Datagram>, Memory>
    requires { AreCuts cuts.items }
    ensures { IfOk result (λ pieces. pieces.items
        ≡ pieces_of header.now (flat_map (λ bytes. bytes) cuts.items)) }
{
    let mut pieces = Vec::with_capacity(alloc, cuts.len())?;
    let mut number: u16 = 0;
    for bytes in cuts {
        pieces.push(piece(header, number, bytes)?)?;
        number += 1;
    }
    Ok(pieces)
}

/// Appends the bytes of the header's piece of this number.
fn put_numbered(
    out: &mut Vec<u8>,
    header: &Header,
    number: u16,
    pieces: &[Piece],
) -> Result<(), Memory>
    ensures { OnOk result (out.new.items
        ≡ out.old.items ++ bytes_numbered header.now pieces.now number) }
{
    for piece in pieces {
        if piece.number == number && header.is_same(&piece.header) {
            out.extend_from_slice(piece.bytes.as_slice())?;
        }
    }
    Ok(())
}

/// The bytes of the header's pieces, in order of number.
pub fn in_order(alloc: Global, header: &Header, pieces: &[Piece]) -> Result<Vec<u8>, Memory>
    ensures { IfOk result (λ text. text.items ≡ bytes_of header.now pieces.now) }
{
    let mut text = Vec::new(alloc);
    for number in 0..MOST_PIECES {
        if PIECE_SIZE as u32 * u32::from(number) < header.length {
            put_numbered(&mut text, header, number, pieces)?;
        }
    }
    Ok(text)
}

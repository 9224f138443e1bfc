//! Parsing of bytes as a datagram.
ghost use Rattle.std.specs.Prelude.{◌≡◌};
ghost use Rattle.wire.specs.inside.Given.{Gives};
ghost use Rattle.wire.specs.Reading.{
  body_at,
  carrier_at,
  datagram_at,
  datagram_by,
  datagram_of,
  header_at,
  nay_at,
  piece_at,
  piece_number_at,
  promise_at,
  report_at,
  whole_at,
};

use crate::datagram::{Bytes, Carrier, Datagram, Header, PIECE_SIZE, Piece};
use crate::fault::ReadError;
use crate::fields::{Front, bytes, claim, first_fields, number};
use crate::{LONGEST, WireFault};
use ballots::{Body, Message};
use package_record::LIMIT;
use std::alloc::Global;

/// The kinds of messages that are sent whole: Offer, Promise, Vote, Ask, Nay.
const WHOLE_KINDS: [u8; 5] = [1, 2, 4, 6, 7];

/// The kinds of messages that carry a build: Promise, Propose, Agreed.
const CARRIER_KINDS: [u8; 3] = [2, 3, 5];

/// A promise without a report.
#[tactic(auto, unfolding(crate::specs::Reading::promise_at))]
fn promise(text: &[u8]) -> Result<(Body, &[u8]), ReadError>
    ensures { Gives (λ x. (x.0, x.1.now)) result (promise_at text.entry.now) }
{
    let (claim, text) = claim(text)?;
    let (_, text) = number(1, 0, 0, text)?;
    Ok((Body::Promise(claim, None), text))
}

/// The claim that is rejected, and the one that is promised.
#[tactic(auto, unfolding(crate::specs::Reading::nay_at))]
fn nay(text: &[u8]) -> Result<(Body, &[u8]), ReadError>
    ensures { Gives (λ x. (x.0, x.1.now)) result (nay_at text.entry.now) }
{
    let (offered, text) = claim(text)?;
    let (promised, text) = claim(text)?;
    Ok((Body::Nay(offered, promised), text))
}

/// The body of a message of this kind that is sent whole.
fn body(kind: u8, text: &[u8]) -> Result<(Body, &[u8]), ReadError>
    ensures { Gives (λ x. (x.0, x.1.now)) result (body_at kind text.entry.now) }
{
    match kind {
        1 => {
            let (claim, text) = claim(text)?;
            Ok((Body::Offer(claim), text))
        }
        2 => promise(text),
        4 => {
            let (claim, text) = claim(text)?;
            Ok((Body::Vote(claim), text))
        }
        6 => Ok((Body::Ask, text)),
        _ => nay(text),
    }
}

/// A whole message.
#[tactic(auto, unfolding(crate::specs::Reading::whole_at))]
fn whole(alloc: Global, text: &[u8]) -> Result<(Datagram, &[u8]), ReadError>
    ensures { Gives (λ x. (x.0, x.1.now)) result (whole_at text.entry.now) }
{
    let (front, text) = first_fields(alloc, &WHOLE_KINDS, text)?;
    let Front {
        kind,
        sender,
        tree,
        path,
    } = front;
    let (body, text) = body(kind, text)?;
    let message = Message {
        sender,
        tree,
        path,
        body,
    };
    Ok((Datagram::Whole(message), text))
}

/// A promise that reports a vote.
#[tactic(auto, unfolding(crate::specs::Reading::report_at))]
fn report(text: &[u8]) -> Result<(Carrier, &[u8]), ReadError>
    ensures { Gives (λ x. (x.0, x.1.now)) result (report_at text.entry.now) }
{
    let (promised, text) = claim(text)?;
    let (_, text) = number(1, 1, 1, text)?;
    let (voted, text) = claim(text)?;
    Ok((Carrier::Promise(promised, voted), text))
}

/// What a message of this kind says besides the build that it carries.
fn carrier(kind: u8, text: &[u8]) -> Result<(Carrier, &[u8]), ReadError>
    ensures { Gives (λ x. (x.0, x.1.now)) result (carrier_at kind text.entry.now) }
{
    match kind {
        2 => report(text),
        3 => {
            let (claim, text) = claim(text)?;
            Ok((Carrier::Propose(claim), text))
        }
        _ => Ok((Carrier::Agreed, text)),
    }
}

/// The fields that all pieces of a message share.
#[tactic(auto, unfolding(crate::specs::Reading::header_at))]
fn header(alloc: Global, text: &[u8]) -> Result<(Header, &[u8]), ReadError>
    ensures { Gives (λ x. (x.0, x.1.now)) result (header_at text.entry.now) }
{
    let (front, text) = first_fields(alloc, &CARRIER_KINDS, text)?;
    let Front {
        kind,
        sender,
        tree,
        path,
    } = front;
    let (carrier, text) = carrier(kind, text)?;
    let (length, text) = number(4, 1, LIMIT as u64, text)?;
    let header = Header {
        sender,
        tree,
        path,
        carrier,
        length: length as u32,
    };
    Ok((header, text))
}

/// The number of a piece of a build's text of this length.
#[tactic(auto, unfolding(crate::specs::Reading::piece_number_at))]
fn piece_number(length: u32, text: &[u8]) -> Result<(u16, &[u8]), ReadError>
    ensures { Gives (λ x. (x.0, x.1.now)) result (piece_number_at length text.entry.now) }
{
    let (number, text) = number(2, 0, 65_535, text)?;
    if PIECE_SIZE as u64 * number < u64::from(length) {
        Ok((number as u16, text))
    } else {
        Err(ReadError::Fault(WireFault::BadField))
    }
}

/// A piece.
#[tactic(auto, unfolding(crate::specs::Reading::piece_at))]
fn piece(alloc: Global, text: &[u8]) -> Result<(Datagram, &[u8]), ReadError>
    ensures { Gives (λ x. (x.0, x.1.now)) result (piece_at text.entry.now) }
{
    let (header, text) = header(alloc, text)?;
    let (number, text) = piece_number(header.length, text)?;
    let left = (header.length as usize).saturating_sub(PIECE_SIZE * usize::from(number));
    let (field, text) = bytes(left.min(PIECE_SIZE), text)?;
    let bytes = Bytes::new(Vec::from_slice(alloc, field)?);
    let piece = Piece {
        header,
        number,
        bytes,
    };
    Ok((Datagram::Piece(piece), text))
}

/// The datagram that follows these four bytes.
fn behind<'a>(
    alloc: Global,
    magic: &[u8],
    text: &'a [u8],
) -> Result<(Datagram, &'a [u8]), ReadError>
    ensures { Gives (λ x. (x.0, x.1.now)) result (datagram_by magic.now text.entry.now) }
{
    if magic == b"DPB1".as_slice() {
        whole(alloc, text)
    } else if magic == b"DPB2".as_slice() {
        piece(alloc, text)
    } else {
        Err(ReadError::Fault(WireFault::Magic))
    }
}

/// The datagram at the front.
#[tactic(auto, unfolding(crate::specs::Reading::datagram_at))]
fn first(alloc: Global, text: &[u8]) -> Result<(Datagram, &[u8]), ReadError>
    ensures { Gives (λ x. (x.0, x.1.now)) result (datagram_at text.entry.now) }
{
    let (magic, text) = bytes(4, text)?;
    behind(alloc, magic, text)
}

/// The datagram that is the whole text.
#[tactic(auto, unfolding(crate::specs::Reading::datagram_of))]
pub fn datagram(alloc: Global, text: &[u8]) -> Result<Datagram, ReadError>
    ensures { Gives (λ datagram. datagram) result (datagram_of text.now) }
{
    if text.len() > LONGEST {
        return Err(ReadError::Fault(WireFault::TooLong));
    }
    let (datagram, rest) = first(alloc, text)?;
    if !rest.is_empty() {
        return Err(ReadError::Fault(WireFault::Trailing));
    }
    Ok(datagram)
}

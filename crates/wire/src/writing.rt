//! The texts of datagrams and notes.
ghost use Rattle.std.specs.Prelude.{◌≡◌, ◌++◌, ◌∷◌, ◌<◌, ◌≤◌, ◌^◌, None, IfOk, OnErr, OnOk, length};
ghost use Rattle.byteorder.specs.Endian.{big_bytes};
ghost use Rattle.package_record.specs.Build.{IsBuild, build_text};
ghost use Rattle.wire.specs.inside.Parts.{HasGoodBuild};
ghost use Rattle.wire.specs.Messages.{IsFact};
ghost use Rattle.wire.specs.Pieces.{carried_in};
ghost use Rattle.wire.specs.Spelling.{
  body_text,
  carrier_kind,
  carrier_text,
  claim_text,
  fact_text,
  front_text,
  header_text,
  kind_of,
  message_text,
  note_kind,
  path_text,
  sized_build,
};

use crate::datagram::{Carrier, Header};
use ballots::{Body, Fact, Message};
use byteorder::{BigEndian, ByteOrder};
use claims::Claim;
use faults::Memory;
use package_record::Build;
use pkgpath::PkgPath;
use std::alloc::Global;

/// Appends the number as n bytes, big-endian.
pub fn put_number(out: &mut Vec<u8>, n: usize, number: u64) -> Result<(), Memory>
    requires some { 1 ≤ n }
    requires few { n ≤ 8 }
    requires fits { number < 256 ^ n }
    ensures { OnOk result (out.new.items ≡ out.old.items ++ big_bytes n number) }
{
    let mut field = [0; 8];
    BigEndian::write_uint(&mut field, number, n);
    out.extend_from_slice(&field[..n])?;
    Ok(())
}

/// Appends the claim's round and its member.
fn put_claim(out: &mut Vec<u8>, claim: Claim) -> Result<(), Memory>
    ensures { OnOk result (out.new.items ≡ out.old.items ++ claim_text claim) }
{
    put_number(out, 8, claim.round)?;
    out.push(claim.member)?;
    Ok(())
}

/// Appends the length of the path, and the path.
pub fn put_path(out: &mut Vec<u8>, path: &PkgPath) -> Result<(), Memory>
    ensures { OnOk result (out.new.items ≡ out.old.items ++ path_text path.now) }
{
    let text = path.as_bytes();
    put_number(out, 2, text.len() as u64)?;
    out.extend_from_slice(text)?;
    Ok(())
}

/// Appends the first fields of a datagram.
fn put_front(
    out: &mut Vec<u8>,
    magic: &[u8],
    kind: u8,
    sender: u8,
    tree: &[u8],
) -> Result<(), Memory>
    ensures { OnOk result (out.new.items
        ≡ out.old.items ++ (magic.now ++ kind ∷ sender ∷ tree.now)) }
{
    out.extend_from_slice(magic)?;
    out.push(kind)?;
    out.push(sender)?;
    out.extend_from_slice(tree)?;
    Ok(())
}

/// The number of the message's kind.
fn kind(body: &Body) -> u8
    ensures { result ≡ kind_of body.now }
{
    match body {
        Body::Offer(_) => 1,
        Body::Promise(_, _) => 2,
        Body::Propose(_, _) => 3,
        Body::Vote(_) => 4,
        Body::Agreed(_) => 5,
        Body::Ask => 6,
        Body::Nay(_, _) => 7,
    }
}

/// Appends the body of a message that carries no build.
fn put_body(out: &mut Vec<u8>, body: &Body) -> Result<(), Memory>
    requires { carried_in body.now ≡ None }
    ensures { OnOk result (out.new.items ≡ out.old.items ++ body_text body.now) }
{
    match body {
        Body::Offer(claim) => put_claim(out, *claim),
        Body::Promise(claim, _) => {
            put_claim(out, *claim)?;
            out.push(0)?;
            Ok(())
        }
        Body::Vote(claim) => put_claim(out, *claim),
        Body::Nay(offered, promised) => {
            put_claim(out, *offered)?;
            put_claim(out, *promised)
        }
        Body::Ask => Ok(()),
        Body::Propose(_, _) => Ok(()),
        Body::Agreed(_) => Ok(()),
    }
}

/// The text of a message that carries no build.
pub fn message(alloc: Global, message: &Message) -> Result<Vec<u8>, Memory>
    requires { carried_in message.now.body ≡ None }
    ensures { IfOk result (λ text. text.items ≡ message_text message.now) }
{
    let mut text = Vec::new(alloc);
    put_front(
        &mut text,
        b"DPB1",
        kind(&message.body),
        message.sender,
        &message.tree,
    )?;
    put_path(&mut text, &message.path)?;
    put_body(&mut text, &message.body)?;
    Ok(text)
}

/// The number of the kind of message with this carrier.
fn kind_of_carrier(carrier: Carrier) -> u8
    ensures { result ≡ carrier_kind carrier }
{
    match carrier {
        Carrier::Promise(_, _) => 2,
        Carrier::Propose(_) => 3,
        Carrier::Agreed => 5,
    }
}

/// Appends what precedes the build.
fn put_carrier(out: &mut Vec<u8>, carrier: Carrier) -> Result<(), Memory>
    ensures { OnOk result (out.new.items ≡ out.old.items ++ carrier_text carrier) }
{
    match carrier {
        Carrier::Promise(promised, voted) => {
            put_claim(out, promised)?;
            out.push(1)?;
            put_claim(out, voted)
        }
        Carrier::Propose(claim) => put_claim(out, claim),
        Carrier::Agreed => Ok(()),
    }
}

/// The first bytes of each piece with this header, and the number of one of them.
pub fn header(alloc: Global, header: &Header, number: u16) -> Result<Vec<u8>, Memory>
    ensures { IfOk result (λ text. text.items ≡ header_text header.now ++ big_bytes 2 number) }
{
    let mut text = Vec::new(alloc);
    let kind = kind_of_carrier(header.carrier);
    put_front(&mut text, b"DPB2", kind, header.sender, &header.tree)?;
    put_path(&mut text, &header.path)?;
    put_carrier(&mut text, header.carrier)?;
    put_number(&mut text, 4, u64::from(header.length))?;
    put_number(&mut text, 2, u64::from(number))?;
    Ok(text)
}

/// The number of the note's kind.
fn kind_of_fact(fact: &Fact) -> u8
    ensures { result ≡ note_kind fact.now }
{
    match fact {
        Fact::Opened(_) => 1,
        Fact::Promised(_) => 2,
        Fact::Voted(_, _) => 3,
        Fact::Held(_) => 4,
    }
}

/// Appends the length of the build's text, and returns that text.
fn put_size(alloc: Global, out: &mut Vec<u8>, build: &Build) -> Result<Vec<u8>, Memory>
    requires { IsBuild build.now }
    ensures { IfOk result (λ text. out.new.items ++ text.items
        ≡ out.old.items ++ sized_build build.now) }
{
    let mut text = Vec::new(alloc);
    build.write_to(&mut text)?;
    put_number(out, 4, text.len() as u64)?;
    Ok(text)
}

/// Appends the text of the fact up to that of a build, and returns the build's text, which is empty
/// if there is no build.
fn put_fact(alloc: Global, out: &mut Vec<u8>, fact: &Fact) -> Result<Vec<u8>, Memory>
    requires { HasGoodBuild fact.now }
    ensures { IfOk result (λ text. out.new.items ++ text.items
        ≡ out.old.items ++ fact_text fact.now) }
{
    match fact {
        Fact::Opened(round) => {
            put_number(out, 8, *round)?;
            Ok(Vec::new(alloc))
        }
        Fact::Promised(claim) => {
            put_claim(out, *claim)?;
            Ok(Vec::new(alloc))
        }
        Fact::Voted(claim, build) => {
            put_claim(out, *claim)?;
            put_size(alloc, out, build)
        }
        Fact::Held(build) => put_size(alloc, out, build),
    }
}

/// The text of a note up to the text of a build, and that text.
pub fn note(alloc: Global, path: &PkgPath, fact: &Fact) -> Result<(Vec<u8>, Vec<u8>), Memory>
    requires { IsFact path.now fact.now }
    ensures { IfOk result (λ parts. parts.0.items ++ parts.1.items
        ≡ note_kind fact.now ∷ path_text path.now ++ fact_text fact.now) }
{
    let mut front = Vec::new(alloc);
    front.push(kind_of_fact(fact))?;
    put_path(&mut front, path)?;
    let text = put_fact(alloc, &mut front, fact)?;
    Ok((front, text))
}

/// Appends both, or nothing.
pub fn append(out: &mut Vec<u8>, front: &[u8], behind: &[u8]) -> Result<(), Memory>
    ensures ok { OnOk result (out.new.items ≡ out.old.items ++ (front.now ++ behind.now)) }
    ensures err { OnErr result (out.new.items ≡ out.old.items) }
{
    let length = out.len();
    out.extend_from_slice(front)?;
    if out.extend_from_slice(behind).is_err() {
        out.truncate(length);
        return Err(Memory);
    }
    Ok(())
}

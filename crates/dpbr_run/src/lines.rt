//! The line of an event.
ghost use Rattle.std.specs.Prelude.{◌≡◌, ◌++◌, IfOk, OnOk, Some, codes, flat_map, string_bytes};
ghost use Rattle.std.specs.Fmt.{decimal};
ghost use Rattle.dpbr_run.specs.Events.{
  AreSentAs,
  IsSentText,
  agreed_part,
  datagram_part,
  event_line,
  message_word,
  note_word,
  noted_part,
  receiver_part,
};

use faults::Memory;
use node::Parcels;
use package_record::Record;
use simulator::{EventEffects, MessageKind, NoteKind, World};
use std::alloc::{AllocError, Global};
use world::DatagramBytes;

/// Appends the line of the event of this number at this node, with what was noted, what was sent as
/// a text, and the packages that became agreed.
pub(crate) fn put_line(
    text: &mut Vec<u8>,
    number: u64,
    node: u8,
    noted: Option<NoteKind>,
    sent: &[u8],
    packages: &[Record],
) -> Result<(), Memory>
    ensures { OnOk result (text.new.items
        ≡ text.old.items ++ event_line number node noted sent.now packages.now) }
{
    let alloc: Global = *text.allocator();
    let front = front_text(alloc, number, node)?;
    text.extend_from_slice(front.as_bytes())?;
    put_noted(text, noted)?;
    text.extend_from_slice(sent)?;
    put_agreed(text, packages)?;
    text.push(b'\n')?;
    Ok(())
}

/// The number of the event and its node.
fn front_text(alloc: Global, number: u64, node: u8) -> Result<String, AllocError>
    ensures { IfOk result (λ text. string_bytes text
        ≡ codes "event " ++ decimal number ++ codes " node " ++ decimal node) }
{
    format!(in alloc; "event {number} node {node}")
}

/// Appends what was added to a log, if anything was.
fn put_noted(text: &mut Vec<u8>, noted: Option<NoteKind>) -> Result<(), Memory>
    ensures { OnOk result (text.new.items ≡ text.old.items ++ noted_part noted) }
{
    match noted {
        Some(kind) => put_note(text, kind),
        None => Ok(()),
    }
}

/// Appends the kind of a note.
fn put_note(text: &mut Vec<u8>, kind: NoteKind) -> Result<(), Memory>
    ensures { OnOk result (text.new.items ≡ text.old.items ++ noted_part (Some kind)) }
{
    text.extend_from_slice(b" noted ")?;
    text.extend_from_slice(note_word(kind).as_bytes())?;
    Ok(())
}

/// Appends the paths of packages that became agreed.
fn put_agreed(text: &mut Vec<u8>, packages: &[Record]) -> Result<(), Memory>
    ensures { OnOk result (text.new.items
        ≡ text.old.items ++ flat_map agreed_part packages.now) }
{
    for package in packages {
        text.extend_from_slice(b" agreed ")?;
        package.path().write_to(text)?;
    }
    Ok(())
}

/// What an event sent that did this and led to this world.
pub(crate) fn sent_text(
    alloc: Global,
    world: &World<'_>,
    done: &EventEffects,
) -> Result<Vec<u8>, Memory>
    ensures { IfOk result (λ text. IsSentText world.now.world.sent done.now.message
        done.now.sends text.items) }
{
    match done.message {
        Some(kind) => datagrams_text(alloc, world, kind, &done.sends),
        None => Ok(Vec::new(alloc)),
    }
}

/// The datagrams of a message of this kind, each with all receivers.
fn datagrams_text(
    alloc: Global,
    world: &World<'_>,
    kind: MessageKind,
    sends: &Parcels,
) -> Result<Vec<u8>, Memory>
    ensures { IfOk result (λ text. AreSentAs world.now.world.sent kind sends.now text.items) }
{
    let (receivers, datagrams) = sends.parts();
    let members = receivers_text(alloc, receivers)?;
    let mut text = Vec::new(alloc);
    put_datagrams(&mut text, world, kind, members.as_str(), datagrams)?;
    Ok(text)
}

/// The numbers of the receivers.
fn receivers_text(alloc: Global, receivers: &[u8]) -> Result<String, AllocError>
    ensures { IfOk result (λ text. string_bytes text ≡ flat_map receiver_part receivers.now) }
{
    let mut text = String::new(alloc);
    for receiver in receivers {
        let receiver = *receiver;
        let part = format!(in alloc; " {receiver}")?;
        text.push_str(part.as_str())?;
    }
    Ok(text)
}

/// Appends datagrams of a message of this kind, each with these receivers.
fn put_datagrams(
    text: &mut Vec<u8>,
    world: &World<'_>,
    kind: MessageKind,
    members: &str,
    datagrams: &[Vec<u8>],
) -> Result<(), Memory>
    ensures { OnOk result (text.new.items ≡ text.old.items
        ++ flat_map (λ d. datagram_part world.now.world.sent kind members.now d.items)
        datagrams.now) }
{
    for datagram in datagrams {
        put_datagram(text, world, kind, members, datagram.as_slice())?;
    }
    Ok(())
}

/// Appends a datagram of a message of this kind, with its receivers.
fn put_datagram(
    text: &mut Vec<u8>,
    world: &World<'_>,
    kind: MessageKind,
    members: &str,
    datagram: &[u8],
) -> Result<(), Memory>
    ensures { OnOk result (text.new.items ≡ text.old.items
        ++ datagram_part world.now.world.sent kind members.now datagram.now) }
{
    let alloc: Global = *text.allocator();
    let bytes = DatagramBytes::new(datagram.to_vec(alloc)?);
    let number = world.number_of(&bytes).unwrap_or(0);
    let part = datagram_text(alloc, number, message_word(kind), members)?;
    text.extend_from_slice(part.as_bytes())?;
    Ok(())
}

/// The part of a datagram of this number.
fn datagram_text(
    alloc: Global,
    number: usize,
    word: &str,
    members: &str,
) -> Result<String, AllocError>
    ensures { IfOk result (λ text. string_bytes text ≡ codes " sent " ++ decimal number
        ++ codes " " ++ word.now ++ codes " to" ++ members.now) }
{
    format!(in alloc; " sent {number} {word} to{members}")
}

fn note_word(kind: NoteKind) -> &'static str
    ensures { result.now ≡ note_word kind }
{
    match kind {
        NoteKind::Opened => "opened",
        NoteKind::Promised => "promised",
        NoteKind::Voted => "voted",
        NoteKind::Held => "held",
    }
}

fn message_word(kind: MessageKind) -> &'static str
    ensures { result.now ≡ message_word kind }
{
    match kind {
        MessageKind::Offer => "offer",
        MessageKind::Promise => "promise",
        MessageKind::Propose => "propose",
        MessageKind::Vote => "vote",
        MessageKind::Agreed => "agreed",
        MessageKind::Ask => "ask",
        MessageKind::Nay => "nay",
    }
}

//! The pieces that a node keeps, by header.
ghost use Rattle.std.specs.Prelude.{◌≡◌, ◌↔◌, ◌<◌, None, IfErr, IfOk, IsTrue, OnOk, true, vec_capacity, vec_len};
ghost use Rattle.faults.specs.Answers.{IsRightUnless};
ghost use Rattle.protocol.specs.State.{State};
ghost use Rattle.wire.specs.Joining.{bytes_of};
ghost use Rattle.wire.specs.Reading.{joined};
ghost use Rattle.node.specs.Arrival.{refusal_of};
ghost use Rattle.node.specs.Kept.{are_all, has_number, with_piece, without};
ghost use Rattle.node.specs.Step.{changed};

use crate::Change;
use ballots::Message;
use faults::Memory;
use member::Member;
use package_record::Build;
use protocol::Refusal;
use std::alloc::Global;
use wire::{Carrier, Header, MOST_PIECES, PIECE_SIZE, Piece, WireFault};

/// Why the member refuses the header, if it does.
pub(crate) fn test_header(member: &Member<'_>, header: &Header) -> Result<(), Refusal>
    ensures ok { OnOk result (refusal_of member.now header.now ≡ None) }
    ensures err { IfErr result (λ e. refusal_of member.now header.now ≡ Some e) }
{
    let Header {
        sender,
        tree,
        path,
        carrier,
        length: _,
    } = header;
    match carrier {
        Carrier::Promise(claim, voted) => {
            member.test_header(tree, &[*sender, claim.member, voted.member], path)
        }
        Carrier::Propose(claim) => member.test_header(tree, &[*sender, claim.member], path),
        Carrier::Agreed => member.test_header(tree, &[*sender], path),
    }
}

/// Whether the piece of this number, of the header's message, is kept.
pub(crate) fn has_number(pieces: &[Piece], header: &Header, number: u16) -> bool
    ensures { result ≡ has_number header.now pieces.now number }
{
    pieces.iter().any(|piece| piece.number == number && header.is_same(&piece.header))
}

/// Whether this piece completes its message.
#[tactic(auto, unfolding(wire::specs::Pieces::numbers_of))]
pub(crate) fn is_last(pieces: &[Piece], piece: &Piece) -> bool
    ensures { result ≡ are_all piece.now.header (with_piece pieces.now piece.now) }
{
    (0..MOST_PIECES)
        .filter(|number| PIECE_SIZE as u32 * u32::from(*number) < piece.header.length)
        .all(|number| has_with(pieces, piece, number))
}

/// Whether the piece of this number is kept, or is this piece.
fn has_with(pieces: &[Piece], piece: &Piece, number: u16) -> bool
    ensures { result ≡ has_number piece.now.header (with_piece pieces.now piece.now) number }
{
    number == piece.number || has_number(pieces, &piece.header, number)
}

/// A known build that may equal the one in a message with this header. The received build then
/// shares its texts. A build that is held, or that the open claim proposes, is always given. A vote
/// may have been read from the log, with texts of its own, so its build is only given if the vote
/// stays.
pub(crate) fn known_build<'m>(member: &'m Member<'_>, header: &Header) -> Option<&'m Build> {
    match member.known_build(&header.path) {
        Some(build) => Some(build),
        None => voted_build(member, header),
    }
}

/// The build of the member's last vote, if the message doesn't replace that vote: the build is
/// agreed, or proposed under the claim of the vote.
fn voted_build<'m>(member: &'m Member<'_>, header: &Header) -> Option<&'m Build> {
    let (claim, build) = member.voted(&header.path)?;
    match header.carrier {
        Carrier::Agreed => Some(build),
        Carrier::Propose(proposed) if proposed == *claim => Some(build),
        _ => None,
    }
}

/// The message that the kept pieces and this one join to. If its build equals the known one, it
/// shares its texts.
pub(crate) fn joined(
    pieces: &mut Vec<Piece>,
    piece: Piece,
    known: Option<&Build>,
) -> Result<Message, WireFault>
    ensures same { pieces.new.items ≡ pieces.old.items }
    ensures joined { IsRightUnless WireFault.Memory result
        (joined piece.header (bytes_of piece.header (with_piece pieces.old.items piece))) }
{
    let alloc: Global = *pieces.allocator();
    let Ok(header) = piece.header.copy() else {
        return Err(WireFault::Memory);
    };
    let Ok(()) = pieces.push(piece) else {
        return Err(WireFault::Memory);
    };
    let message = wire::join_known(alloc, header, pieces.as_slice(), known);
    pieces.pop();
    message
}

/// Reserves room for one more piece.
pub(crate) fn make_room(pieces: &mut Vec<Piece>) -> Result<(), Memory>
    ensures same { pieces.new.items ≡ pieces.old.items }
    ensures room { OnOk result (vec_len pieces.new < vec_capacity pieces.new) }
{
    pieces.reserve(1)?;
    Ok(())
}

/// Makes the change. Does not allocate.
pub(crate) fn change_kept(pieces: &mut Vec<Piece>, change: Change)
    requires { vec_len pieces.old < vec_capacity pieces.old }
    ensures { pieces.new.items ≡ changed change pieces.old.items }
{
    match change {
        Change::Stays => {}
        Change::Keeps(piece) => pieces.push_reserved(piece),
        Change::Drops(header) => drop_pieces(pieces, &header),
    }
}

/// Drops the pieces with this header. Does not allocate.
pub(crate) fn drop_pieces(pieces: &mut Vec<Piece>, header: &Header)
    ensures { pieces.new.items ≡ without header.now pieces.old.items }
{
    pieces.retain(|piece| !header.is_same(&piece.header));
}

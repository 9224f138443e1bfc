//! Messages that a node receives as bytes.
ghost use Rattle.std.specs.Prelude.{◌≡◌, IfOk, None};
ghost use Rattle.claims.specs.Member.{greater};
ghost use Rattle.protocol.specs.Step.{facts_named};
ghost use Rattle.check_worlds.specs.Rows.{TookMessage, TookWithLast};
ghost use Rattle.wire.specs.Messages.{IsMessage};
ghost use Rattle.wire.specs.Pieces.{IsPiece, carried_in};

use ballots::{Body, Message};
use claims::Claim;
use node::{Effects, Node, NodeFault, only_running_nodes_take, steps_are_the_members};
use protocol::members_follow_the_theory;
use stable_record::Disk;
use std::alloc::Global;
use wire::{Datagram, Piece, encode, pieces_join, texts_are_read_again};

/// Encodes a message that carries no build, and passes it to a node.
pub fn deliver<D: Disk>(
    node: &mut Node<'_, D>,
    alloc: Global,
    message: &Message,
) -> Result<Effects, NodeFault>
    requires message { IsMessage message.now }
    requires whole { carried_in message.now.body ≡ None }
    ensures { IfOk result (TookMessage node.old.node node.new.node message.now) }
{
    texts_are_read_again();
    only_running_nodes_take();
    let datagram = Datagram::Whole(message.copy()?);
    let mut text = Vec::new(alloc);
    encode(&datagram, &mut text)?;
    node.handle_datagram(text.as_slice())
}

/// Encodes a piece, and passes it to a node. If it is the last missing one of a message, the node
/// takes its member's step on that message.
pub fn deliver_piece<D: Disk>(
    node: &mut Node<'_, D>,
    alloc: Global,
    piece: &Piece,
) -> Result<Effects, NodeFault>
    requires piece { IsPiece piece.now }
    ensures { IfOk result (TookWithLast node.old.node node.new.node piece.now) }
{
    texts_are_read_again();
    pieces_join();
    only_running_nodes_take();
    let datagram = Datagram::Piece(piece.copy()?);
    let mut text = Vec::new(alloc);
    encode(&datagram, &mut text)?;
    node.handle_datagram(text.as_slice())
}

/// Passes an offer to a node, and returns what the node has then promised for its unit.
pub fn offer<D: Disk>(
    node: &mut Node<'_, D>,
    alloc: Global,
    message: &Message,
    claim: Claim,
) -> Result<Option<Claim>, NodeFault>
    requires message { IsMessage message.now }
    requires offer { message.now.body ≡ Body.Offer claim }
    // The result is the greater of the previous promise and the offered claim.
    ensures { IfOk result (λ promised. promised
        ≡ greater (facts_named node.old.node.member message.now.path).promised claim) }
{
    steps_are_the_members();
    members_follow_the_theory();
    let _len = node.log_len();
    let out = deliver(node, alloc, message)?;
    drop(out);
    Ok(node.promised(&message.path))
}

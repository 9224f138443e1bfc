//! Datagrams: a whole message, or a piece of one that carries a build.
ghost use Rattle.std.specs.Prelude.{◌≡◌, IfOk};
ghost use Rattle.wire.specs.Joining.{same_carrier, same_header};

use ballots::Message;
use claims::Claim;
use faults::Memory;
use pkgpath::PkgPath;
use std::marker::Model;

/// The number of bytes of each piece but the last.
pub const PIECE_SIZE: usize = 32_768;

/// The maximum number of pieces of a message.
pub const MOST_PIECES: u16 = 128;

/// The place of the sender's number in a datagram.
pub const SENDER_PLACE: usize = 5;

/// The maximum length of a piece in bytes: one of a promise that reports a vote, of a unit whose
/// name has 255 bytes. It has 38 bytes before the name; 2 for the name's length, and the name; 19
/// for two claims and a byte between them; 4 for the length of the build; 2 for the piece's number;
/// and `PIECE_SIZE` bytes of the build.
pub const LONGEST_PIECE: usize = 33_088;

/// Bytes. Contracts see them as a list.
#[derive(Drop)]
pub struct Bytes {
    items: Vec<u8>,
}

impl Model for Bytes {
    ghost use Rattle.std.specs.Prelude.{List, ℕ};

    ghost Value = { List ℕ };

    ghost view = { λ b. b.items.items };
}

impl Bytes {
    /// These bytes.
    pub fn new(items: Vec<u8>) -> Bytes
        ensures { result ≡ items.items }
    {
        Bytes { items }
    }

    /// The bytes.
    pub fn as_slice(&self) -> &[u8]
        ensures { result.now ≡ self.now }
    {
        self.items.as_slice()
    }

    /// The bytes.
    pub fn into_vec(self) -> Vec<u8>
        ensures { result.items ≡ self }
    {
        self.items
    }

    /// Equal bytes. Fails only if memory runs out.
    pub fn copy(&self) -> Result<Bytes, Memory>
        ensures { IfOk result (λ bytes. bytes ≡ self.now) }
    {
        let items = self.items.clone()?;
        Ok(Bytes { items })
    }
}

/// What a message that carries a build says besides.
#[derive(Clone, Copy, Debug, PartialEq, Eq)]
pub enum Carrier {
    /// A promise of the first claim, which reports a vote for the build under the second.
    Promise(Claim, Claim),
    /// The claim's proposal.
    Propose(Claim),
    /// The build is agreed.
    Agreed,
}

/// What the pieces of one message share: all of the message but the build, and the length of the
/// build's text.
#[derive(Drop)]
pub struct Header {
    /// The number of the member that sends it.
    pub sender: u8,
    /// The digest of the sender's tree.
    pub tree: [u8; 32],
    /// The name of the unit.
    pub path: PkgPath,
    /// What the message says of the unit, besides the build.
    pub carrier: Carrier,
    /// The length of the build's text in bytes.
    pub length: u32,
}

/// A piece of a message: a part of its build's text.
#[derive(Drop)]
pub struct Piece {
    pub header: Header,
    /// The number of the piece, counted from 0.
    pub number: u16,
    /// 32,768 bytes; the last piece may have fewer.
    pub bytes: Bytes,
}

/// What is sent at once.
#[derive(Drop)]
pub enum Datagram {
    /// A message that carries no build.
    Whole(Message),
    Piece(Piece),
}

impl Carrier {
    /// Whether the two are equal.
    pub fn is_same(self, other: Carrier) -> bool
        ensures { result ≡ same_carrier self other }
    {
        match (self, other) {
            (Carrier::Promise(a, b), Carrier::Promise(c, d)) => a == c && b == d,
            (Carrier::Propose(a), Carrier::Propose(b)) => a == b,
            (Carrier::Agreed, Carrier::Agreed) => true,
            _ => false,
        }
    }
}

impl Piece {
    /// An equal piece. Fails only if memory runs out.
    pub fn copy(&self) -> Result<Piece, Memory>
        ensures { IfOk result (λ piece. piece ≡ self.now) }
    {
        let header = self.header.copy()?;
        let bytes = self.bytes.copy()?;
        Ok(Piece {
            header,
            number: self.number,
            bytes,
        })
    }
}

impl Datagram {
    /// An equal datagram. Fails only if memory runs out.
    pub fn copy(&self) -> Result<Datagram, Memory>
        ensures { IfOk result (λ datagram. datagram ≡ self.now) }
    {
        match self {
            Datagram::Whole(message) => Ok(Datagram::Whole(message.copy()?)),
            Datagram::Piece(piece) => Ok(Datagram::Piece(piece.copy()?)),
        }
    }
}

impl Header {
    /// Whether the two are equal in all fields.
    pub fn is_same(&self, other: &Header) -> bool
        ensures { result ≡ same_header self.now other.now }
    {
        self.sender == other.sender
            && self.tree == other.tree
            && self.path.as_bytes() == other.path.as_bytes()
            && self.carrier.is_same(other.carrier)
            && self.length == other.length
    }

    /// An equal header. Fails only if memory runs out.
    pub fn copy(&self) -> Result<Header, Memory>
        ensures { IfOk result (λ header. header ≡ self.now) }
    {
        let path = self.path.copy()?;
        Ok(Header {
            sender: self.sender,
            tree: self.tree,
            path,
            carrier: self.carrier,
            length: self.length,
        })
    }
}

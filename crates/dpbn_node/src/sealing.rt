//! The key of a node's run, and which datagrams its port accepts.
ghost use Rattle.std.specs.Prelude.{
  ◌≡◌,
  ◌≢◌,
  ◌||◌,
  IfErr,
  IfOk,
  None,
  Some,
  false,
  is_some,
  not,
  option_map,
};
ghost use Rattle.wire.specs.declared.datagram.Datagram.{Datagram};
ghost use Rattle.wire.specs.Spelling.{datagram_text};
ghost use Rattle.faults.specs.Bytes.{begins_with};
ghost use Rattle.dpbn_node.specs.Keys.{IsKeyOf, RefusesKeyFile, seal_of, shown_of};
ghost use Rattle.dpbn_node.specs.Requests.{asks, request_front};

use ballots::Weights;
use dpbn_key::{KeyFiles, key_of_file};
use listing::Tree;
use program_io::Refusal;
use seals::{Seal, fingerprint};
use udp::Guard;
use wire::LONGEST_PIECE;

/// The bytes that each request for a unit begins with: the start of every whole datagram, and the
/// kind.
const REQUEST_FRONT: [u8; 5] = [b'D', b'P', b'B', b'1', 6];

/// The key that a node seals datagrams with, and whose datagrams it accepts.
#[derive(Drop)]
pub struct Sealing {
    /// The key in the file, if the run has one.
    pub key: Option<[u8; 32]>,
    /// Whether datagrams from any address are accepted if there is no key; otherwise only those of
    /// members are.
    pub is_open: bool,
}

/// The key in the file, if a file is named.
///
/// # Errors
///
/// The system's refusal; that others may read or write the file; that it has no key. In this order.
pub fn key_of_words<K: KeyFiles>(files: &K, name: Option<&str>) -> Result<Option<[u8; 32]>, Refusal>
    ensures key { IfOk result
        (IsKeyOf (K.gave files.now) (option_map (λ t. t.now) name.entry)) }
    ensures refused { IfErr result
        (RefusesKeyFile (K.gave files.now) (option_map (λ t. t.now) name.entry)) }
{
    let Some(name) = name else {
        return Ok(None);
    };
    match key_of_file(files, name) {
        Ok(key) => Ok(Some(key)),
        Err(fault) => Err(Refusal::of(&fault)),
    }
}

impl Sealing {
    /// Which datagrams the node's port accepts, in the run over the tree, among members with these
    /// weights. If there is a key, it accepts those that members seal with it. A request that is
    /// repeated at once from the same member's address is dropped.
    pub fn guard(&self, tree: &Tree, weights: &Weights) -> Guard
        ensures sealed { result.seal ≡ seal_of tree.now weights.now self.now.key }
        ensures closed { self.now.key ≢ None → result.is_open ≡ false }
        ensures members { self.now.is_open ≡ false → result.is_open ≡ false }
        ensures limited { result.front ≡ Some request_front }
        ensures unnoticed { result.listing ≡ None }
    {
        let guard = match &self.key {
            Some(key) => Guard::sealed(seal_under(key, tree, weights), LONGEST_PIECE),
            None => unsealed(self.is_open),
        };
        guard.limiting(front_of_requests())
    }

    /// Whether only members' datagrams are accepted, so that the statistics about members mean
    /// something: the port isn't open to everyone, or a key seals them.
    pub fn is_watched(&self) -> bool
        ensures { result ≡ (not self.now.is_open || is_some self.now.key) }
    {
        !self.is_open || self.key.is_some()
    }

    /// What the run file shows of the key.
    pub fn shown(&self) -> Option<[u8; 16]>
        ensures { result ≡ shown_of self.now.key }
    {
        match &self.key {
            Some(key) => Some(fingerprint(key)),
            None => None,
        }
    }
}

/// The bytes that a datagram begins with if and only if it asks for a unit.
pub fn front_of_requests() -> [u8; 5]
    ensures front { result ≡ request_front }
    ensures alone { (d : Datagram) → begins_with result (datagram_text d) ≡ asks d }
{
    REQUEST_FRONT
}

/// Which datagrams a port accepts in a run without a key.
fn unsealed(is_open: bool) -> Guard
    ensures unsealed { result.seal ≡ None }
    ensures members { is_open ≡ false → result.is_open ≡ false }
    ensures unnoticed { result.listing ≡ None }
{
    if is_open {
        Guard::open()
    } else {
        Guard::unsealed(LONGEST_PIECE)
    }
}

/// The seal of the run with this key.
fn seal_under(key: &[u8; 32], tree: &Tree, weights: &Weights) -> Seal
    ensures { Some result ≡ seal_of tree.now weights.now (Some key.now) }
{
    let _count = weights.len();
    Seal::of_run(key, &tree.digest(), weights.as_slice())
}

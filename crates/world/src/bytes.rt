//! The bytes of a datagram, as a table stores them.
ghost use Rattle.std.specs.Prelude.{◌≡◌, ◌<◌, ◌∷◌, [], length, nat_eq, slice_set};
ghost use Rattle.std.proofs.Common.{rules};
ghost use Rattle.std.specs.Cmp.{partial_equiv_from_equiv};
ghost use Rattle.std.specs.Cmp.Lexicographic.{nat_list_eq_equiv, pointwise};
ghost use Rattle.std.specs.Cmp.Rules.{hashing};

use std::hash::{Hash, Hasher};
use std::marker::Model;

/// The bytes of a datagram. Contracts see them as a list.
#[derive(Debug, Drop)]
pub struct DatagramBytes {
    bytes: Vec<u8>,
}

impl Model for DatagramBytes {
    ghost use Rattle.std.specs.Prelude.{ℕ, List};

    ghost Value = { List ℕ };

    ghost view = { λ d. d.bytes.items };
}

impl DatagramBytes {
    /// Wraps these bytes.
    pub fn new(bytes: Vec<u8>) -> DatagramBytes
        ensures { result ≡ bytes.items }
    {
        DatagramBytes { bytes }
    }

    /// The bytes.
    pub fn as_bytes(&self) -> &[u8]
        ensures { result.now ≡ self.now }
    {
        self.bytes.as_slice()
    }

    /// Replaces the byte at an index.
    pub fn put(&mut self, place: usize, byte: u8)
        requires { place < length self.old }
        ensures { self.new ≡ slice_set self.old place byte }
    {
        self.bytes[place] = byte;
    }
}

impl PartialEq for DatagramBytes {
    ghost eq = { pointwise nat_eq };

    ghost laws = { partial_equiv_from_equiv nat_list_eq_equiv };

    fn eq(&self, other: &DatagramBytes) -> bool {
        self.bytes.as_slice() == other.bytes.as_slice()
    }
}

impl Eq for DatagramBytes {
    ghost laws = { nat_list_eq_equiv };
}

impl Hash for DatagramBytes {
    // The bytes are fed in one write, so that a hasher takes many at a time.
    ghost hash_input = { λ bytes. bytes ∷ [] };

    ghost respects_eq = { Prim.search (hashing, rules) };

    fn hash<H: Hasher>(&self, state: &mut H) {
        state.write(self.bytes.as_slice());
    }
}

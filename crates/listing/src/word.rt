//! A word of a listing. Contracts see its bytes.
ghost use Rattle.std.specs.Prelude.{◌≡◌, ◌∷◌, [], nat_eq};
ghost use Rattle.std.proofs.Common.{rules};
ghost use Rattle.std.specs.Cmp.{partial_equiv_from_equiv};
ghost use Rattle.std.specs.Cmp.Lexicographic.{nat_list_eq_equiv, pointwise};
ghost use Rattle.std.specs.Cmp.Rules.{comparing, hashing};

use std::hash::{Hash, Hasher};
use std::marker::Model;

/// A word as written in a listing. Words are compared and hashed by their bytes.
#[derive(Drop)]
pub struct Word<'a> {
    text: &'a [u8],
}

impl<'a> Model for Word<'a> {
    ghost use Rattle.std.specs.Prelude.{ℕ, List};

    ghost Value = { List ℕ };

    ghost view = { λ w. w.text.now };
}

impl<'a> Word<'a> {
    pub fn new(text: &'a [u8]) -> Word<'a>
        ensures { result ≡ text.entry.now }
    {
        Word { text }
    }
}

impl<'a> PartialEq for Word<'a> {
    ghost eq = { pointwise nat_eq };

    ghost laws = { partial_equiv_from_equiv nat_list_eq_equiv };

    fn eq(&self, other: &Word<'a>) -> bool {
        self.text == other.text
    }
}

impl<'a> Eq for Word<'a> {
    ghost laws = { nat_list_eq_equiv };
}

impl<'a> Hash for Word<'a> {
    // The text is fed in one write, so that the hasher takes many bytes at a time.
    ghost hash_input = { λ text. text ∷ [] };

    ghost respects_eq = { Prim.search (hashing, rules) };

    fn hash<H: Hasher>(&self, state: &mut H) {
        state.write(self.text);
    }
}

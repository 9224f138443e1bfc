//! The notes of a log, which only contracts read.
ghost use Rattle.std.specs.Prelude.{◌≡◌, ◌++◌, ◌∷◌, [], ℕ, List};
ghost use Rattle.std.specs.Borrow.{ftrue};

use std::marker::{Model, PhantomData};

/// The texts of the notes on a node's log, oldest first. A ghost value: it takes no memory.
#[derive(Drop)]
pub struct Noted {
    marker: PhantomData<u8>,
    pub ghost texts: { List (List ℕ) },
}

impl Model for Noted {
    ghost also_owns = { λ _. ftrue };
}

impl Noted {
    /// There are no notes yet.
    pub(crate) fn new() -> Noted
        ensures { result.texts ≡ [] }
    {
        Noted {
            marker: PhantomData,
        }
    }

    /// Adds a note with this text.
    pub(crate) fn note(&mut self, _text: &[u8])
        ensures { self.new.texts ≡ self.old.texts ++ _text.now ∷ [] }
    {}
}

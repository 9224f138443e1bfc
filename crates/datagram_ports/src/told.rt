//! A ghost list of texts.
ghost use Rattle.std.specs.Prelude.{◌≡◌, ◌++◌, ◌∷◌, [], ℕ, List};
ghost use Rattle.std.specs.Borrow.{ftrue};

use std::marker::{Model, PhantomData};

/// Texts that a port received, handed to the system or was granted, in order. Only contracts see
/// them; they take no memory.
#[derive(Drop)]
pub struct Told {
    marker: PhantomData<u8>,
    pub ghost all: { List (List ℕ) },
}

impl Model for Told {
    ghost also_owns = { λ _. ftrue };
}

impl Told {
    /// An empty list.
    pub fn new() -> Told
        ensures { result.all ≡ [] }
    {
        Told {
            marker: PhantomData,
        }
    }

    /// Appends these bytes.
    pub fn note(&mut self, _bytes: &[u8])
        ensures { self.new.all ≡ self.old.all ++ _bytes.now ∷ [] }
    {}
}

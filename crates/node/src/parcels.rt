//! Datagrams with their receivers.
ghost use Rattle.std.specs.Prelude.{◌≡◌, [], option_map, slice_get};
ghost use Rattle.node.specs.Parcels.{parcels_to, texts_in};

use std::alloc::Global;
use std::marker::Model;

/// Datagrams that all go to the same members. Their bytes are stored once, however many receivers
/// there are. Contracts see a list of receivers with bytes, in order of receiver, and for each
/// receiver in order of the datagrams.
#[derive(Drop)]
pub struct Parcels {
    texts: Vec<Vec<u8>>,
    receivers: Vec<u8>,
}

impl Model for Parcels {
    ghost use Rattle.std.specs.Prelude.{List, ℕ};
    ghost use Rattle.node.specs.Parcels.{parcels_to, texts_in};

    ghost Value = { List (ℕ × List ℕ) };

    ghost view = { λ p. parcels_to p.receivers.items (texts_in p.texts.items) };
}

impl Parcels {
    /// No datagrams.
    pub fn nothing(alloc: Global) -> Parcels
        ensures { result ≡ [] }
    {
        Parcels {
            texts: Vec::new(alloc),
            receivers: Vec::new(alloc),
        }
    }

    /// Sends each of these datagrams to each of these members.
    pub fn new(texts: Vec<Vec<u8>>, receivers: Vec<u8>) -> Parcels
        ensures { result ≡ parcels_to receivers.items (texts_in texts.items) }
    {
        Parcels { texts, receivers }
    }

    /// The receivers in ascending order, and the datagrams. Each receiver gets all of them.
    pub fn parts(&self) -> (&[u8], &[Vec<u8>])
        ensures { self.now ≡ parcels_to result.0.now (texts_in result.1.now) }
    {
        (self.receivers.as_slice(), self.texts.as_slice())
    }

    /// The receiver and the bytes at this place, counted from 0, if there are that many.
    pub fn get(&self, place: usize) -> Option<(u8, &[u8])>
        ensures { option_map (λ p. (p.0, p.1.now)) result ≡ slice_get self.now place }
    {
        let count = self.texts.len();
        if count == 0 {
            return None;
        }
        let to = self.receivers.get(place / count)?;
        let text = self.texts.get(place % count)?;
        Some((*to, text.as_slice()))
    }
}

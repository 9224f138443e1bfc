//! The distinct datagrams that were sent.
ghost use Rattle.std.specs.Prelude.{◌≡◌, [], OnOk, fold, length, map, option_map, position, slice_get, take};
ghost use Rattle.std.specs.Str.{bytes_eq};
ghost use Rattle.faults.specs.Bytes.{is_among};
ghost use Rattle.node.specs.Parcels.{texts_in};
ghost use Rattle.world.specs.Sent.{with_datagram};
ghost use Rattle.world.specs.Growing.{HasGrown};

use crate::bytes::DatagramBytes;
use faults::Memory;
use indexmap::IndexSet;
use node::Parcels;
use std::alloc::Global;
use std::marker::Model;

/// The distinct datagrams that were sent, in order of first sending. Contracts see the list of
/// them.
#[derive(Drop)]
pub struct Datagrams {
    sent: IndexSet<DatagramBytes>,
}

impl Model for Datagrams {
    ghost use Rattle.std.specs.Prelude.{List, ℕ};

    ghost Value = { List (List ℕ) };

    ghost view = { λ d. d.sent.keys };
}

impl Datagrams {
    /// An empty table: nothing was sent.
    pub fn new(alloc: Global) -> Datagrams
        ensures { result ≡ [] }
    {
        Datagrams {
            sent: IndexSet::new(alloc),
        }
    }

    /// The number of datagrams.
    pub fn len(&self) -> usize
        ensures { result ≡ length self.now }
    {
        self.sent.len()
    }

    /// The table as a set.
    pub fn as_set(&self) -> &IndexSet<DatagramBytes>
        ensures { result.now.keys ≡ self.now }
    {
        &self.sent
    }

    /// The bytes of the datagram with this number.
    pub fn get(&self, number: usize) -> Option<&[u8]>
        ensures { option_map (λ text. text.now) result ≡ slice_get self.now number }
    {
        match self.sent.get_index(number) {
            Some(text) => Some(text.as_bytes()),
            None => None,
        }
    }

    /// Whether these bytes were sent.
    pub fn contains(&self, text: &DatagramBytes) -> bool
        ensures { result ≡ is_among self.now text.now }
    {
        self.sent.contains(text)
    }

    /// The number of the datagram with these bytes, if they were sent.
    pub fn number_of(&self, text: &DatagramBytes) -> Option<usize>
        ensures { result ≡ position (bytes_eq text.now) self.now }
    {
        self.sent.get_index_of(text)
    }

    /// Truncates the table to the first `count` datagrams. Does not allocate.
    pub fn cut_back(&mut self, count: usize)
        ensures { self.new ≡ take count self.old }
    {
        self.sent.truncate(count);
    }

    /// Enters the datagrams, each once, however many members receive it. One that was sent before
    /// keeps its number.
    pub fn enter(&mut self, sends: &Parcels) -> Result<(), Memory>
        ensures ok { OnOk result (self.new
            ≡ fold with_datagram self.old (map (λ s. s.1) sends.now)) }
        ensures grown { HasGrown self.old self.new }
    {
        let (receivers, texts) = sends.parts();
        if receivers.is_empty() {
            return Ok(());
        }
        self.enter_all(texts)
    }

    /// Enters these datagrams.
    fn enter_all(&mut self, texts: &[Vec<u8>]) -> Result<(), Memory>
        ensures ok { OnOk result (self.new
            ≡ fold with_datagram self.old (texts_in texts.now)) }
        ensures grown { HasGrown self.old self.new }
    {
        for text in texts {
            self.enter_text(text.as_slice())?;
        }
        Ok(())
    }

    /// Enters the datagram, unless it was sent before.
    fn enter_text(&mut self, text: &[u8]) -> Result<(), Memory>
        ensures ok { OnOk result (self.new ≡ with_datagram self.old text.now) }
        ensures grown { HasGrown self.old self.new }
    {
        let alloc: Global = *self.sent.allocator();
        let bytes = text.to_vec(alloc)?;
        self.sent.insert(DatagramBytes::new(bytes))?;
        Ok(())
    }
}

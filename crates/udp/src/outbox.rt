//! Sealing of texts to send.
ghost use Rattle.std.specs.Prelude.{◌≡◌, None, OnErr, OnOk, Some, option_map};
ghost use Rattle.udp.specs.Inbox.{came_as};

use faults::Memory;
use seals::Seal;
use std::alloc::Global;
use std::marker::Model;

/// Seals texts to send, if there is a seal. A text that is sent several times in a row is sealed
/// once.
#[derive(Drop)]
pub struct Outbox {
    seal: Option<Seal>,
    /// The bytes that encode the last text.
    last: Vec<u8>,
    /// The length of the text in them.
    len: usize,
    is_made: bool,
}

impl Model for Outbox {
    ghost use Rattle.udp.specs.Outbox.{OutboxState};

    ghost Value = { OutboxState };

    ghost use Rattle.udp.specs.inside.Outbox.{IsLastText, outbox_view};

    ghost view = { outbox_view };

    ghost invariant = { IsLastText };
}

impl Outbox {
    /// An outbox in which nothing was made yet.
    pub fn new(alloc: Global, seal: Option<Seal>) -> Outbox
        ensures { result ≡ record { key = seal; made = None } }
    {
        Outbox {
            seal,
            last: Vec::new(alloc),
            len: 0,
            is_made: false,
        }
    }

    /// Makes the bytes that encode the text.
    ///
    /// # Errors
    ///
    /// Out of memory. Then there are no bytes.
    pub fn make(&mut self, text: &[u8]) -> Result<(), Memory>
        ensures made { OnOk result (self.new.made ≡ Some (came_as self.old.key text.now)) }
        ensures err { OnErr result (self.new.made ≡ None) }
        ensures key { self.new.key ≡ self.old.key }
    {
        if self.is_made && self.len <= self.last.len() && &self.last[..self.len] == text {
            return Ok(());
        }
        self.is_made = false;
        self.last.clear();
        self.last.extend_from_slice(text)?;
        if let Some(seal) = &self.seal {
            seal.put_on(&mut self.last)?;
        }
        self.len = text.len();
        self.is_made = true;
        Ok(())
    }

    /// The last bytes that were made, if any.
    pub fn bytes(&self) -> Option<&[u8]>
        ensures { self.now.made ≡ option_map (λ bytes. bytes.now) result }
    {
        if self.is_made {
            Some(self.last.as_slice())
        } else {
            None
        }
    }
}

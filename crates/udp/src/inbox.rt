//! Received texts of this run.
ghost use Rattle.std.specs.Prelude.{◌≡◌, ◌≢◌, ◌++◌, ◌∷◌, [], IfSome, IsSomeAnd, List, MatchOption, None, false, option_map, option_to_list, true, ℕ};
ghost use Rattle.udp.specs.Inbox.{Takes, came_as, is_vouched_for};
ghost use Rattle.udp.specs.Notices.{is_notice};

use crate::line::{Line, Waiting};
use datagram_ports::Told;
use seals::Seal;
use std::alloc::Global;
use std::marker::Model;

/// What was done with received bytes.
#[derive(Clone, Copy, Debug, PartialEq, Eq)]
pub enum Came {
    /// Their text was queued.
    Waits,
    /// There was no room or no memory for their text.
    Lost,
    /// They aren't a sealed text.
    Unsealed,
    /// They repeat a recent request, and were dropped.
    Repeated,
}

/// A queue of received texts, each with the number of the node that it is for. If there is a seal,
/// unsealed bytes take no memory and no place in it.
#[derive(Drop)]
pub struct Inbox {
    alloc: Global,
    seal: Option<Seal>,
    come: Line<u8>,
    heard: Told,
}

impl Model for Inbox {
    ghost use Rattle.udp.specs.Inbox.{InboxState};

    ghost Value = { InboxState };

    ghost use Rattle.udp.specs.inside.Inbox.{IsSound, inbox_view};

    ghost view = { inbox_view };

    ghost invariant = { IsSound };
}

impl Inbox {
    ghost use Rattle.udp.specs.declared.inbox.Came.TheVariants.{Lost, Repeated, Unsealed, Waits};

    /// An empty inbox for at most `most` texts.
    pub fn new(alloc: Global, seal: Option<Seal>, most: usize) -> Inbox
        ensures { result ≡ record { key = seal; came = []; waiting = [] } }
    {
        Inbox {
            alloc,
            seal,
            come: Line::new(alloc, most),
            heard: Told::new(),
        }
    }

    /// Takes bytes that came for the node.
    pub fn take(&mut self, node: u8, bytes: &[u8]) -> Came
        requires plain { is_notice bytes.now ≡ false }
        ensures waits { result ≡ Waits → (text : List ℕ) × Takes self.old self.new bytes.now text
            × (self.new.waiting ≡ self.old.waiting ++ (node, text) ∷ []) }
        ensures lost { result ≡ Lost → (text : List ℕ) × Takes self.old self.new bytes.now text
            × (self.new.waiting ≡ self.old.waiting) }
        ensures unsealed { result ≡ Unsealed → (self.new ≡ self.old)
            × ((text : List ℕ) → bytes.now ≢ came_as self.old.key text) }
        ensures never { result ≢ Repeated }
    {
        let Some(text) = self.text_in(bytes) else {
            return Came::Unsealed;
        };
        let is_put = self.come.put(self.alloc, node, text);
        self.heard.note(bytes);
        match is_put {
            Ok(true) => Came::Waits,
            Ok(false) | Err(_) => Came::Lost,
        }
    }

    /// The text in these bytes, unless it has to be sealed and isn't.
    fn text_in<'b>(&self, bytes: &'b [u8]) -> Option<&'b [u8]>
        ensures { MatchOption result
            ((text : List ℕ) → bytes.now ≢ came_as self.now.key text)
            (λ text. bytes.now ≡ came_as self.now.key text.now) }
    {
        opened(&self.seal, bytes)
    }

    /// Whether no text is queued.
    pub fn is_empty(&self) -> bool {
        self.come.is_empty()
    }

    /// Takes the first text, with the node that it is for.
    pub fn take_first(&mut self) -> Option<(u8, Vec<u8>)>
        ensures first { self.old.waiting
            ≡ option_to_list (option_map (λ came. (came.0, came.1.items)) result)
            ++ self.new.waiting }
        ensures same { (self.new.key ≡ self.old.key) × (self.new.came ≡ self.old.came) }
        ensures vouched { IfSome result
            (λ came. is_vouched_for self.new.key self.new.came came.1.items ≡ true) }
        ensures plain { IfSome result (λ came. is_notice came.1.items ≡ false) }
    {
        let Waiting { errand, bytes } = self.come.take_first()?;
        Some((errand, bytes))
    }
}

/// The text in these bytes, unless it has to be sealed and isn't.
pub fn opened<'b>(seal: &Option<Seal>, bytes: &'b [u8]) -> Option<&'b [u8]>
    ensures exact { MatchOption result
        ((text : List ℕ) → bytes.now ≢ came_as seal.now text)
        (λ text. bytes.now ≡ came_as seal.now text.now) }
    ensures back { (text : List ℕ) → bytes.now ≡ came_as seal.now text
        → IsSomeAnd result (λ opened. opened.now ≡ text) }
{
    match seal {
        Some(seal) => seal.opened(bytes),
        None => Some(bytes),
    }
}

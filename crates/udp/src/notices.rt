//! Received notices.
ghost use Rattle.std.specs.Prelude.{◌≡◌, ◌≢◌, ◌⊎◌, ◌++◌, ◌∷◌, [], IfSome, List, MatchResult, ℕ, option_to_list, true};
ghost use Rattle.udp.specs.Inbox.{came_as};
ghost use Rattle.udp.specs.Notices.{IsRead, is_heard};

use crate::inbox::{Came, opened};
use crate::notice::{Listing, Notice, notice_in};
use datagram_ports::Told;
use seals::Seal;
use std::alloc::Global;
use std::collections::VecDeque;
use std::marker::Model;

/// The maximum number of notices in the queue. Any further ones are lost.
const MOST_NOTICES: usize = 4_096;

/// A queue of received notices. If there is a seal, unsealed bytes take no memory and no place in
/// it.
#[derive(Drop)]
pub struct Notices {
    seal: Option<Seal>,
    /// The listing that notices are about, if they are sent and read.
    listing: Option<Listing>,
    waiting: VecDeque<Notice>,
    heard: Told,
}

impl Model for Notices {
    ghost use Rattle.udp.specs.Notices.{NoticesState};

    ghost Value = { NoticesState };

    ghost use Rattle.udp.specs.inside.Notices.{WereHeard, notices_view};

    ghost view = { notices_view };

    ghost invariant = { WereHeard };
}

impl Notices {
    ghost use Rattle.udp.specs.declared.inbox.Came.TheVariants.{Lost, Unsealed, Waits};

    /// No notices about the listing so far.
    pub fn new(alloc: Global, seal: Option<Seal>, listing: Option<Listing>) -> Notices
        ensures { result ≡ record { key = seal; listing = listing; came = []; waiting = [] } }
    {
        Notices {
            seal,
            listing,
            waiting: VecDeque::new(alloc),
            heard: Told::new(),
        }
    }

    /// The listing that notices are about, if they are sent and read.
    pub fn listing(&self) -> Option<Listing>
        ensures { result ≡ self.now.listing }
    {
        self.listing
    }

    /// The notice that these bytes encode; or what becomes of them if they encode none. A text is
    /// lost if notices aren't read.
    pub fn read(&self, bytes: &[u8]) -> Result<Notice, Came>
        ensures exact { MatchResult result (IsRead self.now bytes.now)
            (λ came. (notice : Notice) → ¬ (IsRead self.now bytes.now notice)) }
        ensures lost { result ≡ Err Lost → (text : List ℕ)
            × (bytes.now ≡ came_as self.now.key text) }
        ensures never { (result ≢ Err Waits) × (result ≢ Err Came.Repeated) }
    {
        let Some(text) = opened(&self.seal, bytes) else {
            return Err(Came::Unsealed);
        };
        let Some(listing) = self.listing else {
            return Err(Came::Lost);
        };
        match notice_in(&listing.digest, listing.units, text) {
            Some(notice) => Ok(notice),
            None => Err(Came::Unsealed),
        }
    }

    /// Appends the notice that these bytes encode, as far as there is room and memory.
    pub fn put(&mut self, notice: Notice, bytes: &[u8]) -> Came
        requires { IsRead self.old bytes.now notice }
        ensures waits { result ≡ Waits → self.new ≡ record self.old
            { came = self.old.came ++ bytes.now ∷ []; waiting = self.old.waiting ++ notice ∷ [] } }
        ensures lost { result ≡ Lost → self.new ≡ self.old }
        ensures either { (result ≡ Waits) ⊎ (result ≡ Lost) }
    {
        if self.waiting.len() >= MOST_NOTICES {
            return Came::Lost;
        }
        match self.waiting.push_back(notice) {
            Ok(()) => {
                self.heard.note(bytes);
                Came::Waits
            }
            Err(_) => Came::Lost,
        }
    }

    /// Takes the first notice.
    pub fn take_first(&mut self) -> Option<Notice>
        ensures first { self.old.waiting ≡ option_to_list result ++ self.new.waiting }
        ensures heard { IfSome result (λ notice. is_heard self.new notice ≡ true) }
        ensures same { self.new ≡ record self.old { waiting = self.new.waiting } }
    {
        self.waiting.pop_front()
    }
}

//! Received datagrams of a port: they are moved from the sockets to the queue.
ghost use Rattle.std.specs.Prelude.{◌≡◌, Err, None, Ok, false, true};
ghost use Rattle.datagram_ports.specs.Kept.{one_more};
ghost use Rattle.udp.specs.Calls.{setup_of};
ghost use Rattle.udp.specs.Inbox.{GoesOn};
ghost use Rattle.udp.specs.Leaving.{IsLeft};
ghost use Rattle.udp.specs.Notices.{NoticesGoOn};
ghost use Rattle.udp.specs.Waiting.{patience_at};

use crate::patience::{Hurry, Patience};
use crate::sockets::{Sieve, take_off};
use crate::udp_port::UdpPort;
use datagram_ports::PortFault;
use std::time::{Clock, Instant};

impl<C: Clock> UdpPort<'_, C> {
    /// Looks at the sockets until something came, or patience ends, and lets some datagrams leave.
    /// Returns whether a socket failed.
    pub(crate) fn look(&mut self) -> bool
        ensures goes_on { GoesOn self.old.inbox self.new.inbox }
        ensures notices { NoticesGoOn self.old.notices self.new.notices }
        ensures outbox { self.new.outbox ≡ self.old.outbox }
        ensures stays { (self.new.failures ≡ self.old.failures)
            × (self.new.sends ≡ self.old.sends) × (self.new.hurry ≡ self.old.hurry) }
        ensures leaving { IsLeft self.old.leaving.waiting.items self.old.handed.all
            self.new.leaving.waiting.items self.new.handed.all }
        ensures setup { setup_of self.new ≡ setup_of self.old }
    {
        let mut has_failed = false;
        let patience = self.patience_now();
        for look in 0..patience.looks() {
            has_failed = self.look_once() || has_failed;
            if !self.inbox.is_empty() {
                break;
            }
            patience.nap(self.clock, look);
        }
        has_failed
    }

    /// How long a receive waits at the moment.
    fn patience_now(&self) -> Patience
        ensures { result ≡ patience_at self.now.hurry self.now.patience }
    {
        match self.hurry {
            Hurry::Brief => Patience::none(),
            Hurry::Steady => Patience::steady(),
            Hurry::Patient => self.patience,
            Hurry::Slow => self.patience.slow(),
        }
    }

    /// Looks at the sockets once, and lets some datagrams leave. Returns whether a socket failed.
    fn look_once(&mut self) -> bool
        ensures goes_on { GoesOn self.old.inbox self.new.inbox }
        ensures notices { NoticesGoOn self.old.notices self.new.notices }
        ensures outbox { self.new.outbox ≡ self.old.outbox }
        ensures stays { (self.new.failures ≡ self.old.failures)
            × (self.new.sends ≡ self.old.sends) × (self.new.hurry ≡ self.old.hurry) }
        ensures leaving { IsLeft self.old.leaving.waiting.items self.old.handed.all
            self.new.leaving.waiting.items self.new.handed.all }
        ensures setup { setup_of self.new ≡ setup_of self.old }
    {
        let has_failed = self.take_in();
        self.let_some_leave();
        has_failed
    }

    /// Moves received datagrams from the sockets to the queue, as far as there is memory, and
    /// returns whether a socket failed.
    pub(crate) fn take_in(&mut self) -> bool
        ensures goes_on { GoesOn self.old.inbox self.new.inbox }
        ensures notices { NoticesGoOn self.old.notices self.new.notices }
        ensures stays { (self.new.failures ≡ self.old.failures)
            × (self.new.sends ≡ self.old.sends) × (self.new.hurry ≡ self.old.hurry) }
        ensures leaving { (self.new.leaving ≡ self.old.leaving)
            × (self.new.handed ≡ self.old.handed) }
        ensures outbox { self.new.outbox ≡ self.old.outbox }
        ensures setup { setup_of self.new ≡ setup_of self.old }
    {
        let now = Instant::now(self.clock).ok();
        self.tallies.look(now);
        let sieve = Sieve {
            seats: &self.seats,
            members: self.addresses.as_slice(),
            most: self.most,
            is_open: self.is_open,
            front: self.front,
            now,
        };
        take_off(
            sieve,
            &mut self.buffer,
            &mut self.inbox,
            &mut self.requests,
            &mut self.notices,
            &mut self.tallies,
        )
    }

    /// The answer if nothing came. If a socket failed, that is an error and is counted.
    pub(crate) fn nothing(&mut self, has_failed: bool) -> Result<Option<(u8, Vec<u8>)>, PortFault>
        ensures failed { has_failed ≡ true → (result ≡ Err PortFault.Failed)
            × (self.new.failures ≡ one_more self.old.failures) }
        ensures none { has_failed ≡ false → (result ≡ Ok None)
            × (self.new.failures ≡ self.old.failures) }
        ensures same { (self.new.inbox ≡ self.old.inbox) × (self.new.outbox ≡ self.old.outbox)
            × (self.new.notices ≡ self.old.notices)
            × (self.new.leaving ≡ self.old.leaving) × (self.new.handed ≡ self.old.handed) }
        ensures stays { (self.new.sends ≡ self.old.sends)
            × (self.new.hurry ≡ self.old.hurry) }
        ensures setup { setup_of self.new ≡ setup_of self.old }
    {
        if has_failed {
            self.failures = self.failures.saturating_add(1);
            return Err(PortFault::Failed);
        }
        Ok(None)
    }
}

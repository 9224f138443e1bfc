//! How long a receive waits for a datagram.
ghost use Rattle.std.specs.Prelude.{◌≡◌};
ghost use Rattle.udp.specs.Waiting.{slow, steady};

use std::thread;
use std::time::{Clock, Duration};

/// The number of short naps before the long ones. An answer of a peer that is awake comes within
/// these.
const SHORT_NAPS: u32 = 20;

/// The length of a short nap, in microseconds.
const SHORT_NAP: u64 = 100;

/// The length of a long nap, in microseconds.
const LONG_NAP: u64 = 1_000;

/// The looks of a slow receive: its naps are a second in all.
const SLOW_LOOKS: u32 = 1_019;

/// The looks of a steady receive: its naps are 20 ms in all.
const STEADY_LOOKS: u32 = 39;

/// How long a receive waits if nothing came.
#[derive(Clone, Copy, Debug, PartialEq, Eq)]
pub enum Hurry {
    /// Not at all: there is other work to do.
    Brief,
    /// For 20 ms, whatever the port's patience says: other work may come up.
    Steady,
    /// As long as the port's patience says.
    Patient,
    /// A second, or as long as the port's patience says, if that is longer: there is nothing to do
    /// but listen.
    Slow,
}

/// How often a receive looks for datagrams before it returns none. It naps between looks, so that
/// an idle node leaves the processor to others.
#[derive(Clone, Copy)]
pub struct Patience {
    looks: u32,
}

impl Patience {
    /// Looks once.
    pub fn none() -> Patience
        ensures { result.looks ≡ 1 }
    {
        Patience { looks: 1 }
    }

    /// The patience of the member's node if the base is this many milliseconds: half of that is
    /// added for each smaller member number, so that nodes which claim the same unit don't overtake
    /// each other for ever.
    pub fn of_member(milliseconds: u16, me: u8) -> Patience {
        if milliseconds == 0 {
            return Patience::none();
        }
        let own = u32::from(milliseconds) + u32::from(milliseconds) * u32::from(me) / 2;
        Patience {
            looks: 1 + SHORT_NAPS + own,
        }
    }

    /// Looks as long as it takes to nap for 20 ms.
    pub fn steady() -> Patience
        ensures { result ≡ steady }
    {
        Patience {
            looks: STEADY_LOOKS,
        }
    }

    /// Looks at least as long as it takes to nap for a second.
    pub fn slow(self) -> Patience
        ensures { result ≡ slow self }
    {
        Patience {
            looks: self.looks.max(SLOW_LOOKS),
        }
    }

    /// How often a receive looks.
    pub fn looks(&self) -> u32
        ensures { result ≡ self.now.looks }
    {
        self.looks
    }

    /// Naps after the look with this number, counted from 0, unless it is the last.
    pub fn nap<C: Clock>(&self, clock: &C, look: u32) {
        if look < SHORT_NAPS {
            self.nap_for(clock, look, SHORT_NAP);
        } else {
            self.nap_for(clock, look, LONG_NAP);
        }
    }

    fn nap_for<C: Clock>(&self, clock: &C, look: u32, microseconds: u64) {
        if look < self.looks && self.looks - look > 1 {
            thread::sleep(clock, Duration::from_micros(microseconds));
        }
    }
}

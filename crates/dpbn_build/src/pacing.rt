//! When a node has a wish, and how long a turn waits.

use dpbn_node::TurnFault;
use member::Input;
use node::NodeFault;
use std::time::{Duration, Instant};

/// For how long datagrams may delay a wish, in milliseconds.
const LATE: u64 = 100;

/// For how long there is no wish after a fault, in milliseconds.
const PAUSE: u64 = 1_000;

/// The least time between two repeated offers, in milliseconds.
const AGAIN: u64 = 1_000;

/// For how long nothing is asked after a build failed, in milliseconds: the notice of that has to
/// come first, since the question gives the unit back.
const NOTICED: u64 = 100;

/// What the last turns mean for the next wish and the next wait.
#[derive(Clone, Copy)]
pub(crate) struct Pacing {
    /// The time of the turn.
    pub now: Instant,
    /// Since when each turn took a datagram, if the last one did.
    busy_since: Option<Instant>,
    /// The time of the last fault.
    refused_at: Option<Instant>,
    /// When the node last repeated an offer.
    again_at: Option<Instant>,
    /// When a build last failed here.
    failed_at: Option<Instant>,
}

impl Pacing {
    /// Before the first turn.
    pub fn new(now: Instant) -> Pacing {
        Pacing {
            now,
            busy_since: None,
            refused_at: None,
            again_at: None,
            failed_at: None,
        }
    }

    /// Reads the clock. If it can't be read, the time stays.
    pub fn look(&mut self, rt: &HostRuntime) {
        if let Ok(now) = Instant::now(rt) {
            self.now = now;
        }
    }

    /// Whether there was a fault so recently that there is no wish yet.
    pub fn is_paused(&self) -> bool {
        self.is_less_than(PAUSE, self.refused_at)
    }

    /// Whether the last turn took a datagram, so that more may have come.
    pub fn is_busy(&self) -> bool {
        self.busy_since.is_some()
    }

    /// Whether each turn took a datagram for so long that a wish waits no longer.
    pub fn is_late(&self) -> bool {
        self.is_busy() && !self.is_less_than(LATE, self.busy_since)
    }

    /// Whether datagrams delay a wish at the moment.
    pub fn is_held_up(&self) -> bool {
        self.is_busy() && !self.is_late()
    }

    /// Whether the node repeated an offer so recently that it doesn't repeat it yet.
    pub fn is_too_soon(&self) -> bool {
        self.is_less_than(AGAIN, self.again_at)
    }

    /// Whether a build failed so recently that nothing is asked yet.
    pub fn is_noticing(&self) -> bool {
        self.is_less_than(NOTICED, self.failed_at)
    }

    /// Whether it happened, less than this number of milliseconds ago.
    fn is_less_than(&self, milliseconds: u64, then: Option<Instant>) -> bool {
        match then {
            Some(then) => self.now.duration_since(then) < Duration::from_millis(milliseconds),
            None => false,
        }
    }

    /// Notes whether a turn took a datagram.
    pub fn took(&mut self, came: bool) {
        self.busy_since = match self.busy_since {
            Some(since) if came => Some(since),
            None if came => Some(self.now),
            _ => None,
        };
    }

    /// Notes a step of the node's own, which it took by a wish or without one. A claim without a
    /// wish continues the open claim, as a nudge does.
    pub fn did(&mut self, input: &Input, is_wished: bool) {
        match input {
            Input::Nudge => self.again_at = Some(self.now),
            Input::Claim { .. } if !is_wished => self.again_at = Some(self.now),
            Input::Failed { .. } => {
                self.again_at = None;
                self.failed_at = Some(self.now);
            }
            Input::Claim { .. } | Input::Built { .. } => self.again_at = None,
            Input::Ask { .. } | Input::Message(_) => {}
        }
    }

    /// Notes a fault of a turn. A datagram that means nothing here delays no more than others do.
    pub fn refused(&mut self, fault: &TurnFault) {
        let came = is_foreign(fault);
        self.took(came);
        if !came {
            self.pause();
        }
    }

    /// Notes a fault: for a while there is no wish, and no offer is repeated.
    pub fn pause(&mut self) {
        self.refused_at = Some(self.now);
        self.again_at = Some(self.now);
    }
}

/// Whether the fault is a datagram that means nothing to the node.
fn is_foreign(fault: &TurnFault) -> bool {
    matches!(fault, TurnFault::Node(NodeFault::Foreign(_)))
}

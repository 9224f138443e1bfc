//! How long a node that builds with others waits.
ghost use Rattle.std.specs.Prelude.{◌≡◌};
ghost use Rattle.std.specs.Duration.{as_nanos};
ghost use Rattle.scheduler.specs.Waiting.{has_waited, is_over};

use std::time::{Duration, Instant};

/// The most jobs that are out at a time, the waits, and how often a unit is tried.
#[derive(Clone, Copy)]
pub struct Pace {
    pub jobs: u32,
    /// Between two questions, if the first had no answer.
    pub ask: Duration,
    /// Before a unit that was promised to another member is claimed.
    pub takeover: Duration,
    /// Between the times at which two members may claim one unit; and between the last question of
    /// a node that catches up and its first claim.
    pub slot: Duration,
    /// At how many members a build of a unit may fail. After that no member claims it.
    pub tries: u8,
}

/// Whether a wait of this length that began then is over.
pub(crate) fn is_over(wait: Duration, since: Instant, now: Instant) -> bool
    ensures { result ≡ is_over wait since now }
{
    now.duration_since(since).checked_sub(wait).is_some()
}

/// Whether a wait of this length is over, if it is known when it began; else it isn't.
pub(crate) fn has_waited(wait: Duration, since: Option<Instant>, now: Instant) -> bool
    ensures { result ≡ has_waited (as_nanos wait) since now }
{
    match since {
        Some(since) => is_over(wait, since, now),
        None => false,
    }
}

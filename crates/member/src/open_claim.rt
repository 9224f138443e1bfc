//! The one claim that a member may have open.
use ballots::Claimer;

/// The one claim that a member may have open.
#[derive(Drop)]
pub struct OpenClaim {
    /// The number of its unit.
    pub unit: u32,
    /// The host that is to build it.
    pub host: u16,
    /// Its progress.
    pub claimer: Claimer,
}

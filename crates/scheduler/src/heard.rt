//! What others said of units.

use claims::Claim;
use std::time::Instant;

/// Which other member's claim a nay named last for a unit, and when.
#[derive(Clone, Copy)]
pub(crate) struct Named {
    pub claim: Claim,
    pub since: Instant,
}

/// Under which claim a unit was given back, and when that was heard.
#[derive(Clone, Copy)]
pub(crate) struct GivenBack {
    pub claim: Claim,
    pub since: Instant,
}

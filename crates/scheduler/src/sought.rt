//! Which units are looked for.

/// Which of the queued units that may be claimed are looked for.
#[derive(Clone, Copy)]
pub(crate) enum Sought {
    /// Any of them.
    Any,
    /// Those whose last promised claim is the member's own.
    Mine,
    /// Those for which this number of members come before this one.
    InTurn(u32),
}

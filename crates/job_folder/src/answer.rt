//! The result of a build.

/// The result of a job, as found in the work folder.
#[derive(Drop)]
pub enum Answer {
    /// Nothing yet.
    NotYet,
    /// The build failed: so says the builder, or the node that found its result malformed.
    Failed,
    /// A text of more than `LONGEST_ANSWER` bytes.
    TooLong,
    /// A text with the files of the unit's packages, in the form that `traces::read_builds` parses.
    Made(Vec<u8>),
}

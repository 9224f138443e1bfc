//! The verdicts of an audit.

/// Why a package may not follow those before it. If several reasons apply, the first in this order
/// is returned.
#[derive(Clone, Copy, Debug, PartialEq, Eq)]
pub enum Reason {
    /// The tree doesn't have the path.
    Unlisted,
    /// The path is ignored: by the listing; or because a dependency isn't listed, or has a name
    /// that doesn't match; or because it depends on an ignored path.
    Ignored,
    /// The tree gives the path another name.
    OtherName,
    /// An earlier package has the path.
    PathTwice,
    /// The package was not built on exactly what the build of its unit needs, without repetition.
    OtherDependencies,
    /// A package that it was built on is not an earlier entry with that path, name and digest.
    DependencyNotEarlier,
}

/// Whether a list is allowed.
#[derive(Clone, Copy, Debug, PartialEq, Eq)]
pub enum Verdict {
    Yes,
    /// The first bad package, counted from 1, and its first reason.
    No { package: u64, reason: Reason },
}

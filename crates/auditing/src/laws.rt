//! What holds of allowed lists.
ghost use Rattle.auditing.specs.Laws.{EmptyIsAllowed, ExtendedIsAllowed, FittingMayFollow, FollowingFits, OnlyOneVerdict};

/// The allowed lists by cases: the empty one, and each allowed list followed by an entry that may
/// follow it.
pub fn allowed_lists()
    ensures empty { EmptyIsAllowed }
    ensures extended { ExtendedIsAllowed }
{}

/// A package may follow if it fits the tree, is new, and was built on earlier packages. A package
/// that may follow fits the tree, if its dependencies are in order of path.
pub fn packages_that_fit()
    ensures may_follow { FittingMayFollow }
    ensures fit { FollowingFits }
{}

/// A list has at most one verdict. That it has one is ensured by `audit`.
pub fn only_one_verdict()
    ensures { OnlyOneVerdict }
{}

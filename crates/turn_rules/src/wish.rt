//! What a scheduler wishes of a node.
use pkgpath::PkgPath;

/// What a node is to do in a turn in which it has nothing to answer and received nothing. A wish
/// can't make it answer, vote or propose.
#[derive(Drop)]
pub enum Wish {
    /// Claim the unit that the path names, above this round. An open claim is dropped.
    Claim { path: PkgPath, above: u64 },
    /// Ask the others for what is agreed for the unit that the path names.
    Ask { path: PkgPath },
}

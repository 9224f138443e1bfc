//! A tree with its digest.
ghost use Rattle.std.specs.Prelude.{◌≡◌};
ghost use Rattle.protocol.specs.Answers.{tree_digest};

use listing::Tree;
use std::marker::Model;

/// A tree with its digest, which is computed once for all nodes over it.
#[derive(Drop)]
pub(crate) struct DigestedTree<'a> {
    tree: &'a Tree,
    digest: [u8; 32],
}

impl<'a> Model for DigestedTree<'a> {
    ghost use Rattle.std.specs.Prelude.{◌≡◌};
    ghost use Rattle.listing.specs.Tree as trees;
    ghost use Rattle.protocol.specs.Answers.{tree_digest};

    ghost Value = { trees.Tree };

    ghost view = { λ d. d.tree.now };

    ghost invariant = { λ d. d.digest ≡ tree_digest d.tree.now };
}

impl<'a> DigestedTree<'a> {
    /// The tree, with its digest.
    pub(crate) fn new(tree: &'a Tree) -> DigestedTree<'a>
        ensures { result ≡ tree.entry.now }
    {
        DigestedTree {
            tree,
            digest: tree.digest(),
        }
    }

    /// The tree.
    pub(crate) fn tree(&self) -> &'a Tree
        ensures { result.now ≡ self.now }
    {
        self.tree
    }

    /// The tree's digest.
    pub(crate) fn digest(&self) -> &[u8; 32]
        ensures { result.now ≡ tree_digest self.now }
    {
        &self.digest
    }
}

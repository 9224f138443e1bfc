//! Reversed lists of positions. Contracts see a list for each position.
ghost use Rattle.std.specs.Prelude.{◌≡◌, ◌<◌, length};
ghost use Rattle.graph.specs.Lists.{list_at};

use std::marker::Model;

/// The start of a list in the block of all names, and its end (exclusive).
#[derive(Clone, Copy)]
pub(crate) struct Range {
    pub(crate) from: u32,
    pub(crate) to: u32,
}

/// For each position, a list of those that name it. All names are in one block, and each list is a
/// range of it.
#[derive(Drop)]
pub struct Reversed {
    pub(crate) ranges: Vec<Range>,
    pub(crate) names: Vec<u32>,
}

impl Model for Reversed {
    ghost use Rattle.std.specs.Prelude.{ℕ, List};

    ghost Value = { List (List ℕ) };

    ghost use Rattle.graph.specs.inside.Ranges.{AreWithin, parts};

    ghost view = { λ r. parts r.names.items r.ranges.items };

    ghost invariant = { λ r. AreWithin r.names.items r.ranges.items };
}

impl Reversed {
    /// Those that name the position, as many times as they do.
    pub fn at(&self, position: u32) -> &[u32]
        requires { position < length self.now }
        ensures { result.now ≡ list_at self.now position }
    {
        let range = &self.ranges[position as usize];
        &self.names[range.from as usize..range.to as usize]
    }
}

//! The letters, given which packages are held. Contracts see a tree and a set of positions.
ghost use Rattle.std.specs.Prelude.{◌≡◌, ◌<◌, ℕ, IfOk, length};
ghost use Rattle.engine.specs.State.{AreCounts, HasLetter, has_agreed};
ghost use Rattle.graph.specs.Marks.{has_mark};

use crate::counting::counts_of;
use crate::lettering::letters_of;
use engine::{Counts, Letter, Units};
use faults::Memory;
use listing::Tree;
use std::alloc::Global;
use std::marker::Model;

/// The letters of a tree's packages, given which are held. A snapshot is computed once and never
/// changes; if packages become held one by one, use an `Engine`.
#[derive(Drop)]
pub struct Snapshot<'a> {
    units: Units<'a>,
    letters: Vec<Letter>,
}

impl<'a> Model for Snapshot<'a> {
    ghost use Rattle.engine.specs.State.{State, state_code};
    ghost use Rattle.engine.specs.shared.Agreed.{held_marks, marked_set};
    ghost use Rattle.status_letters.specs.inside.Keeping.{AreShown};

    ghost Value = { State };

    ghost coded = { state_code };

    ghost view = { λ s. record {
      tree = s.units.tree;
      agreed = marked_set (held_marks s.letters.items);
    } };

    ghost invariant = { λ s. AreShown s.units.tree s.letters.items };
}

impl<'a> Snapshot<'a> {
    /// The letters of the tree with these units, if exactly the packages whose positions have a
    /// mark are held.
    pub fn new(
        alloc: Global,
        tree: &Tree,
        units: Units<'a>,
        held: &[bool],
    ) -> Result<Snapshot<'a>, Memory>
        requires units { units.tree ≡ tree.now }
        requires each { length held.now ≡ length tree.now }
        ensures tree { IfOk result (λ snapshot. snapshot.tree ≡ tree.now) }
        ensures held { IfOk result
            (λ snapshot. (p : ℕ) → has_agreed snapshot p ≡ has_mark held.now p) }
    {
        let letters = letters_of(alloc, tree, &units, held)?;
        Ok(Snapshot { units, letters })
    }

    /// The letter of the package at the position.
    pub fn letter(&self, position: u32) -> Letter
        requires { position < length self.now.tree }
        ensures { HasLetter self.now position result }
    {
        self.letters[position as usize]
    }

    /// The number of packages with each letter.
    pub fn counts(&self) -> Counts
        ensures { AreCounts self.now result }
    {
        counts_of(self.letters.as_slice())
    }
}

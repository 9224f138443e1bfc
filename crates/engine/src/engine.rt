//! The engine. Contracts see it as a tree and a set of positions.
ghost use Rattle.std.specs.Prelude.{◌≡◌, ◌<◌, length, IfOk};
ghost use Rattle.std.specs.FinSet as set;
ghost use Rattle.engine.specs.State.{AreCounts, HasLetter, IsEngine, IsNextQueued, IsQueuedFrom};

use crate::first::first_parts;
use crate::letters::Letters;
use crate::queueing::install_all;
use crate::search::{Search, may_all_be_held};
use crate::{Counts, Letter, Units};
use faults::Memory;
use graph::Reversed;
use listing::Tree;
use std::alloc::Global;
use std::marker::Model;

/// Which packages of a tree are agreed, and the letters of all packages that follow from that.
#[derive(Drop)]
pub struct Engine<'a> {
    tree: &'a Tree,
    units: Units<'a>,
    letters: Letters,
    /// For each package, how many of its own run dependencies are not installable.
    lacks: Vec<usize>,
    /// For each unit, how many packages that its build needs are not installable.
    waits: Vec<usize>,
    /// For each package, the packages that need it to run.
    runs: Reversed,
    /// For each package, the units whose build needs it.
    needs: Reversed,
    search: Search,
}

impl<'a> Model for Engine<'a> {
    ghost use Rattle.std.specs.Prelude.{◌≡◌};
    ghost use Rattle.engine.specs.State.{State, state_code};
    ghost use Rattle.engine.specs.shared.Agreed.{held_marks, marked_set};
    ghost use Rattle.engine.specs.shared.Keeping.{AreKept};

    ghost Value = { State };

    ghost coded = { state_code };

    ghost view = { λ e. record {
      tree = e.units.tree;
      agreed = marked_set (held_marks e.letters);
    } };

    ghost invariant = { λ e. (e.tree.now ≡ e.units.tree)
        × AreKept e.units e.letters e.lacks.items e.waits.items e.runs e.needs e.search };
}

impl<'a> Engine<'a> {
    /// The engine of a tree of which nothing is agreed. This allocates everything; later calls do
    /// not allocate.
    pub fn new(alloc: Global, tree: &'a Tree) -> Result<Engine<'a>, Memory>
        ensures { IfOk result
            (λ engine. engine ≡ record { tree = tree.entry.now; agreed = set.empty }) }
    {
        let units = Units::new(alloc, tree)?;
        let parts = first_parts(alloc, tree, &units)?;
        let ((waits, letters), (needs, runs), (lacks, search)) = parts;
        Ok(Engine {
            tree,
            units,
            letters,
            lacks,
            waits,
            runs,
            needs,
            search,
        })
    }

    /// Adds the package at the position, which is not ignored, to the agreed ones. Adding it again
    /// changes nothing.
    pub fn agree(&mut self, position: u32)
        requires listed { position < length self.old.tree }
        requires not_ignored { ¬ HasLetter self.old position Letter.Ignored }
        ensures { self.new ≡ record self.old { agreed = set.insert self.old.agreed position } }
    {
        if self.letters.at(position).is_held() {
            return;
        }
        self.letters.set(position, Letter::B);
        let own = self.tree.run_deps(position);
        // Otherwise the search looks at all that need it, so this costs no more.
        let most = self.runs.at(position).len();
        if !may_all_be_held(&self.letters, own, most) {
            return;
        }
        self.search.settle(
            &self.letters,
            self.lacks.as_mut_slice(),
            &self.runs,
            position,
        );
        install_all(
            &mut self.letters,
            self.waits.as_mut_slice(),
            &self.units,
            &self.needs,
            self.lacks.as_slice(),
            self.search.found(),
        );
    }

    /// The letter of the package at the position, with the agreed packages held.
    pub fn letter(&self, position: u32) -> Letter
        requires { position < length self.now.tree }
        ensures letter { HasLetter self.now position result }
        ensures engine { IsEngine self.now }
    {
        self.letters.at(position)
    }

    /// The tree's units. They decide which builds are queued and which packages are ignored.
    pub fn units(&self) -> &Units<'a>
        ensures { result.now.tree ≡ self.now.tree }
    {
        &self.units
    }

    /// The number of packages with each letter, with the agreed packages held.
    pub fn counts(&self) -> Counts
        ensures counts { AreCounts self.now result }
        ensures engine { IsEngine self.now }
    {
        self.letters.counts()
    }

    /// The lowest position with the letter Q, if there is one.
    pub fn next_queued(&self) -> Option<u32>
        ensures queued { IsNextQueued self.now result }
        ensures engine { IsEngine self.now }
    {
        self.letters.queued_from(0)
    }

    /// The lowest position with the letter Q from this one on, if there is one.
    pub fn queued_from(&self, from: u32) -> Option<u32>
        ensures queued { IsQueuedFrom self.now from result }
        ensures engine { IsEngine self.now }
    {
        self.letters.queued_from(from)
    }
}

//! The letters of all packages. Contracts see them as a list by position.
ghost use Rattle.std.specs.Prelude.{◌≡◌, ◌≢◌, ◌<◌, ◌≤◌, ◌^◌, ℕ, IfOk, MatchOption, length, replicate, set};
ghost use Rattle.engine.specs.State.{counts_of};
ghost use Rattle.engine.specs.shared.Shown.{is_held, letter_at};
ghost use Rattle.engine.specs.declared.Letter.TheVariants.{Q};

use crate::row::Row;
use crate::{Counts, Letter};
use faults::Memory;
use std::alloc::Global;
use std::marker::Model;

/// The letters of all packages, and the count of each letter.
#[derive(Drop)]
pub(crate) struct Letters {
    letters: Vec<Letter>,
    counts: Counts,
    /// The positions with the letter Q.
    queued: Row,
}

impl Model for Letters {
    ghost use Rattle.std.specs.Prelude.{◌≡◌, ◌<◌, ◌^◌, List, length};
    ghost use Rattle.engine.specs.State.{counts_of};
    ghost use Rattle.engine.specs.declared.Letter.{Letter as Kind};
    ghost use Rattle.engine.specs.inside.Row.{HasQueued};

    ghost Value = { List Kind };

    ghost view = { λ l. l.letters.items };

    ghost invariant = { λ l. (l.counts ≡ counts_of l.letters.items)
        × (length l.letters.items < 2 ^ 31)
        × HasQueued l.letters.items l.queued };
}

impl Letters {
    /// The letters of `len` ignored packages.
    pub(crate) fn new(alloc: Global, len: u32) -> Result<Letters, Memory>
        requires { len < 2 ^ 31 }
        ensures { IfOk result (λ letters. letters ≡ replicate len Letter.Ignored) }
    {
        let letters = vec![in alloc; Letter::Ignored; len as usize]?;
        let counts = Counts {
            i: 0,
            b: 0,
            q: 0,
            t: 0,
            ignored: len,
        };
        let queued = Row::new(alloc, len)?;
        Ok(Letters {
            letters,
            counts,
            queued,
        })
    }

    /// The letter at the position.
    pub(crate) fn at(&self, position: u32) -> Letter
        requires { position < length self.now }
        ensures { result ≡ letter_at self.now position }
    {
        self.letters[position as usize]
    }

    /// The count of each letter.
    pub(crate) fn counts(&self) -> Counts
        ensures { result ≡ counts_of self.now }
    {
        self.counts
    }

    /// The lowest position with the letter Q from this one on, if there is one.
    pub(crate) fn queued_from(&self, from: u32) -> Option<u32>
        ensures { MatchOption result ((p : ℕ) → from ≤ p → letter_at self.now p ≢ Q)
            (λ p. (from ≤ p) × (letter_at self.now p ≡ Q)
            × ((k : ℕ) → from ≤ k → k < p → letter_at self.now k ≢ Q)) }
    {
        self.queued.first_from(from)
    }

    /// Replaces the letter at the position.
    pub(crate) fn set(&mut self, position: u32, letter: Letter)
        requires { position < length self.old }
        ensures { self.new ≡ set self.old position letter }
    {
        let place = position as usize;
        self.counts.take(self.letters[place]);
        self.counts.add(letter);
        self.queued.put(position, matches!(letter, Letter::Q));
        self.letters[place] = letter;
    }
}

impl Letter {
    /// Whether a package with the letter is held.
    pub(crate) fn is_held(self) -> bool
        ensures { result ≡ is_held self }
    {
        match self {
            Letter::B | Letter::I => true,
            Letter::T | Letter::Q | Letter::Ignored => false,
        }
    }
}

//! The letter of each package, by what is held and what is not installable.
ghost use Rattle.std.specs.Prelude.{◌≡◌, ◌<◌, ℕ, All, Contains, IfOk, OnOk, false, length, true};
ghost use Rattle.engine.specs.Letters.{IsLetter};
ghost use Rattle.graph.specs.Marks.{has_mark};
ghost use Rattle.listing.specs.Tree.{IsTree};
ghost use Rattle.status_letters.specs.inside.Keeping.{AreLettersOf};
ghost use Rattle.status_letters.specs.inside.Lacking.{AreLacking};

use crate::lacking::lacking_marks;
use engine::{Letter, Units};
use faults::Memory;
use listing::Tree;
use std::alloc::Global;

/// The letters of all packages, by position.
pub(crate) fn letters_of(
    alloc: Global,
    tree: &Tree,
    units: &Units<'_>,
    held: &[bool],
) -> Result<Vec<Letter>, Memory>
    requires units { units.now.tree ≡ tree.now }
    requires each { length held.now ≡ length tree.now }
    ensures each { IfOk result (λ letters. length letters.items ≡ length tree.now) }
    ensures letters { IfOk result
        (λ letters. AreLettersOf tree.now (has_mark held.now) letters.items) }
    ensures tree { OnOk result (IsTree tree.now) }
{
    let lacking = lacking_marks(alloc, tree, held)?;
    let mut letters = Vec::with_capacity(alloc, held.len())?;
    for position in 0..tree.len() {
        letters.push(letter_of(units, held, lacking.as_slice(), position))?;
    }
    Ok(letters)
}

/// The letter of the package at the position.
fn letter_of(units: &Units<'_>, held: &[bool], lacking: &[bool], position: u32) -> Letter
    requires listed { position < length units.now.tree }
    requires each_held { length held.now ≡ length units.now.tree }
    requires each_lacking { length lacking.now ≡ length units.now.tree }
    requires lacking { AreLacking units.now.tree (has_mark held.now) (has_mark lacking.now) }
    ensures { IsLetter units.now.tree (has_mark held.now) position result }
{
    if held[position as usize] {
        return if lacking[position as usize] {
            Letter::B
        } else {
            Letter::I
        };
    }
    let Some(unit) = units.unit_of(position) else {
        return Letter::Ignored;
    };
    if some_lacks(lacking, units.build_deps(unit)) {
        return Letter::T;
    }
    Letter::Q
}

/// Whether one of the positions has a mark.
fn some_lacks(lacking: &[bool], positions: &[u32]) -> bool
    requires { All (λ p. p < length lacking.now) positions.now }
    ensures some { result ≡ true
        → (p : ℕ) × Contains positions.now p × (has_mark lacking.now p ≡ true) }
    ensures none { result ≡ false → All (λ p. has_mark lacking.now p ≡ false) positions.now }
{
    for position in positions {
        if lacking[*position as usize] {
            return true;
        }
    }
    false
}

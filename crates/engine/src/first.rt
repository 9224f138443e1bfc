//! The initial state of an engine, with nothing held.
ghost use Rattle.std.specs.Prelude.{◌≡◌, ◌<◌, ◌^◌, ℕ, IfOk, OnOk, false, length, slice_index};
ghost use Rattle.listing.specs.Tree.{run_at};
ghost use Rattle.engine.specs.Division.{IsDivision};
ghost use Rattle.engine.specs.inside.Queueing.{AreFitting, FitsUnit, needs_of};
ghost use Rattle.engine.specs.shared.Shown.{is_held};
ghost use Rattle.engine.specs.shared.Keeping.{AreKept, holds};

use crate::letters::Letters;
use crate::search::Search;
use crate::turned::turned_lists;
use crate::{Letter, Units};
use faults::Memory;
use graph::Reversed;
use listing::Tree;
use std::alloc::Global;

/// The initial parts of an engine besides the units: the units' wait counts and the letters, the
/// reversed lists of what builds and packages need, and the lack counts with the buffers to search.
pub(crate) fn first_parts(
    alloc: Global,
    tree: &Tree,
    units: &Units<'_>,
) -> Result<
    (
        (Vec<usize>, Letters),
        (Reversed, Reversed),
        (Vec<usize>, Search),
    ),
    Memory,
>
    requires { units.now.tree ≡ tree.now }
    ensures kept { IfOk result (λ parts.
        AreKept units.now parts.0.1 parts.2.0.items parts.0.0.items parts.1.1 parts.1.0
        parts.2.1) }
    ensures none_held { IfOk result (λ parts. (p : ℕ) → holds parts.0.1 p ≡ false) }
{
    let first = waits_and_letters(alloc, tree, units)?;
    let turned = turned_lists(alloc, tree, units)?;
    let counted = lacks_and_search(alloc, tree)?;
    Ok((first, turned, counted))
}

/// For each package the number of its run dependencies, and the buffers to search.
fn lacks_and_search(alloc: Global, tree: &Tree) -> Result<(Vec<usize>, Search), Memory>
    ensures lacks { IfOk result (λ counted. (length counted.0.items ≡ length tree.now)
        × ((p : ℕ) → p < length tree.now
        → (slice_index counted.0.items p ≡ length (run_at tree.now p))
        × (length (run_at tree.now p) < 2 ^ 64))) }
    ensures over_all { IfOk result (λ counted. counted.1.len ≡ length tree.now) }
{
    let lacks = first_lacks(alloc, tree)?;
    let search = Search::new(alloc, tree.len())?;
    Ok((lacks, search))
}

/// For each package the number of its run dependencies.
fn first_lacks(alloc: Global, tree: &Tree) -> Result<Vec<usize>, Memory>
    ensures { IfOk result (λ lacks. (length lacks.items ≡ length tree.now)
        × ((p : ℕ) → p < length tree.now
        → (slice_index lacks.items p ≡ length (run_at tree.now p))
        × (length (run_at tree.now p) < 2 ^ 64))) }
{
    let mut lacks = Vec::with_capacity(alloc, tree.len() as usize)?;
    for position in 0..tree.len() {
        lacks.push(tree.run_deps(position).len())?;
    }
    Ok(lacks)
}

/// For each unit the number of its build dependencies, and the letters that follow if nothing is
/// held.
fn waits_and_letters(
    alloc: Global,
    tree: &Tree,
    units: &Units<'_>,
) -> Result<(Vec<usize>, Letters), Memory>
    requires { units.now.tree ≡ tree.now }
    ensures waits { IfOk result (λ first. (u : ℕ) → u < length units.now.units
        → slice_index first.0.items u ≡ length (needs_of units.now u)) }
    ensures fitting { IfOk result (λ first. AreFitting units.now first.1 first.0.items) }
    ensures none_held { IfOk result (λ first. (p : ℕ) → holds first.1 p ≡ false) }
{
    let waits = first_waits(alloc, units)?;
    let letters = first_letters(alloc, tree, units, waits.as_slice())?;
    Ok((waits, letters))
}

/// For each unit the number of its build dependencies.
fn first_waits(alloc: Global, units: &Units<'_>) -> Result<Vec<usize>, Memory>
    ensures waits { IfOk result (λ waits. (length waits.items ≡ length units.now.units)
        × ((u : ℕ) → u < length units.now.units
        → slice_index waits.items u ≡ length (needs_of units.now u))) }
    ensures division { OnOk result (IsDivision units.now) }
{
    let mut waits = Vec::with_capacity(alloc, units.len() as usize)?;
    for unit in 0..units.len() {
        waits.push(units.build_deps(unit).len())?;
    }
    Ok(waits)
}

/// The letters if nothing is held: a unit that waits for nothing is queued.
fn first_letters(
    alloc: Global,
    tree: &Tree,
    units: &Units<'_>,
    waits: &[usize],
) -> Result<Letters, Memory>
    requires tree { units.now.tree ≡ tree.now }
    requires each { length waits.now ≡ length units.now.units }
    requires division { IsDivision units.now }
    ensures fitting { IfOk result (λ letters. AreFitting units.now letters waits.now) }
    ensures none_held { IfOk result (λ letters. (p : ℕ) → holds letters p ≡ false) }
{
    let mut letters = Letters::new(alloc, tree.len())?;
    for position in 0..tree.len() {
        letters.set(position, first_letter(units, waits, position));
    }
    Ok(letters)
}

/// The letter of the package at the position if nothing is held.
fn first_letter(units: &Units<'_>, waits: &[usize], position: u32) -> Letter
    requires listed { position < length units.now.tree }
    requires each { length waits.now ≡ length units.now.units }
    ensures fits { FitsUnit units.now waits.now position result }
    ensures not_held { is_held result ≡ false }
{
    let Some(unit) = units.unit_of(position) else {
        return Letter::Ignored;
    };
    if waits[unit as usize] == 0 {
        return Letter::Q;
    }
    Letter::T
}

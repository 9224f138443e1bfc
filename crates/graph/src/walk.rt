//! The positions that the lists lead to, from one position or from several.
ghost use Rattle.std.specs.Prelude.{◌≡◌, ◌<◌, ◌≤◌, ◌⊎◌, ℕ, Bool, true, false, All, Contains, IfOk, length, slice_index, vec_capacity, []};
ghost use Rattle.graph.specs.Lists.{list_at};
ghost use Rattle.graph.specs.Marks.{has_mark};
ghost use Rattle.graph.specs.Reach.{AreReached, AreReachedFrom, IsClosed};
ghost use Rattle.graph.specs.shared.Walks.{AreFound, LeadsTo};

use crate::reversed::Reversed;
use faults::Memory;
use std::alloc::Global;
use std::marker::Model;

/// Marks by position, and the marked positions in the order in which they were found. Between two
/// walks nothing is marked.
#[derive(Drop)]
pub struct Walk {
    marks: Vec<bool>,
    found: Vec<u32>,
}

impl Model for Walk {
    ghost use Rattle.std.specs.Prelude.{length};
    ghost use Rattle.graph.specs.Walked.{Walked};
    ghost use Rattle.graph.specs.shared.Walks.{IsIdle};

    ghost Value = { Walked };

    ghost view = { λ w. record { len = length w.marks.items; found = w.found.items } };

    ghost invariant = { λ w. IsIdle w.marks.items w.found };
}

impl Walk {
    /// Allocates the buffers to walk over `len` positions. Walks do not allocate.
    pub fn new(alloc: Global, len: u32) -> Result<Walk, Memory>
        ensures { IfOk result (λ walk. walk ≡ record { len = len; found = [] }) }
    {
        let marks = vec![in alloc; false; len as usize]?;
        let found = Vec::with_capacity(alloc, len as usize)?;
        Ok(Walk { marks, found })
    }

    /// Finds all positions that the lists lead to from this one, itself included.
    pub fn reach(&mut self, lists: &Reversed, from: u32)
        requires each { self.old.len ≡ length lists.now }
        requires listed { (p : ℕ) → All (λ d. d < length lists.now) (list_at lists.now p) }
        requires from { from < length lists.now }
        ensures each { self.new.len ≡ self.old.len }
        ensures reached { AreReached (list_at lists.now) from self.new.found }
        ensures within { All (λ p. p < length lists.now) self.new.found }
    {
        self.reach_all(lists, &[from]);
    }

    /// Finds all positions that the lists lead to from any of these, themselves included.
    pub fn reach_all(&mut self, lists: &Reversed, from: &[u32])
        requires each { self.old.len ≡ length lists.now }
        requires listed { (p : ℕ) → All (λ d. d < length lists.now) (list_at lists.now p) }
        requires from { All (λ p. p < length lists.now) from.now }
        ensures each { self.new.len ≡ self.old.len }
        ensures reached { AreReachedFrom (list_at lists.now) from.now self.new.found }
        ensures within { All (λ p. p < length lists.now) self.new.found }
    {
        let marks = self.marks.as_mut_slice();
        self.found.clear();
        find(marks, &mut self.found, from);
        follow(marks, &mut self.found, lists);
        unmark(marks, self.found.as_slice());
    }

    /// What the last walk found, without duplicates.
    pub fn found(&self) -> &[u32]
        ensures { result.now ≡ self.now.found }
    {
        self.found.as_slice()
    }
}

/// Marks those of the positions that have no mark, and appends them to the found ones.
fn find(marks: &mut [bool], found: &mut Vec<u32>, positions: &[u32])
    requires found { AreFound marks.old found.old.items }
    requires room { length marks.old ≤ vec_capacity found.old }
    requires within { All (λ p. p < length marks.old) positions.now }
    ensures found { AreFound marks.new found.new.items }
    ensures room { vec_capacity found.new ≡ vec_capacity found.old }
    ensures all { All (λ p. has_mark marks.new p ≡ true) positions.now }
    ensures kept { (p : ℕ) → has_mark marks.old p ≡ true → has_mark marks.new p ≡ true }
    ensures only { (p : ℕ) → has_mark marks.new p ≡ true
        → (has_mark marks.old p ≡ true) ⊎ Contains positions.now p }
    ensures longer { length found.old.items ≤ length found.new.items }
    ensures order { (k : ℕ) → k < length found.old.items
        → slice_index found.new.items k ≡ slice_index found.old.items k }
{
    for position in positions {
        let place = *position as usize;
        if !marks[place] {
            marks[place] = true;
            found.push_reserved(*position);
        }
    }
}

/// Finds all positions that the lists lead to from the found ones.
fn follow(marks: &mut [bool], found: &mut Vec<u32>, lists: &Reversed)
    requires found { AreFound marks.old found.old.items }
    requires each { length marks.old ≡ length lists.now }
    requires room { length marks.old ≤ vec_capacity found.old }
    requires listed { (p : ℕ) → All (λ d. d < length lists.now) (list_at lists.now p) }
    ensures found { AreFound marks.new found.new.items }
    ensures room { vec_capacity found.new ≡ vec_capacity found.old }
    ensures kept { (p : ℕ) → has_mark marks.old p ≡ true → has_mark marks.new p ≡ true }
    ensures closed { IsClosed (list_at lists.now) (has_mark marks.new) }
    ensures only { LeadsTo (list_at lists.now) (has_mark marks.old) (has_mark marks.new) }
{
    let mut followed = 0;
    'follow: while followed < found.len() {
        find(marks, found, lists.at(found[followed]));
        followed += 1;
    }
}

/// Clears the marks of the found ones, which are all marks.
fn unmark(marks: &mut [bool], found: &[u32])
    requires { AreFound marks.old found.now }
    ensures { (p : ℕ) → has_mark marks.new p ≡ false }
{
    for position in found {
        marks[*position as usize] = false;
    }
}

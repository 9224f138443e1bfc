//! Which packages become installable when one is built. They may need each other.
ghost use Rattle.std.specs.Prelude.{◌≡◌, ◌<◌, ◌≤◌, ◌⊎◌, ◌+◌, ◌^◌, ℕ, false, true, All, Contains, IfOk, length, slice_index, vec_capacity, [], List};
ghost use Rattle.graph.specs.Lists.{AreReversed, list_at, one_if, times};
ghost use Rattle.graph.specs.Marks.{has_mark};
ghost use Rattle.graph.specs.shared.Walks.{AreFound};
ghost use Rattle.engine.specs.inside.Searching.{Adds, AreParted, IsCaused, IsGathered, IsSettled, IsSifted, marked_many, told};
ghost use Rattle.engine.specs.shared.Shown.{is_held, letter_at};
ghost use Rattle.engine.specs.declared.Letter.TheVariants.{B};

use crate::Letter;
use crate::lacks::{lower, raise};
use crate::letters::Letters;
use faults::Memory;
use graph::Reversed;
use std::alloc::Global;
use std::marker::Model;

/// Marks by position, the packages found, in that order, and those of them that were dropped again.
/// Between two searches nothing is marked.
#[derive(Drop)]
pub(crate) struct Search {
    marks: Vec<bool>,
    found: Vec<u32>,
    dropped: Vec<u32>,
}

impl Model for Search {
    ghost use Rattle.std.specs.Prelude.{length};
    ghost use Rattle.graph.specs.Walked.{Walked};
    ghost use Rattle.engine.specs.inside.Searching.{AreIdle};

    ghost Value = { Walked };

    ghost view = { λ s. record { len = length s.marks.items; found = s.found.items } };

    ghost invariant = { λ s. AreIdle s.marks.items s.found s.dropped };
}

impl Search {
    /// Allocates the buffers to search among `len` positions. Searches do not allocate.
    pub(crate) fn new(alloc: Global, len: u32) -> Result<Search, Memory>
        ensures { IfOk result (λ search. search ≡ record { len = len; found = [] }) }
    {
        let marks = vec![in alloc; false; len as usize]?;
        let found = Vec::with_capacity(alloc, len as usize)?;
        let dropped = Vec::with_capacity(alloc, len as usize)?;
        Ok(Search {
            marks,
            found,
            dropped,
        })
    }

    /// Finds the built packages that need the one at the position to run, directly or through each
    /// other, itself included, and assumes that all of them are installable. Those that lack more
    /// than these are dropped again, together with those that need them. Updates the lack counts of
    /// all packages.
    pub(crate) fn settle(
        &mut self,
        letters: &Letters,
        lacks: &mut [usize],
        runs: &Reversed,
        position: u32,
    )
        requires each { self.old.len ≡ length runs.now }
        requires letters { length letters.now ≡ length runs.now }
        requires lacks { length lacks.old ≡ length runs.now }
        requires turned { (next : ℕ → List ℕ)
            × AreReversed (length runs.now) (length runs.now) next runs.now }
        requires position { position < length runs.now }
        requires built { letter_at letters.now position ≡ B }
        requires some { (p : ℕ) (xs : List ℕ) → p < length runs.now
            → ((q : ℕ) → times q xs ≤ 1)
            → ((q : ℕ) → Contains xs q → letter_at letters.now q ≡ B)
            → told runs.now p xs ≤ slice_index lacks.old p }
        requires few { (p : ℕ) → p < length lacks.old → slice_index lacks.old p < 2 ^ 64 }
        ensures each { self.new.len ≡ self.old.len }
        ensures within { All (λ p. p < length runs.now) self.new.found }
        ensures settled { IsSettled letters.now lacks.old lacks.new runs.now position
            self.new.found }
    {
        let marks = self.marks.as_mut_slice();
        self.found.clear();
        self.dropped.clear();
        gather(letters, marks, &mut self.found, runs, position);
        sift(lacks, marks, &mut self.dropped, runs, self.found.as_slice());
        unmark(marks, self.found.as_slice());
    }

    /// The packages that the last search found, without duplicates.
    pub(crate) fn found(&self) -> &[u32]
        ensures { result.now ≡ self.now.found }
    {
        self.found.as_slice()
    }
}

/// Whether all of the positions are held, or there are more than `most`, which are not examined.
pub(crate) fn may_all_be_held(letters: &Letters, positions: &[u32], most: usize) -> bool
    requires within { All (λ p. p < length letters.now) positions.now }
    ensures lacking { result ≡ false → (q : ℕ) × Contains positions.now q
        × (is_held (letter_at letters.now q) ≡ false) }
{
    if positions.len() > most {
        return true;
    }
    for position in positions {
        if !letters.at(*position).is_held() {
            return false;
        }
    }
    true
}

/// Marks the position, which is built, and each built one that the lists reach from there through
/// built ones.
fn gather(
    letters: &Letters,
    marks: &mut [bool],
    found: &mut Vec<u32>,
    runs: &Reversed,
    position: u32,
)
    requires found { AreFound marks.old found.old.items }
    requires none { found.old.items ≡ [] }
    requires each { length marks.old ≡ length runs.now }
    requires letters { length letters.now ≡ length marks.old }
    requires room { length marks.old ≤ vec_capacity found.old }
    requires listed { (p : ℕ) → All (λ d. d < length runs.now) (list_at runs.now p) }
    requires position { position < length runs.now }
    requires built { letter_at letters.now position ≡ B }
    ensures gathered { IsGathered letters.now runs.now position marks.new found.new.items }
    ensures room { vec_capacity found.new ≡ vec_capacity found.old }
{
    find(letters, marks, found, &[position]);
    follow(letters, marks, found, runs);
}

/// Marks those of the positions that are built and have no mark, and appends them to the found
/// ones.
fn find(letters: &Letters, marks: &mut [bool], found: &mut Vec<u32>, positions: &[u32])
    requires found { AreFound marks.old found.old.items }
    requires letters { length letters.now ≡ length marks.old }
    requires room { length marks.old ≤ vec_capacity found.old }
    requires within { All (λ p. p < length marks.old) positions.now }
    ensures found { AreFound marks.new found.new.items }
    ensures room { vec_capacity found.new ≡ vec_capacity found.old }
    ensures all { All (λ p. letter_at letters.now p ≡ B → has_mark marks.new p ≡ true)
        positions.now }
    ensures kept { (p : ℕ) → has_mark marks.old p ≡ true → has_mark marks.new p ≡ true }
    ensures only { (p : ℕ) → has_mark marks.new p ≡ true
        → (has_mark marks.old p ≡ true) ⊎ (letter_at letters.now p ≡ B) }
    ensures longer { length found.old.items ≤ length found.new.items }
    ensures order { (k : ℕ) → k < length found.old.items
        → slice_index found.new.items k ≡ slice_index found.old.items k }
{
    for position in positions {
        let place = *position as usize;
        if !marks[place] {
            if let Letter::B = letters.at(*position) {
                marks[place] = true;
                found.push_reserved(*position);
            }
        }
    }
}

/// Marks all built ones that the lists reach from the found ones through built ones.
fn follow(letters: &Letters, marks: &mut [bool], found: &mut Vec<u32>, runs: &Reversed)
    requires found { AreFound marks.old found.old.items }
    requires letters { length letters.now ≡ length marks.old }
    requires each { length marks.old ≡ length runs.now }
    requires room { length marks.old ≤ vec_capacity found.old }
    requires listed { (p : ℕ) → All (λ d. d < length runs.now) (list_at runs.now p) }
    ensures found { AreFound marks.new found.new.items }
    ensures room { vec_capacity found.new ≡ vec_capacity found.old }
    ensures kept { (p : ℕ) → has_mark marks.old p ≡ true → has_mark marks.new p ≡ true }
    ensures only { (p : ℕ) → has_mark marks.new p ≡ true
        → (has_mark marks.old p ≡ true) ⊎ (letter_at letters.now p ≡ B) }
    ensures closed { (x y : ℕ) → has_mark marks.new x ≡ true → Contains (list_at runs.now x) y
        → letter_at letters.now y ≡ B → has_mark marks.new y ≡ true }
{
    let mut followed = 0;
    'follow: while followed < found.len() {
        find(letters, marks, found, runs.at(found[followed]));
        followed += 1;
    }
}

/// Assumes that all found ones are installable. Then drops those that lack something else, and with
/// them those that need them.
fn sift(
    lacks: &mut [usize],
    marks: &mut [bool],
    dropped: &mut Vec<u32>,
    runs: &Reversed,
    found: &[u32],
)
    requires found { AreFound marks.old found.now }
    requires none { dropped.old.items ≡ [] }
    requires each { length marks.old ≡ length runs.now }
    requires lacks { length lacks.old ≡ length runs.now }
    requires room { length marks.old ≤ vec_capacity dropped.old }
    requires turned { (next : ℕ → List ℕ)
        × AreReversed (length runs.now) (length runs.now) next runs.now }
    requires some { (p : ℕ) → p < length lacks.old
        → told runs.now p found.now ≤ slice_index lacks.old p }
    requires few { (p : ℕ) → p < length lacks.old → slice_index lacks.old p < 2 ^ 64 }
    ensures sifted { IsSifted runs.now found.now marks.old marks.new dropped.new.items lacks.old
        lacks.new }
    ensures room { vec_capacity dropped.new ≡ vec_capacity dropped.old }
{
    lower_all(lacks, runs, found);
    drop_lacking(lacks, marks, dropped, found);
    drop_needing(lacks, marks, dropped, runs);
}

/// Decrements the count of each package in the lists of the found ones, once for each time that it
/// is in them.
fn lower_all(lacks: &mut [usize], runs: &Reversed, found: &[u32])
    requires within { All (λ p. p < length runs.now) found.now }
    requires each { length lacks.old ≡ length runs.now }
    requires listed { (p : ℕ) → All (λ d. d < length runs.now) (list_at runs.now p) }
    requires some { (p : ℕ) → p < length lacks.old
        → told runs.now p found.now ≤ slice_index lacks.old p }
    ensures { (p : ℕ) → p < length lacks.old
        → slice_index lacks.new p + told runs.now p found.now ≡ slice_index lacks.old p }
{
    for position in found {
        lower(lacks, runs.at(*position));
    }
}

/// Drops those of the found ones that lack something.
fn drop_lacking(lacks: &[usize], marks: &mut [bool], dropped: &mut Vec<u32>, found: &[u32])
    requires found { AreFound marks.old found.now }
    requires none { dropped.old.items ≡ [] }
    requires each { length lacks.now ≡ length marks.old }
    requires room { length marks.old ≤ vec_capacity dropped.old }
    ensures parted { AreParted marks.old marks.new [] dropped.new.items }
    ensures rest { (p : ℕ) → has_mark marks.new p ≡ true → slice_index lacks.now p ≡ 0 }
    ensures some { All (λ p. 0 < slice_index lacks.now p) dropped.new.items }
    ensures room { vec_capacity dropped.new ≡ vec_capacity dropped.old }
{
    for position in found {
        if lacks[*position as usize] > 0 {
            drop(marks, dropped, &[*position]);
        }
    }
}

/// Drops the marked packages in the lists of dropped ones. Increments the count of each package in
/// these lists, once for each time that it is in them.
fn drop_needing(lacks: &mut [usize], marks: &mut [bool], dropped: &mut Vec<u32>, runs: &Reversed)
    requires each { length marks.old ≡ length runs.now }
    requires lacks { length lacks.old ≡ length runs.now }
    requires room { marked_many marks.old + length dropped.old.items ≤ vec_capacity dropped.old }
    requires listed { (p : ℕ) → All (λ d. d < length runs.now) (list_at runs.now p) }
    requires within { All (λ p. p < length runs.now) dropped.old.items }
    requires fits { (p : ℕ) (xs : List ℕ) → p < length lacks.old
        → ((q : ℕ) → times q xs ≤ one_if (has_mark marks.old q) + times q dropped.old.items)
        → slice_index lacks.old p + told runs.now p xs < 2 ^ 64 }
    requires rest { (p : ℕ) → has_mark marks.old p ≡ true → slice_index lacks.old p ≡ 0 }
    requires some { All (λ p. 0 < slice_index lacks.old p) dropped.old.items }
    ensures parted { AreParted marks.old marks.new dropped.old.items dropped.new.items }
    ensures raised { (p : ℕ) → p < length lacks.old
        → slice_index lacks.new p ≡ slice_index lacks.old p + told runs.now p dropped.new.items }
    ensures rest { (p : ℕ) → has_mark marks.new p ≡ true → slice_index lacks.new p ≡ 0 }
    ensures some { All (λ p. 0 < slice_index lacks.new p) dropped.new.items }
    ensures caused { IsCaused runs.now marks.old dropped.old.items dropped.new.items }
    ensures room { vec_capacity dropped.new ≡ vec_capacity dropped.old }
{
    let mut followed = 0;
    'follow: while followed < dropped.len() {
        let needing = runs.at(dropped[followed]);
        raise(lacks, needing);
        drop(marks, dropped, needing);
        followed += 1;
    }
}

/// Clears the marks of those of the positions that have one, and appends these to the dropped ones.
fn drop(marks: &mut [bool], dropped: &mut Vec<u32>, positions: &[u32])
    requires within { All (λ p. p < length marks.old) positions.now }
    requires room { marked_many marks.old + length dropped.old.items ≤ vec_capacity dropped.old }
    ensures parted { AreParted marks.old marks.new dropped.old.items dropped.new.items }
    ensures gone { All (λ p. has_mark marks.new p ≡ false) positions.now }
    ensures only { (p : ℕ) → has_mark marks.new p ≡ true → has_mark marks.old p ≡ true }
    ensures adds { Adds positions.now marks.old dropped.old.items dropped.new.items }
    ensures room { vec_capacity dropped.new ≡ vec_capacity dropped.old }
{
    for position in positions {
        let place = *position as usize;
        if marks[place] {
            marks[place] = false;
            dropped.push_reserved(*position);
        }
    }
}

/// Clears all marks; only found positions have one.
fn unmark(marks: &mut [bool], found: &[u32])
    requires within { All (λ p. p < length marks.old) found.now }
    requires only { (p : ℕ) → has_mark marks.old p ≡ true → Contains found.now p }
    ensures { (p : ℕ) → has_mark marks.new p ≡ false }
{
    for position in found {
        marks[*position as usize] = false;
    }
}

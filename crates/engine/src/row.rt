//! A row of bits, one for each position.
ghost use Rattle.std.specs.Prelude.{◌≡◌, ◌<◌, ◌≤◌, ◌≢◌, ◌/◌, ◌*◌, ◌+◌, ◌^◌, ℕ, IfOk, MatchOption, length};
ghost use Rattle.graph.specs.Lists.{one_if};
ghost use Rattle.engine.specs.inside.Row.{bit_of};

use faults::Memory;
use std::alloc::Global;

/// The bits in words of 64; the lowest bit of the first word is the first position's.
#[derive(Drop)]
pub(crate) struct Row {
    words: Vec<u64>,
}

impl Row {
    /// A row of `len` bits, none of them set.
    pub(crate) fn new(alloc: Global, len: u32) -> Result<Row, Memory>
        ensures room { IfOk result (λ row. length row.words.items ≡ len / 64 + 1) }
        ensures clear { IfOk result (λ row. (p : ℕ) → bit_of row p ≡ 0) }
    {
        let words = vec![in alloc; 0u64; len as usize / 64 + 1]?;
        Ok(Row { words })
    }

    /// Sets or clears the bit of the position.
    pub(crate) fn put(&mut self, position: u32, bit: bool)
        requires { position / 64 < length self.old.words.items }
        ensures room { length self.new.words.items ≡ length self.old.words.items }
        ensures here { bit_of self.new position ≡ one_if bit }
        ensures others { (p : ℕ) → p ≢ position → bit_of self.new p ≡ bit_of self.old p }
    {
        let word = &mut self.words[position as usize / 64];
        let mask = 1u64 << (position % 64);
        if bit {
            *word |= mask;
        } else {
            *word &= !mask;
        }
    }

    /// The lowest position from this one on whose bit is set, if there is one.
    pub(crate) fn first_from(&self, from: u32) -> Option<u32>
        requires { length self.now.words.items < 2 ^ 26 }
        ensures { MatchOption result ((p : ℕ) → from ≤ p → bit_of self.now p ≡ 0)
            (λ p. (from ≤ p) × (bit_of self.now p ≡ 1)
            × ((k : ℕ) → from ≤ k → k < p → bit_of self.now k ≡ 0)) }
    {
        let place = from as usize / 64;
        let Some(word) = self.words.get(place) else {
            return None;
        };
        let rest = *word >> (from % 64);
        if rest != 0 {
            return Some(from + rest.trailing_zeros());
        }
        self.first_in(place + 1)
    }

    /// The lowest position whose bit is set in this word or a later one, if there is one.
    fn first_in(&self, start: usize) -> Option<u32>
        requires { length self.now.words.items < 2 ^ 26 }
        ensures { MatchOption result ((p : ℕ) → start * 64 ≤ p → bit_of self.now p ≡ 0)
            (λ p. (start * 64 ≤ p) × (bit_of self.now p ≡ 1)
            × ((k : ℕ) → start * 64 ≤ k → k < p → bit_of self.now k ≡ 0)) }
    {
        for place in start..self.words.len() {
            let word = self.words[place];
            if word != 0 {
                return Some(place as u32 * 64 + word.trailing_zeros());
            }
        }
        None
    }
}

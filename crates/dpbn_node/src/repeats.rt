//! The faults of turns, each number printed once.
ghost use Rattle.std.specs.Prelude.{◌≡◌, [], IfOk, OnErr, OnOk, false, map, not};
ghost use Rattle.dpbn_node.specs.Repeats.{is_known, noted, once_more};

use faults::Memory;
use program_io::Refusal;
use std::alloc::Global;

/// The first fault of its number, and how many more with that number there were. The count
/// saturates.
#[derive(Clone, Copy)]
pub struct Repeated {
    pub first: Refusal,
    pub again: u64,
}

/// The faults so far, by number, in the order in which the first of each occurred.
#[derive(Drop)]
pub struct Repeats {
    known: Vec<Repeated>,
}

impl Repeats {
    /// No faults yet.
    pub fn new(alloc: Global) -> Repeats
        ensures { result.known.items ≡ [] }
    {
        Repeats {
            known: Vec::new(alloc),
        }
    }

    /// The first fault of each number, and how many more with that number there were.
    pub fn known(&self) -> &[Repeated]
        ensures { result.now ≡ self.now.known.items }
    {
        self.known.as_slice()
    }

    /// Notes a fault, and returns whether it is the first of its number.
    ///
    /// # Errors
    ///
    /// `Memory`; the fault isn't noted.
    pub fn note(&mut self, fault: Refusal) -> Result<bool, Memory>
        ensures first { IfOk result
            (λ is_first. is_first ≡ not (is_known fault.number self.old.known.items)) }
        ensures noted { OnOk result
            (self.new.known.items ≡ noted self.old.known.items fault) }
        ensures refused { OnErr result ((is_known fault.number self.old.known.items ≡ false)
            × (self.new.known.items ≡ self.old.known.items)) }
    {
        if self.is_known(fault.number) {
            self.count(fault.number);
            return Ok(false);
        }
        self.known.push(Repeated {
            first: fault,
            again: 0,
        })?;
        Ok(true)
    }

    /// Whether a fault with this number is known.
    fn is_known(&self, number: u32) -> bool
        ensures { result ≡ is_known number self.now.known.items }
    {
        self.known.iter().any(|known| known.first.number == number)
    }

    /// Counts one more fault with this number.
    fn count(&mut self, number: u32)
        ensures { self.new.known.items ≡ map (once_more number) self.old.known.items }
    {
        for place in 0..self.known.len() {
            self.known[place] = counted(self.known[place], number);
        }
    }
}

/// The known fault after one more with this number.
fn counted(known: Repeated, number: u32) -> Repeated
    ensures { result ≡ once_more number known }
{
    if known.first.number == number {
        Repeated {
            again: known.again.saturating_add(1),
            ..known
        }
    } else {
        known
    }
}

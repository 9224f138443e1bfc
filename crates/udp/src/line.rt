//! A bounded queue of datagrams.
ghost use Rattle.std.specs.Prelude.{◌≡◌, ◌+◌, ◌≤◌, ◌<◌, ◌++◌, ◌∷◌, ◌↔◌, [], IfSome, IsPermutation, IsTrue, Ok, OnErr, IfNone, Some, false, length, option_map, option_to_list, slice_get, sum_by, true};
ghost use Rattle.udp.specs.Ways.{in_line};

use faults::Memory;
use std::alloc::Global;
use std::collections::VecDeque;

/// The maximum size of a queue in bytes: 64 MiB. The largest build, in pieces for eight other
/// members, takes about half of that.
const MOST_BYTES: usize = 67_108_864;

/// A queued datagram, and what it is for.
#[derive(Drop)]
pub struct Waiting<T: Drop> {
    pub errand: T,
    pub bytes: Vec<u8>,
}

/// A queue of at most `most` datagrams, and of 64 MiB in all.
#[derive(Drop)]
pub struct Line<T: Drop> {
    most: usize,
    waiting: VecDeque<Waiting<T>>,
    /// The total length of the queued datagrams, in bytes.
    size: usize,
    ghost few: { length waiting.items ≤ most },
    ghost counted: { sum_by (λ w. length w.bytes.items) waiting.items ≡ size },
    ghost small: { size ≤ 67108864 },
}

impl<T: Drop> Line<T> {
    /// An empty queue for at most `most` datagrams.
    pub fn new(alloc: Global, most: usize) -> Line<T>
        ensures empty { result.waiting.items ≡ [] }
        ensures most { result.most ≡ most }
    {
        Line {
            most,
            waiting: VecDeque::new(alloc),
            size: 0,
        }
    }

    /// Whether the queue is empty.
    pub fn is_empty(&self) -> bool
        ensures { IsTrue result ↔ (self.now.waiting.items ≡ []) }
    {
        self.waiting.is_empty()
    }

    /// The number of queued datagrams.
    pub fn len(&self) -> usize
        ensures { result ≡ length self.now.waiting.items }
    {
        self.waiting.len()
    }

    /// Whether there is room for a datagram of these bytes.
    fn has_room_for(&self, bytes: &[u8]) -> bool
        ensures few { result ≡ true → length self.now.waiting.items < self.now.most }
        ensures small { result ≡ true → self.now.size + length bytes.now ≤ 67108864 }
    {
        self.waiting.len() < self.most && bytes.len() <= MOST_BYTES - self.size
    }

    /// Appends a copy of the bytes if there is room, and returns whether there was.
    ///
    /// # Errors
    ///
    /// Out of memory.
    pub fn put(&mut self, alloc: Global, errand: T, bytes: &[u8]) -> Result<bool, Memory>
        ensures put { result ≡ Ok true → in_line self.new.waiting.items
            ≡ in_line self.old.waiting.items ++ (errand, bytes.now) ∷ [] }
        ensures full { result ≡ Ok false → self.new.waiting.items ≡ self.old.waiting.items }
        ensures err { OnErr result (self.new.waiting.items ≡ self.old.waiting.items) }
    {
        if !self.has_room_for(bytes) {
            return Ok(false);
        }
        let size = bytes.len();
        let bytes = bytes.to_vec(alloc)?;
        self.waiting.push_back(Waiting { errand, bytes })?;
        self.size += size;
        Ok(true)
    }

    /// Removes the first datagram.
    pub fn take_first(&mut self) -> Option<Waiting<T>>
        ensures first { self.old.waiting.items ≡ option_to_list result ++ self.new.waiting.items }
        ensures none { IfNone result (self.old.waiting.items ≡ []) }
    {
        let first = self.waiting.pop_front()?;
        self.size -= first.bytes.len();
        Some(first)
    }

    /// The datagram at this place.
    pub fn at(&self, place: usize) -> Option<&Waiting<T>>
        ensures { slice_get self.now.waiting.items place
            ≡ option_map (λ waiting. waiting.now) result }
    {
        self.waiting.get(place)
    }

    /// Removes the datagram at this place, and moves the first one there.
    pub fn take_at(&mut self, place: usize) -> Option<Waiting<T>>
        ensures taken { IfSome result (λ w. IsPermutation self.old.waiting.items
            (w ∷ self.new.waiting.items)) }
        ensures here { IfSome result (λ w. slice_get self.old.waiting.items place ≡ Some w) }
        ensures beyond { IfNone result (length self.old.waiting.items ≤ place) }
    {
        let taken = self.waiting.swap_remove_front(place)?;
        self.size -= taken.bytes.len();
        Some(taken)
    }
}

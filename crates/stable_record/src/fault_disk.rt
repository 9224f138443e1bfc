//! A disk in memory that fails at given calls.
ghost use Rattle.std.specs.Prelude.{◌≡◌, ◌≤◌, ⊤, if◌then◌else◌, IfOk, length};
ghost use Rattle.stable_record.specs.Faults.{Cuts, ReadsAt, Syncs, Writes, counted, is_due, one_more};
ghost use Rattle.stable_record.specs.History.{seen};
ghost use Rattle.stable_record.specs.Pasts.{no_past};
ghost use Rattle.stable_record.specs.Room.{UsesRoom};
ghost use Rattle.stable_record.specs.inside.Possible.{replay_possible};

use crate::{Disk, DiskFault, MemDisk};
use faults::Memory;

/// Which calls fail. Calls of `read`, `write_at`, `cut` and `sync` are counted, from 1.
#[derive(Clone, Copy, Debug, PartialEq, Eq)]
pub enum Failing {
    /// Only the call with this number.
    Once(u64),
    /// The call with this number and all later ones.
    From(u64),
}

/// A disk in memory whose device fails at exactly the given calls. A call that fails returns
/// `DiskFault::Device`; it is counted, but has no other effect. `len` and `reserve` are not counted
/// and never fail because of the device.
#[derive(Drop)]
pub struct FaultDisk {
    inner: MemDisk,
    failing: Failing,
    /// The number of calls so far.
    calls: u64,
    failures: u64,
}

impl FaultDisk {
    /// A disk over this one, with no calls counted yet.
    pub fn new(inner: MemDisk, failing: Failing) -> FaultDisk
        ensures inner { result.inner ≡ inner }
        ensures failing { result.failing ≡ failing }
        ensures no_call { (result.calls ≡ 0) × (result.failures ≡ 0) }
    {
        FaultDisk {
            inner,
            failing,
            calls: 0,
            failures: 0,
        }
    }

    /// The disk in memory, with the effects of the calls that didn't fail.
    pub fn into_inner(self) -> MemDisk
        ensures { result ≡ self.inner }
    {
        self.inner
    }

    /// Counts a call, and returns whether it fails.
    fn fails(&mut self) -> bool
        ensures due { result ≡ is_due self.old.failing self.new.calls }
        ensures calls { self.new.calls ≡ one_more self.old.calls }
        ensures same { (self.new.inner ≡ self.old.inner) × (self.new.failing ≡ self.old.failing) }
        ensures failures { self.new.failures ≡
            (if result then one_more self.old.failures else self.old.failures) }
    {
        self.calls = self.calls.saturating_add(1);
        let fails = match self.failing {
            Failing::Once(call) => self.calls == call,
            Failing::From(call) => self.calls >= call,
        };
        if fails {
            self.failures = self.failures.saturating_add(1);
        }
        fails
    }
}

impl Disk for FaultDisk {
    ghost use Rattle.stable_record.specs.Failing.{FailsAsTold, IsNotCounted, history_of, room_of};

    ghost history = { history_of };

    ghost is_kept = { λ _. ⊤ };

    ghost failures_of = { λ d. d.failures };

    ghost room = { room_of };

    ghost stays_possible = { λ d. replay_possible no_past d.inner.noted.events d.inner.were_bytes };

    fn len(&mut self) -> Result<u64, DiskFault>
        ensures not_counted { IsNotCounted self.old self.new result }
        ensures same { history_of self.new ≡ history_of self.old }
        ensures answer { IfOk result (λ n. n ≡ length (seen (history_of self.old))) }
        ensures cause { self.new.failures ≡ counted result self.old.failures }
        ensures room { UsesRoom 0 (room_of self.old) (room_of self.new) result }
    {
        self.inner.len()
    }

    fn read(&mut self, at: u64, buf: &mut [u8]) -> Result<usize, DiskFault>
        ensures as_told { FailsAsTold self.old self.new result }
        ensures same { history_of self.new ≡ history_of self.old }
        ensures count { IfOk result (λ n. n ≤ length buf.old) }
        ensures answer { IfOk result (λ n. ReadsAt (seen (history_of self.old)) at n buf.new) }
        ensures cause { self.new.failures ≡ counted result self.old.failures }
        ensures room { UsesRoom 0 (room_of self.old) (room_of self.new) result }
    {
        if self.fails() {
            return Err(DiskFault::Device);
        }
        self.inner.read(at, buf)
    }

    fn write_at(&mut self, at: u64, bytes: &[u8]) -> Result<(), DiskFault>
        ensures as_told { FailsAsTold self.old self.new result }
        ensures effect { Writes at bytes.now (history_of self.old) (history_of self.new) result }
        ensures cause { self.new.failures ≡ counted result self.old.failures }
        ensures room { at ≤ length (seen (history_of self.old))
            → UsesRoom (length bytes.now) (room_of self.old) (room_of self.new) result }
    {
        if self.fails() {
            return Err(DiskFault::Device);
        }
        self.inner.write_at(at, bytes)
    }

    fn cut(&mut self, len: u64) -> Result<(), DiskFault>
        ensures as_told { FailsAsTold self.old self.new result }
        ensures effect { Cuts len (history_of self.old) (history_of self.new) result }
        ensures cause { self.new.failures ≡ counted result self.old.failures }
        ensures room { UsesRoom 0 (room_of self.old) (room_of self.new) result }
    {
        if self.fails() {
            return Err(DiskFault::Device);
        }
        self.inner.cut(len)
    }

    fn sync(&mut self) -> Result<(), DiskFault>
        ensures as_told { FailsAsTold self.old self.new result }
        ensures effect { Syncs (history_of self.old) (history_of self.new) result }
        ensures cause { self.new.failures ≡ counted result self.old.failures }
        ensures room { UsesRoom 0 (room_of self.old) (room_of self.new) result }
    {
        if self.fails() {
            return Err(DiskFault::Device);
        }
        self.inner.sync()
    }

    fn reserve(&mut self, bytes: u64, calls: u32) -> Result<(), Memory> {
        self.inner.reserve(bytes, calls)
    }

    fn failures(&self) -> u64 {
        self.failures
    }
}

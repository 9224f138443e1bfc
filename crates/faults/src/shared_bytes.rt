//! Bytes that copies share, for many short texts that never change, such as package paths and
//! names.
ghost use Rattle.std.specs.Prelude.{◌≡◌, ◌≤◌, IfOk, length};

use crate::Memory;
use std::alloc::Global;
use std::marker::Model;
use std::rc::Rc;

/// The number of bytes that are stored next to the reference count, without an allocation of their
/// own.
const SHORT: usize = 39;

/// Few bytes, stored at the front of a table. Contracts see them as a list.
#[derive(Drop)]
struct ShortBytes {
    table: [u8; SHORT],
    count: u8,
}

impl Model for ShortBytes {
    ghost use Rattle.std.specs.Prelude.{ℕ, List};
    ghost use Rattle.faults.specs.ShortBytes.{AreInTable, in_table};

    ghost Value = { List ℕ };

    ghost view = { in_table };

    ghost invariant = { AreInTable };
}

impl ShortBytes {
    /// Equal bytes.
    fn of(bytes: &[u8]) -> ShortBytes
        requires few { length bytes.now ≤ 39 }
        ensures { result ≡ bytes.now }
    {
        let mut table = [0; SHORT];
        table[..bytes.len()].copy_from_slice(bytes);
        ShortBytes {
            table,
            count: bytes.len() as u8,
        }
    }

    /// The bytes.
    fn as_slice(&self) -> &[u8]
        ensures { result.now ≡ self.now }
    {
        &self.table[..self.count as usize]
    }
}

/// Bytes, stored in place if they are few.
#[derive(Drop)]
enum Bytes {
    Short(ShortBytes),
    Long(Vec<u8>),
}

impl Bytes {
    ghost use Rattle.faults.specs.SharedBytes.{items_of};

    /// Equal bytes.
    fn of(alloc: Global, bytes: &[u8]) -> Result<Bytes, Memory>
        ensures { IfOk result (λ b. items_of b ≡ bytes.now) }
    {
        if bytes.len() <= SHORT {
            Ok(Bytes::Short(ShortBytes::of(bytes)))
        } else {
            Ok(Bytes::Long(Vec::from_slice(alloc, bytes)?))
        }
    }

    /// These bytes.
    fn of_vec(bytes: Vec<u8>) -> Bytes
        ensures { items_of result ≡ bytes.items }
    {
        if bytes.len() <= SHORT {
            Bytes::Short(ShortBytes::of(bytes.as_slice()))
        } else {
            Bytes::Long(bytes)
        }
    }

    fn as_slice(&self) -> &[u8]
        ensures { result.now ≡ items_of self.now }
    {
        match self {
            Bytes::Short(bytes) => bytes.as_slice(),
            Bytes::Long(bytes) => bytes.as_slice(),
        }
    }
}

/// Bytes that copies share. Contracts see them as a list.
#[derive(Drop)]
pub struct SharedBytes {
    bytes: Rc<Bytes>,
    alloc: Global,
}

impl Model for SharedBytes {
    ghost use Rattle.std.specs.Prelude.{ℕ, List};
    ghost use Rattle.faults.specs.SharedBytes.{items_of};

    ghost Value = { List ℕ };

    ghost view = { λ s. items_of s.bytes.value };
}

impl SharedBytes {
    /// Equal bytes, which are not shared yet.
    pub fn of(alloc: Global, bytes: &[u8]) -> Result<SharedBytes, Memory>
        ensures { IfOk result (λ shared. shared ≡ bytes.now) }
    {
        let bytes = Rc::new(alloc, Bytes::of(alloc, bytes)?)?;
        Ok(SharedBytes { bytes, alloc })
    }

    /// These bytes, which are not shared yet. Many bytes are not copied.
    pub fn of_vec(alloc: Global, bytes: Vec<u8>) -> Result<SharedBytes, Memory>
        ensures { IfOk result (λ shared. shared ≡ bytes.items) }
    {
        let bytes = Rc::new(alloc, Bytes::of_vec(bytes))?;
        Ok(SharedBytes { bytes, alloc })
    }

    /// The bytes.
    pub fn as_slice(&self) -> &[u8]
        ensures { result.now ≡ self.now }
    {
        self.bytes.as_slice()
    }

    /// Equal bytes, shared with these.
    pub fn copy(&self) -> Result<SharedBytes, Memory>
        ensures { IfOk result (λ shared. shared ≡ self.now) }
    {
        let bytes = self.bytes.clone()?;
        Ok(SharedBytes {
            bytes,
            alloc: self.alloc,
        })
    }

    /// The allocator of the bytes.
    pub fn allocator(&self) -> Global {
        self.alloc
    }
}

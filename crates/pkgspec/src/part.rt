//! The parts of a spec, and copies of lists of them.
ghost use Rattle.std.specs.Prelude.{◌≡◌, IfOk};

use faults::Memory;

/// A part of a spec that can be copied, if memory allows it.
pub(crate) trait Part: Drop {
    fn copy(&self) -> Result<Self, Memory>
        ensures { IfOk result (λ part. part ≡ self.now) };
}

/// Equal parts, in the same order, or `Memory`.
pub(crate) fn copy_of_parts<T: Part>(parts: &Vec<T>) -> Result<Vec<T>, Memory>
    ensures { IfOk result (λ copies. copies.items ≡ parts.now.items) }
{
    let mut copies = Vec::with_capacity(*parts.allocator(), parts.len())?;
    for part in parts {
        copies.push(part.copy()?)?;
    }
    Ok(copies)
}

//! The flavors of a package path, as a set.
ghost use Rattle.std.specs.Prelude.{◌≡◌, filter, map, IfOk};
ghost use Rattle.faults.specs.Bytes.{comma};
ghost use Rattle.faults.specs.Pieces.{pieces_at, set_of};
ghost use Rattle.pkgpath.specs.PkgPath as grammar;

use std::alloc::{AllocError, Global};

fn is_flavor(part: &[u8]) -> bool
    ensures { result ≡ grammar.is_flavor part.now }
{
    !part.is_empty() && !part.starts_with(b"-")
}

/// The flavors among the parts of a text separated by commas, in byte order and without repetition.
pub(crate) fn flavor_set<'a>(alloc: Global, parts: &'a [u8]) -> Result<Vec<&'a [u8]>, AllocError>
    ensures { IfOk result (λ set.
        map (λ x. x.now) set.items
        ≡ set_of (filter grammar.is_flavor (pieces_at comma parts.now))) }
{
    let is_comma = |byte: &u8| *byte == b',';
    let mut flavors: Vec<&[u8]> = parts
        .split(is_comma)
        .filter(|part| is_flavor(part))
        .collect(alloc)?;
    flavors.sort_unstable();
    flavors.dedup();
    Ok(flavors)
}

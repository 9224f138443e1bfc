//! The parts of a package path after its directory.
ghost use Rattle.std.specs.Prelude.{◌≡◌, true, false, MatchOption};
ghost use Rattle.std.specs.List.{list_all};
ghost use Rattle.faults.specs.Bytes.{comma};
ghost use Rattle.faults.specs.Pieces.{pieces_at};
ghost use Rattle.pkgpath.specs.Kind.{IsOfKind, IsTally};
ghost use Rattle.pkgpath.specs.PkgPath.{is_part};

use crate::grammar::has_path_bytes;

#[derive(Clone, Copy)]
pub(crate) enum Kind {
    Empty,
    Subpackage,
    Flavor,
}

/// The number of parts of each kind, and the first part of each kind.
#[derive(Clone, Copy)]
pub(crate) struct Tally<'a> {
    pub(crate) empties: usize,
    pub(crate) subpackages: usize,
    pub(crate) subpackage: Option<&'a [u8]>,
    pub(crate) flavors: usize,
    pub(crate) flavor: Option<&'a [u8]>,
}

fn kind_of(part: &[u8]) -> Option<Kind>
    ensures { MatchOption result (is_part part.now ≡ false) (λ kind. IsOfKind kind part.now) }
{
    if !has_path_bytes(part) {
        return None;
    }
    if part.is_empty() {
        Some(Kind::Empty)
    } else if !part.starts_with(b"-") {
        Some(Kind::Flavor)
    } else if part.len() > 1 {
        Some(Kind::Subpackage)
    } else {
        None
    }
}

/// Counts the parts of a text separated by commas, if all are valid.
pub(crate) fn count_parts<'a>(text: &'a [u8]) -> Option<Tally<'a>>
    ensures { let parts = pieces_at comma text.now in MatchOption result
        (list_all is_part parts ≡ false)
        (λ tally. (list_all is_part parts ≡ true) × IsTally tally parts) }
{
    let mut empties = 0;
    let mut subpackages = 0;
    let mut subpackage = None;
    let mut flavors = 0;
    let mut flavor = None;
    for part in text.split(|byte| *byte == b',') {
        match kind_of(part)? {
            Kind::Empty => empties += 1,
            Kind::Subpackage => {
                subpackages += 1;
                subpackage = subpackage.or(Some(part));
            }
            Kind::Flavor => {
                flavors += 1;
                flavor = flavor.or(Some(part));
            }
        }
    }
    Some(Tally {
        empties,
        subpackages,
        subpackage,
        flavors,
        flavor,
    })
}

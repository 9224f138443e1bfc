//! Specs of packages in the form of packages-specs(7), and the names that they match.
#![tactic(auto)]

ghost use Rattle.std.specs.Prelude.{◌≡◌, None};
ghost use Rattle.pkgspec.specs.Refusals.{number_of};
ghost use Rattle.pkgspec.specs.declared.SpecFault.TheVariants.{Memory as OutOfMemory};

use faults::{Fault, WantOfMemory};
use thiserror::Error;

mod alternative;
mod bound;
mod demand;
mod part;
mod spec;

pub use crate::spec::Spec;

/// Why a text is not a spec. First the whole text is tested, for `Empty` and then for `TooLong`.
/// Then the alternatives are parsed from the left, each tested in this order: whether it is empty
/// (`Empty`), its stem (`BadByte`), its bounds (`BadBound`), its flavors (`BadByte`). The first
/// fault is returned; `Memory` may be returned in any case. No fault has a place. The numbers, the
/// limit and the order of the tests are this project's own.
#[derive(Clone, Copy, Debug, PartialEq, Eq, Error)]
pub enum SpecFault {
    /// Number 1: an allocation failed. Says nothing about the text.
    #[error("out of memory")]
    Memory,
    /// Number 301: the text is empty, or one of its alternatives is.
    #[error("the spec or an alternative is empty")]
    Empty,
    /// Number 304: the text has more than 1,024 bytes.
    #[error("the spec has more than 1024 bytes")]
    TooLong,
    /// Number 303: a stem or a flavor has a byte that isn't allowed in a name, or a flavor is
    /// empty.
    #[error("a stem or a flavor has a byte that isn't allowed, or a flavor is empty")]
    BadByte,
    /// Number 302: a bound is neither `*` nor a version with at most one operator before it.
    #[error("a bound is neither a star nor a version, alone or after one operator")]
    BadBound,
}

impl Fault for SpecFault {
    ghost number_of = { number_of };

    ghost place_of = { λ _. None };

    fn number(&self) -> u32 {
        match self {
            SpecFault::Memory => 1,
            SpecFault::Empty => 301,
            SpecFault::BadBound => 302,
            SpecFault::BadByte => 303,
            SpecFault::TooLong => 304,
        }
    }

    fn place(&self) -> Option<u64> {
        None
    }
}

impl<E: WantOfMemory> From<E> for SpecFault {
    ghost from_gives = { λ _ e. e ≡ OutOfMemory };

    fn from(_error: E) -> SpecFault {
        SpecFault::Memory
    }
}

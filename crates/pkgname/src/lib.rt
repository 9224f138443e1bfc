//! Package names in the form of packages-specs(7), and this project's order of versions.
#![tactic(auto)]

ghost use Rattle.std.specs.Prelude.{◌≡◌, None};
ghost use Rattle.pkgname.specs.declared.NameFault.TheVariants.{Memory as OutOfMemory};
ghost use Rattle.pkgname.specs.Refusals.{number_of};

use faults::{Fault, WantOfMemory};
use thiserror::Error;

mod bytes;
mod component;
mod laws;
mod name;
mod number;
mod parts;
mod pieces;
mod rest;
mod version;

pub use crate::bytes::{dash_before_version, has_name_bytes};
pub use crate::laws::version_order_is_total_preorder;
pub use crate::name::PkgName;
pub use crate::pieces::Pieces;
pub use crate::version::{Version, is_version};

/// Why a text is not a package name. The tests are made in this order, and the first that applies
/// is returned: `TooLong`, `BadByte`, `NoVersion`. `Memory` may be returned in any case. No fault
/// has a place. The numbers, the limit and the order of the tests are this project's own.
#[derive(Clone, Copy, Debug, PartialEq, Eq, Error)]
pub enum NameFault {
    /// Number 1: an allocation failed. Says nothing about the text.
    #[error("out of memory")]
    Memory,
    /// Number 203: the text has more than 255 bytes.
    #[error("the name has more than 255 bytes")]
    TooLong,
    /// Number 202: the text has a byte that isn't allowed in a name, or an empty flavor after its
    /// version.
    #[error("the name has a byte that isn't allowed, or an empty flavor")]
    BadByte,
    /// Number 201: no dash after the first byte is followed by a digit.
    #[error("the name has no version")]
    NoVersion,
}

impl Fault for NameFault {
    ghost number_of = { number_of };

    ghost place_of = { λ _. None };

    fn number(&self) -> u32 {
        match self {
            NameFault::Memory => 1,
            NameFault::NoVersion => 201,
            NameFault::BadByte => 202,
            NameFault::TooLong => 203,
        }
    }

    fn place(&self) -> Option<u64> {
        None
    }
}

impl<E: WantOfMemory> From<E> for NameFault {
    ghost from_gives = { λ _ e. e ≡ OutOfMemory };

    fn from(_error: E) -> NameFault {
        NameFault::Memory
    }
}

//! The tree of packages that a listing describes.
#![tactic(auto)]

ghost use Rattle.std.specs.Prelude.{◌≡◌};
ghost use Rattle.listing.specs.declared.ListingFault.TheVariants.{Memory};
ghost use Rattle.listing.specs.Refusals.{number_of, place_of};

use faults::{Fault, WantOfMemory};
use thiserror::Error;

mod bare_package;
mod dependency;
mod digest;
mod groups;
mod laws;
mod line;
mod table;
mod tree;
mod word;

pub use crate::laws::lone_packages_have_no_groups;
pub use crate::tree::Tree;
pub use pkgpath::PkgPath;

/// Why a text is not a listing. The first faulty line decides. A line is tested for its form, its
/// path, the number of paths, its value from the left, and a second, different value, in this
/// order. The place of each fault except `Memory` is its line, counted from 1.
#[derive(Clone, Copy, Debug, PartialEq, Eq, Error)]
pub enum ListingFault {
    /// Number 1: an allocation failed. This says nothing about the text.
    #[error("out of memory")]
    Memory,
    /// Number 401: the line has no `=`, or no dot before it; its FULLPKGNAME is not a package name;
    /// or a dependency in it is malformed, or has a malformed spec.
    #[error("line {0} is malformed")]
    BadLine(u64),
    /// Number 402: the line's own path, or the path of a dependency in it, is not a package path.
    #[error("line {0} contains a malformed package path")]
    BadPath(u64),
    /// Number 403: the line sets a variable of a path to a different value than an earlier line.
    #[error("line {0} sets a variable to another value")]
    TwiceSet(u64),
    /// Number 404: the line has the 16,385th path, or its value has a 513th dependency.
    #[error("line {0} exceeds the limit of paths or dependencies")]
    TooMany(u64),
    /// Number 405: no line is faulty, but a path has no FULLPKGNAME. The place is the first line
    /// that sets a variable of such a path.
    #[error("the path at line {0} has no name")]
    NoName(u64),
}

impl Fault for ListingFault {
    ghost number_of = { number_of };

    ghost place_of = { place_of };

    fn number(&self) -> u32 {
        match self {
            ListingFault::Memory => 1,
            ListingFault::BadLine(_) => 401,
            ListingFault::BadPath(_) => 402,
            ListingFault::TwiceSet(_) => 403,
            ListingFault::TooMany(_) => 404,
            ListingFault::NoName(_) => 405,
        }
    }

    fn place(&self) -> Option<u64> {
        match self {
            ListingFault::Memory => None,
            ListingFault::BadLine(n) => Some(*n),
            ListingFault::BadPath(n) => Some(*n),
            ListingFault::TwiceSet(n) => Some(*n),
            ListingFault::TooMany(n) => Some(*n),
            ListingFault::NoName(n) => Some(*n),
        }
    }
}

impl<E: WantOfMemory> From<E> for ListingFault {
    ghost from_gives = { λ _ e. e ≡ Memory };

    fn from(_error: E) -> ListingFault {
        ListingFault::Memory
    }
}

//! Records of built packages, and their texts.
#![tactic(auto)]

ghost use Rattle.std.specs.Prelude.{◌≡◌};
ghost use Rattle.package_record.specs.declared.RecordFault.TheVariants.{Memory as out_of_memory};
ghost use Rattle.package_record.specs.Refusals.{number_of, place_of};

use faults::{Fault, WantOfMemory};
use thiserror::Error;

mod build;
mod build_writing;
mod cursor;
mod digest;
mod equality;
mod fault;
mod fields;
mod file;
mod file_name;
mod files;
mod gathering;
mod hashed_files;
mod header;
mod laws;
mod length;
mod likely;
mod making;
mod matching;
mod names;
mod number;
mod package;
mod parsing;
mod reading;
mod room;
mod several;
mod sharing;
mod writing;

pub use crate::build::{Build, Package};
pub use crate::digest::{digest_of, digest_text};
pub use crate::file::File;
pub use crate::files::Files;
pub use crate::laws::{
    build_text_is_read_again, build_text_is_read_at_the_front, no_build_text_begins_another,
    no_text_begins_another, record_is_build, record_text_is_read_again,
    record_text_is_read_at_the_front, what_is_made_is_a_build, what_is_read_is_a_build,
};
pub use crate::package::{Record, make};
pub use claims::PkgPath;

/// The greatest number of a host; the least is 0.
pub const GREATEST_HOST: u16 = 65_535;

/// The maximum length of a file's name in bytes.
pub const LONGEST_FILE_NAME: usize = 255;

/// The maximum length in bytes of the text of a record, and of a whole build.
pub const LIMIT: usize = 4_194_304;

/// The maximum number of packages of a build.
pub const MOST_PACKAGES: usize = 16_384;

/// Why a text could not be parsed as a record, or why a record could not be made: out of memory, or
/// else the first fault. A number is that of a line, counted from 1. In a build of two or more it
/// counts lines of the record, except for `BadLine(2)` of the line with the number of records. When
/// a record or a build is made, the number of `BadFileName` counts the files of the package from 1.
#[derive(Clone, Copy, Debug, PartialEq, Eq, Error)]
pub enum RecordFault {
    #[error("out of memory")]
    Memory,
    #[error("line {0} is not what a record has at that place")]
    BadLine(u64),
    #[error("the record is cut short")]
    Truncated,
    #[error("bytes follow the record")]
    Trailing,
    #[error("the file of line {0} has another digest")]
    DigestDiffers(u64),
    #[error("file name {0} is invalid or a duplicate")]
    BadFileName(u64),
    #[error("the record is too large")]
    TooLarge,
}

impl<E: WantOfMemory> From<E> for RecordFault {
    ghost from_gives = { λ _ e. e ≡ out_of_memory };

    fn from(_e: E) -> RecordFault {
        RecordFault::Memory
    }
}

impl Fault for RecordFault {
    ghost number_of = { number_of };

    ghost place_of = { place_of };

    fn number(&self) -> u32 {
        match self {
            RecordFault::Memory => 1,
            RecordFault::BadLine(_) => 701,
            RecordFault::Truncated => 702,
            RecordFault::Trailing => 703,
            RecordFault::DigestDiffers(_) => 704,
            RecordFault::BadFileName(_) => 705,
            RecordFault::TooLarge => 706,
        }
    }

    fn place(&self) -> Option<u64> {
        match self {
            RecordFault::BadLine(n) => Some(*n),
            RecordFault::DigestDiffers(n) => Some(*n),
            RecordFault::BadFileName(n) => Some(*n),
            RecordFault::Memory => None,
            RecordFault::Truncated => None,
            RecordFault::Trailing => None,
            RecordFault::TooLarge => None,
        }
    }
}

//! Tests of what a record is made of.
ghost use Rattle.std.specs.Prelude.{◌≡◌, IfOk, OnOk, length, map, min};
ghost use Rattle.faults.specs.Answers.{IsRightUnless, unless_fault};
ghost use Rattle.package_record.specs.Content.{AreFileNames, HasNames, names_of, record_text};
ghost use Rattle.package_record.specs.FileView.{file_view};
ghost use Rattle.package_record.specs.Views.{content_of};
ghost use Rattle.package_record.specs.Making.{names_fault};

use crate::fields::Fields;
use crate::names::admit;
use crate::writing::header;
use crate::{File, RecordFault};
use faults::Memory;
use indexmap::IndexSet;
use std::alloc::Global;

/// Tests that each name is a valid file name, and that none occurs twice.
pub fn test_names(alloc: Global, files: &[File]) -> Result<(), RecordFault>
    ensures names { OnOk result (AreFileNames (names_of (map file_view files.now))) }
    ensures exact { IsRightUnless RecordFault.Memory result
        (unless_fault (names_fault (names_of (map file_view files.now))) tt) }
{
    let mut names = IndexSet::new(alloc);
    for (index, file) in files.iter().enumerate() {
        if !admit(&mut names, file.name.as_slice())? {
            return Err(RecordFault::BadFileName(index as u64 + 1));
        }
    }
    Ok(())
}

/// The length of the text in bytes, or the maximum of `usize` if it is longer.
pub fn text_length(alloc: Global, fields: &Fields) -> Result<usize, Memory>
    ensures length { IfOk result (λ n.
        n ≡ min (length (record_text (content_of fields.now))) 18446744073709551615) }
    ensures names { OnOk result (HasNames (content_of fields.now)) }
{
    let mut text_length = header(alloc, fields)?.len();
    let files = fields.files.as_slice();
    for file in files {
        text_length = text_length.saturating_add(file.bytes.len());
    }
    Ok(text_length)
}

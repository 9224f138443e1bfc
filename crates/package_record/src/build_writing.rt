//! The text of a build.
ghost use Rattle.std.specs.Prelude.{◌≡◌, ◌++◌, IfOk, OnOk};
ghost use Rattle.package_record.specs.Build.{build_text, lines_before};

use crate::Record;
use crate::writing::put_field;
use faults::Memory;
use itoa::Buffer;
use std::alloc::Global;

/// Appends the lines before this number of records: none before a single one.
pub fn put_lines(out: &mut Vec<u8>, count: usize) -> Result<(), Memory>
    ensures { OnOk result (out.new.items ≡ out.old.items ++ lines_before count) }
{
    if count < 2 {
        return Ok(());
    }
    let mut text = Buffer::new();
    put_field(out, b"@dpb 2", b"")?;
    put_field(out, b"@packages ", text.format(count).as_bytes())?;
    Ok(())
}

/// The whole text.
pub fn text(alloc: Global, records: &[Record]) -> Result<Vec<u8>, Memory>
    ensures { IfOk result (λ text. text.items ≡ build_text records.now) }
{
    let mut text = Vec::new(alloc);
    put_lines(&mut text, records.len())?;
    for record in records {
        record.put_text(&mut text)?;
    }
    Ok(text)
}

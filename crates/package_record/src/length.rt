//! The length of the text of a build.
ghost use Rattle.std.specs.Prelude.{◌≡◌, ◌≤◌, IfOk, length};
ghost use Rattle.package_record.specs.Build.{build_text};
ghost use Rattle.package_record.specs.Content.{most_bytes, record_text};

use crate::{Build, Record};
use faults::Memory;

impl Build {
    /// The length of its text. Computed without copying the bytes of files.
    pub fn text_len(&self) -> Result<usize, Memory>
        ensures len { IfOk result (λ len. len ≡ length (build_text self.now)) }
        ensures few { IfOk result (λ len. len ≤ most_bytes) }
    {
        // Calling this gives the proof that it is a valid build, whose text is within the limit.
        let _path = self.unit_path();
        let lines = self.lines()?;
        let mut len = lines.len();
        for record in self.packages() {
            len += record_len(record)?;
        }
        Ok(len)
    }
}

/// The length of the record's text.
fn record_len(part: &Record) -> Result<usize, Memory>
    requires { length (record_text part.now) ≤ most_bytes }
    ensures { IfOk result (λ len. len ≡ length (record_text part.now)) }
{
    let header = part.header()?;
    let mut len = header.len();
    for file in part.files() {
        len += file.bytes.len();
    }
    Ok(len)
}

//! A place in a text, and the line there.
ghost use Rattle.std.specs.Prelude.{◌≡◌, ◌+◌, ◌<◌, ◌^◌, length};

use crate::RecordFault;
use crate::fault::ReadError;
use faults::split_once;

/// The rest of a text, and the number of lines passed.
#[derive(Clone, Copy)]
pub struct Cursor<'a> {
    pub rest: &'a [u8],
    pub passed: u64,
    pub ghost fits: { passed + length rest.now < 2 ^ 64 },
}

impl<'a> Cursor<'a> {
    ghost use Rattle.package_record.specs.inside.Cursor.{cursor_view};
    ghost use Rattle.package_record.specs.inside.Given.{Gives};
    ghost use Rattle.package_record.specs.Reading.{field_at, line_at};

    /// The line without its LF, and the cursor after it.
    pub fn line(self) -> Result<(&'a [u8], Cursor<'a>), ReadError>
        ensures { Gives (λ x. (x.0.now, cursor_view x.1)) result
            (line_at (cursor_view self.entry)) }
    {
        match split_once(self.rest, b'\n') {
            Some((line, rest)) => {
                let passed = self.passed + 1;
                Ok((line, Cursor { rest, passed }))
            }
            None => Err(ReadError::Fault(RecordFault::Truncated)),
        }
    }

    /// The rest of the line after the word that has to begin it, and the cursor after the line.
    #[tactic(auto, unfolding(crate::specs::Reading::field_at))]
    pub fn field(self, word: &[u8]) -> Result<(&'a [u8], Cursor<'a>), ReadError>
        ensures { Gives (λ x. (x.0.now, cursor_view x.1)) result
            (field_at word.now (cursor_view self.entry)) }
    {
        let (line, after) = self.line()?;
        match line.strip_prefix(word) {
            Some(text) => Ok((text, after)),
            None => Err(after.bad_line()),
        }
    }

    /// The fault that the last line passed is not the expected one.
    pub fn bad_line(self) -> ReadError
        ensures { result ≡ ReadError.Fault (RecordFault.BadLine self.entry.passed) }
    {
        ReadError::Fault(RecordFault::BadLine(self.passed))
    }
}

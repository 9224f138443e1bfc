//! Printing an answer.
ghost use Rattle.std.specs.Prelude.{OnErr, OnOk};
ghost use Rattle.std.specs.Io.KnownBytes.{Appends};
ghost use Rattle.program_io.specs.Printing.{AppendsBeginning};

use std::io;
use std::io::{ErrorKind, Write};

/// Writes the text and flushes it. After an error only a prefix of it was written; the contract of
/// `Write::write_all` doesn't say that.
pub fn print<O: Write>(out: &mut O, text: &[u8]) -> io::Result<()>
    ensures ok { OnOk result (Appends (O.contents out.old) (O.contents out.new) text.now) }
    ensures err { OnErr result
        (AppendsBeginning (O.contents out.old) (O.contents out.new) text.now) }
{
    let mut rest = text;
    for _ in 0..u64::MAX {
        if rest.is_empty() {
            return out.flush();
        }
        match out.write(rest) {
            Ok(0) => break,
            Ok(count) => rest = &rest[count..],
            Err(error) if error.kind() == ErrorKind::Interrupted => {}
            Err(error) => return Err(error),
        }
    }
    Err(io::Error::from(ErrorKind::WriteZero))
}

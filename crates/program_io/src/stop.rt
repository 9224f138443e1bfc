//! Why the program stops before its answer is printed.
ghost use Rattle.std.specs.Prelude.{◌≡◌, ◌⊎◌, IfSome, OnOk};
ghost use Rattle.std.specs.Io.KnownBytes.{Appends};
ghost use Rattle.program_io.specs.Printing.{AppendsBeginning};
ghost use Rattle.program_io.specs.Stops.{IsBegun, IsTold, StopsBy, refusal_line, status_after};
ghost use Rattle.program_io.specs.declared.stop.Stop.TheVariants.{Refused};

use crate::printing::print;
use crate::refusal::Refusal;
use arrayvec::ArrayString;
use clap::Error;
use clap::error::ErrorKind;
use std::fmt::Write as _;
use std::io;
use std::io::Write;

/// The maximum length of the line of a refusal in bytes: a name of 80, and what follows it.
const MOST_IN_LINE: usize = 128;

/// Why the program stops before its answer is printed.
#[derive(Drop)]
pub enum Stop {
    /// The words are not a call, or ask for help. Nothing was written.
    WrongWords(Error),
    /// The call can't be executed. Nothing was written.
    Refused(Refusal),
    /// The answer, or the rest of it, can't be written: fault 2.
    Unwritten(Refusal),
}

impl Stop {
    /// The exit status of the program: 2 or 1.
    pub fn status(&self) -> u8
        ensures after { result ≡ status_after self.now }
        ensures ill { (result ≡ 1) ⊎ (result ≡ 2) }
    {
        match self {
            Stop::WrongWords(_) => 2,
            Stop::Refused(_) | Stop::Unwritten(_) => 1,
        }
    }

    /// Prints the reason to `err`: clap's text, or one line of the program's name and `: fault N`
    /// or `: fault N at K`. After an error only a prefix of that line was written.
    pub fn tell<E: Write>(self, program: &str, err: &mut E) -> io::Result<()>
        ensures told { OnOk result
            (IsTold program.now self (E.contents err.old) (E.contents err.new)) }
        ensures begun { IsBegun program.now self (E.contents err.old) (E.contents err.new) }
    {
        match self {
            Stop::WrongWords(error) => write!(err, "{error}"),
            Stop::Refused(refusal) | Stop::Unwritten(refusal) => {
                tell_refusal(program, refusal, err)
            }
        }
    }
}

/// Writes the line of a refusal without allocating memory. If the program's name is too long for
/// it, nothing is written.
fn tell_refusal<E: Write>(program: &str, refusal: Refusal, err: &mut E) -> io::Result<()>
    ensures told { OnOk result (Appends (E.contents err.old) (E.contents err.new)
        (refusal_line program.now refusal)) }
    ensures begun { AppendsBeginning (E.contents err.old) (E.contents err.new)
        (refusal_line program.now refusal) }
{
    match line_of(program, refusal) {
        Some(line) => print(err, line.as_str().as_bytes()),
        None => Err(io::Error::from(io::ErrorKind::WriteZero)),
    }
}

/// The line of a refusal, if it fits.
fn line_of(program: &str, refusal: Refusal) -> Option<ArrayString<MOST_IN_LINE>>
    ensures { IfSome result (λ line. line.bytes ≡ refusal_line program.now refusal) }
{
    let mut line = ArrayString::new();
    match writeln!(line, "{program}: {refusal}") {
        Ok(()) => Some(line),
        Err(_) => None,
    }
}

impl From<Error> for Stop {
    ghost from_gives = { StopsBy };

    fn from(error: Error) -> Stop {
        if error.kind() == ErrorKind::OutOfMemory {
            Stop::Refused(Refusal::memory())
        } else {
            Stop::WrongWords(error)
        }
    }
}

impl From<Refusal> for Stop {
    ghost from_gives = { λ refusal stop. stop ≡ Refused refusal };

    fn from(refusal: Refusal) -> Stop {
        Stop::Refused(refusal)
    }
}

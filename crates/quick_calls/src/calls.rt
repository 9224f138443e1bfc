//! The calls of `dpbr` that need no node. The program ends after one call, so `status` and `audit`
//! don't free what is large then; the system does.
ghost use Rattle.std.specs.Prelude.{◌≡◌, ◌≤◌, ◌⊎◌, IfErr, IfNone, IfOk, IfSome, map, string_bytes};
ghost use Rattle.std.specs.Io.KnownBytes.{Keeps};
ghost use Rattle.quick_calls.specs.Others.{AsksForOther, IsOther};
ghost use Rattle.quick_calls.specs.Printed.{HasCarriedOut, HasPrinted, IsOutputOf};
ghost use Rattle.quick_calls.specs.Stopped.{CannotCarryOut, HasFailed, HasStopped, RefusesCall};
ghost use Rattle.dpbr_cli.specs.Calls.{AreTaken};
ghost use Rattle.dpbr_cli.specs.Explaining.{explanation, release_line};
ghost use Rattle.program_io.specs.Refusals.{memory_refusal};

use dpbr_audit::audit_of_files;
use dpbr_cli::{Call, dpbr_words, explanation, release_text};
use dpbr_status::status_of_files;
use program_io::{Answer, NamedTexts, Refusal, Stop, print};
use std::alloc::Global;
use std::io::Write;

/// What is written to standard error if the arguments make one of the other calls.
const OTHERS: &[u8] = b"dpbr_quick: this is the small program, without run and wayon\n";

/// Carries out the call that the arguments make, and returns the exit status:
/// - 0;
/// - 3 after an audit whose answer is no;
/// - 1 after a fault, with just one line on `err`, `dpbr: fault N` or `dpbr: fault N at K`;
/// - 2 if the arguments make no call or ask for help, after clap's text on `err`; or if they make
///   another call than these.
///
/// The first argument is the program's name. The whole output is made before any of it is written
/// to `out`. If it can't be written, that is fault 2.
pub fn quick_main<T: NamedTexts, O: Write, E: Write>(
    texts: &T,
    alloc: Global,
    words: &[String],
    out: &mut O,
    err: &mut E,
) -> u8
    ensures status { result ≤ 3 }
    ensures done { result ≡ 0 → HasCarriedOut (T.gave texts.now) (map string_bytes words.now) 0
        (O.contents out.old) (O.contents out.new) }
    ensures denied { result ≡ 3 → HasCarriedOut (T.gave texts.now) (map string_bytes words.now) 3
        (O.contents out.old) (O.contents out.new) }
    ensures fault { result ≡ 1 → HasFailed (T.gave texts.now) (map string_bytes words.now)
        (O.contents out.old) (O.contents out.new) (E.contents err.old) (E.contents err.new) }
    ensures wrong_words { result ≡ 2 → (¬ AreTaken (map string_bytes words.now))
        ⊎ AsksForOther (map string_bytes words.now) }
    ensures quiet { result ≡ 2 → Keeps (O.contents out.old) (O.contents out.new) }
    ensures untold { (result ≡ 0) ⊎ (result ≡ 3)
        → Keeps (E.contents err.old) (E.contents err.new) }
{
    match quick_call(texts, alloc, words, out) {
        Ok(Some(status)) => status,
        Ok(None) => {
            let _ = err.write_all(OTHERS);
            2
        }
        Err(stop) => {
            let status = stop.status();
            let _ = stop.tell("dpbr", err);
            status
        }
    }
}

/// Carries out the call that the arguments make, and returns the exit status: 0, or 3 after an
/// audit whose answer is no. If they make another call of `dpbr`, it returns `None` and writes
/// nothing. The first argument is the program's name.
///
/// The files are read in the order of the arguments, each before the next is opened. All output is
/// made before it is written.
///
/// # Errors
///
/// `WrongWords` if clap finds no call in the arguments; `Refused` if a file can't be read, its text
/// has a fault, or memory ran out; `Unwritten` if a write to `out` failed.
pub fn quick_call<T: NamedTexts, O: Write>(
    texts: &T,
    alloc: Global,
    words: &[String],
    out: &mut O,
) -> Result<Option<u8>, Stop>
    ensures status { IfOk result (λ some. IfSome some (λ status. (status ≡ 0) ⊎ (status ≡ 3))) }
    ensures done { IfOk result (λ some. IfSome some (λ status. HasCarriedOut (T.gave texts.now)
        (map string_bytes words.now) status (O.contents out.old) (O.contents out.new))) }
    ensures other { IfOk result (λ some. IfNone some (AsksForOther (map string_bytes words.now)
        × Keeps (O.contents out.old) (O.contents out.new))) }
    ensures stopped { IfErr result (λ stop. HasStopped (T.gave texts.now)
        (map string_bytes words.now) stop (O.contents out.old) (O.contents out.new)) }
{
    let call = dpbr_words(alloc, words)?;
    carry_out(texts, alloc, &call, out)
}

/// Prints what the call asks for, and returns its status; or `None` if it is another call than
/// these.
fn carry_out<T: NamedTexts, O: Write>(
    texts: &T,
    alloc: Global,
    call: &Call<'_>,
    out: &mut O,
) -> Result<Option<u8>, Stop>
    ensures status { IfOk result (λ some. IfSome some (λ status. (status ≡ 0) ⊎ (status ≡ 3))) }
    ensures printed { IfOk result (λ some. IfSome some (λ status. HasPrinted (T.gave texts.now)
        call.now status (O.contents out.old) (O.contents out.new))) }
    ensures other { IfOk result (λ some. IfNone some (IsOther call.now
        × Keeps (O.contents out.old) (O.contents out.new))) }
    ensures stopped { IfErr result (λ stop. CannotCarryOut (T.gave texts.now) call.now stop
        (O.contents out.old) (O.contents out.new)) }
{
    let Some(answer) = answer_of_files(texts, alloc, call)? else {
        return Ok(None);
    };
    match print(out, answer.text.as_slice()) {
        Ok(()) => Ok(Some(answer.status)),
        Err(_) => Err(Stop::Unwritten(Refusal::device())),
    }
}

/// The output of the call, or `None` if it is another call than these.
fn answer_of_files<T: NamedTexts>(
    texts: &T,
    alloc: Global,
    call: &Call<'_>,
) -> Result<Option<Answer>, Refusal>
    ensures output { IfOk result (λ some. IfSome some
        (λ answer. IsOutputOf (T.gave texts.now) call.now answer.status answer.text.items)) }
    ensures status { IfOk result
        (λ some. IfSome some (λ answer. (answer.status ≡ 0) ⊎ (answer.status ≡ 3))) }
    ensures other { IfOk result (λ some. IfNone some (IsOther call.now)) }
    ensures refused { IfErr result (RefusesCall (T.gave texts.now) call.now) }
{
    match call {
        Call::Status {
            listing,
            held,
            is_single,
        } => Ok(Some(status_of_files(texts, alloc, listing, held, *is_single)?)),
        Call::Audit {
            listing,
            list,
            is_single,
        } => Ok(Some(audit_of_files(texts, alloc, listing, list, *is_single)?)),
        Call::Run { .. } | Call::Wayon { .. } => Ok(None),
        Call::Explain { number } => Ok(Some(explained(alloc, *number)?)),
        Call::Release => Ok(Some(release(alloc, "dpbr")?)),
    }
}

/// The explanation of a fault.
pub fn explained(alloc: Global, number: u16) -> Result<Answer, Refusal>
    ensures output { IfOk result
        (λ answer. (answer.status ≡ 0) × (answer.text.items ≡ explanation number)) }
    ensures refused { IfErr result (λ r. r ≡ memory_refusal) }
{
    let text = explanation(alloc, number)?.into_bytes();
    Ok(Answer { text, status: 0 })
}

/// A program's name and its release.
pub fn release(alloc: Global, program: &str) -> Result<Answer, Refusal>
    ensures output { IfOk result
        (λ answer. (answer.status ≡ 0) × (answer.text.items ≡ release_line program.now)) }
    ensures refused { IfErr result (λ r. r ≡ memory_refusal) }
{
    let text = release_text(alloc, program)?.into_bytes();
    Ok(Answer { text, status: 0 })
}

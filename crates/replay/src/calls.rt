//! The calls of `dpbr`. The program ends after one call, so `status` and `audit` don't free what is
//! large then; the system does.
ghost use Rattle.std.specs.Prelude.{◌≡◌, ◌≤◌, ◌⊎◌, IfErr, IfOk, map, string_bytes};
ghost use Rattle.std.specs.Io.KnownBytes.{Keeps};
ghost use Rattle.replay.specs.Printed.{HasCarriedOut, HasPrinted, IsOutputOf};
ghost use Rattle.replay.specs.Stopped.{CannotCarryOut, HasFailed, HasStopped, RefusesCall};
ghost use Rattle.dpbr_cli.specs.Calls.{AreTaken};

use dpbr_audit::audit_of_files;
use dpbr_cli::{Call, dpbr_words};
use dpbr_run::run_of_files;
use dpbr_status::status_of_files;
use dpbr_wayon::{Target, wayon_of_files};
use program_io::{Answer, NamedTexts, Refusal, Stop, print};
use quick_calls::{explained, release};
use std::alloc::Global;
use std::io::Write;

/// Carries out the call that the arguments make, and returns the exit status:
/// - 0;
/// - 3 after an audit whose answer is no;
/// - 1 after a fault, with just one line on `err`, `dpbr: fault N` or `dpbr: fault N at K`;
/// - 2 if the arguments make no call or ask for help, after clap's text on `err`.
///
/// The first argument is the program's name. The whole output is made before any of it is written
/// to `out`. If it can't be written, that is fault 2.
pub fn dpbr_main<T: NamedTexts, O: Write, E: Write>(
    texts: &T,
    alloc: Global,
    words: &[String],
    out: &mut O,
    err: &mut E,
) -> u8
    ensures status { result ≤ 3 }
    ensures done { result ≡ 0 → HasCarriedOut (T.gave texts.now) (map string_bytes words.now) 0
        (O.contents out.old) (O.contents out.new) }
    ensures denied { result ≡ 3 → HasCarriedOut (T.gave texts.now) (map string_bytes words.now) 3
        (O.contents out.old) (O.contents out.new) }
    ensures fault { result ≡ 1 → HasFailed (T.gave texts.now) (map string_bytes words.now)
        (O.contents out.old) (O.contents out.new) (E.contents err.old) (E.contents err.new) }
    ensures wrong_words { result ≡ 2 → ¬ AreTaken (map string_bytes words.now) }
    ensures quiet { result ≡ 2 → Keeps (O.contents out.old) (O.contents out.new) }
    ensures untold { (result ≡ 0) ⊎ (result ≡ 3)
        → Keeps (E.contents err.old) (E.contents err.new) }
{
    match dpbr_call(texts, alloc, words, out) {
        Ok(status) => status,
        Err(stop) => {
            let status = stop.status();
            let _ = stop.tell("dpbr", err);
            status
        }
    }
}

/// Carries out the call that the arguments make, and returns the exit status: 0, or 3 after an
/// audit whose answer is no. The first argument is the program's name.
///
/// The files are read in the order of the arguments, each before the next is opened. All output is
/// made before it is written.
///
/// # Errors
///
/// `WrongWords` if clap finds no call in the arguments; `Refused` if a file can't be read, its text
/// has a fault, or memory ran out; `Unwritten` if a write to `out` failed.
pub fn dpbr_call<T: NamedTexts, O: Write>(
    texts: &T,
    alloc: Global,
    words: &[String],
    out: &mut O,
) -> Result<u8, Stop>
    ensures status { IfOk result (λ status. (status ≡ 0) ⊎ (status ≡ 3)) }
    ensures done { IfOk result (λ status. HasCarriedOut (T.gave texts.now)
        (map string_bytes words.now) status (O.contents out.old) (O.contents out.new)) }
    ensures stopped { IfErr result (λ stop. HasStopped (T.gave texts.now)
        (map string_bytes words.now) stop (O.contents out.old) (O.contents out.new)) }
{
    let call = dpbr_words(alloc, words)?;
    carry_out(texts, alloc, &call, out)
}

/// Prints what the call asks for, and returns its status.
fn carry_out<T: NamedTexts, O: Write>(
    texts: &T,
    alloc: Global,
    call: &Call<'_>,
    out: &mut O,
) -> Result<u8, Stop>
    ensures status { IfOk result (λ status. (status ≡ 0) ⊎ (status ≡ 3)) }
    ensures printed { IfOk result (λ status. HasPrinted (T.gave texts.now) call.now status
        (O.contents out.old) (O.contents out.new)) }
    ensures stopped { IfErr result (λ stop. CannotCarryOut (T.gave texts.now) call.now stop
        (O.contents out.old) (O.contents out.new)) }
{
    let answer = answer_of_files(texts, alloc, call)?;
    match print(out, answer.text.as_slice()) {
        Ok(()) => Ok(answer.status),
        Err(_) => Err(Stop::Unwritten(Refusal::device())),
    }
}

fn answer_of_files<T: NamedTexts>(
    texts: &T,
    alloc: Global,
    call: &Call<'_>,
) -> Result<Answer, Refusal>
    ensures output { IfOk result
        (λ answer. IsOutputOf (T.gave texts.now) call.now answer.status answer.text.items) }
    ensures status { IfOk result (λ answer. (answer.status ≡ 0) ⊎ (answer.status ≡ 3)) }
    ensures refused { IfErr result (RefusesCall (T.gave texts.now) call.now) }
{
    match call {
        Call::Status {
            listing,
            held,
            is_single,
        } => status_of_files(texts, alloc, listing, held, *is_single),
        Call::Audit {
            listing,
            list,
            is_single,
        } => audit_of_files(texts, alloc, listing, list, *is_single),
        Call::Run {
            listing,
            trace,
            is_single,
            has_events,
        } => run_of_files(texts, alloc, listing, trace, *is_single, *has_events),
        Call::Wayon {
            listing,
            trace,
            node,
            path,
            host,
            builds,
            is_single,
        } => {
            let target = Target {
                node: *node,
                path,
                host: *host,
            };
            wayon_of_files(texts, alloc, listing, trace, &target, builds, *is_single)
        }
        Call::Explain { number } => explained(alloc, *number),
        Call::Release => release(alloc, "dpbr"),
    }
}

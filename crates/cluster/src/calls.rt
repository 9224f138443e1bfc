//! The calls of `dpbn`.
ghost use Rattle.std.specs.Prelude.{◌≡◌, ◌≤◌, ◌⊎◌, [], IfErr, IfOk, codes, map, string_bytes};
ghost use Rattle.std.specs.Io.KnownBytes.{Keeps};
ghost use Rattle.cluster.specs.Printed.{HasCarriedOut, HasPrinted, IsOutputOf};
ghost use Rattle.cluster.specs.Stopped.{
  CannotCarryOut,
  HasFailed,
  HasStopped,
  IsGood,
  RefusesCall,
};
ghost use Rattle.dpbn_cli.specs.Calls.{AreTaken};
ghost use Rattle.dpbr_cli.specs.Explaining.{explanation, release_line};
ghost use Rattle.program_io.specs.Refusals.{IsSystemRefusal, memory_refusal};

use dpbn_build::{build_of_words, node_of_words};
use dpbn_cli::{Call, dpbn_words};
use dpbn_cluster::cluster_of_words;
use dpbn_key::make_key;
use dpbr_cli::{explanation, release_text};
use program_io::{Answer, Refusal, Stop, print};
use std::alloc::Global;
use std::io::Write;

/// Carries out the call that the arguments make, and returns the exit status:
/// - 0;
/// - 3 after a build that says that something isn't held;
/// - 1 after a fault, with one line on `err`, `dpbn: fault N` or `dpbn: fault N at K`;
/// - 2 if the arguments make no call or ask for help, after clap's text on `err`.
///
/// Faults of turns are written to `err`, too, and the turns continue.
///
/// The first argument is the program's name. All nodes' lines are made before the first is written
/// to `out`. If they can't be written, that is fault 2.
pub fn dpbn_main<O: Write, E: Write>(
    rt: &HostRuntime,
    words: &[String],
    out: &mut O,
    err: &mut E,
) -> u8
    ensures status { result ≤ 3 }
    ensures done { result ≡ 0 → HasCarriedOut (map string_bytes words.now) 0 (O.contents out.old)
        (O.contents out.new) }
    ensures unheld { result ≡ 3 → HasCarriedOut (map string_bytes words.now) 3 (O.contents out.old)
        (O.contents out.new) }
    ensures fault { result ≡ 1 → HasFailed (map string_bytes words.now) (O.contents out.old)
        (O.contents out.new) }
    ensures wrong_words { result ≡ 2 → ¬ AreTaken (map string_bytes words.now) }
    ensures quiet { result ≡ 2 → Keeps (O.contents out.old) (O.contents out.new) }
{
    match dpbn_call(rt, words, out, err) {
        Ok(status) => status,
        Err(stop) => {
            let status = stop.status();
            let _ = stop.tell("dpbn", err);
            status
        }
    }
}

/// Carries out the call that the arguments make, and returns the exit status: 0, or 3 after a build
/// that says that something isn't held. The first argument is the program's name.
///
/// # Errors
///
/// `WrongWords` if the arguments make no call; `Refused` if something that the call is given is
/// bad, or memory ran out; `Unwritten` if a write to `out` failed.
fn dpbn_call<O: Write, E: Write>(
    rt: &HostRuntime,
    words: &[String],
    out: &mut O,
    err: &mut E,
) -> Result<u8, Stop>
    ensures status { IfOk result (λ status. (status ≡ 0) ⊎ (status ≡ 3)) }
    ensures done { IfOk result (λ status. HasCarriedOut (map string_bytes words.now) status
        (O.contents out.old) (O.contents out.new)) }
    ensures stopped { IfErr result (λ stop. HasStopped (map string_bytes words.now) stop
        (O.contents out.old) (O.contents out.new)) }
{
    let call = dpbn_words(rt.alloc(), words)?;
    carry_out(rt, &call, out, err)
}

/// Prints what the call asks for, and returns its status.
fn carry_out<O: Write, E: Write>(
    rt: &HostRuntime,
    call: &Call<'_>,
    out: &mut O,
    err: &mut E,
) -> Result<u8, Stop>
    requires { IsGood call.now }
    ensures status { IfOk result (λ status. (status ≡ 0) ⊎ (status ≡ 3)) }
    ensures printed { IfOk result
        (λ status. HasPrinted call.now status (O.contents out.old) (O.contents out.new)) }
    ensures stopped { IfErr result
        (λ stop. CannotCarryOut call.now stop (O.contents out.old) (O.contents out.new)) }
{
    let answer = answer_to(rt, call, err)?;
    match print(out, answer.text.as_slice()) {
        Ok(()) => Ok(answer.status),
        Err(_) => Err(Stop::Unwritten(Refusal::device())),
    }
}

fn answer_to<E: Write>(rt: &HostRuntime, call: &Call<'_>, err: &mut E) -> Result<Answer, Refusal>
    requires { IsGood call.now }
    ensures output { IfOk result
        (λ answer. IsOutputOf call.now answer.status answer.text.items) }
    ensures status { IfOk result (λ answer. (answer.status ≡ 0) ⊎ (answer.status ≡ 3)) }
    ensures refused { IfErr result (RefusesCall call.now) }
{
    match call {
        Call::Cluster { files, trace } => cluster_of_words(rt, files, *trace, err),
        Call::Node {
            files,
            me,
            peers,
            patience,
            run,
        } => node_of_words(rt, files, *me, peers, *patience, run, err),
        Call::Build {
            site,
            me,
            peers,
            patience,
            run,
        } => build_of_words(rt, site, *me, peers, *patience, run, err),
        Call::Key { file } => made_key(rt, file),
        Call::Explain { number } => explained(rt.alloc(), *number),
        Call::Release => release(rt.alloc()),
    }
}

/// The explanation of a fault.
fn explained(alloc: Global, number: u16) -> Result<Answer, Refusal>
    ensures output { IfOk result
        (λ answer. (answer.status ≡ 0) × (answer.text.items ≡ explanation number)) }
    ensures refused { IfErr result (λ r. r ≡ memory_refusal) }
{
    let text = explanation(alloc, number)?.into_bytes();
    Ok(Answer { text, status: 0 })
}

/// The program's name and its release.
fn release(alloc: Global) -> Result<Answer, Refusal>
    ensures output { IfOk result
        (λ answer. (answer.status ≡ 0) × (answer.text.items ≡ release_line (codes "dpbn"))) }
    ensures refused { IfErr result (λ r. r ≡ memory_refusal) }
{
    let text = release_text(alloc, "dpbn")?.into_bytes();
    Ok(Answer { text, status: 0 })
}

/// Makes a file with a new key, and returns an empty text.
fn made_key(rt: &HostRuntime, file: &str) -> Result<Answer, Refusal>
    ensures output { IfOk result (λ answer. (answer.status ≡ 0) × (answer.text.items ≡ [])) }
    ensures refused { IfErr result IsSystemRefusal }
{
    match make_key(rt, file) {
        Ok(()) => Ok(Answer {
            text: Vec::new(rt.alloc()),
            status: 0,
        }),
        Err(fault) => Err(Refusal::of(&fault)),
    }
}

//! What a start does with the files that it finds.
ghost use Rattle.std.specs.Prelude.{Err, Ok, option_map};
ghost use Rattle.run_file.specs.Judging.{IsJudged, with_other_run, with_same_run, without_run};
ghost use Rattle.std.specs.Prelude.{◌≡◌};

use crate::difference::first_difference;
use crate::fault::RunFault;

/// The state in which a log's file is found.
#[derive(Clone, Copy, Debug, PartialEq, Eq)]
pub enum LogFound {
    /// It doesn't exist.
    Absent,
    /// Opening it would make a log of it.
    Blank,
    /// It is as long as a log without notes.
    Fresh,
    /// It is longer, or not a log.
    Noted,
}

/// What a start does next.
#[derive(Clone, Copy, Debug, PartialEq, Eq)]
pub enum Plan {
    /// Create the log's file, which doesn't exist, and continue as with `Write`.
    Make,
    /// Open the log, and then write the run file.
    Write,
    /// Open the log.
    Go,
}

/// What a start does with this run file, or without one, and this log, if the run file's text
/// should be `wanted`.
///
/// # Errors
///
/// - `Lost` if there is a run file but no log, or if the run file is of this run and the log is
///   blank.
/// - `Differs` if there is a log, and the run file is of another run.
/// - `NothingThere` if the run should be continued, there is no run file, and the log is missing or
///   blank.
/// - `Differs(0)` if the run has a key, and the log has notes but no run file.
pub fn judge(
    run: Option<&[u8]>,
    wanted: &[u8],
    log: LogFound,
    has_key: bool,
    is_continued: bool,
) -> Result<Plan, RunFault>
    ensures { IsJudged (option_map (λ r. r.now) run.entry) wanted.now log has_key is_continued
        result }
{
    let Some(run) = run else {
        return without_run(log, has_key, is_continued);
    };
    match first_difference(run, wanted) {
        Some(line) => with_other_run(line, log),
        None => with_same_run(log),
    }
}

/// If the run file is of this run.
fn with_same_run(log: LogFound) -> Result<Plan, RunFault>
    ensures { result ≡ with_same_run log }
{
    match log {
        LogFound::Absent | LogFound::Blank => Err(RunFault::Lost),
        LogFound::Fresh | LogFound::Noted => Ok(Plan::Go),
    }
}

/// If the run file first differs in this line.
fn with_other_run(line: u64, log: LogFound) -> Result<Plan, RunFault>
    ensures { result ≡ with_other_run line log }
{
    match log {
        LogFound::Absent => Err(RunFault::Lost),
        LogFound::Blank | LogFound::Fresh | LogFound::Noted => Err(RunFault::Differs(line)),
    }
}

/// If there is no run file.
fn without_run(log: LogFound, has_key: bool, is_continued: bool) -> Result<Plan, RunFault>
    ensures { result ≡ without_run has_key is_continued log }
{
    match log {
        LogFound::Absent | LogFound::Blank if is_continued => Err(RunFault::NothingThere),
        LogFound::Absent => Ok(Plan::Make),
        LogFound::Noted if has_key => Err(RunFault::Differs(0)),
        LogFound::Blank | LogFound::Fresh | LogFound::Noted => Ok(Plan::Write),
    }
}

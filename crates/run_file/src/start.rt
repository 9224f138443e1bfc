//! A start on a log.
ghost use Rattle.std.specs.Prelude.{IfErr, IfOk, Ok, option_map, string_bytes};
ghost use Rattle.run_file.specs.Looking.{IsJustOpened, IsOwn};
ghost use Rattle.run_file.specs.Starts.{
  IsJudgedBy,
  IsPlanned,
  IsStarted,
  IsUnwritten,
  RefusesPlan,
  RefusesStart,
};

use crate::fault::StartFault;
use crate::folder_mode::test_folder_mode;
use crate::found::found_in;
use crate::judging::{LogFound, Plan, judge};
use crate::log_folder::LogFolder;
use crate::text::run_text;
use stable_record::{FileDisk, Identity};
use std::alloc::Global;

/// The log that a node starts on.
#[derive(Drop)]
pub struct Start {
    /// The log's file. It is locked while the disk is open.
    pub disk: FileDisk,
    /// The text of the run file, if it must be written once the log is open.
    pub unwritten: Option<String>,
}

/// Finds what a node starts on, in this folder, in which only its owner may write. Nothing is
/// written to a file. If the log doesn't exist and may be created, an empty file is created.
///
/// First the log is opened, and locked, so that a second start on it is refused before it reads
/// anything more. If the log doesn't exist, the run file is read, which decides whether it is
/// created. Then the run file is read again, and judged together with the state of the log.
///
/// # Errors
///
/// The system's refusal, also if the log is locked; `Shared` if others may write in the folder;
/// `Device` if the log can't be read; those of `judge`.
pub fn start_on<F: LogFolder>(
    alloc: Global,
    folder: &F,
    identity: &Identity,
    key: Option<&[u8; 16]>,
    is_continued: bool,
) -> Result<Start, StartFault>
    ensures own { IfOk result (λ _. IsOwn (F.had_mode folder.now)) }
    ensures started { IfOk result (λ s. IsStarted (F.gave folder.now identity.now.me)
        (F.known folder.now identity.now.me) identity.now (option_map (λ k. k.now) key.entry)
        is_continued s.disk (option_map string_bytes s.unwritten)) }
    ensures refused { IfErr result (RefusesStart (F.had_mode folder.now)
        (F.gave folder.now identity.now.me) identity.now (option_map (λ k. k.now) key.entry)
        is_continued) }
{
    test_folder_mode(folder.mode()?)?;
    let text = run_text(alloc, identity, key)?;
    let wanted = Wanted {
        text: text.as_bytes(),
        has_key: key.is_some(),
        is_continued,
    };
    let log = planned(folder, identity, &wanted)?;
    let PlannedLog { disk, plan } = log;
    let unwritten = unwritten_by(plan, text);
    Ok(Start { disk, unwritten })
}

/// The text of the run file, if it must still be written by this plan.
fn unwritten_by(plan: Plan, text: String) -> Option<String>
    ensures { IsUnwritten (string_bytes text) plan (option_map string_bytes result) }
{
    match plan {
        Plan::Go => None,
        Plan::Make | Plan::Write => Some(text),
    }
}

/// What a run requires.
#[derive(Drop)]
struct Wanted<'a> {
    /// The run file's text.
    text: &'a [u8],
    has_key: bool,
    is_continued: bool,
}

/// A log, and what is done with it and with the run file.
#[derive(Drop)]
struct PlannedLog {
    disk: FileDisk,
    plan: Plan,
}

/// Opens the owner's log, looks at it and at the run file, and plans what is done with them.
fn planned<F: LogFolder>(
    folder: &F,
    identity: &Identity,
    wanted: &Wanted<'_>,
) -> Result<PlannedLog, StartFault>
    ensures planned { IfOk result (λ planned. IsPlanned (F.gave folder.now identity.now.me)
        (F.known folder.now identity.now.me) identity.now wanted.now.text.now wanted.now.has_key
        wanted.now.is_continued planned.disk planned.plan) }
    ensures refused { IfErr result (RefusesPlan (F.gave folder.now identity.now.me)
        wanted.now.text.now wanted.now.has_key wanted.now.is_continued) }
{
    let mut disk = log_in(folder, identity.me, wanted)?;
    let log = found_in(&mut disk, identity)?;
    let plan = plan_for(folder, identity.me, wanted, log)?;
    Ok(PlannedLog { disk, plan })
}

/// The disk of the member's log. The log is created if it doesn't exist and none is required.
fn log_in<F: LogFolder>(folder: &F, me: u8, wanted: &Wanted<'_>) -> Result<FileDisk, StartFault>
    ensures opened { IfOk result (IsJustOpened (F.known folder.now me)) }
    ensures refused { IfErr result (RefusesPlan (F.gave folder.now me) wanted.now.text.now
        wanted.now.has_key wanted.now.is_continued) }
{
    match folder.open_log(me)? {
        Some(disk) => Ok(disk),
        None => {
            plan_for(folder, me, wanted, LogFound::Absent)?;
            Ok(folder.make_log(me)?)
        }
    }
}

/// What is done with a log in this state, and with the run file, which is read here.
fn plan_for<F: LogFolder>(
    folder: &F,
    me: u8,
    wanted: &Wanted<'_>,
    log: LogFound,
) -> Result<Plan, StartFault>
    ensures plan { IfOk result (λ plan. IsJudgedBy (F.gave folder.now me) wanted.now.text.now log
        wanted.now.has_key wanted.now.is_continued (Ok plan)) }
    ensures refused { IfErr result (RefusesPlan (F.gave folder.now me) wanted.now.text.now
        wanted.now.has_key wanted.now.is_continued) }
{
    let found = folder.read_run(me)?;
    let run = match &found {
        Some(text) => Some(text.as_slice()),
        None => None,
    };
    match judge(run, wanted.text, log, wanted.has_key, wanted.is_continued) {
        Ok(plan) => Ok(plan),
        Err(fault) => Err(StartFault::from(fault)),
    }
}

//! The outcome of a step.
ghost use Rattle.std.specs.Prelude.{◌≡◌, IfOk};
ghost use Rattle.std.specs.Option.{option_copied};

use crate::Sends;
use ballots::Note;
use claims::Job;
use faults::Memory;

/// The outcome of a step. Its note must be on the log before its messages are sent and its job is
/// given to the host.
#[derive(Drop)]
pub struct Outcome {
    pub note: Option<Note>,
    /// In order of receiver.
    pub sends: Sends,
    pub job: Option<Job>,
}

impl Outcome {
    /// Copies the outcome. Returns `Memory` if out of memory.
    pub fn copy(&self) -> Result<Outcome, Memory>
        ensures { IfOk result (λ outcome. outcome ≡ self.now) }
    {
        let note = copy_of_note(self.note.as_ref())?;
        let sends = self.sends.copy()?;
        let job = copy_of_job(self.job.as_ref())?;
        Ok(Outcome { note, sends, job })
    }
}

/// Copies the note, if there is one.
fn copy_of_note(note: Option<&Note>) -> Result<Option<Note>, Memory>
    ensures { IfOk result (λ copy. copy ≡ option_copied note.entry) }
{
    match note {
        Some(note) => {
            let note = note.copy()?;
            Ok(Some(note))
        }
        None => Ok(None),
    }
}

/// Copies the job, if there is one.
fn copy_of_job(job: Option<&Job>) -> Result<Option<Job>, Memory>
    ensures { IfOk result (λ copy. copy ≡ option_copied job.entry) }
{
    match job {
        Some(job) => {
            let job = job.copy()?;
            Ok(Some(job))
        }
        None => Ok(None),
    }
}

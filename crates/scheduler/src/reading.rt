//! The state of a build.
ghost use Rattle.std.specs.Prelude.{◌≡◌, IfErr, IfOk};
ghost use Rattle.scheduler.specs.Looking.{IsRead, IsSeenOf};
ghost use Rattle.job_folder.specs.declared.fault.WorkFault.TheVariants.{Memory};

use job_folder::{Answer, WorkFault};
use program_io::Refusal;
use protocol::Packages;
use std::alloc::Global;
use traces::{TraceFault, read_builds};

/// The state of the build for a node's job.
#[derive(Drop)]
pub enum Look {
    /// There is no result yet, or no job.
    NotYet,
    /// It failed.
    Failed,
    /// The result, by package path.
    Made(Packages),
    /// The result is malformed, and why.
    Bad(Refusal),
}

/// Reads an answer. Fails only if memory runs out.
pub(crate) fn looked(alloc: Global, answer: Answer) -> Result<Look, WorkFault>
    ensures seen { IfOk result (IsSeenOf answer) }
    ensures refused { IfErr result (λ f. f ≡ Memory) }
{
    match answer {
        Answer::NotYet => Ok(Look::NotYet),
        Answer::Failed => Ok(Look::Failed),
        Answer::TooLong => Ok(Look::Bad(Refusal {
            number: 907,
            place: None,
        })),
        Answer::Made(text) => read(alloc, text.as_slice()),
    }
}

/// Reads the text of a result. Fails only if memory runs out.
fn read(alloc: Global, text: &[u8]) -> Result<Look, WorkFault>
    ensures read { IfOk result (IsRead text.now) }
    ensures refused { IfErr result (λ f. f ≡ Memory) }
{
    match read_builds(alloc, text) {
        Ok(builds) => Ok(Look::Made(builds)),
        Err(TraceFault::Memory) => Err(WorkFault::Memory),
        Err(fault) => Ok(Look::Bad(Refusal::of(&fault))),
    }
}

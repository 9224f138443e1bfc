//! The builds in a text.
ghost use Rattle.std.specs.Prelude.{◌≡◌, ◌⊎◌, IfErr, IfOk, Some};
ghost use Rattle.program_io.specs.Files.{RefusesAt};
ghost use Rattle.program_io.specs.Refusals.{memory_refusal};
ghost use Rattle.input_files.specs.Builds.{
  AreBuilds,
  AreSpelledAt,
  RefusesBuilds,
  RefusesBuildsFile,
};
ghost use Rattle.traces.specs.Builds.{builds_of};

use program_io::{NamedTexts, Refusal, SystemFiles};
use protocol::Packages;
use std::alloc::Global;
use std::rt::Files;
use traces::read_builds;

/// The files for paths in the text.
pub fn builds_of_text(alloc: Global, builds: &[u8]) -> Result<Packages, Refusal>
    ensures ok { IfOk result (λ given. builds_of builds.now ≡ Some given) }
    ensures refused { IfErr result (λ r. (r ≡ memory_refusal) ⊎ RefusesBuilds builds.now r) }
{
    match read_builds(alloc, builds) {
        Ok(given) => Ok(given),
        Err(fault) => Err(Refusal::of(&fault)),
    }
}

/// The files for paths in the text with this name.
///
/// # Errors
///
/// The system's refusal, and then the text's fault.
pub fn builds_of_name<T: NamedTexts>(
    texts: &T,
    alloc: Global,
    builds: &str,
) -> Result<Packages, Refusal>
    ensures ok { IfOk result (AreSpelledAt (T.gave texts.now) builds.now) }
    ensures refused { IfErr result (RefusesAt (T.gave texts.now) builds.now RefusesBuilds) }
{
    let text = texts.read(builds)?;
    builds_of_text(alloc, text.as_slice())
}

/// The files for package paths, in JSON, in the file with this name.
///
/// # Errors
///
/// The system's refusal, and then the text's fault.
pub fn builds_of_file<R: Files + AllocGlobal>(rt: &R, builds: &str) -> Result<Packages, Refusal>
    ensures ok { IfOk result AreBuilds }
    ensures refused { IfErr result RefusesBuildsFile }
{
    builds_of_name(&SystemFiles::of(rt), rt.alloc(), builds)
}

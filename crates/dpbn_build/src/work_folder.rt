//! Who may write in the work folder.
ghost use Rattle.std.specs.Prelude.{◌≡◌, ◌⊎◌, IfErr};
ghost use Rattle.dpbn_build.specs.Build.{shared_refusal};
ghost use Rattle.program_io.specs.Refusals.{IsSystemRefusal};

use program_io::Refusal;
use run_file::test_folder;

/// Tests that only its owner may write in the work folder with this path, and in its subfolders.
/// Whoever can write there can have any package published.
///
/// # Errors
///
/// The system's refusal; 1210 if others may write in one of them.
pub(crate) fn test_work(rt: &HostRuntime, path: &str) -> Result<(), Refusal>
    ensures { IfErr result (λ r. IsSystemRefusal r ⊎ (r ≡ shared_refusal)) }
{
    test_place(rt, path)?;
    for part in ["jobs", "done", "failed"] {
        let place = format!(in rt.alloc(); "{path}/{part}")?;
        test_place(rt, place.as_str())?;
    }
    Ok(())
}

/// Tests that only its owner may write in a folder.
fn test_place(rt: &HostRuntime, path: &str) -> Result<(), Refusal>
    ensures { IfErr result (λ r. IsSystemRefusal r ⊎ (r ≡ shared_refusal)) }
{
    match test_folder(rt, path) {
        Ok(()) => Ok(()),
        Err(fault) => Err(Refusal::of(&fault)),
    }
}

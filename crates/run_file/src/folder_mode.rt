//! Who may write in a folder.
ghost use Rattle.std.specs.Prelude.{◌≡◌, IfErr, OnOk};
ghost use Rattle.run_file.specs.Looking.{IsShared};
ghost use Rattle.run_file.specs.Refusals.{IsOfSystem, RefusesFolder};

use crate::fault::StartFault;
use std::fs;
use std::os::unix::fs::MetadataExt;

/// The bits of a mode that let others than the folder's owner write in it. None may be set.
const WRITING_OF_OTHERS: u32 = 0o22;

/// Tests that only its owner may write in the folder with this path.
///
/// # Errors
///
/// The system's refusal; `Shared` if others may write in it.
pub fn test_folder(rt: &HostRuntime, path: &str) -> Result<(), StartFault>
    ensures { IfErr result RefusesFolder }
{
    test_folder_mode(mode_of(rt, path)?)
}

/// Tests that only its owner may write in a folder with this mode.
///
/// # Errors
///
/// `Shared` if others may.
pub fn test_folder_mode(mode: u32) -> Result<(), StartFault>
    ensures own { OnOk result (¬ IsShared mode) }
    ensures shared { IfErr result (λ f. (f ≡ StartFault.Shared) × IsShared mode) }
{
    if mode & WRITING_OF_OTHERS == 0 {
        Ok(())
    } else {
        Err(StartFault::Shared)
    }
}

/// The mode of the folder with this path.
pub(crate) fn mode_of(rt: &HostRuntime, path: &str) -> Result<u32, StartFault>
    ensures { IfErr result IsOfSystem }
{
    Ok(fs::metadata(rt, path)?.mode())
}

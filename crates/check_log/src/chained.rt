//! Sequences of a log's calls, derived from the contracts alone.
ghost use Rattle.std.specs.Prelude.{◌≡◌, [], ◌∷◌, ◌++◌, List, IfOk, OnOk, map};
ghost use Rattle.stable_record.specs.Log.{Note, note_of};
ghost use Rattle.stable_record.specs.OpenLog.{Holds};

use stable_record::{Disk, Log, LogFault};

/// Appends two notes. After `Ok` the log holds both, after those that it held.
///
/// # Errors
///
/// Those of `append`.
pub fn append_two<D: Disk>(log: &mut Log<D>, first: &[u8], second: &[u8]) -> Result<(), LogFault>
    ensures { D.is_kept log.new.disk → (notes : List Note) → Holds D.history log.old notes
        → OnOk result (Holds D.history log.new (notes ++ first.now ∷ [] ++ second.now ∷ [])) }
{
    log.append(first)?;
    log.append(second)
}

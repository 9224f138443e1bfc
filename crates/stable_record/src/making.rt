//! Creates a log in a file that counts as blank. Whatever a crash leaves of it counts as blank,
//! too.
ghost use Rattle.std.specs.Prelude.{◌≡◌, ◌≤◌, ◌<◌, ◌+◌, ◌^◌, ◌∷◌, [], ◌++◌, length, IsErrOf, IfOk, OnOk};
ghost use Rattle.stable_record.specs.Crash.{IsOnDisk};
ghost use Rattle.stable_record.specs.Faults.{HasRisen};
ghost use Rattle.stable_record.specs.History.{seen};
ghost use Rattle.stable_record.specs.Log.{IsSettled, closed_gate, header};
ghost use Rattle.stable_record.specs.Opening.{IsBlank};
ghost use Rattle.stable_record.specs.inside.Reading.{StaysAs};

use crate::down::{cut_down, write_down};
use crate::{Disk, DiskFault, Identity};

/// Creates a log without notes, and returns the position of its closed gate.
pub(crate) fn make<D: Disk>(disk: &mut D, owner: Vec<u8>) -> Result<u64, DiskFault>
    ensures any_moment { D.is_kept disk.new → (i : Identity) → owner.items ≡ header i
        → IsOnDisk (D.history disk.old) → IsBlank i (seen (D.history disk.old))
        → StaysAs i [] (D.history disk.old) (D.history disk.new) }
    ensures made { D.is_kept disk.new → (i : Identity) → owner.items ≡ header i
        → IfOk result (IsSettled (D.history disk.new) i []) }
    ensures place { IfOk result (λ place. (place ≡ 1 + length owner.items) × (place + 1 < 2 ^ 64)) }
    ensures kept { D.is_kept disk.new → D.is_kept disk.old }
    ensures later { D.failures_of disk.old ≤ D.failures_of disk.new }
    ensures cause { IsErrOf result DiskFault.Device
        → HasRisen (D.failures_of disk.old) (D.failures_of disk.new) }
{
    let mut owner = owner;
    let place = owner.len() as u64 + 1;
    owner.push(0)?;
    disk.reserve(place + 2, 8)?;
    begin(disk)?;
    finish(disk, &owner)?;
    Ok(place)
}

/// Replaces the contents of the file by one closed gate.
fn begin<D: Disk>(disk: &mut D) -> Result<(), DiskFault>
    ensures any_moment { D.is_kept disk.new → (i : Identity) → IsOnDisk (D.history disk.old)
        → IsBlank i (seen (D.history disk.old))
        → StaysAs i [] (D.history disk.old) (D.history disk.new) }
    ensures begun { D.is_kept disk.new
        → OnOk result (IsOnDisk (D.history disk.new)
        × (seen (D.history disk.new) ≡ closed_gate ∷ [])) }
    ensures kept { D.is_kept disk.new → D.is_kept disk.old }
    ensures later { D.failures_of disk.old ≤ D.failures_of disk.new }
    ensures cause { IsErrOf result DiskFault.Device
        → HasRisen (D.failures_of disk.old) (D.failures_of disk.new) }
{
    cut_down(disk, 0)?;
    write_down(disk, 0, &[0])
}

/// Writes the header and a closed gate after it, and opens the gate in front of it.
fn finish<D: Disk>(disk: &mut D, bytes: &[u8]) -> Result<(), DiskFault>
    ensures any_moment { D.is_kept disk.new → (i : Identity)
        → bytes.now ≡ header i ++ closed_gate ∷ []
        → IsOnDisk (D.history disk.old) → seen (D.history disk.old) ≡ closed_gate ∷ []
        → StaysAs i [] (D.history disk.old) (D.history disk.new) }
    ensures made { D.is_kept disk.new → (i : Identity) → bytes.now ≡ header i ++ closed_gate ∷ []
        → IsOnDisk (D.history disk.old) → seen (D.history disk.old) ≡ closed_gate ∷ []
        → OnOk result (IsSettled (D.history disk.new) i [] (1 + length (header i))) }
    ensures kept { D.is_kept disk.new → D.is_kept disk.old }
    ensures later { D.failures_of disk.old ≤ D.failures_of disk.new }
    ensures cause { IsErrOf result DiskFault.Device
        → HasRisen (D.failures_of disk.old) (D.failures_of disk.new) }
{
    write_down(disk, 1, bytes)?;
    write_down(disk, 0, &[1])
}

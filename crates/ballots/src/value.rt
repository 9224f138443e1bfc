//! What members agree on.
ghost use Rattle.std.specs.Prelude.{◌≡◌, IfOk};
ghost use Rattle.std.specs.Option.{option_copied};

use claims::Claim;
use faults::Memory;
use package_record::Build;

/// A value that can be copied, if memory allows it.
pub trait Value: Drop {
    /// An equal value. Fails only if memory runs out.
    fn copy(&self) -> Result<Self, Memory>
        ensures { IfOk result (λ copy. copy ≡ self.now) };
}

/// Hosts agree on what they built.
impl Value for Build {
    fn copy(&self) -> Result<Build, Memory> {
        Build::copy(self)
    }
}

/// A copy of a vote, if one was cast.
pub fn copy_of_vote<V: Value>(vote: Option<&(Claim, V)>) -> Result<Option<(Claim, V)>, Memory>
    ensures { IfOk result (λ copy. copy ≡ option_copied vote.entry) }
{
    match vote {
        Some((claim, value)) => {
            let value = value.copy()?;
            Ok(Some((*claim, value)))
        }
        None => Ok(None),
    }
}

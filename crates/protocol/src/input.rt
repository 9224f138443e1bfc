//! What a member is asked.
ghost use Rattle.std.specs.Prelude.{◌≡◌, IfOk};

use crate::Packages;
use ballots::Message;
use faults::Memory;
use package_record::PkgPath;

/// What a member is asked. A path names a unit, by the unit's name or as one of its packages.
#[derive(Drop)]
pub enum Input {
    /// Open a claim for the unit, in a round above `above`, for this host to build it.
    Claim {
        path: PkgPath,
        host: u16,
        above: u64,
    },
    /// The claim's host has built the unit: these are the files of its packages.
    Built {
        path: PkgPath,
        packages: Packages,
    },
    /// The claim's host could not build the unit.
    Failed {
        path: PkgPath,
    },
    /// Ask again for what the open claim waits for.
    Nudge,
    /// Ask the others for what is agreed for the unit.
    Ask {
        path: PkgPath,
    },
    /// A message was received.
    Message(Message),
}

impl Input {
    /// Copies the input. Returns `Memory` if out of memory.
    pub fn copy(&self) -> Result<Input, Memory>
        ensures { IfOk result (λ input. input ≡ self.now) }
    {
        match self {
            Input::Claim { path, host, above } => {
                let path = path.copy()?;
                Ok(Input::Claim {
                    path,
                    host: *host,
                    above: *above,
                })
            }
            Input::Built { path, packages } => {
                let path = path.copy()?;
                let packages = packages.copy()?;
                Ok(Input::Built { path, packages })
            }
            Input::Failed { path } => {
                let path = path.copy()?;
                Ok(Input::Failed { path })
            }
            Input::Nudge => Ok(Input::Nudge),
            Input::Ask { path } => {
                let path = path.copy()?;
                Ok(Input::Ask { path })
            }
            Input::Message(message) => {
                let message = message.copy()?;
                Ok(Input::Message(message))
            }
        }
    }
}

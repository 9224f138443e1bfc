//! Why an input is refused.
ghost use Rattle.std.specs.Prelude.{◌≡◌, None};
ghost use Rattle.protocol.specs.Refusals.{cause_of, number_of};
ghost use Rattle.protocol.specs.declared.refusal.Refusal.TheVariants.{Memory as out_of_memory};

use faults::{Fault, WantOfMemory};
use package_record::RecordFault;
use thiserror::Error;

/// Why an input is refused: the first test that fails decides.
#[derive(Clone, Copy, Debug, PartialEq, Eq, Error)]
pub enum Refusal {
    #[error("out of memory")]
    Memory,
    #[error("the path is not listed")]
    Unlisted,
    #[error("the path is ignored")]
    Ignored,
    #[error("the build waits for dependencies")]
    Waiting,
    #[error("the packages are already held")]
    Held,
    #[error("there is no open claim for this")]
    NoClaim,
    #[error("no round is left")]
    RoundsSpent,
    #[error("the files don't make a build: {0}")]
    BadFiles(RecordFault),
    #[error("the message is about another tree")]
    OtherTree,
    #[error("the message is not from a member")]
    NotAMember,
    #[error("the files are for other packages")]
    OtherPackages,
}

impl<E: WantOfMemory> From<E> for Refusal {
    ghost from_gives = { λ _ e. e ≡ out_of_memory };

    fn from(_e: E) -> Refusal {
        Refusal::Memory
    }
}

impl Fault for Refusal {
    ghost number_of = { number_of };

    ghost place_of = { λ _. None };

    fn number(&self) -> u32 {
        match self {
            Refusal::Memory => 1,
            Refusal::Unlisted => 901,
            Refusal::Ignored => 902,
            Refusal::Waiting => 903,
            Refusal::Held => 904,
            Refusal::NoClaim => 905,
            Refusal::RoundsSpent => 906,
            Refusal::BadFiles(_) => 907,
            Refusal::OtherTree => 908,
            Refusal::NotAMember => 909,
            Refusal::OtherPackages => 910,
        }
    }

    fn place(&self) -> Option<u64> {
        None
    }
}

impl Refusal {
    /// The number of the underlying fault: why the files make no build.
    pub fn cause(&self) -> Option<u32>
        ensures { result ≡ cause_of self.now }
    {
        match self {
            Refusal::BadFiles(fault) => Some(fault.number()),
            _ => None,
        }
    }
}

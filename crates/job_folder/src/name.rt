//! The names of tasks.
ghost use Rattle.std.specs.Prelude.{◌≡◌, IfOk};
ghost use Rattle.job_folder.specs.Tasks.{name_of, task_of};

use crate::text::task_text;
use claims::Job;
use faults::Memory;
use sha2::{Digest, Sha256};
use std::alloc::Global;
use std::marker::Model;

/// The name of a job and its result: the SHA-256 of its task's text, as 64 lower-case hexadecimal
/// digits (FIPS 180-4). Contracts see these. Claims of one unit on the same signatures have the
/// same name, at all nodes of a run over the tree. For another tree the name differs.
#[derive(Debug, Drop)]
pub struct Name {
    digits: String,
}

impl Model for Name {
    ghost use Rattle.std.specs.Prelude.{string_bytes};
    ghost use Rattle.faults.specs.Bytes.{Text};

    ghost Value = { Text };

    ghost view = { λ name. string_bytes name.digits };
}

impl Name {
    /// The name of a job's task, in a tree of this digest.
    pub fn of(alloc: Global, tree: &[u8; 32], job: &Job) -> Result<Name, Memory>
        ensures { IfOk result (λ name. name ≡ name_of tree.now (task_of job.now)) }
    {
        let text = task_text(alloc, tree, job)?;
        let digest: [u8; 32] = Sha256::digest(text.as_slice());
        let digits = hex::encode(alloc, digest.as_slice())?;
        Ok(Name { digits })
    }

    /// The digits.
    pub fn as_str(&self) -> &str
        ensures { result.now ≡ self.now }
    {
        self.digits.as_str()
    }

    /// An equal name.
    pub fn copy(&self) -> Result<Name, Memory>
        ensures { IfOk result (λ name. name ≡ self.now) }
    {
        let digits = self.digits.clone()?;
        Ok(Name { digits })
    }
}

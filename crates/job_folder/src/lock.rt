//! Locks of files.
ghost use Rattle.std.specs.Prelude.{IfErr};
ghost use Rattle.job_folder.specs.Refusals.{IsOfSystem};

use crate::fault::WorkFault;
use std::fs;
use std::fs::{OpenOptions, TryLockError};
use std::io::ErrorKind;

/// What is known of a lock.
#[derive(Clone, Copy, Debug, PartialEq, Eq)]
pub enum Lock {
    /// Nobody holds it, or there is no such file.
    Free,
    /// Somebody holds it.
    Held,
    /// The file system has no locks, or the file isn't a regular file.
    Unknown,
}

/// What is known of the lock of the file at a path. To find out, this process holds a shared lock
/// for a moment. Only a regular file is opened, because another one might block forever.
///
/// # Errors
///
/// What the system refused.
pub(crate) fn lock_at(rt: &HostRuntime, path: &str) -> Result<Lock, WorkFault>
    ensures { IfErr result IsOfSystem }
{
    match fs::metadata(rt, path) {
        Ok(it) if !it.is_file() => return Ok(Lock::Unknown),
        Ok(_) => {}
        Err(error) if error.kind() == ErrorKind::NotFound => return Ok(Lock::Free),
        Err(error) => return Err(WorkFault::from(error)),
    }
    let file = match OpenOptions::new().read(true).open(rt, path) {
        Ok(file) => file,
        Err(error) if error.kind() == ErrorKind::NotFound => return Ok(Lock::Free),
        Err(error) => return Err(WorkFault::from(error)),
    };
    match file.try_lock_shared() {
        Ok(()) => Ok(Lock::Free),
        Err(TryLockError::WouldBlock) => Ok(Lock::Held),
        Err(TryLockError::Error(_)) => Ok(Lock::Unknown),
    }
}

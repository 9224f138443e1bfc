//! A folder of the operating system.
ghost use Rattle.std.specs.Prelude.{⊤, IfErr, IfOk};
ghost use Rattle.run_file.specs.Looking.{IsJustOpened};
ghost use Rattle.run_file.specs.Refusals.{IsOfSystem};

use crate::fault::StartFault;
use crate::files::{make_log, open_log, read_run};
use crate::folder_mode::mode_of;
use crate::log_folder::LogFolder;
use crate::supposed::Supposed;
use stable_record::FileDisk;
use std::fs::File;
use std::marker::PhantomData;

/// The folder of the system with this path. What is proved about it holds for every past of the
/// log's file, so also for the true one, which nobody knows.
#[derive(Drop)]
pub struct SystemFolder<'a, P> {
    rt: &'a HostRuntime,
    path: &'a str,
    past: PhantomData<P>,
}

impl<'a, P: Supposed> SystemFolder<'a, P> {
    /// The folder with this path.
    pub fn at(rt: &'a HostRuntime, path: &'a str) -> SystemFolder<'a, P> {
        SystemFolder {
            rt,
            path,
            past: PhantomData,
        }
    }
}

impl<'a, P: Supposed> LogFolder for SystemFolder<'a, P> {
    /// No contract can say what mode a folder of the system has.
    ghost had_mode = { λ _ _. ⊤ };

    /// No contract can say what a file of the system gives.
    ghost gave = { λ _ _ _. ⊤ };

    ghost known = { λ _ _. P.past.calls };

    fn mode(&self) -> Result<u32, StartFault> {
        mode_of(self.rt, self.path)
    }

    fn read_run(&self, me: u8) -> Result<Option<Vec<u8>>, StartFault> {
        read_run(self.rt, self.path, me)
    }

    fn open_log(&self, me: u8) -> Result<Option<FileDisk>, StartFault> {
        match open_log(self.rt, self.path, me)? {
            Some(file) => Ok(Some(locked_disk::<P>(file)?)),
            None => Ok(None),
        }
    }

    fn make_log(&self, me: u8) -> Result<FileDisk, StartFault> {
        locked_disk::<P>(make_log(self.rt, self.path, me)?)
    }
}

/// The disk over a log's file, which is locked while the disk is open.
fn locked_disk<P: Supposed>(file: File) -> Result<FileDisk, StartFault>
    ensures opened { IfOk result (IsJustOpened P.past.calls) }
    ensures refused { IfErr result IsOfSystem }
{
    match file.try_lock() {
        Ok(()) => Ok(FileDisk::new(file)),
        Err(_) => Err(StartFault::Files),
    }
}

//! The files of a member: its log, and the run file next to it. No contract says what a file holds,
//! or what the system does.
ghost use Rattle.std.specs.Prelude.{◌≡◌, ◌++◌, IfErr, IfOk, codes, string_bytes};
ghost use Rattle.std.specs.Fmt.{decimal};
ghost use Rattle.run_file.specs.Refusals.{IsOfSystem};

use crate::fault::StartFault;
use std::alloc::{AllocError, Global};
use std::fs;
use std::fs::{File, OpenOptions};
use std::io::{ErrorKind, Read, Write};

/// The maximum number of bytes that are read of a run file: more than any run file has.
const MOST: u64 = 1024;

/// Reads the member's run file. Returns `None` if it doesn't exist.
///
/// # Errors
///
/// The system's refusal.
pub fn read_run(rt: &HostRuntime, folder: &str, me: u8) -> Result<Option<Vec<u8>>, StartFault>
    ensures { IfErr result IsOfSystem }
{
    let path = path_of(rt.alloc(), folder, me, "run")?;
    let mut options = OpenOptions::new();
    options.read(true);
    match opened(rt, &options, path.as_str())? {
        Some(file) => {
            let mut text = Vec::new(rt.alloc());
            file.take(MOST).read_to_end(&mut text)?;
            Ok(Some(text))
        }
        None => Ok(None),
    }
}

/// Writes the member's run file. The text goes to a new file, which is synced and then renamed;
/// then the folder is synced. So after a crash at any moment, the name refers to the whole text or
/// to what it referred to before.
///
/// # Errors
///
/// The system's refusal.
pub fn write_run(rt: &HostRuntime, folder: &str, me: u8, text: &[u8]) -> Result<(), StartFault>
    ensures { IfErr result IsOfSystem }
{
    let path = path_of(rt.alloc(), folder, me, "run")?;
    let new = path_of(rt.alloc(), folder, me, "run.new")?;
    let mut file = File::create(rt, new.as_str())?;
    file.write_all(text)?;
    file.sync_all()?;
    fs::rename(rt, new.as_str(), path.as_str())?;
    sync_folder(rt, folder)
}

/// Opens the member's log for reading and writing. Returns `None` if it doesn't exist. The folder
/// is synced, so that a crash doesn't remove the file, whoever created it.
///
/// # Errors
///
/// The system's refusal.
pub(crate) fn open_log(rt: &HostRuntime, folder: &str, me: u8) -> Result<Option<File>, StartFault>
    ensures { IfErr result IsOfSystem }
{
    let path = path_of(rt.alloc(), folder, me, "log")?;
    let mut options = OpenOptions::new();
    options.read(true).write(true);
    let file = opened(rt, &options, path.as_str())?;
    if file.is_some() {
        sync_folder(rt, folder)?;
    }
    Ok(file)
}

/// Creates the member's log, which must not exist, and syncs the folder.
///
/// # Errors
///
/// The system's refusal, also if the file exists.
pub(crate) fn make_log(rt: &HostRuntime, folder: &str, me: u8) -> Result<File, StartFault>
    ensures { IfErr result IsOfSystem }
{
    let path = path_of(rt.alloc(), folder, me, "log")?;
    let file = File::create_new(rt, path.as_str())?;
    sync_folder(rt, folder)?;
    Ok(file)
}

/// Opens the file at a path. Returns `None` if it doesn't exist.
fn opened(rt: &HostRuntime, options: &OpenOptions, path: &str) -> Result<Option<File>, StartFault>
    ensures { IfErr result IsOfSystem }
{
    match options.open(rt, path) {
        Ok(file) => Ok(Some(file)),
        Err(error) if error.kind() == ErrorKind::NotFound => Ok(None),
        Err(error) => Err(StartFault::from(error)),
    }
}

/// Syncs the folder's entries.
fn sync_folder(rt: &HostRuntime, folder: &str) -> Result<(), StartFault>
    ensures { IfErr result IsOfSystem }
{
    let folder = format!(in rt.alloc(); "{folder}/.")?;
    File::open(rt, folder.as_str())?.sync_all()?;
    Ok(())
}

/// The path of one of the member's files.
fn path_of(alloc: Global, folder: &str, me: u8, ending: &str) -> Result<String, AllocError>
    ensures { IfOk result (λ path. string_bytes path
        ≡ folder.now ++ (codes "/node-" ++ (decimal me ++ (codes "." ++ ending.now)))) }
{
    format!(in alloc; "{folder}/node-{me}.{ending}")
}

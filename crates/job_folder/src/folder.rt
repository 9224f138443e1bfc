//! The folder with the files. Contracts don't say what a file contains, or how the system answers a
//! call.
ghost use Rattle.std.specs.Prelude.{◌≡◌, IfErr, IfOk};
ghost use Rattle.job_folder.specs.Answers.{Fits};
ghost use Rattle.job_folder.specs.Refusals.{IsOfSystem, RefusesFolder};
ghost use Rattle.job_folder.specs.Tasks.{name_of, task_of};

use crate::LONGEST_ANSWER;
use crate::answer::Answer;
use crate::fault::WorkFault;
use crate::lock::{Lock, lock_at};
use crate::name::Name;
use crate::text::job_text;
use claims::Job;
use std::alloc::{AllocError, Global};
use std::fs;
use std::fs::{File, OpenOptions};
use std::io::{ErrorKind, Read, Write};
use std::time::{Duration, SystemTime};

/// A minute, in seconds.
const MINUTE: u64 = 60;

/// One of the subfolders.
#[derive(Clone, Copy)]
enum Part {
    /// What is to be built. The node writes here.
    Jobs,
    /// What was built. Builders write here.
    Done,
    /// What failed. Builders write here, and the node does for results that it finds malformed.
    Failed,
    /// What has begun. Builders write here.
    Begun,
}

impl Part {
    fn word(self) -> &'static str {
        match self {
            Part::Jobs => "jobs",
            Part::Done => "done",
            Part::Failed => "failed",
            Part::Begun => "begun",
        }
    }
}

/// A folder with subfolders, through which jobs are given and builds returned. A file is
/// named after the task, and is always complete: it is written under a name that begins with a dot,
/// synced and renamed, and then the folder is synced. After a crash at any moment a name has either
/// the complete file or none.
///
/// Two nodes of one run that have notes may share a folder: equal tasks have equal names, and the
/// temporary names have the node's number appended.
#[derive(Clone, Copy)]
pub struct Folder<'f> {
    path: &'f str,
    /// The node's number.
    me: u8,
}

impl<'f> Folder<'f> {
    /// Opens the folder at a path. It and its subfolders are created if they don't exist.
    /// `has_notes` is whether the log has notes. Without notes no job of this run has been given
    /// yet, so there must be no files.
    ///
    /// # Errors
    ///
    /// What the system refused; `OtherRun` if the log has no notes and a subfolder has a complete
    /// file.
    pub fn open(
        rt: &HostRuntime,
        path: &'f str,
        me: u8,
        has_notes: bool,
    ) -> Result<Folder<'f>, WorkFault>
        ensures { IfErr result (RefusesFolder has_notes) }
    {
        let folder = Folder { path, me };
        for part in [Part::Jobs, Part::Done, Part::Failed] {
            let place = folder.place_of(rt.alloc(), part)?;
            fs::create_dir_all(rt, place.as_str())?;
            if !has_notes && has_files(rt, place.as_str())? {
                return Err(WorkFault::OtherRun);
            }
        }
        sync(rt, path)?;
        Ok(folder)
    }

    /// Writes a job for a tree of this digest, and returns its name. It replaces an earlier file of
    /// that name, which has the same task and perhaps another host or claim.
    ///
    /// # Errors
    ///
    /// What the system refused. The previous file, if any, is then still there, or this one is.
    pub fn post(&self, rt: &HostRuntime, tree: &[u8; 32], job: &Job) -> Result<Name, WorkFault>
        ensures name { IfOk result (λ name. name ≡ name_of tree.now (task_of job.now)) }
        ensures refused { IfErr result IsOfSystem }
    {
        let name = Name::of(rt.alloc(), tree, job)?;
        let text = job_text(rt.alloc(), tree, job)?;
        self.write(rt, Part::Jobs, &name, text.as_slice())?;
        Ok(name)
    }

    /// Whether the file of the job with this name exists. Others may have removed it.
    ///
    /// # Errors
    ///
    /// What the system refused.
    pub fn is_posted(&self, rt: &HostRuntime, name: &Name) -> Result<bool, WorkFault>
        ensures { IfErr result IsOfSystem }
    {
        self.stands(rt, Part::Jobs, name)
    }

    /// The result of the build with this name. A mark that it failed takes precedence. If the
    /// result is not a regular file, such as a folder or a FIFO, it is treated as an empty file,
    /// which is malformed. It isn't opened, because that might block forever.
    ///
    /// # Errors
    ///
    /// What the system refused.
    pub fn answer(&self, rt: &HostRuntime, name: &Name) -> Result<Answer, WorkFault>
        ensures fits { IfOk result Fits }
        ensures refused { IfErr result IsOfSystem }
    {
        if self.has_failed(rt, name)? {
            return Ok(Answer::Failed);
        }
        if self.is_no_file(rt, name)? {
            return Ok(Answer::Made(Vec::new(rt.alloc())));
        }
        let Some(file) = self.opened(rt, name)? else {
            return Ok(Answer::NotYet);
        };
        let mut text = Vec::new(rt.alloc());
        file.take(LONGEST_ANSWER as u64 + 1).read_to_end(&mut text)?;
        if text.len() > LONGEST_ANSWER {
            Ok(Answer::TooLong)
        } else {
            Ok(Answer::Made(text))
        }
    }

    /// Whether the build with this name is marked as failed. It stays marked until somebody removes
    /// the mark, so that it is tried again.
    ///
    /// # Errors
    ///
    /// What the system refused.
    pub fn has_failed(&self, rt: &HostRuntime, name: &Name) -> Result<bool, WorkFault>
        ensures { IfErr result IsOfSystem }
    {
        self.stands(rt, Part::Failed, name)
    }

    /// Whether there is a result for the job with this name: a build, or a mark that it failed.
    ///
    /// # Errors
    ///
    /// What the system refused.
    pub fn is_answered(&self, rt: &HostRuntime, name: &Name) -> Result<bool, WorkFault>
        ensures { IfErr result IsOfSystem }
    {
        if self.has_failed(rt, name)? {
            return Ok(true);
        }
        self.stands(rt, Part::Done, name)
    }

    /// Whether the job with this name has begun: whoever builds keeps a file for it. If nobody
    /// attends to the folder, the file counts as long as somebody holds its own lock, as a build
    /// does that goes on without the program that began it.
    ///
    /// # Errors
    ///
    /// What the system refused.
    pub fn has_begun(&self, rt: &HostRuntime, name: &Name) -> Result<bool, WorkFault>
        ensures { IfErr result IsOfSystem }
    {
        if !self.stands(rt, Part::Begun, name)? {
            return Ok(false);
        }
        if self.is_attended(rt)? {
            return Ok(true);
        }
        let path = self.path_of(rt.alloc(), Part::Begun, name)?;
        Ok(lock_at(rt, path.as_str())? != Lock::Free)
    }

    /// Whether somebody may build here: the folder's lock isn't free, or its file was touched
    /// lately.
    fn is_attended(&self, rt: &HostRuntime) -> Result<bool, WorkFault>
        ensures { IfErr result IsOfSystem }
    {
        if self.lock(rt)? != Lock::Free {
            return Ok(true);
        }
        match self.touched_at(rt)? {
            Some(touched_at) => Ok(is_lately(touched_at, SystemTime::now(rt)?)),
            None => Ok(false),
        }
    }

    /// Removes the job with this name, so that nobody begins it, and the file that shows it as
    /// begun. Files that don't exist are no error.
    ///
    /// # Errors
    ///
    /// What the system refused.
    pub fn withdraw(&self, rt: &HostRuntime, name: &Name) -> Result<(), WorkFault>
        ensures { IfErr result IsOfSystem }
    {
        self.remove(rt, Part::Jobs, name)?;
        self.remove(rt, Part::Begun, name)
    }

    /// Whether this host takes no jobs at the moment: a builder made a file `away`, since it can't
    /// build now, or an operator, who drains the host, made a file `stop`.
    ///
    /// # Errors
    ///
    /// What the system refused.
    pub fn is_away(&self, rt: &HostRuntime) -> Result<bool, WorkFault>
        ensures { IfErr result IsOfSystem }
    {
        Ok(self.stands_beside(rt, "away")? || self.stands_beside(rt, "stop")?)
    }

    /// Whether a file with this name is beside the subfolders.
    fn stands_beside(&self, rt: &HostRuntime, name: &str) -> Result<bool, WorkFault>
        ensures { IfErr result IsOfSystem }
    {
        let folder = self.path;
        let path = format!(in rt.alloc(); "{folder}/{name}")?;
        Ok(fs::exists(rt, path.as_str())?)
    }

    /// What is known of the folder's lock, which a builder holds as long as it runs.
    ///
    /// # Errors
    ///
    /// What the system refused.
    pub fn lock(&self, rt: &HostRuntime) -> Result<Lock, WorkFault>
        ensures { IfErr result IsOfSystem }
    {
        let path = self.path_of_lock(rt.alloc())?;
        lock_at(rt, path.as_str())
    }

    /// When the lock's file was last touched, if it exists. A builder touches it every ten seconds,
    /// because not every file system shows its lock to other hosts.
    ///
    /// # Errors
    ///
    /// What the system refused.
    pub fn touched_at(&self, rt: &HostRuntime) -> Result<Option<SystemTime>, WorkFault>
        ensures { IfErr result IsOfSystem }
    {
        let path = self.path_of_lock(rt.alloc())?;
        match fs::metadata(rt, path.as_str()) {
            Ok(it) => Ok(Some(it.modified()?)),
            Err(error) if error.kind() == ErrorKind::NotFound => Ok(None),
            Err(error) => Err(WorkFault::from(error)),
        }
    }

    /// Marks the build with this name as failed, with a line that says why, because its result is
    /// malformed. After the mark is on the disk, the result is removed: so the job is built anew
    /// after somebody removes the mark.
    ///
    /// # Errors
    ///
    /// What the system refused.
    pub fn mark(&self, rt: &HostRuntime, name: &Name, why: &str) -> Result<(), WorkFault>
        ensures { IfErr result IsOfSystem }
    {
        let line = format!(in rt.alloc(); "{why}\n")?;
        self.write(rt, Part::Failed, name, line.as_bytes())?;
        self.remove(rt, Part::Done, name)
    }

    /// Removes the job with this name, and its result, after all of its unit is held. The job is
    /// removed first, so that no builder finds the job without its result and builds it again.
    /// Files that don't exist are no error.
    ///
    /// # Errors
    ///
    /// What the system refused.
    pub fn forget(&self, rt: &HostRuntime, name: &Name) -> Result<(), WorkFault>
        ensures { IfErr result IsOfSystem }
    {
        self.remove(rt, Part::Jobs, name)?;
        self.remove(rt, Part::Done, name)?;
        self.remove(rt, Part::Failed, name)
    }

    /// Writes a file under a name that begins with a dot, syncs and renames it, and then syncs the
    /// folder. A file that an earlier run left under the temporary name is removed first.
    fn write(&self, rt: &HostRuntime, part: Part, name: &Name, text: &[u8]) -> Result<(), WorkFault>
        ensures { IfErr result IsOfSystem }
    {
        let place = self.place_of(rt.alloc(), part)?;
        let path = self.path_of(rt.alloc(), part, name)?;
        let place = place.as_str();
        let digits = name.as_str();
        let me = self.me;
        let new = format!(in rt.alloc(); "{place}/.{digits}.{me}")?;
        removed(rt, new.as_str())?;
        let mut file = File::create_new(rt, new.as_str())?;
        file.write_all(text)?;
        file.sync_all()?;
        fs::rename(rt, new.as_str(), path.as_str())?;
        sync(rt, place)
    }

    /// Removes a file, if it exists.
    fn remove(&self, rt: &HostRuntime, part: Part, name: &Name) -> Result<(), WorkFault>
        ensures { IfErr result IsOfSystem }
    {
        let path = self.path_of(rt.alloc(), part, name)?;
        removed(rt, path.as_str())
    }

    /// Whether something exists under the name in one of the subfolders.
    fn stands(&self, rt: &HostRuntime, part: Part, name: &Name) -> Result<bool, WorkFault>
        ensures { IfErr result IsOfSystem }
    {
        let path = self.path_of(rt.alloc(), part, name)?;
        match fs::metadata(rt, path.as_str()) {
            Ok(_) => Ok(true),
            Err(error) if is_missing(error.kind()) => Ok(false),
            Err(error) => Err(WorkFault::from(error)),
        }
    }

    /// Whether the result exists but isn't a regular file.
    fn is_no_file(&self, rt: &HostRuntime, name: &Name) -> Result<bool, WorkFault>
        ensures { IfErr result IsOfSystem }
    {
        let path = self.path_of(rt.alloc(), Part::Done, name)?;
        match fs::metadata(rt, path.as_str()) {
            Ok(it) => Ok(!it.is_file()),
            Err(error) if is_missing(error.kind()) => Ok(false),
            Err(error) => Err(WorkFault::from(error)),
        }
    }

    /// The result's file, opened for reading, if it exists.
    fn opened(&self, rt: &HostRuntime, name: &Name) -> Result<Option<File>, WorkFault>
        ensures { IfErr result IsOfSystem }
    {
        let path = self.path_of(rt.alloc(), Part::Done, name)?;
        match OpenOptions::new().read(true).open(rt, path.as_str()) {
            Ok(file) => Ok(Some(file)),
            Err(error) if is_missing(error.kind()) => Ok(None),
            Err(error) => Err(WorkFault::from(error)),
        }
    }

    /// The path of a file.
    fn path_of(&self, alloc: Global, part: Part, name: &Name) -> Result<String, AllocError> {
        let place = self.place_of(alloc, part)?;
        let place = place.as_str();
        let digits = name.as_str();
        format!(in alloc; "{place}/{digits}")
    }

    /// The path of the folder's lock.
    fn path_of_lock(&self, alloc: Global) -> Result<String, AllocError> {
        let path = self.path;
        format!(in alloc; "{path}/lock")
    }

    /// The path of a subfolder.
    fn place_of(&self, alloc: Global, part: Part) -> Result<String, AllocError> {
        let path = self.path;
        let word = part.word();
        format!(in alloc; "{path}/{word}")
    }
}

/// Whether a time is less than a minute ago, or still to come.
fn is_lately(then: SystemTime, now: SystemTime) -> bool {
    match now.duration_since(then) {
        Ok(passed) => passed < Duration::from_secs(MINUTE),
        Err(_) => true,
    }
}

/// Whether this error says that there is no such file. A subfolder that is a file has none in it.
fn is_missing(kind: ErrorKind) -> bool {
    matches!(kind, ErrorKind::NotFound | ErrorKind::NotADirectory)
}

/// Removes a file, if it exists.
fn removed(rt: &HostRuntime, path: &str) -> Result<(), WorkFault>
    ensures { IfErr result IsOfSystem }
{
    match fs::remove_file(rt, path) {
        Ok(()) => Ok(()),
        Err(error) if is_missing(error.kind()) => Ok(()),
        Err(error) => Err(WorkFault::from(error)),
    }
}

/// Whether a folder has a complete file.
fn has_files(rt: &HostRuntime, folder: &str) -> Result<bool, WorkFault>
    ensures { IfErr result IsOfSystem }
{
    for entry in fs::read_dir(rt, folder)? {
        if !entry?.file_name().starts_with('.') {
            return Ok(true);
        }
    }
    Ok(false)
}

/// Syncs the names in a folder to the disk.
fn sync(rt: &HostRuntime, folder: &str) -> Result<(), WorkFault>
    ensures { IfErr result IsOfSystem }
{
    let folder = format!(in rt.alloc(); "{folder}/.")?;
    File::open(rt, folder.as_str())?.sync_all()?;
    Ok(())
}

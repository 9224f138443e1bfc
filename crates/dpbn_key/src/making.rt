//! Making a new key.
ghost use Rattle.std.specs.Prelude.{◌≡◌, ◌≢◌, [], IfErr, IfOk, IfSome};
ghost use Rattle.std.specs.Path.{path_parent};
ghost use Rattle.dpbn_key.specs.Keys.{WritesAKey};
ghost use Rattle.dpbn_key.specs.Refusals.{IsOfSystem};

use crate::fault::KeyFault;
use seals::text_of_key;
use std::fs::{File, OpenOptions};
use std::io;
use std::io::Write;
use std::os::unix::fs::OpenOptionsExt;
use std::path::Path;
use std::random::RandomSource;

/// The mode of a file that only its owner may read and write.
const PRIVATE: u32 = 0o600;

/// Creates a file with a new key, which only its owner may read and write, and syncs it and its
/// folder. An existing file of that name is left as it is. The key is made before the file. If a
/// later call fails, the file stays, with no key or part of one.
///
/// # Errors
///
/// The system's refusal, also if the file exists.
pub fn make_key(rt: &HostRuntime, file: &str) -> Result<(), KeyFault>
    ensures { IfErr result IsOfSystem }
{
    let text = new_key_text(rt)?;
    make_file(rt, file, &text)?;
    Ok(())
}

/// The text of a key of random bytes. No contract says that they are random.
pub fn new_key_text<R: RandomSource>(source: &R) -> io::Result<[u8; 65]>
    ensures { IfOk result WritesAKey }
{
    let mut key = [0; 32];
    source.fill_bytes(&mut key)?;
    Ok(text_of_key(&key))
}

/// Creates a file with this text, and syncs it and its folder.
fn make_file(rt: &HostRuntime, path: &str, text: &[u8]) -> io::Result<()> {
    let mut options = OpenOptions::new();
    options.write(true).create_new(true).mode(PRIVATE);
    let mut file = options.open(rt, path)?;
    file.write_all(text)?;
    file.sync_all()?;
    File::open(rt, folder_of(path))?.sync_all()
}

/// The folder of the file at a path.
fn folder_of(path: &str) -> &str
    ensures { IfSome (path_parent path.now) (λ folder. folder ≢ [] → result.now ≡ folder) }
{
    match Path::new(path).parent() {
        Some(folder) if !folder.as_str().is_empty() => folder.as_str(),
        _ => ".",
    }
}

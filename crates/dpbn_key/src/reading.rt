//! Reading a key from a file.
ghost use Rattle.std.specs.Prelude.{◌≡◌, IfErr, IfOk, OnOk};
ghost use Rattle.dpbn_key.specs.Keys.{IsExposed, IsKeyAt, RefusesKey, WritesNoKey};
ghost use Rattle.seals.specs.KeyText.{WritesKey};

use crate::fault::KeyFault;
use crate::key_files::KeyFiles;
use seals::key_of_text;

/// The bits of a mode that concern others than the file's owner. None may be set.
const OF_OTHERS: u32 = 0o77;

/// Reads the key in the file with this name, which only the file's owner may read, write or run.
///
/// # Errors
///
/// The system's refusal; that of the mode; that of the text. In this order.
pub fn key_of_file<K: KeyFiles>(files: &K, name: &str) -> Result<[u8; 32], KeyFault>
    ensures key { IfOk result (IsKeyAt (K.gave files.now) name.now) }
    ensures refused { IfErr result (RefusesKey (K.gave files.now) name.now) }
{
    let file = files.read(name)?;
    test_mode(file.mode)?;
    key_in(file.text.as_slice())
}

/// Tests that only its owner may use a file with this mode.
///
/// # Errors
///
/// `Exposed` if others may.
pub fn test_mode(mode: u32) -> Result<(), KeyFault>
    ensures private { OnOk result (¬ IsExposed mode) }
    ensures exposed { IfErr result (λ f. (f ≡ KeyFault.Exposed) × IsExposed mode) }
{
    if mode & OF_OTHERS == 0 {
        Ok(())
    } else {
        Err(KeyFault::Exposed)
    }
}

/// The key that a file's bytes write.
///
/// # Errors
///
/// `NoKey` if they write none.
pub fn key_in(text: &[u8]) -> Result<[u8; 32], KeyFault>
    ensures key { IfOk result (WritesKey text.now) }
    ensures no_key { IfErr result (λ f. (f ≡ KeyFault.NoKey) × WritesNoKey text.now) }
{
    key_of_text(text).ok_or(KeyFault::NoKey)
}

//! The text of the run file.
ghost use Rattle.std.specs.Prelude.{◌≡◌, IfOk, option_map, string_bytes};
ghost use Rattle.run_file.specs.RunFile.{between_commas, run_text, shown_key};

use stable_record::Identity;
use std::alloc::{AllocError, Global};

/// The text for a member that owns a log, in a run whose key, if any, has this fingerprint.
///
/// # Errors
///
/// Out of memory.
pub fn run_text(
    alloc: Global,
    identity: &Identity,
    key: Option<&[u8; 16]>,
) -> Result<String, AllocError>
    ensures { IfOk result (λ text.
        string_bytes text ≡ run_text identity.now (option_map (λ k. k.now) key.entry)) }
{
    let tree = hex::encode(alloc, identity.tree.as_slice())?;
    let weights = weights_text(alloc, identity.weights.as_slice())?;
    let me = identity.me;
    let key = key_text(alloc, key)?;
    format!(in alloc; "dpbn run 1\nlisting {tree}\nweights {weights}\nmember {me}\nkey {key}\n")
}

/// The weights, separated by commas.
fn weights_text(alloc: Global, weights: &[u8]) -> Result<String, AllocError>
    ensures { IfOk result (λ text. string_bytes text ≡ between_commas weights.now) }
{
    let Some((first, others)) = weights.split_first() else {
        return Ok(String::new(alloc));
    };
    let first = *first;
    let mut text = format!(in alloc; "{first}")?;
    for weight in others {
        let weight = *weight;
        let part = format!(in alloc; ",{weight}")?;
        text.push_str(part.as_str())?;
    }
    Ok(text)
}

/// The key's fingerprint in hexadecimal, or "none".
fn key_text(alloc: Global, key: Option<&[u8; 16]>) -> Result<String, AllocError>
    ensures { IfOk result (λ text.
        string_bytes text ≡ shown_key (option_map (λ k. k.now) key.entry)) }
{
    match key {
        Some(fingerprint) => hex::encode(alloc, fingerprint.as_slice()),
        None => format!(in alloc; "none"),
    }
}

//! The key in a file's text.
ghost use Rattle.std.specs.Prelude.{◌≡◌, ◌++◌, ◌∷◌, [], List, MatchOption, ℕ};
ghost use Rattle.faults.specs.Bytes.{line_feed};
ghost use Rattle.hex.specs.Hex.{encode_lower};
ghost use Rattle.seals.specs.KeyText.{WritesKey};
ghost use Rattle.seals.specs.Run.{fingerprint};

use crate::hmac;

/// The key that the text writes. The text must be 64 hexadecimal digits and a line feed, and
/// nothing else.
pub fn key_of_text(text: &[u8]) -> Option<[u8; 32]>
    ensures { MatchOption result ((key : List ℕ) → ¬ (WritesKey text.now key))
        (WritesKey text.now) }
{
    let (end, digits) = text.split_last()?;
    if *end != b'\n' {
        return None;
    }
    let mut key = [0; 32];
    match hex::decode_to_slice(digits, &mut key) {
        Ok(()) => Some(key),
        Err(_) => None,
    }
}

/// The text that writes the key, in lower case.
pub fn text_of_key(key: &[u8; 32]) -> [u8; 65]
    ensures text { result ≡ encode_lower key.now ++ line_feed ∷ [] }
    ensures read { WritesKey result key.now }
{
    let mut text = [b'\n'; 65];
    hex::encode_to_slice(key.as_slice(), &mut text[..64]).unwrap();
    text
}

/// What may be shown of a key, so that one can see that hosts have the same one.
pub fn fingerprint(key: &[u8; 32]) -> [u8; 16]
    ensures { result ≡ fingerprint key.now }
{
    let code = hmac(key, b"dpbn key 1");
    let mut first = [0; 16];
    first.copy_from_slice(&code[..16]);
    first
}

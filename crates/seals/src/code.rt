//! A text's code under a key. What its bytes are is a definition.
ghost use Rattle.seals.specs.Hmac.{hmac};
ghost use Rattle.std.specs.Prelude.{◌≡◌};

use crate::hmac_key::Key;

/// The text's code under this key, which has any length.
#[tactic(auto, unfolding(crate::specs::Hmac::hmac))]
pub fn hmac(key: &[u8], text: &[u8]) -> [u8; 32]
    ensures { result ≡ hmac key.now text.now }
{
    Key::new(key).hmac(text)
}

//! The seal that the nodes of a run append to each text that they send: an HMAC with SHA-512, cut
//! to 32 bytes (RFC 2104). By it they know each other's texts. That nobody can make a seal without
//! the key is assumed of HMAC, and not proved.
#![tactic(auto)]

mod code;
mod comparison;
mod hmac_key;
mod key;
mod laws;
mod seal;

pub use crate::code::hmac;
pub use crate::comparison::is_same;
pub use crate::hmac_key::Key;
pub use crate::key::{fingerprint, key_of_text, text_of_key};
pub use crate::laws::{runs_are_told_apart, texts_are_told_apart};
pub use crate::seal::{SEAL_SIZE, Seal};

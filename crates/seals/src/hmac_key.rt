//! A key, and the two hashes that begin with it.
ghost use Rattle.std.specs.Prelude.{◌≡◌, ◌≤◌, length, take};
ghost use Rattle.seals.specs.Hmac.{block_of, hmac_under, with_zeros, xor_each};

use sha2::{Digest, Sha512};
use std::marker::Model;

/// The block length of SHA-512, in bytes.
const BLOCK: usize = 128;

const INNER_PAD: u8 = 0x36;

const OUTER_PAD: u8 = 0x5c;

/// A key. Contracts see it as its block. Both hashes begin with a block that depends only on the
/// key, so these are hashed once. The code of a text of up to 111 bytes then costs two blocks
/// instead of four.
#[derive(Drop)]
pub struct Key {
    block: [u8; BLOCK],
    inner: Sha512,
    outer: Sha512,
}

impl Model for Key {
    ghost use Rattle.std.specs.Prelude.{ℕ, List};
    ghost use Rattle.seals.specs.inside.Key.{AreBegun};

    ghost Value = { List ℕ };

    ghost view = { λ k. k.block };

    ghost invariant = { AreBegun };
}

impl Key {
    /// A key of these bytes, which may have any length.
    pub fn new(key: &[u8]) -> Key
        ensures { result ≡ block_of key.now }
    {
        let block = block_of(key);
        Key {
            block,
            inner: Sha512::new_with_prefix(xored(&block, INNER_PAD)),
            outer: Sha512::new_with_prefix(xored(&block, OUTER_PAD)),
        }
    }

    /// The text's code under this key. Does not allocate, and does not copy the text.
    pub fn hmac(&self, text: &[u8]) -> [u8; 32]
        ensures { result ≡ hmac_under self.now text.now }
    {
        let inner = self.inner.clone().unwrap().chain_update(text);
        let outer = self.outer.clone().unwrap();
        cut(&outer.chain_update(inner.finalize()).finalize())
    }
}

/// The key's block: the key, or its digest if it is longer than a block, followed by zeros.
fn block_of(key: &[u8]) -> [u8; BLOCK]
    ensures { result ≡ block_of key.now }
{
    if key.len() <= BLOCK {
        with_zeros(key)
    } else {
        with_zeros(&Sha512::digest(key))
    }
}

/// The bytes, followed by zeros up to a block.
fn with_zeros(bytes: &[u8]) -> [u8; BLOCK]
    requires few { length bytes.now ≤ 128 }
    ensures { result ≡ with_zeros bytes.now }
{
    let mut block = [0; BLOCK];
    block[..bytes.len()].copy_from_slice(bytes);
    block
}

/// Each byte of the block XOR the pad.
fn xored(block: &[u8; BLOCK], pad: u8) -> [u8; BLOCK]
    ensures { result ≡ xor_each pad block.now }
{
    let mut xored = *block;
    for place in 0..BLOCK {
        xored[place] ^= pad;
    }
    xored
}

/// The first half of the digest.
fn cut(digest: &[u8; 64]) -> [u8; 32]
    ensures { result ≡ take 32 digest.now }
{
    let mut code = [0; 32];
    code.copy_from_slice(&digest[..32]);
    code
}

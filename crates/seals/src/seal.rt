//! The seal of a run.
ghost use Rattle.std.specs.Prelude.{◌≡◌, ◌≢◌, ◌+◌, ◌≤◌, ◌++◌, ◌∷◌, IsOk, IsSomeAnd, List, MatchOption, OnErr, OnOk, codes, length, vec_capacity, vec_len, ℕ};
ghost use Rattle.seals.specs.Hmac.{hmac};
ghost use Rattle.seals.specs.Run.{run_key, run_text};
ghost use Rattle.seals.specs.Sealed.{sealed};

use crate::{Key, hmac, is_same};
use arrayvec::ArrayVec;
use faults::Memory;
use std::marker::Model;

/// The length of a seal, in bytes.
pub const SEAL_SIZE: usize = 32;

/// What the nodes of a run seal with. Contracts see it as the run's key.
#[derive(Drop)]
pub struct Seal {
    run_key: [u8; 32],
    key: Key,
}

impl Model for Seal {
    ghost use Rattle.std.specs.Prelude.{ℕ, List};
    ghost use Rattle.seals.specs.inside.Seal.{IsOfRun};

    ghost Value = { List ℕ };

    ghost view = { λ s. s.run_key };

    ghost invariant = { IsOfRun };
}

impl Seal {
    /// The seal of the run over the tree with this digest, among members with these weights, under
    /// this key.
    pub fn of_run(key: &[u8; 32], tree: &[u8; 32], weights: &[u8]) -> Seal
        requires few { length weights.now ≤ 9 }
        ensures { result ≡ run_key key.now tree.now weights.now }
    {
        let run_key = hmac(key, run_text(tree, weights).as_slice());
        Seal {
            run_key,
            key: Key::new(&run_key),
        }
    }

    /// A copy of the seal.
    pub fn copied(&self) -> Seal
        ensures { result ≡ self.now }
    {
        seal_under(&self.run_key)
    }

    /// Appends the seal to the text. If there is room for it, this doesn't allocate.
    ///
    /// # Errors
    ///
    /// Out of memory. The text is unchanged.
    pub fn put_on(&self, text: &mut Vec<u8>) -> Result<(), Memory>
        ensures ok { OnOk result (text.new.items ≡ sealed self.now text.old.items) }
        ensures err { OnErr result (text.new.items ≡ text.old.items) }
        ensures room { vec_len text.old + SEAL_SIZE ≤ vec_capacity text.old → IsOk result }
    {
        let seal = self.seal_of(text);
        text.extend_from_slice(&seal)?;
        Ok(())
    }

    /// The text that was sealed, if these bytes are a sealed text.
    pub fn opened<'b>(&self, bytes: &'b [u8]) -> Option<&'b [u8]>
        ensures exact { MatchOption result
            ((text : List ℕ) → bytes.now ≢ sealed self.now text)
            (λ text. bytes.now ≡ sealed self.now text.now) }
        ensures back { (text : List ℕ) → bytes.now ≡ sealed self.now text
            → IsSomeAnd result (λ opened. opened.now ≡ text) }
    {
        let (text, seal) = bytes.split_last_chunk::<SEAL_SIZE>()?;
        if is_same(&self.seal_of(text), seal) {
            Some(text)
        } else {
            None
        }
    }

    /// The text's seal.
    #[tactic(auto, unfolding(crate::specs::Hmac::hmac))]
    fn seal_of(&self, text: &[u8]) -> [u8; SEAL_SIZE]
        ensures { result ≡ hmac self.now text.now }
    {
        self.key.hmac(text)
    }
}

/// The seal of the run with this key.
fn seal_under(run_key: &[u8; SEAL_SIZE]) -> Seal
    ensures { result ≡ run_key.now }
{
    Seal {
        run_key: *run_key,
        key: Key::new(run_key),
    }
}

/// What distinguishes the run from others with its key.
fn run_text(tree: &[u8; 32], weights: &[u8]) -> ArrayVec<u8, 52>
    requires few { length weights.now ≤ 9 }
    ensures { result.items ≡ run_text tree.now weights.now }
{
    let mut text = ArrayVec::new();
    text.try_extend_from_slice(b"dpbn run 1").unwrap();
    text.try_extend_from_slice(tree).unwrap();
    text.push(weights.len() as u8);
    text.try_extend_from_slice(weights).unwrap();
    text
}

//! Signatures in a text. Each distinct one is parsed once.
ghost use Rattle.std.specs.Prelude.{◌≡◌, ◌∷◌, [], Contains, IfNone, IfOk, IfSome, MatchOption, nat_eq};
ghost use Rattle.std.proofs.Common.{rules};
ghost use Rattle.std.specs.Cmp.{partial_equiv_from_equiv};
ghost use Rattle.std.specs.Cmp.Lexicographic.{nat_list_eq_equiv, pointwise};
ghost use Rattle.std.specs.Cmp.Rules.{comparing, hashing};
ghost use Rattle.claims.specs.declared.deps.Dep.{Dep};
ghost use Rattle.package_lists.specs.List.{Spells};
ghost use Rattle.package_lists.specs.inside.Signatures.{AreFieldsOf, HasThreeFields, IsSignature};

use claims::Dep;
use faults::{Memory, split_once};
use indexmap::IndexMap;
use package_record::digest_of;
use pkgname::{NameFault, PkgName};
use pkgpath::{PathFault, PkgPath};
use std::alloc::Global;
use std::hash::{Hash, Hasher};
use std::marker::Model;

/// The text of a signature. Compared and hashed by its bytes.
#[derive(Drop)]
struct Written<'t> {
    text: &'t [u8],
}

impl<'t> Model for Written<'t> {
    ghost use Rattle.std.specs.Prelude.{ℕ, List};

    ghost Value = { List ℕ };

    ghost view = { λ w. w.text.now };
}

impl<'t> PartialEq for Written<'t> {
    ghost eq = { pointwise nat_eq };

    ghost laws = { partial_equiv_from_equiv nat_list_eq_equiv };

    fn eq(&self, other: &Written<'t>) -> bool {
        self.text == other.text
    }
}

impl<'t> Eq for Written<'t> {
    ghost laws = { nat_list_eq_equiv };
}

impl<'t> Hash for Written<'t> {
    // The text is passed to the hasher in one write, so that it can take many bytes at a time.
    ghost hash_input = { λ text. text ∷ [] };

    ghost respects_eq = { Prim.search (hashing, rules) };

    fn hash<H: Hasher>(&self, state: &mut H) {
        state.write(self.text);
    }
}

/// The signatures that were parsed. Contracts see their texts.
#[derive(Drop)]
pub struct Signatures<'t> {
    read: IndexMap<Written<'t>, Dep>,
}

impl<'t> Model for Signatures<'t> {
    ghost use Rattle.std.specs.Prelude.{ℕ, List, All};
    ghost use Rattle.package_lists.specs.inside.Signatures.{IsReadEntry, texts_of_entries};

    ghost Value = { List (List ℕ) };

    ghost view = { λ s. texts_of_entries s.read.entries };

    ghost invariant = { λ s. All IsReadEntry s.read.entries };
}

impl<'t> Signatures<'t> {
    /// No signatures yet.
    pub fn new(alloc: Global) -> Signatures<'t>
        ensures { result ≡ [] }
    {
        Signatures {
            read: IndexMap::new(alloc),
        }
    }

    /// The signature that the text `PATH NAME DIGEST` spells, if it does. For a text that was
    /// parsed before, the result is a copy of the earlier one.
    pub fn read(&mut self, alloc: Global, text: &'t [u8]) -> Result<Option<Dep>, Memory>
        ensures some { IfOk result (λ found. IfSome found (IsSignature text.entry.now)) }
        ensures none { IfOk result
            (λ found. IfNone found ((d : Dep) → ¬ IsSignature text.entry.now d)) }
        ensures kept { IfOk result
            (λ found. IfSome found (λ _. Contains self.new text.entry.now)) }
    {
        let key = Written { text };
        match self.read.get(&key) {
            Some(known) => Ok(Some(known.copy()?)),
            None => {
                let Some(signature) = signature(alloc, text)? else {
                    return Ok(None);
                };
                let answer = signature.copy()?;
                self.read.insert(key, signature)?;
                Ok(Some(answer))
            }
        }
    }
}

/// The signature that the text spells, if it does.
fn signature(alloc: Global, text: &[u8]) -> Result<Option<Dep>, Memory>
    ensures some { IfOk result (λ signature. IfSome signature (IsSignature text.now)) }
    ensures none { IfOk result
        (λ signature. IfNone signature ((d : Dep) → ¬ IsSignature text.now d)) }
{
    let Some((path, name, digest)) = fields(text) else {
        return Ok(None);
    };
    spelled(alloc, path, name, digest)
}

/// The fields of the text, if it has exactly two spaces.
fn fields(text: &[u8]) -> Option<(&[u8], &[u8], &[u8])>
    ensures { MatchOption result (¬ HasThreeFields text.now)
        (λ fields. AreFieldsOf text.now fields.0.now fields.1.now fields.2.now) }
{
    let (path, behind) = split_once(text, b' ')?;
    let (name, digest) = split_once(behind, b' ')?;
    match split_once(digest, b' ') {
        None => Some((path, name, digest)),
        Some(_) => None,
    }
}

/// The signature that the fields spell, if they do.
fn spelled(alloc: Global, path: &[u8], name: &[u8], digest: &[u8]) -> Result<Option<Dep>, Memory>
    ensures some { IfOk result
        (λ signature. IfSome signature (Spells path.now name.now digest.now)) }
    ensures none { IfOk result
        (λ signature. IfNone signature ((d : Dep) → ¬ Spells path.now name.now digest.now d)) }
{
    let path = match PkgPath::parse(alloc, path) {
        Ok(path) => path,
        Err(PathFault::Memory) => return Err(Memory),
        Err(_) => return Ok(None),
    };
    let name = match PkgName::parse(alloc, name) {
        Ok(name) => name,
        Err(NameFault::Memory) => return Err(Memory),
        Err(_) => return Ok(None),
    };
    match digest_of(digest) {
        Some(digest) => Ok(Some(Dep { path, name, digest })),
        None => Ok(None),
    }
}

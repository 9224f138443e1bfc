//! A package path. Contracts see its canonical form.
ghost use Rattle.std.specs.Prelude.{◌≡◌, ◌++◌, ◌∷◌, [], Ok, Some, IfOk, OnOk, OnErr, nat_eq, refl};
ghost use Rattle.std.proofs.Common.{rules};
ghost use Rattle.std.specs.Cmp.{partial_equiv_from_equiv};
ghost use Rattle.std.specs.Cmp.Lexicographic.{nat_list_cmp_total, nat_list_eq_equiv, pointwise, texts_po, texts_ties};
ghost use Rattle.std.specs.Cmp.Rules.{comparing, hashing};
ghost use Rattle.faults.specs.Answers.{IsRightUnless};
ghost use Rattle.faults.specs.Pieces.{text_cmp};
ghost use Rattle.pkgpath.specs.PkgPath.{IsPath, path_of, without_subpackage};

use crate::PathFault;
use crate::spelling::{canonical_text, len_without_subpackage};
use faults::{Memory, SharedBytes};
use std::alloc::Global;
use std::cmp::Ordering;
use std::hash::{Hash, Hasher};
use std::marker::Model;

/// A path of pkgpath(7) in its canonical form: the directory, then the flavors in byte order and
/// the subpackage with its dash, each after a comma. A path that is marked as having no flavor has
/// an empty part in place of the flavors.
///
/// Paths are compared, ordered and hashed by the bytes of that form, which copies share.
#[derive(Drop)]
pub struct PkgPath {
    text: SharedBytes,
}

impl Model for PkgPath {
    ghost use Rattle.std.specs.Prelude.{ℕ, List};
    ghost use Rattle.pkgpath.specs.PkgPath.{IsPath};

    ghost Value = { List ℕ };

    ghost view = { λ p. p.text };

    ghost invariant = { λ p. IsPath p.text };
}

impl PkgPath {
    /// The path that the text spells. Its parts may be in any order, and flavors may be repeated.
    ///
    /// # Errors
    ///
    /// `Memory` if an allocation failed; else the first reason why the text doesn't spell a path,
    /// in the order in which `PathFault` lists them. A text of more than 255 bytes is refused even
    /// if its canonical form is shorter.
    pub fn parse(alloc: Global, text: &[u8]) -> Result<PkgPath, PathFault>
        ensures { IsRightUnless PathFault.Memory result (path_of text.now) }
    {
        let text = canonical_text(alloc, text)?;
        Ok(PkgPath { text })
    }

    /// Appends the canonical form, or nothing if memory runs out.
    pub fn write_to(&self, out: &mut Vec<u8>) -> Result<(), Memory>
        ensures ok { OnOk result (out.new.items ≡ out.old.items ++ self.now) }
        ensures err { OnErr result (out.new.items ≡ out.old.items) }
    {
        out.extend_from_slice(self.as_bytes())?;
        Ok(())
    }

    /// The canonical form, which has at most 255 bytes and is parsed as this path.
    pub fn as_bytes(&self) -> &[u8]
        ensures text { result.now ≡ self.now }
        ensures canonical { IsPath self.now }
    {
        self.text.as_slice()
    }

    /// The path without its subpackage. If it has none, this is an equal path, which shares its
    /// text.
    pub fn without_subpackage(&self) -> Result<PkgPath, Memory>
        ensures { IfOk result (λ path. path ≡ without_subpackage self.now) }
    {
        let path = self.as_bytes();
        let len = len_without_subpackage(path);
        if len == path.len() {
            return self.copy();
        }
        let text = SharedBytes::of(self.text.allocator(), &path[..len])?;
        Ok(PkgPath { text })
    }

    /// An equal path, which shares its text.
    pub fn copy(&self) -> Result<PkgPath, Memory>
        ensures { IfOk result (λ path. path ≡ self.now) }
    {
        let text = self.text.copy()?;
        Ok(PkgPath { text })
    }
}

impl PartialEq for PkgPath {
    ghost eq = { pointwise nat_eq };

    ghost laws = { partial_equiv_from_equiv nat_list_eq_equiv };

    fn eq(&self, other: &PkgPath) -> bool {
        self.as_bytes() == other.as_bytes()
    }
}

impl Eq for PkgPath {
    ghost laws = { nat_list_eq_equiv };
}

impl PartialOrd for PkgPath {
    ghost partial_cmp = { λ a b. Some (text_cmp a b) };

    ghost laws = { texts_po };

    fn partial_cmp(&self, other: &PkgPath) -> Option<Ordering> {
        Some(self.cmp(other))
    }
}

impl Ord for PkgPath {
    ghost cmp = { text_cmp };

    ghost total = { nat_list_cmp_total };

    ghost matches_partial_cmp = { λ a b. refl };

    ghost matches_eq = { texts_ties };

    fn cmp(&self, other: &PkgPath) -> Ordering {
        self.as_bytes().cmp(other.as_bytes())
    }
}

impl Hash for PkgPath {
    // The text is passed to the hasher in one write, so that it can take many bytes at a time.
    ghost hash_input = { λ text. text ∷ [] };

    ghost respects_eq = { Prim.search (hashing, rules) };

    fn hash<H: Hasher>(&self, state: &mut H) {
        state.write(self.as_bytes());
    }
}

//! A package name. Contracts see its text.
ghost use Rattle.std.specs.Prelude.{◌≡◌, ◌≤◌, ◌++◌, ◌∷◌, drop, false, length, take, true, Some, IfErr, IfOk, OnOk, OnErr, nat_eq, refl};
ghost use Rattle.std.proofs.Common.{rules};
ghost use Rattle.std.specs.Cmp.{partial_equiv_from_equiv};
ghost use Rattle.std.specs.Cmp.Lexicographic.{nat_list_cmp_total, nat_list_eq_equiv, pointwise, texts_po, texts_ties};
ghost use Rattle.std.specs.Cmp.Rules.{comparing, hashing};
ghost use Rattle.std.specs.Hash as fed;
ghost use Rattle.std.specs.List.{list_any};
ghost use Rattle.faults.specs.Answers.{IsRightUnless};
ghost use Rattle.faults.specs.Bytes.{dash, is_empty};
ghost use Rattle.faults.specs.Pieces.{pieces_at, text_cmp};
ghost use Rattle.pkgname.specs.Inside.{behind_place};
ghost use Rattle.pkgname.specs.PkgName.{IsName, flavors_of, name_of, stem_of, version_of};
ghost use Rattle.pkgname.specs.Pieces.{pieces_behind};

use crate::bytes::{dash_before_version, has_name_bytes};
use crate::{NameFault, Pieces, Version};
use faults::{Memory, SharedBytes, split_once};
use std::alloc::Global;
use std::cmp::Ordering;
use std::hash::{Hash, Hasher};
use std::marker::Model;

/// The maximum length of a name in bytes.
const LONGEST: usize = 255;

/// A package name of packages-specs(7), `stem-version[-flavors]`, of at most 255 bytes. Names are
/// equal, ordered and hashed by the bytes of their texts, so `q-1` and `q-1.0` are two names.
/// Copies share their text.
#[derive(Drop)]
pub struct PkgName {
    text: SharedBytes,
    stem_length: u8,
    version_length: u8,
}

impl Model for PkgName {
    ghost use Rattle.std.specs.Prelude.{ℕ, List};
    ghost use Rattle.pkgname.specs.Inside.{IsSplit};

    ghost Value = { List ℕ };

    ghost use Rattle.pkgname.specs.Inside.{text_of};

    ghost view = { text_of };

    ghost invariant = { IsSplit };
}

impl PkgName {
    /// Parses the whole text as a name, or returns its first fault. By packages-specs(7) the
    /// version begins after the first dash that is followed by a digit, and ends at the next dash
    /// or the end. The text before that first dash is the stem, and after the version the flavors
    /// follow, separated by dashes. By this project's own rules that dash is not the first byte, no
    /// flavor is empty, and only the bytes of `has_name_bytes` are allowed.
    pub fn parse(alloc: Global, text: &[u8]) -> Result<PkgName, NameFault>
        ensures { IsRightUnless NameFault.Memory result (name_of text.now) }
    {
        if text.len() > LONGEST {
            return Err(NameFault::TooLong);
        }
        if !has_name_bytes(text) {
            return Err(NameFault::BadByte);
        }
        let Some(dash) = dash_before_version(text, b"") else {
            return Err(NameFault::NoVersion);
        };
        let version_length = version_length(&text[dash + 1..])?;
        let text = SharedBytes::of(alloc, text)?;
        Ok(PkgName {
            text,
            stem_length: dash as u8,
            version_length: version_length as u8,
        })
    }

    /// Appends the text to `out`, or nothing if memory runs out.
    pub fn write_to(&self, out: &mut Vec<u8>) -> Result<(), Memory>
        ensures ok { OnOk result (out.new.items ≡ out.old.items ++ self.now) }
        ensures err { OnErr result (out.new.items ≡ out.old.items) }
    {
        out.extend_from_slice(self.as_bytes())?;
        Ok(())
    }

    /// The bytes of the text that was parsed: 3 to 255.
    pub fn as_bytes(&self) -> &[u8]
        ensures text { result.now ≡ self.now }
        ensures name { IsName self.now }
    {
        self.text.as_slice()
    }

    /// The bytes before the version and its dash: at least one, possibly with dashes.
    pub fn stem(&self) -> &[u8]
        ensures { result.now ≡ stem_of self.now }
    {
        &self.as_bytes()[..usize::from(self.stem_length)]
    }

    /// The version, which begins with a digit and has no dash.
    pub fn version(&self) -> Version<'_>
        ensures { result ≡ version_of self.now }
    {
        let start = usize::from(self.stem_length) + 1;
        Version::new(&self.as_bytes()[start..start + usize::from(self.version_length)])
    }

    /// The flavors in the order of the text. None is empty. Repeated flavors are repeated here.
    pub fn flavors(&self) -> Pieces<'_>
        ensures { result ≡ flavors_of self.now }
    {
        let end = usize::from(self.stem_length) + 1 + usize::from(self.version_length);
        Pieces::behind(self.as_bytes().get(end + 1..), b'-')
    }

    /// An equal name, which shares its text.
    pub fn copy(&self) -> Result<PkgName, Memory>
        ensures { IfOk result (λ name. name ≡ self.now) }
    {
        let text = self.text.copy()?;
        Ok(PkgName {
            text,
            stem_length: self.stem_length,
            version_length: self.version_length,
        })
    }
}

/// The length of the version at the front of the text. Fails if a flavor after it is empty.
fn version_length(text: &[u8]) -> Result<usize, NameFault>
    ensures ok { IfOk result (λ n. (n ≤ length text.now)
        × (pieces_at dash text.now
        ≡ take n text.now ∷ pieces_behind dash (behind_place text.now n))
        × (list_any is_empty (drop 1 (pieces_at dash text.now)) ≡ false)) }
    ensures err { IfErr result (λ e. (e ≡ NameFault.BadByte)
        × (list_any is_empty (drop 1 (pieces_at dash text.now)) ≡ true)) }
{
    match split_once(text, b'-') {
        None => Ok(text.len()),
        Some((_, flavors)) if has_empty_piece(flavors) => Err(NameFault::BadByte),
        Some((version, _)) => Ok(version.len()),
    }
}

/// Whether a piece between dashes is empty.
fn has_empty_piece(text: &[u8]) -> bool
    ensures { result ≡ list_any is_empty (pieces_at dash text.now) }
{
    Pieces::new(text, b'-').any(|piece| piece.is_empty())
}

impl PartialEq for PkgName {
    ghost eq = { pointwise nat_eq };

    ghost laws = { partial_equiv_from_equiv nat_list_eq_equiv };

    fn eq(&self, other: &PkgName) -> bool {
        self.as_bytes() == other.as_bytes()
    }
}

impl Eq for PkgName {
    ghost laws = { nat_list_eq_equiv };
}

impl PartialOrd for PkgName {
    ghost partial_cmp = { λ a b. Some (text_cmp a b) };

    ghost laws = { texts_po };

    fn partial_cmp(&self, other: &PkgName) -> Option<Ordering> {
        Some(self.cmp(other))
    }
}

impl Ord for PkgName {
    ghost cmp = { text_cmp };

    ghost total = { nat_list_cmp_total };

    ghost matches_partial_cmp = { λ a b. refl };

    ghost matches_eq = { texts_ties };

    fn cmp(&self, other: &PkgName) -> Ordering {
        self.as_bytes().cmp(other.as_bytes())
    }
}

impl Hash for PkgName {
    ghost hash_input = { fed.slice fed.u8 };

    ghost respects_eq = { Prim.search (hashing, rules) };

    fn hash<H: Hasher>(&self, state: &mut H) {
        self.as_bytes().hash(state);
    }
}

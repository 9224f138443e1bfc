//! A spec. Contracts see the list of its alternatives.
ghost use Rattle.std.specs.Prelude.{◌≡◌, IfOk, vec_items};
ghost use Rattle.faults.specs.Answers.{IsRightUnless, map_ok};
ghost use Rattle.faults.specs.Bytes.{bar};
ghost use Rattle.faults.specs.Pieces.{pieces_at};
ghost use Rattle.pkgspec.specs.Matching.{matches};
ghost use Rattle.pkgspec.specs.Reading.{alternatives_or_fault};
ghost use Rattle.pkgspec.specs.Spec.{spec_of};

use crate::SpecFault;
use crate::alternative::Alternative;
use crate::part::copy_of_parts;
use faults::Memory;
use pkgname::{Pieces, PkgName};
use std::alloc::Global;
use std::marker::Model;

/// The maximum length of a spec in bytes.
const LONGEST: usize = 1024;

/// A spec: one or more alternatives, of which a name has to match at least one.
#[derive(Drop)]
pub struct Spec {
    alternatives: Vec<Alternative>,
}

impl Model for Spec {
    ghost use Rattle.std.specs.Prelude.{List};
    ghost use Rattle.pkgspec.specs.Spec.{Alternative};

    ghost Value = { List Alternative };

    ghost view = { λ s. s.alternatives.items };
}

impl Spec {
    /// Parses the whole text, of 1 to 1,024 bytes, as a spec, or returns its first fault. The form
    /// is that of packages-specs(7): alternatives joined by `|`, each `stem[-bounds[-flavors]]`.
    ///
    /// - The bounds begin after the first dash, not counting the first byte, that is followed by a
    ///   digit or one of `*`, `<`, `>` and `=`, and end at the next dash or the end. Without such a
    ///   dash the whole alternative is the stem, and nothing else is required.
    /// - The bounds are joined by `,`. Each is `*`, which always holds, or a version after `>=`,
    ///   `>`, `<=`, `<` or `=`. A version without an operator means `=`.
    /// - The flavors are joined by `-`. A flavor after `!` has to be absent, and one without it has
    ///   to be present.
    pub fn parse(alloc: Global, text: &[u8]) -> Result<Spec, SpecFault>
        ensures { IsRightUnless SpecFault.Memory result (spec_of text.now) }
    {
        if text.is_empty() {
            return Err(SpecFault::Empty);
        }
        if text.len() > LONGEST {
            return Err(SpecFault::TooLong);
        }
        let alternatives = parse_alternatives(alloc, text)?;
        Ok(Spec { alternatives })
    }

    /// Whether some alternative matches the name. By packages-specs(7) an alternative matches if
    /// its stem is the name's, all its bounds hold for the name's version, and each flavor that it
    /// names is present or absent as it requires. Three points are this project's own: the stem
    /// `STEM` fits each name; bounds use the order of `Version::compare`, so that `q-=1.2` matches
    /// `q-1.02`; and `*` in a stem is never a wildcard. Does not allocate.
    pub fn matches(&self, name: &PkgName) -> bool
        ensures { result ≡ matches self.now name.now }
    {
        self.alternatives
            .iter()
            .any(|alternative| alternative.matches(name))
    }

    /// An equal spec, with the alternatives in the same order, or `Memory`.
    pub fn copy(&self) -> Result<Spec, Memory>
        ensures { IfOk result (λ spec. spec ≡ self.now) }
    {
        let alternatives = copy_of_parts(&self.alternatives)?;
        Ok(Spec { alternatives })
    }
}

fn parse_alternatives(alloc: Global, text: &[u8]) -> Result<Vec<Alternative>, SpecFault>
    ensures { IsRightUnless SpecFault.Memory (map_ok vec_items result)
        (alternatives_or_fault (pieces_at bar text.now)) }
{
    let mut alternatives = Vec::new(alloc);
    let mut left = Pieces::new(text, b'|');
    'alternatives: while let Some(text) = left.next() {
        alternatives.push(Alternative::parse(alloc, text)?)?;
    }
    Ok(alternatives)
}

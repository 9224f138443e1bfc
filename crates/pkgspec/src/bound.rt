//! A bound on the version.
ghost use Rattle.std.specs.Prelude.{◌≡◌};
ghost use Rattle.faults.specs.Answers.{IsRightUnless};
ghost use Rattle.pkgspec.specs.Matching.{allows, holds};
ghost use Rattle.pkgspec.specs.Reading.{bound_or_fault};
ghost use Rattle.pkgspec.specs.Spec.{relation_of};

use crate::SpecFault;
use crate::part::Part;
use faults::Memory;
use pkgname::{Version, is_version};
use std::alloc::Global;
use std::cmp::Ordering;
use std::marker::Model;

/// How a version has to compare with that of a bound.
#[derive(Clone, Copy)]
pub(crate) enum Relation {
    AtLeast,
    Above,
    AtMost,
    Below,
    Equal,
}

impl Relation {
    fn allows(self, ordering: Ordering) -> bool
        ensures { result ≡ allows self ordering }
    {
        match self {
            Relation::AtLeast => ordering.is_ge(),
            Relation::Above => ordering.is_gt(),
            Relation::AtMost => ordering.is_le(),
            Relation::Below => ordering.is_lt(),
            Relation::Equal => ordering.is_eq(),
        }
    }
}

#[derive(Drop)]
pub(crate) struct Bound {
    relation: Relation,
    version: Vec<u8>,
}

impl Model for Bound {
    ghost use Rattle.pkgname.specs.Version.{IsVersion};
    ghost use Rattle.pkgspec.specs.Spec.{Bound};

    ghost Value = { Bound };

    ghost view = { λ b. record { relation = b.relation; version = b.version.items } };

    ghost invariant = { λ b. IsVersion b.version.items };
}

impl Bound {
    /// The bound that the text spells. None for a star, which always holds.
    pub fn parse(alloc: Global, text: &[u8]) -> Result<Option<Bound>, SpecFault>
        ensures { IsRightUnless SpecFault.Memory result (bound_or_fault text.now) }
    {
        if text == b"*".as_slice() {
            return Ok(None);
        }
        let (relation, version) = split_relation(text);
        if !is_version(version) {
            return Err(SpecFault::BadBound);
        }
        let version = Vec::from_slice(alloc, version)?;
        Ok(Some(Bound { relation, version }))
    }

    pub fn holds(&self, version: &Version<'_>) -> bool
        ensures { result ≡ holds version.now self.now }
    {
        let own = Version::new(self.version.as_slice());
        self.relation.allows(version.compare(&own))
    }
}

impl Part for Bound {
    fn copy(&self) -> Result<Bound, Memory> {
        let version = self.version.clone()?;
        Ok(Bound {
            relation: self.relation,
            version,
        })
    }
}

/// The operator at the front, and the text after it. No operator means equality.
fn split_relation(text: &[u8]) -> (Relation, &[u8])
    ensures relation { result.0 ≡ (relation_of text.now).0 }
    ensures version { result.1.now ≡ (relation_of text.now).1 }
{
    if let Some(version) = text.strip_prefix(b">=") {
        (Relation::AtLeast, version)
    } else if let Some(version) = text.strip_prefix(b">") {
        (Relation::Above, version)
    } else if let Some(version) = text.strip_prefix(b"<=") {
        (Relation::AtMost, version)
    } else if let Some(version) = text.strip_prefix(b"<") {
        (Relation::Below, version)
    } else if let Some(version) = text.strip_prefix(b"=") {
        (Relation::Equal, version)
    } else {
        (Relation::Equal, text)
    }
}

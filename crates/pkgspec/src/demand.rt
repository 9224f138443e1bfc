//! A demand on a name's flavors.
ghost use Rattle.std.specs.Prelude.{◌≡◌};
ghost use Rattle.faults.specs.Answers.{IsRightUnless};
ghost use Rattle.faults.specs.Bytes.{is_among};
ghost use Rattle.pkgspec.specs.Matching.{is_met_by};
ghost use Rattle.pkgspec.specs.Reading.{demand_or_fault};

use crate::SpecFault;
use crate::part::Part;
use faults::Memory;
use pkgname::{Pieces, has_name_bytes};
use std::alloc::Global;
use std::marker::Model;

/// A flavor that has to be present, or absent.
#[derive(Drop)]
pub(crate) struct Demand {
    flavor: Vec<u8>,
    is_present: bool,
}

impl Model for Demand {
    ghost use Rattle.pkgspec.specs.Spec.{Demand};

    ghost Value = { Demand };

    ghost view = { λ d. record { flavor = d.flavor.items; is_present = d.is_present } };
}

impl Demand {
    pub fn parse(alloc: Global, text: &[u8]) -> Result<Demand, SpecFault>
        ensures { IsRightUnless SpecFault.Memory result (demand_or_fault text.now) }
    {
        let (flavor, is_present) = match text.strip_prefix(b"!") {
            Some(flavor) => (flavor, false),
            None => (text, true),
        };
        if flavor.is_empty() || !has_name_bytes(flavor) {
            return Err(SpecFault::BadByte);
        }
        let flavor = Vec::from_slice(alloc, flavor)?;
        Ok(Demand { flavor, is_present })
    }

    pub fn is_met_by(&self, flavors: Pieces<'_>) -> bool
        ensures { result ≡ is_met_by flavors.entry self.now }
    {
        is_among(flavors, self.flavor.as_slice()) == self.is_present
    }
}

impl Part for Demand {
    fn copy(&self) -> Result<Demand, Memory> {
        let flavor = self.flavor.clone()?;
        Ok(Demand {
            flavor,
            is_present: self.is_present,
        })
    }
}

fn is_among(mut flavors: Pieces<'_>, flavor: &[u8]) -> bool
    ensures { result ≡ is_among flavors.entry flavor.now }
{
    flavors.any(|other| other == flavor)
}

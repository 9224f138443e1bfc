//! An alternative of a spec.
ghost use Rattle.std.specs.Prelude.{◌≡◌, map, option_copied, vec_items};
ghost use Rattle.std.specs.List.{list_all};
ghost use Rattle.faults.specs.Answers.{IsRightUnless, map_ok};
ghost use Rattle.faults.specs.Bytes.{comma, dash};
ghost use Rattle.pkgname.specs.Pieces.{pieces_behind};
ghost use Rattle.pkgname.specs.PkgName.{flavors_of};
ghost use Rattle.pkgspec.specs.Matching.{alternative_matches, holds, is_met_by, is_stem_of};
ghost use Rattle.pkgspec.specs.Reading.{alternative_or_fault, bounds_or_fault, demands_or_fault};
ghost use Rattle.pkgspec.specs.Spec.{bound_texts, demand_texts, stem_of};

use crate::SpecFault;
use crate::bound::Bound;
use crate::demand::Demand;
use crate::part::{Part, copy_of_parts};
use faults::{Memory, split_once};
use pkgname::{Pieces, PkgName, Version, dash_before_version, has_name_bytes};
use std::alloc::Global;
use std::marker::Model;

#[derive(Drop)]
pub(crate) struct Alternative {
    stem: Vec<u8>,
    bounds: Vec<Bound>,
    demands: Vec<Demand>,
}

impl Model for Alternative {
    ghost use Rattle.pkgspec.specs.Spec.{Alternative};

    ghost Value = { Alternative };

    ghost view = { λ a. record {
      stem = a.stem.items;
      bounds = a.bounds.items;
      demands = a.demands.items;
    } };
}

impl Alternative {
    pub fn parse(alloc: Global, text: &[u8]) -> Result<Alternative, SpecFault>
        ensures { IsRightUnless SpecFault.Memory result (alternative_or_fault text.now) }
    {
        if text.is_empty() {
            return Err(SpecFault::Empty);
        }
        let parts = Parts::new(text);
        if !has_name_bytes(parts.stem) {
            return Err(SpecFault::BadByte);
        }
        let bounds = parse_bounds(alloc, parts.bounds)?;
        let demands = parse_demands(alloc, parts.demands)?;
        let stem = Vec::from_slice(alloc, parts.stem)?;
        Ok(Alternative {
            stem,
            bounds,
            demands,
        })
    }

    pub fn matches(&self, name: &PkgName) -> bool
        ensures { result ≡ alternative_matches name.now self.now }
    {
        is_stem_of(self.stem.as_slice(), name)
            && all_hold(self.bounds.as_slice(), &name.version())
            && all_are_met(self.demands.as_slice(), name)
    }
}

impl Part for Alternative {
    fn copy(&self) -> Result<Alternative, Memory> {
        let stem = self.stem.clone()?;
        let bounds = copy_of_parts(&self.bounds)?;
        let demands = copy_of_parts(&self.demands)?;
        Ok(Alternative {
            stem,
            bounds,
            demands,
        })
    }
}

/// Whether the stem is the name's. `STEM` fits each name: it is used for the name at the very path
/// that is depended on.
fn is_stem_of(stem: &[u8], name: &PkgName) -> bool
    ensures { result ≡ is_stem_of stem.now name.now }
{
    stem == b"STEM".as_slice() || stem == name.stem()
}

fn all_hold(bounds: &[Bound], version: &Version<'_>) -> bool
    ensures { result ≡ list_all (holds version.now) bounds.now }
{
    bounds.iter().all(|bound| bound.holds(version))
}

fn all_are_met(demands: &[Demand], name: &PkgName) -> bool
    ensures { result ≡ list_all (is_met_by (flavors_of name.now)) demands.now }
{
    demands
        .iter()
        .all(|demand| demand.is_met_by(name.flavors()))
}

/// The texts of an alternative's parts.
#[derive(Clone, Copy)]
struct Parts<'a> {
    stem: &'a [u8],
    bounds: Option<&'a [u8]>,
    demands: Option<&'a [u8]>,
}

impl<'a> Parts<'a> {
    fn new(text: &'a [u8]) -> Parts<'a>
        ensures stem { result.stem.now ≡ stem_of text.entry.now }
        ensures bounds { pieces_behind comma (option_copied result.bounds)
            ≡ bound_texts text.entry.now }
        ensures demands { pieces_behind dash (option_copied result.demands)
            ≡ demand_texts text.entry.now }
    {
        match dash_before_version(text, b"*<>=") {
            Some(dash) => {
                let behind = &text[dash + 1..];
                let (bounds, demands) = match split_once(behind, b'-') {
                    Some((bounds, demands)) => (bounds, Some(demands)),
                    None => (behind, None),
                };
                Parts {
                    stem: &text[..dash],
                    bounds: Some(bounds),
                    demands,
                }
            }
            None => Parts {
                stem: text,
                bounds: None,
                demands: None,
            },
        }
    }
}

fn parse_bounds(alloc: Global, texts: Option<&[u8]>) -> Result<Vec<Bound>, SpecFault>
    ensures { IsRightUnless SpecFault.Memory (map_ok vec_items result)
        (bounds_or_fault (pieces_behind comma (option_copied texts.entry))) }
{
    let mut bounds = Vec::new(alloc);
    let mut left = Pieces::behind(texts, b',');
    'bounds: while let Some(text) = left.next() {
        if let Some(bound) = Bound::parse(alloc, text)? {
            bounds.push(bound)?;
        }
    }
    Ok(bounds)
}

fn parse_demands(alloc: Global, texts: Option<&[u8]>) -> Result<Vec<Demand>, SpecFault>
    ensures { IsRightUnless SpecFault.Memory (map_ok vec_items result)
        (demands_or_fault (pieces_behind dash (option_copied texts.entry))) }
{
    let mut demands = Vec::new(alloc);
    let mut left = Pieces::behind(texts, b'-');
    'demands: while let Some(text) = left.next() {
        demands.push(Demand::parse(alloc, text)?)?;
    }
    Ok(demands)
}

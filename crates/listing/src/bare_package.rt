//! A package of a tree, without its path.
ghost use Rattle.std.specs.Prelude.{◌≡◌, ◌⊎◌, ◌<◌, ◌++◌, All, None, Some, length, MatchResult};
ghost use Rattle.faults.specs.Answers.{first_given};
ghost use Rattle.listing.specs.inside.BarePackages.{AreBarePackagesOf, HasNumbersBelow, IsBarePackageOf, IsSetOf, are_met, is_marked_by, listed_positions, numbers_of_value, text_of_value};
ghost use Rattle.listing.specs.inside.Table.{row_fault};

use crate::ListingFault;
use crate::dependency::Resolution;
use crate::table::{Reading, Row, Value};
use pkgname::PkgName;
use std::alloc::Global;

/// A package without its path. Dependencies are stored as positions in the tree, ascending and
/// without duplicates.
#[derive(Drop)]
pub struct BarePackage {
    pub name: PkgName,
    pub build: Vec<u32>,
    pub run: Vec<u32>,
    pub is_marked: bool,
}

impl BarePackage {
    /// The package of a row, given the resolution of each dependency, by number.
    pub fn of_row(
        alloc: Global,
        row: &Row<'_>,
        resolutions: &[Resolution],
    ) -> Result<BarePackage, ListingFault>
        requires { HasNumbersBelow (length resolutions.now) row.now }
        ensures { MatchResult result (IsBarePackageOf resolutions.now row.now)
            (λ e. (e ≡ ListingFault.Memory) ⊎ (row_fault row.now ≡ Some e)) }
    {
        let Some(name) = row.name() else {
            return Err(ListingFault::NoName(row.line));
        };
        let build = numbers_of(&row.build);
        let lib = numbers_of(&row.lib);
        let run = numbers_of(&row.run);
        Ok(BarePackage {
            name: name.copy()?,
            build: positions_of(alloc, build, lib, resolutions)?,
            run: positions_of(alloc, lib, run, resolutions)?,
            is_marked: is_marked(row, resolutions),
        })
    }
}

/// The packages of the rows, in order, given the resolution of each dependency, by number.
pub fn bare_packages_of(
    alloc: Global,
    rows: &[Row<'_>],
    resolutions: &[Resolution],
) -> Result<Vec<BarePackage>, ListingFault>
    requires { All (HasNumbersBelow (length resolutions.now)) rows.now }
    ensures { MatchResult result
        (λ bare_packages. (first_given row_fault rows.now ≡ None)
        × AreBarePackagesOf resolutions.now rows.now bare_packages.items)
        (λ e. (e ≡ ListingFault.Memory) ⊎ (first_given row_fault rows.now ≡ Some e)) }
{
    let mut bare_packages = Vec::with_capacity(alloc, rows.len())?;
    for row in rows {
        bare_packages.push(BarePackage::of_row(alloc, row, resolutions)?)?;
    }
    Ok(bare_packages)
}

/// Whether IGNORE isn't empty in the row, or a dependency in it isn't met.
fn is_marked(row: &Row<'_>, resolutions: &[Resolution]) -> bool
    requires { HasNumbersBelow (length resolutions.now) row.now }
    ensures { result ≡ is_marked_by resolutions.now row.now }
{
    let is_complete = are_met(numbers_of(&row.build), resolutions)
        && are_met(numbers_of(&row.lib), resolutions)
        && are_met(numbers_of(&row.run), resolutions);
    !text_of(&row.ignore).is_empty() || !is_complete
}

/// The value of a variable, or the empty text if it isn't set.
fn text_of<'a>(value: &Option<Value<'a>>) -> &'a [u8]
    ensures { result.now ≡ text_of_value value.now }
{
    match value {
        Some(value) => value.text,
        None => &[],
    }
}

/// The numbers of the dependencies in the value; empty if it is not set or not a list of
/// dependencies.
fn numbers_of<'v>(value: &'v Option<Value<'_>>) -> &'v [u32]
    ensures { result.now ≡ numbers_of_value value.entry.now }
{
    match value {
        Some(
            Value {
                reading: Reading::Numbers(numbers),
                ..
            },
        ) => numbers.as_slice(),
        _ => &[],
    }
}

/// Whether all of these are met.
fn are_met(numbers: &[u32], resolutions: &[Resolution]) -> bool
    requires { All (λ n. n < length resolutions.now) numbers.now }
    ensures { result ≡ are_met resolutions.now numbers.now }
{
    numbers
        .iter()
        .all(|number| resolutions[*number as usize].is_met)
}

/// The positions of these dependencies, ascending and without duplicates.
fn positions_of(
    alloc: Global,
    first: &[u32],
    second: &[u32],
    resolutions: &[Resolution],
) -> Result<Vec<u32>, ListingFault>
    requires first { All (λ n. n < length resolutions.now) first.now }
    requires second { All (λ n. n < length resolutions.now) second.now }
    ensures { MatchResult result
        (λ v. IsSetOf v.items
        (listed_positions resolutions.now first.now
        ++ listed_positions resolutions.now second.now))
        (λ e. e ≡ ListingFault.Memory) }
{
    let mut found = Vec::with_capacity(alloc, first.len() + second.len())?;
    add_positions(&mut found, first, resolutions)?;
    add_positions(&mut found, second, resolutions)?;
    found.sort_unstable();
    found.dedup();
    Ok(found)
}

/// Appends the positions of these dependencies.
fn add_positions(
    found: &mut Vec<u32>,
    numbers: &[u32],
    resolutions: &[Resolution],
) -> Result<(), ListingFault>
    requires { All (λ n. n < length resolutions.now) numbers.now }
    ensures { MatchResult result
        (λ _. found.new.items ≡ found.old.items ++ listed_positions resolutions.now numbers.now)
        (λ e. e ≡ ListingFault.Memory) }
{
    for number in numbers {
        if let Some(position) = resolutions[*number as usize].position {
            found.push(position)?;
        }
    }
    Ok(())
}

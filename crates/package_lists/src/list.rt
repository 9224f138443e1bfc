//! A list of packages, in the order in which they were built.
ghost use Rattle.std.specs.Prelude.{◌≡◌, ◌∷◌, [], ◌++◌, ◌⊎◌, IfErr, IfNone, IfOk, IfSome, None, Some};
ghost use Rattle.package_lists.specs.List.{AreEntries, IsFirstBadLine};
ghost use Rattle.package_lists.specs.ListRefusals.{list_refusal, number_of, place_of};
ghost use Rattle.package_lists.specs.inside.Listed.{AddsLine, CannotFollow, IsBuilt, entries_in, said_in};
ghost use Rattle.package_lists.specs.declared.list.ListFault.TheVariants.{Memory as OutOfMemory};

use crate::list_line::{ListLine, list_line};
use crate::signatures::Signatures;
use auditing::Entry;
use claims::{Dep, Deps};
use faults::{Fault, Memory, WantOfMemory, split_once};
use program_io::Refusal;
use std::alloc::Global;
use thiserror::Error;

/// Why a text is not a list of packages: out of memory, or else the first line that can't be one of
/// a list, counted from 1.
#[derive(Clone, Copy, Debug, PartialEq, Eq, Error)]
pub enum ListFault {
    #[error("out of memory")]
    Memory,
    #[error("line {0} doesn't belong to a list of packages")]
    BadList(u64),
}

impl Fault for ListFault {
    ghost number_of = { number_of };

    ghost place_of = { place_of };

    fn number(&self) -> u32 {
        match self {
            ListFault::Memory => 1,
            ListFault::BadList(_) => 1308,
        }
    }

    fn place(&self) -> Option<u64> {
        match self {
            ListFault::Memory => None,
            ListFault::BadList(line) => Some(*line),
        }
    }
}

impl<E: WantOfMemory> From<E> for ListFault {
    ghost from_gives = { λ _ e. e ≡ OutOfMemory };

    fn from(_error: E) -> ListFault {
        ListFault::Memory
    }
}

impl From<ListFault> for Refusal {
    ghost from_gives = { λ fault refusal. refusal ≡ list_refusal fault };

    fn from(fault: ListFault) -> Refusal {
        Refusal::of(&fault)
    }
}

/// The packages of the lines that were parsed. Lines of what the last one was built on may follow.
#[derive(Drop)]
pub(crate) struct Packages {
    earlier: Vec<Entry>,
    last: Dep,
    built: Vec<Dep>,
}

/// The entries of a list of packages.
///
/// A package has a line `package PATH NAME DIGEST`, followed by a line `built PATH NAME DIGEST` for
/// each package that it was built on. Paths may be spelled in any way; digests are in lower-case
/// hexadecimal digits. Lines end with LF, which may be missing after the last. An empty text is the
/// empty list, and an empty line is a fault.
pub fn read_list(alloc: Global, text: &[u8]) -> Result<Vec<Entry>, ListFault>
    ensures entries { IfOk result (λ entries. AreEntries text.now entries.items) }
    ensures refused { IfErr result (λ e. (e ≡ ListFault.Memory) ⊎ IsFirstBadLine text.now e) }
{
    let mut signatures = Signatures::new(alloc);
    let mut packages = None;
    let mut number = 1;
    let mut left = text;
    'lines: while let Some((line, behind)) = split_once(left, b'\n') {
        packages = Some(with_line(alloc, &mut signatures, packages, line, number)?);
        number += 1;
        left = behind;
    }
    if !left.is_empty() {
        packages = Some(with_line(alloc, &mut signatures, packages, left, number)?);
    }
    Ok(entries(alloc, packages)?)
}

/// The packages after one more line, which has this number.
fn with_line<'t>(
    alloc: Global,
    signatures: &mut Signatures<'t>,
    packages: Option<Packages>,
    line: &'t [u8],
    number: u64,
) -> Result<Packages, ListFault>
    ensures ok { IfOk result (AddsLine packages line.entry.now) }
    ensures err { IfErr result (λ e. (e ≡ ListFault.Memory) ⊎
        ((e ≡ ListFault.BadList number) × CannotFollow packages line.entry.now)) }
{
    let said = match list_line(alloc, signatures, line) {
        Ok(Some(said)) => said,
        Ok(None) => {
            drop(packages);
            return Err(ListFault::BadList(number));
        }
        Err(memory) => {
            drop(packages);
            return Err(ListFault::from(memory));
        }
    };
    match with_said(alloc, packages, said)? {
        Some(packages) => Ok(packages),
        None => Err(ListFault::BadList(number)),
    }
}

/// The packages after the contents of one more line, if they can follow.
fn with_said(
    alloc: Global,
    packages: Option<Packages>,
    said: ListLine,
) -> Result<Option<Packages>, Memory>
    ensures some { IfOk result
        (λ more. IfSome more (λ after. said_in (Some after) ≡ said_in packages ++ said ∷ [])) }
    ensures none { IfOk result (λ more. IfNone more ((packages ≡ None) × IsBuilt said)) }
{
    match said {
        ListLine::Package(last) => {
            let earlier = entries(alloc, packages)?;
            let built = Vec::new(alloc);
            Ok(Some(Packages {
                earlier,
                last,
                built,
            }))
        }
        ListLine::Built(dep) => {
            let Some(mut packages) = packages else {
                return Ok(None);
            };
            packages.built.push(dep)?;
            Ok(Some(packages))
        }
    }
}

/// The packages as entries.
fn entries(alloc: Global, packages: Option<Packages>) -> Result<Vec<Entry>, Memory>
    ensures { IfOk result (λ entries. entries.items ≡ entries_in packages) }
{
    let Some(packages) = packages else {
        return Ok(Vec::new(alloc));
    };
    let Packages {
        mut earlier,
        last,
        built,
    } = packages;
    let Dep { path, name, digest } = last;
    let built = Deps::new(built);
    earlier.push(Entry {
        path,
        name,
        digest,
        built,
    })?;
    Ok(earlier)
}

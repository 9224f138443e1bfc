//! A text of held package paths, one in each line.
ghost use Rattle.std.specs.Prelude.{◌≡◌, ◌⊎◌, IfErr, IfOk, false, length};
ghost use Rattle.faults.specs.Bytes.{is_empty};
ghost use Rattle.graph.specs.Marks.{has_mark};
ghost use Rattle.dpbr_status.specs.Held.{AreHeld, IsFaultOf, IsFirstFault};
ghost use Rattle.dpbr_status.specs.inside.Holding.{IsNamed};
ghost use Rattle.dpbr_status.specs.HeldRefusals.{held_refusal, number_of, place_of};
ghost use Rattle.dpbr_status.specs.declared.held.HeldFault.TheVariants.{Memory as OutOfMemory};

use crate::pieces::pieces;
use engine::Units;
use faults::{Fault, WantOfMemory};
use listing::Tree;
use pkgpath::{PathFault, PkgPath};
use program_io::Refusal;
use std::alloc::Global;
use thiserror::Error;

/// Why a text doesn't name packages that can be held: out of memory, or the number of its first
/// faulty line, counted from 1.
#[derive(Clone, Copy, Debug, PartialEq, Eq, Error)]
pub enum HeldFault {
    #[error("out of memory")]
    Memory,
    #[error("line {0} is not a package path")]
    BadList(u64),
    #[error("line {0} names a path that is not listed")]
    Unlisted(u64),
    #[error("line {0} names a path that is ignored")]
    Ignored(u64),
}

impl Fault for HeldFault {
    ghost number_of = { number_of };

    ghost place_of = { place_of };

    fn number(&self) -> u32 {
        match self {
            HeldFault::Memory => 1,
            HeldFault::BadList(_) => 1308,
            HeldFault::Unlisted(_) => 901,
            HeldFault::Ignored(_) => 902,
        }
    }

    fn place(&self) -> Option<u64> {
        match self {
            HeldFault::Memory => None,
            HeldFault::BadList(line) | HeldFault::Unlisted(line) | HeldFault::Ignored(line) => {
                Some(*line)
            }
        }
    }
}

impl<E: WantOfMemory> From<E> for HeldFault {
    ghost from_gives = { λ _ e. e ≡ OutOfMemory };

    fn from(_error: E) -> HeldFault {
        HeldFault::Memory
    }
}

impl From<HeldFault> for Refusal {
    ghost from_gives = { λ fault refusal. refusal ≡ held_refusal fault };

    fn from(fault: HeldFault) -> Refusal {
        Refusal::of(&fault)
    }
}

/// Marks of the packages that the text names.
pub fn held_marks(
    alloc: Global,
    tree: &Tree,
    units: &Units<'_>,
    text: &[u8],
) -> Result<Vec<bool>, HeldFault>
    requires { units.now.tree ≡ tree.now }
    ensures each { IfOk result (λ marks. length marks.items ≡ length tree.now) }
    ensures held { IfOk result (λ marks. AreHeld tree.now text.now (has_mark marks.items)) }
    ensures refused { IfErr result
        (λ e. (e ≡ HeldFault.Memory) ⊎ IsFirstFault tree.now text.now e) }
{
    let mut held = vec![in alloc; false; tree.len() as usize]?;
    let lines = pieces(alloc, b'\n', text)?;
    for (index, line) in lines.iter().enumerate() {
        if !line.is_empty() {
            let position = named(alloc, tree, units, line, index as u64 + 1)?;
            held[position as usize] = true;
        }
    }
    Ok(held)
}

/// The position of the package that a line names, which is not ignored.
fn named(
    alloc: Global,
    tree: &Tree,
    units: &Units<'_>,
    line: &[u8],
    number: u64,
) -> Result<u32, HeldFault>
    requires same { units.now.tree ≡ tree.now }
    requires nonempty { is_empty line.now ≡ false }
    ensures ok { IfOk result (IsNamed tree.now line.now) }
    ensures err { IfErr result
        (λ e. (e ≡ HeldFault.Memory) ⊎ IsFaultOf tree.now (number, line.now) e) }
{
    let path = match PkgPath::parse(alloc, line) {
        Ok(path) => path,
        Err(PathFault::Memory) => return Err(HeldFault::Memory),
        Err(_) => return Err(HeldFault::BadList(number)),
    };
    let Some(position) = tree.position(&path) else {
        return Err(HeldFault::Unlisted(number));
    };
    if units.is_ignored(position) {
        return Err(HeldFault::Ignored(number));
    }
    Ok(position)
}

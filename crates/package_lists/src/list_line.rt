//! A line of a list of packages.
ghost use Rattle.std.specs.Prelude.{IfNone, IfOk, IfSome};
ghost use Rattle.package_lists.specs.List.{Says};
ghost use Rattle.package_lists.specs.declared.list_line.ListLine.{ListLine};

use crate::signatures::Signatures;
use claims::Dep;
use faults::{Memory, split_once};
use std::alloc::Global;

/// The contents of a line.
#[derive(Drop)]
pub enum ListLine {
    /// A package of the list.
    Package(Dep),
    /// A package that the previous one of the list was built on.
    Built(Dep),
}

/// The contents of the line, if it is one of a list.
pub fn list_line<'t>(
    alloc: Global,
    signatures: &mut Signatures<'t>,
    line: &'t [u8],
) -> Result<Option<ListLine>, Memory>
    ensures some { IfOk result (λ said. IfSome said (Says line.entry.now)) }
    ensures none { IfOk result (λ said. IfNone said ((s : ListLine) → ¬ Says line.entry.now s)) }
{
    let Some((word, behind)) = split_once(line, b' ') else {
        return Ok(None);
    };
    let Some(signature) = signatures.read(alloc, behind)? else {
        return Ok(None);
    };
    if word == b"package".as_slice() {
        Ok(Some(ListLine::Package(signature)))
    } else if word == b"built".as_slice() {
        Ok(Some(ListLine::Built(signature)))
    } else {
        Ok(None)
    }
}

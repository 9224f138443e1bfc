//! The path among the arguments of `dpbr wayon`.
ghost use Rattle.std.specs.Prelude.{◌≡◌, ◌⊎◌, IfErr, IfOk, Ok};
ghost use Rattle.dpbr_wayon.specs.Refusals.{RefusesPath};
ghost use Rattle.pkgpath.specs.PkgPath as paths;
ghost use Rattle.program_io.specs.Refusals.{memory_refusal};

use pkgpath::PkgPath;
use program_io::Refusal;
use std::alloc::Global;

/// The path that the text spells.
pub(crate) fn path_of_text(alloc: Global, path: &str) -> Result<PkgPath, Refusal>
    ensures ok { IfOk result (λ named. paths.path_of path.now ≡ Ok named) }
    ensures refused { IfErr result (λ r. (r ≡ memory_refusal) ⊎ RefusesPath path.now r) }
{
    match PkgPath::parse(alloc, path.as_bytes()) {
        Ok(path) => Ok(path),
        Err(fault) => Err(Refusal::of(&fault)),
    }
}

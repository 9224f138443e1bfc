//! The names of a package's files.
ghost use Rattle.std.specs.Prelude.{◌≡◌, ◌∷◌, [], ◌++◌, IfOk, not, true};
ghost use Rattle.faults.specs.Bytes.{is_among};
ghost use Rattle.package_record.specs.Content.{is_next_name};
ghost use Rattle.package_record.specs.inside.Names.{names_in};

use crate::file_name::is_file_name;
use faults::Memory;
use indexmap::IndexSet;

/// Inserts a name, and returns whether it is new.
fn enter<'a>(names: &mut IndexSet<&'a [u8]>, name: &'a [u8]) -> Result<bool, Memory>
    ensures is_new { IfOk result (λ is_new.
        is_new ≡ not (is_among (names_in names.old) name.entry.now)) }
    ensures entered { IfOk result (λ is_new.
        is_new ≡ true → names_in names.new ≡ names_in names.old ++ name.entry.now ∷ []) }
{
    Ok(names.insert(name)?)
}

/// Inserts a name, if a file may have it after those inserted before, and returns whether so.
pub fn admit<'a>(names: &mut IndexSet<&'a [u8]>, name: &'a [u8]) -> Result<bool, Memory>
    ensures is_next { IfOk result (λ is_next.
        is_next ≡ is_next_name (names_in names.old) name.entry.now) }
    ensures entered { IfOk result (λ is_next.
        is_next ≡ true → names_in names.new ≡ names_in names.old ++ name.entry.now ∷ []) }
{
    if !is_file_name(name) {
        return Ok(false);
    }
    enter(names, name)
}

//! How a path names a unit.
ghost use Rattle.std.specs.Prelude.{◌≡◌};
ghost use Rattle.engine.specs.Division.{number_named};

use engine::Units;
use pkgpath::PkgPath;

/// The unit with this name. Messages and notes name units so.
pub(crate) fn unit_named(units: &Units<'_>, path: &PkgPath) -> Option<u32>
    ensures { result ≡ number_named units.now path.now }
{
    let unit = units.find(path)?;
    if units.name(unit) == path {
        Some(unit)
    } else {
        None
    }
}

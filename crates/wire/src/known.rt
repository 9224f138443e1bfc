//! A build that is already known, and is received again as a text.
ghost use Rattle.std.specs.Prelude.{◌≡◌, IfSome, IsTrue, Ok};
ghost use Rattle.package_record.specs.Build.{IsBuild, unit_path};
ghost use Rattle.package_record.specs.BuildReading.{whole_build_of};
ghost use Rattle.wire.specs.Reading.{build_in};

use package_record::Build;
use pkgpath::PkgPath;

/// Whether the build is one of this unit.
fn is_of_unit(build: &Build, unit: &PkgPath) -> bool
    ensures unit { IsTrue result → unit_path build.now ≡ unit.now }
    ensures build { IsBuild build.now }
{
    build.unit_path().as_bytes() == unit.as_bytes()
}

/// The build of this unit that is the whole text, if it is the known one. It is shared, and the
/// text is not parsed. None also if memory runs out.
pub fn same_build(known: &Build, unit: &PkgPath, text: &[u8]) -> Option<Build>
    ensures { IfSome result (λ build.
        build_in unit.now (whole_build_of text.now) ≡ Ok build) }
{
    if !is_of_unit(known, unit) || !known.is_text(text) {
        return None;
    }
    match known.copy() {
        Ok(build) => Some(build),
        Err(_) => None,
    }
}

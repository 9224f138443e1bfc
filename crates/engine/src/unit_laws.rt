//! Laws of units.
ghost use Rattle.engine.specs.UnitLaws.{IgnoredSpreads, NamesAreFound, NamesTellUnits, OnlyOneDivision, OnlyOneUnit, PackagesOfOneUnit, PathsAreFound, SinglesStandAlone, UnitUnlessIgnored, UnitsAreWellMade};

/// A package that depends on an ignored one is ignored.
pub fn ignored_spreads()
    ensures { IgnoredSpreads }
{}

/// A tree has only one list of units, and each package is in at most one unit.
pub fn only_one_division()
    ensures units { OnlyOneDivision }
    ensures unit { OnlyOneUnit }
{}

/// Each package that is not ignored is in exactly one unit, and an ignored one is in none.
pub fn unit_unless_ignored()
    ensures some { UnitUnlessIgnored }
    ensures one { PackagesOfOneUnit }
{}

/// The name of a unit is a path. Its packages are in order of path, and in one group. Its build
/// needs nothing that is ignored and, if it has several packages, none of them.
pub fn units_are_well_made()
    ensures { UnitsAreWellMade }
{}

/// No two units have the same name, and a unit is found by its name.
pub fn names_tell_units()
    ensures once { NamesTellUnits }
    ensures name { NamesAreFound }
{}

/// A unit is found by the path of each of its packages.
pub fn paths_are_found()
    ensures { PathsAreFound }
{}

/// If each package is a group of its own, each package that is not ignored is a unit of its own.
pub fn singles_stand_alone()
    ensures { SinglesStandAlone }
{}

//! Turns notes into knowledge.
ghost use Rattle.std.specs.Prelude.{◌≡◌, ◌<◌, length, map};
ghost use Rattle.engine.specs.Division.{IsDivision, number_named, unit_at};
ghost use Rattle.protocol.specs.State.{noted_at};
ghost use Rattle.member.specs.shared.Fields.{engine_with, facts_of_known};
ghost use Rattle.member.specs.inside.Units.{agreed_too, is_held_fact};

use crate::known::Known;
use crate::naming::unit_named;
use ballots::Fact;
use engine::{Engine, Units};
use pkgpath::PkgPath;

/// Keeps the fact about the unit with this name. If it says that a build is held, the unit's
/// packages become agreed. A path that names no unit changes nothing. Does not allocate.
pub(crate) fn keep_fact(
    units: &Units<'_>,
    known: &mut [Known],
    engine: &mut Engine<'_>,
    path: &PkgPath,
    fact: Fact,
)
    requires each { length known.old ≡ length units.now.units }
    requires engine { engine.old ≡ engine_with units.now (map facts_of_known known.old) }
    ensures facts { map facts_of_known known.new
        ≡ noted_at (number_named units.now path.now) (map facts_of_known known.old)
        (record { path = path.now; fact = fact }) }
    ensures engine { engine.new ≡ engine_with units.now (map facts_of_known known.new) }
{
    let Some(unit) = unit_named(units, path) else {
        return;
    };
    let is_held = is_held(&fact);
    known[unit as usize].keep(fact);
    if is_held {
        agree(units, engine, unit);
    }
}

/// Whether the fact is that a build is held.
fn is_held(fact: &Fact) -> bool
    ensures { result ≡ is_held_fact fact.now }
{
    match fact {
        Fact::Held(_) => true,
        _ => false,
    }
}

/// Marks the unit's packages as agreed.
fn agree(units: &Units<'_>, engine: &mut Engine<'_>, unit: u32)
    requires unit { unit < length units.now.units }
    requires tree { engine.old.tree ≡ units.now.tree }
    ensures engine { engine.new ≡ agreed_too engine.old (unit_at units.now unit).packages }
    ensures division { IsDivision units.now }
{
    prove!(unit < units.len());
    for position in units.packages(unit) {
        engine.agree(*position);
    }
}

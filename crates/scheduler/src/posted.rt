//! Jobs that are out.
ghost use Rattle.std.specs.Prelude.{◌≡◌, ◌++◌, ◌==◌, ◌∷◌, [], filter, if◌then◌else◌, is_ok, not, position};
ghost use Rattle.scheduler.specs.Held.{is_letter_held};
ghost use Rattle.scheduler.specs.Posted.{has_unit, not_held};
ghost use Rattle.protocol.specs.State.{is_held};

use engine::Letter;
use faults::Memory;
use job_folder::Name;
use member::Member;

/// A job that is out: its unit and its name.
#[derive(Drop)]
pub(crate) struct Posted {
    pub unit: u32,
    pub name: Name,
}

/// Whether the unit is among these.
pub(crate) fn is_among(all: &[Posted], unit: u32) -> bool
    ensures { result ≡ has_unit all.now unit }
{
    all.iter().any(|posted| posted.unit == unit)
}

/// The unit's place among these.
pub(crate) fn place_of(all: &[Posted], unit: u32) -> Option<usize>
    ensures { result ≡ position (λ p. p.unit == unit) all.now }
{
    all.iter().position(|posted| posted.unit == unit)
}

/// Adds one to these.
pub(crate) fn push(all: &mut Vec<Posted>, posted: Posted) -> Result<(), Memory>
    ensures { all.new.items
        ≡ (if is_ok result then all.old.items ++ posted ∷ [] else all.old.items) }
{
    all.push(posted)?;
    Ok(())
}

/// Keeps those whose units are not held.
pub(crate) fn forget_held(all: &mut Vec<Posted>, member: &Member<'_>)
    ensures { all.new.items ≡ not_held member.now all.old.items }
{
    all.retain(|posted| !is_held(member, posted.unit));
}

/// Keeps the units that are not held.
pub(crate) fn forget_held_units(units: &mut Vec<u32>, member: &Member<'_>)
    ensures { units.new.items ≡ filter (λ u. not (is_held member.now u)) units.old.items }
{
    units.retain(|unit| !is_held(member, *unit));
}

/// Whether the unit of this number is held.
pub(crate) fn is_held(member: &Member<'_>, unit: u32) -> bool
    ensures { result ≡ is_held member.now unit }
{
    let units = member.units();
    if unit >= units.len() {
        return false;
    }
    is_letter_held(member.letter(units.packages(unit)[0]))
}

/// Whether a package with this letter is held.
fn is_letter_held(letter: Letter) -> bool
    ensures { result ≡ is_letter_held letter }
{
    matches!(letter, Letter::I | Letter::B)
}

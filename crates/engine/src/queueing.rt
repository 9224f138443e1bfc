//! Which units wait, and for how many packages, and what changes when a package becomes
//! installable.
ghost use Rattle.std.specs.Prelude.{◌≡◌, ◌<◌, ◌-◌, ◌⊎◌, ◌≢◌, ℕ, All, Contains, length, set, slice_index};
ghost use Rattle.graph.specs.Lists.{AreReversed, times};
ghost use Rattle.engine.specs.inside.Queueing.{AreFitting, AreQueued, AreQueueing, needs_of};
ghost use Rattle.engine.specs.shared.Shown.{is_held, is_installed, letter_at};
ghost use Rattle.engine.specs.declared.Letter.TheVariants.{T, Q, B, I};

use crate::letters::Letters;
use crate::{Letter, Units};
use graph::Reversed;

/// Changes the letter of those of the packages that wait to Q.
fn queue(letters: &mut Letters, packages: &[u32])
    requires { All (λ p. p < length letters.old) packages.now }
    ensures each { length letters.new ≡ length letters.old }
    ensures only { (p : ℕ) → (letter_at letters.new p ≡ letter_at letters.old p)
        ⊎ (Contains packages.now p × (letter_at letters.old p ≡ T)
        × (letter_at letters.new p ≡ Q)) }
    ensures all { All (λ p. letter_at letters.new p ≢ T) packages.now }
{
    for position in packages {
        if let Letter::T = letters.at(*position) {
            letters.set(*position, Letter::Q);
        }
    }
}

/// The unit waits for one package less. When it waits for none, its packages are queued.
fn wait_less(letters: &mut Letters, waits: &mut [usize], units: &Units<'_>, unit: u32)
    requires listed { unit < length waits.old }
    requires some { 0 < slice_index waits.old unit }
    requires fitting { AreFitting units.now letters.old waits.old }
    ensures fitting { AreFitting units.now letters.new waits.new }
    ensures waits { waits.new ≡ set waits.old unit (slice_index waits.old unit - 1) }
    ensures queued { AreQueued letters.old letters.new }
{
    waits[unit as usize] -= 1;
    if waits[unit as usize] == 0 {
        queue(letters, units.packages(unit));
    }
}

/// The package becomes installable, so the units that need it wait for one package less.
fn install(
    letters: &mut Letters,
    waits: &mut [usize],
    units: &Units<'_>,
    needing: &[u32],
    position: u32,
)
    requires position { position < length letters.old }
    requires built { letter_at letters.old position ≡ B }
    requires queueing { AreQueueing units.now letters.old waits.old }
    requires needing { (u : ℕ) → u < length units.now.units
        → times u needing.now ≡ times position (needs_of units.now u) }
    requires listed { All (λ u. u < length units.now.units) needing.now }
    ensures queueing { AreQueueing units.now letters.new waits.new }
    ensures queued { AreQueued (set letters.old position I) letters.new }
{
    letters.set(position, Letter::I);
    for unit in needing {
        wait_less(letters, waits, units, *unit);
    }
}

/// Makes those of the found packages installable that are built and lack nothing.
pub(crate) fn install_all(
    letters: &mut Letters,
    waits: &mut [usize],
    units: &Units<'_>,
    needs: &Reversed,
    lacks: &[usize],
    found: &[u32],
)
    requires queueing { AreQueueing units.now letters.old waits.old }
    requires needs { AreReversed (length letters.old) (length units.now.units) (needs_of units.now)
        needs.now }
    requires each { length lacks.now ≡ length letters.old }
    requires found { All (λ p. p < length letters.old) found.now }
    ensures queueing { AreQueueing units.now letters.new waits.new }
    ensures held { (p : ℕ) → is_held (letter_at letters.new p) ≡ is_held (letter_at letters.old p) }
    ensures built { (p : ℕ) → letter_at letters.new p ≡ B → letter_at letters.old p ≡ B }
    ensures installed { (p : ℕ) → letter_at letters.new p ≡ I
        → (letter_at letters.old p ≡ I) ⊎ (Contains found.now p × (slice_index lacks.now p ≡ 0)) }
    ensures all { All (λ p. letter_at letters.new p ≡ B → 0 < slice_index lacks.now p) found.now }
{
    for position in found {
        if lacks[*position as usize] == 0 {
            if let Letter::B = letters.at(*position) {
                install(letters, waits, units, needs.at(*position), *position);
            }
        }
    }
}

//! Which packages are not installable, given which are held: those that are not held, and the held
//! ones that need one of these to run, directly or indirectly.
ghost use Rattle.std.specs.Prelude.{◌≡◌, IfOk, length};
ghost use Rattle.graph.specs.Lists.{AreReversed};
ghost use Rattle.graph.specs.Marks.{has_mark};
ghost use Rattle.status_letters.specs.inside.Lacking.{AreLacking, AreUnmarked, held_runs};

use engine::marks_of;
use faults::Memory;
use graph::{Naming, Reversed, Walk};
use listing::Tree;
use std::alloc::Global;

/// Marks of the packages that are not installable.
pub(crate) fn lacking_marks(alloc: Global, tree: &Tree, held: &[bool]) -> Result<Vec<bool>, Memory>
    requires { length held.now ≡ length tree.now }
    ensures each { IfOk result (λ marks. length marks.items ≡ length tree.now) }
    ensures lacking { IfOk result
        (λ marks. AreLacking tree.now (has_mark held.now) (has_mark marks.items)) }
{
    let len = tree.len();
    let unheld = unheld_positions(alloc, len, held)?;
    let runs = runs_of_held(alloc, tree, held)?;
    let mut walk = Walk::new(alloc, len)?;
    walk.reach_all(&runs, unheld.as_slice());
    marks_of(alloc, len, walk.found())
}

/// Those of the `len` positions that have no mark.
fn unheld_positions(alloc: Global, len: u32, held: &[bool]) -> Result<Vec<u32>, Memory>
    requires { length held.now ≡ len }
    ensures { IfOk result (λ unheld. AreUnmarked held.now len unheld.items) }
{
    let mut unheld = Vec::new(alloc);
    for position in 0..len {
        if !held[position as usize] {
            unheld.push(position)?;
        }
    }
    Ok(unheld)
}

/// For each package, the held ones that need it to run.
fn runs_of_held(alloc: Global, tree: &Tree, held: &[bool]) -> Result<Reversed, Memory>
    requires { length held.now ≡ length tree.now }
    ensures { IfOk result (λ runs. AreReversed (length tree.now) (length tree.now)
        (held_runs tree.now (has_mark held.now)) runs) }
{
    let mut runs = Naming::new(alloc, tree.len())?;
    for position in 0..tree.len() {
        if held[position as usize] {
            runs.add(position, tree.run_deps(position))?;
        }
    }
    runs.turned(alloc)
}

//! The ignored packages: the marked ones and all that depend on them. They are found by following
//! lists of dependents, each package once.
ghost use Rattle.std.specs.Prelude.{◌≡◌, ◌<◌, All, IfOk, length};
ghost use Rattle.graph.specs.Lists.{AreReversed};
ghost use Rattle.engine.specs.shared.Marks.{AreIgnored, AreMarksOf, deps_at, marked_of};

use faults::Memory;
use graph::{Naming, Reversed, Walk};
use listing::Tree;
use std::alloc::Global;

/// The marks of the ignored packages.
pub(crate) fn ignored_marks(alloc: Global, tree: &Tree) -> Result<Vec<bool>, Memory>
    ensures { IfOk result (λ marks. AreIgnored tree.now marks.items) }
{
    let marked = marked_packages(alloc, tree)?;
    if marked.is_empty() {
        return marks_of(alloc, tree.len(), marked.as_slice());
    }
    let dependents = dependents(alloc, tree)?;
    let mut walk = Walk::new(alloc, tree.len())?;
    walk.reach_all(&dependents, marked.as_slice());
    marks_of(alloc, tree.len(), walk.found())
}

/// The packages that are marked in the tree.
fn marked_packages(alloc: Global, tree: &Tree) -> Result<Vec<u32>, Memory>
    ensures { IfOk result (λ marked. marked.items ≡ marked_of tree.now) }
{
    let mut marked = Vec::new(alloc);
    for position in 0..tree.len() {
        if tree.marked(position) {
            marked.push(position)?;
        }
    }
    Ok(marked)
}

/// For each package, those that depend on it.
fn dependents(alloc: Global, tree: &Tree) -> Result<Reversed, Memory>
    ensures { IfOk result (λ lists.
        AreReversed (length tree.now) (length tree.now) (deps_at tree.now) lists) }
{
    let mut lists = Naming::new(alloc, tree.len())?;
    for position in 0..tree.len() {
        lists.add(position, tree.build_deps(position))?;
        lists.add(position, tree.run_deps(position))?;
    }
    lists.turned(alloc)
}

/// A list of `len` marks, of which those at these positions are set.
pub fn marks_of(alloc: Global, len: u32, positions: &[u32]) -> Result<Vec<bool>, Memory>
    requires { All (λ p. p < len) positions.now }
    ensures { IfOk result (λ marks. AreMarksOf len positions.now marks.items) }
{
    let mut marks = vec![in alloc; false; len as usize]?;
    for position in positions {
        marks[*position as usize] = true;
    }
    Ok(marks)
}

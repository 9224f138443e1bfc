//! The answer to a node's job.
ghost use Rattle.std.specs.Prelude.{
  ◌≡◌,
  ◌≢◌,
  ◌<◌,
  All,
  IfErr,
  IfOk,
  MatchOption,
  None,
  false,
  length,
  map,
  option_map,
};
ghost use Rattle.turn_rules.specs.Answering.{answer_if, answer_of, built_of, given_for};
ghost use Rattle.listing.specs.Tree.{path_at};
ghost use Rattle.node.specs.Step.{Does};
ghost use Rattle.node.specs.declared.fault.NodeFault.TheVariants.{Memory as out_of_memory};
ghost use Rattle.protocol.specs.Given.{Given};
ghost use Rattle.protocol.specs.Jobs.{paths_at};
ghost use Rattle.protocol.specs.State.{name_at};
ghost use Rattle.turn_rules.specs.CausedSteps.{IsPart, IsCausedStep};
ghost use Rattle.turn_rules.specs.inside.Answering.{AreParts, IsWaiting, is_bad_files};

use crate::CausedStep;
use crate::caused_step::make_ready;
use ballots::Claimer;
use faults::Memory;
use listing::Tree;
use member::{Input, Member, Packages, Refusal};
use node::{Node, NodeFault};
use package_record::Files;
use pkgpath::PkgPath;
use protocol::ByPath;
use stable_record::Disk;
use std::alloc::Global;

/// The answer to the node's job, if it has one and its files are made.
///
/// # Errors
///
/// Out of memory, if there is an answer.
pub fn answer_if<D: Disk>(
    alloc: Global,
    node: &mut Node<'_, D>,
    made: Option<&Packages>,
) -> Result<Option<CausedStep>, NodeFault>
    requires up { node.old.node.stopped ≡ false }
    ensures same { node.new ≡ node.old }
    ensures part { IfOk result (IsPart node.new
        (answer_if (option_map (λ b. b.now) made.entry) node.old.node.member)) }
    ensures refused { IfErr result (λ f. (f ≡ out_of_memory)
        × (answer_if (option_map (λ b. b.now) made.entry) node.old.node.member ≢ None)) }
{
    match made {
        Some(builds) => answer(alloc, node, builds),
        None => Ok(None),
    }
}

/// The answer to the node's job, if it has one: its build from the given files, or that the build
/// failed, if there aren't files for all packages of the unit.
///
/// # Errors
///
/// Out of memory, if there is a job.
pub fn answer<D: Disk>(
    alloc: Global,
    node: &mut Node<'_, D>,
    builds: &Packages,
) -> Result<Option<CausedStep>, NodeFault>
    requires up { node.old.node.stopped ≡ false }
    ensures same { node.new ≡ node.old }
    ensures part { IfOk result
        (IsPart node.new (answer_of node.old.node.member builds.now)) }
    ensures refused { IfErr result (λ f. (f ≡ out_of_memory)
        × (answer_of node.old.node.member builds.now ≢ None)) }
{
    let Some(unit) = waiting(node.member()) else {
        return Ok(None);
    };
    let (name, given) = parts_of(alloc, node.member(), unit, builds)?;
    Ok(Some(answered(node, unit, name, given)?))
}

/// The unit of the open claim, if that waits for a build.
fn waiting(member: &Member<'_>) -> Option<u32>
    ensures { MatchOption result ((builds : Given) → answer_of member.now builds ≡ None)
        (IsWaiting member.now) }
{
    let open = member.open_claim()?;
    match &open.claimer {
        Claimer::Building { .. } => Some(open.unit),
        _ => None,
    }
}

/// The unit's name, and the files for its packages, if there are files for each.
fn parts_of(
    alloc: Global,
    member: &Member<'_>,
    unit: u32,
    builds: &Packages,
) -> Result<(PkgPath, Option<Packages>), Memory>
    requires { unit < length member.now.division.units }
    ensures name { IfOk result (λ parts. parts.0 ≡ name_at member.now unit) }
    ensures given { IfOk result (λ parts.
        parts.1 ≡ given_for builds.now (paths_at member.now unit)) }
{
    let units = member.units();
    let name = units.name(unit).copy()?;
    let given = given_to(alloc, member.tree(), units.packages(unit), builds)?;
    Ok((name, given))
}

/// These packages with their files, if there are files for each.
fn given_to(
    alloc: Global,
    tree: &Tree,
    positions: &[u32],
    builds: &Packages,
) -> Result<Option<Packages>, Memory>
    requires { All (λ p. p < length tree.now) positions.now }
    ensures { IfOk result (λ given.
        given ≡ given_for builds.now (map (path_at tree.now) positions.now)) }
{
    if positions.len() < 2 {
        return looked_up(alloc, tree, positions, builds);
    }
    let given = ByPath::new(alloc, builds)?;
    found(alloc, tree, positions, &given)
}

/// The packages with their files, found by a search through `builds` for each package.
fn looked_up(
    alloc: Global,
    tree: &Tree,
    positions: &[u32],
    builds: &Packages,
) -> Result<Option<Packages>, Memory>
    requires { All (λ p. p < length tree.now) positions.now }
    ensures { IfOk result (λ given.
        given ≡ given_for builds.now (map (path_at tree.now) positions.now)) }
{
    let mut items = Vec::with_capacity(alloc, positions.len())?;
    for position in positions {
        let Some(files) = builds.files_of(tree.path(*position)) else {
            return Ok(None);
        };
        items.push(with_path(tree.path(*position), files)?)?;
    }
    Ok(Some(Packages::new(items)))
}

/// The packages with their files, found in an index by path.
fn found(
    alloc: Global,
    tree: &Tree,
    positions: &[u32],
    builds: &ByPath<'_>,
) -> Result<Option<Packages>, Memory>
    requires { All (λ p. p < length tree.now) positions.now }
    ensures { IfOk result (λ given.
        given ≡ given_for builds.now (map (path_at tree.now) positions.now)) }
{
    let mut items = Vec::with_capacity(alloc, positions.len())?;
    for position in positions {
        let Some(files) = builds.files(tree.path(*position)) else {
            return Ok(None);
        };
        items.push(with_path(tree.path(*position), files)?)?;
    }
    Ok(Some(Packages::new(items)))
}

/// A copy of the path and the files.
fn with_path(path: &PkgPath, files: &Files) -> Result<(PkgPath, Files), Memory>
    ensures { IfOk result (λ p. p ≡ (path.now, files.now)) }
{
    let path = path.copy()?;
    let files = files.copy()?;
    Ok((path, files))
}

/// The prepared step that the unit was built from these files, or that its build failed, if there
/// are none or they make no build.
fn answered<D: Disk>(
    node: &mut Node<'_, D>,
    unit: u32,
    name: PkgPath,
    given: Option<Packages>,
) -> Result<CausedStep, NodeFault>
    requires up { node.old.node.stopped ≡ false }
    requires parts { AreParts node.old.node.member unit name given }
    ensures same { node.new ≡ node.old }
    ensures readied { (w : IsWaiting node.old.node.member unit) → IfOk result
        (IsCausedStep node.new
        (Does (built_of node.old.node.member unit w.host w.claim given))) }
    ensures refused { IsWaiting node.old.node.member unit
        → IfErr result (λ f. f ≡ out_of_memory) }
{
    let Some(packages) = given else {
        return make_ready(node, Input::Failed { path: name });
    };
    let path = name.copy()?;
    match make_ready(node, Input::Built { path, packages }) {
        Ok(readied) => Ok(readied),
        Err(fault) if is_bad_files(fault) => make_ready(node, Input::Failed { path: name }),
        Err(fault) => Err(fault),
    }
}

/// Whether the node refuses these files because they make no build.
fn is_bad_files(fault: NodeFault) -> bool
    ensures { result ≡ is_bad_files fault }
{
    matches!(fault, NodeFault::Refused(Refusal::BadFiles(_)))
}

//! Jobs: what is to be built.
ghost use Rattle.std.specs.Prelude.{◌≡◌, ◌<◌, ◌++◌, ◌∷◌, [], IfOk, IfSome, OnOk, filter_map, length};
ghost use Rattle.std.specs.Prelude.{map, option_map};
ghost use Rattle.ballots.specs.Support.{IsMember};
ghost use Rattle.protocol.specs.Jobs.{deps_of, job_of, signature};
ghost use Rattle.protocol.specs.State.{held_record};

use crate::Member;
use crate::held::HeldRecord;
use crate::known::Known;
use crate::packages::{in_order, paths_of};
use ballots::{Body, Claimer, Next};
use claims::{Claim, Dep, Deps, Job};
use engine::{Tree, Units};
use faults::Memory;
use pkgpath::PkgPath;
use protocol::Input;
use std::alloc::Global;

impl<'a> Member<'a> {
    /// Computes and caches the digests that the job of the open claim needs, if the input is the
    /// one that starts that job. Later jobs on the same records find them cached. If memory runs
    /// out, the job computes the missing ones itself.
    pub(crate) fn sign_before(&mut self, input: &Input)
        ensures { self.new ≡ self.old }
    {
        if let Some(unit) = self.unit_to_build(input) {
            let alloc = self.allocator();
            let known = self.known.as_mut_slice();
            let _ = sign_needed(alloc, self.tree, &self.units, known, unit);
        }
    }

    /// The unit of the open claim, if the input is the promise that starts its job.
    fn unit_to_build(&self, input: &Input) -> Option<u32>
        ensures { IfSome result (λ unit. unit < length self.now.division.units) }
    {
        let Input::Message(message) = input else {
            return None;
        };
        let Body::Promise(claim, None) = &message.body else {
            return None;
        };
        let Ok(unit) = self.unit_heard(message) else {
            return None;
        };
        let open = self.claim_for(unit)?;
        if is_built_after(&open.claimer, message.sender, *claim) {
            Some(unit)
        } else {
            None
        }
    }

    /// The job for the unit, on what is held.
    pub(crate) fn job_for(&self, unit: u32, host: u16, claim: Claim) -> Result<Job, Memory>
        requires { unit < length self.now.division.units }
        ensures { IfOk result (λ job. job ≡ job_of self.now unit host claim) }
    {
        let path = self.units.name(unit).copy()?;
        let packages = paths_of(self.allocator(), self.tree, self.units.packages(unit))?;
        let deps = self.deps(unit)?;
        Ok(Job {
            path,
            packages,
            claim,
            host,
            deps,
        })
    }

    /// The signatures of the held records of all that the unit's build needs, in order of path.
    fn deps(&self, unit: u32) -> Result<Deps, Memory>
        requires { unit < length self.now.division.units }
        ensures { IfOk result (λ deps. deps ≡ deps_of self.now unit) }
    {
        let alloc = self.allocator();
        let paths = in_order(alloc, self.tree, self.units.build_deps(unit))?;
        let mut deps = Vec::with_capacity(alloc, paths.len())?;
        self.sign(paths.as_slice(), &mut deps)?;
        Ok(Deps::new(deps))
    }

    /// Adds the signatures of the held records of these paths, in their order.
    fn sign(&self, paths: &[&PkgPath], deps: &mut Vec<Dep>) -> Result<(), Memory>
        requires { deps.old.items ≡ [] }
        ensures { OnOk result (deps.new.items
            ≡ filter_map (λ path. option_map signature (held_record self.now path))
            (map (λ path. path.now) paths.now)) }
    {
        for path in paths {
            if let Some(held) = self.held_record(*path) {
                add(&held, deps)?;
            }
        }
        Ok(())
    }
}

/// Whether the claimer starts a build once member `from` promises the claim and reports no vote.
fn is_built_after(claimer: &Claimer, from: u8, claim: Claim) -> bool
    requires { IsMember from }
{
    match claimer.promise(from, claim, None) {
        Ok(step) => matches!(step.next, Next::Build),
        Err(_) => false,
    }
}

/// Computes and caches the missing digests of the held records that the unit's build needs.
fn sign_needed(
    alloc: Global,
    tree: &Tree,
    units: &Units<'_>,
    known: &mut [Known],
    unit: u32,
) -> Result<(), Memory>
    requires unit { unit < length units.now.units }
    requires tree { units.now.tree ≡ tree.now }
    requires each { length known.old ≡ length units.now.units }
    ensures { known.new ≡ known.old }
{
    for position in units.build_deps(unit) {
        if let Some(owner) = units.unit_of(*position) {
            known[owner as usize].sign(alloc, tree.path(*position))?;
        }
    }
    Ok(())
}

/// Adds the signature of the package.
fn add(held: &HeldRecord<'_>, deps: &mut Vec<Dep>) -> Result<(), Memory>
    ensures { OnOk result (deps.new.items ≡ deps.old.items ++ signature held.now ∷ []) }
{
    let dep = signature(held)?;
    deps.push(dep)?;
    Ok(())
}

/// The signature of the package: its path, its name, and the SHA-256 of its record's text.
fn signature(held: &HeldRecord<'_>) -> Result<Dep, Memory>
    ensures { IfOk result (λ dep. dep ≡ signature held.now) }
{
    let path = held.record().path().copy()?;
    let name = held.record().name().copy()?;
    let digest = held.digest()?;
    Ok(Dep { path, name, digest })
}

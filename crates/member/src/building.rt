//! How a claim that waits for a build goes on.
ghost use Rattle.std.specs.Prelude.{◌≡◌, ◌≢◌, ◌<◌, ◌⊎◌, IfOk, MatchResult};
ghost use Rattle.std.specs.Prelude.{None, Some, false, is_some, length, map, true, ℕ};
ghost use Rattle.claims.specs.Claim.{IsClaim};
ghost use Rattle.faults.specs.Answers.{IsRightUnless};
ghost use Rattle.engine.specs.Division.{unit_at};
ghost use Rattle.protocol.specs.Answers.{message_of};
ghost use Rattle.protocol.specs.Sends.{sent_to};
ghost use Rattle.protocol.specs.Jobs.{are_given, job_of, paths_at};
ghost use Rattle.protocol.specs.Member.{IsMember};
ghost use Rattle.protocol.specs.Step.{made_by, unit_in};
ghost use Rattle.member.specs.inside.Packages.{files_at, made_at, made_of};
ghost use Rattle.member.specs.inside.Steps.{IsPrepared};
ghost use Rattle.member.specs.inside.Waiting.{waiting_for};

use crate::packages::{by_path, made};
use crate::receivers::everyone;
use crate::texts::Listed;
use crate::{ClaimChange, Member, MemberStep, OpenClaim};
use arrayvec::ArrayVec;
use ballots::{Body, Claimer, Tally};
use claims::{Claim, Job};
use faults::Memory;
use package_record::{Build, Package, RecordFault};
use pkgpath::PkgPath;
use protocol::{Input, Packages, Refusal, Sends};

impl<'a> Member<'a> {
    /// Makes the build of the unit that the path names, by this host under the claim, from these
    /// files and on what is held. No claim has to be open.
    ///
    /// # Errors
    ///
    /// `Memory`; else the first that applies: `OtherPackages`; `BadFiles`.
    pub fn build(
        &self,
        path: &PkgPath,
        host: u16,
        claim: Claim,
        packages: Packages,
    ) -> Result<Build, Refusal>
        requires unit { is_some (unit_in self.now path.now) ≡ true }
        requires claim { IsClaim claim }
        ensures { (unit : ℕ) → unit_in self.now path.now ≡ Some unit
            → IsRightUnless Refusal.Memory result
            (made_by self.now unit (job_of self.now unit host claim) packages) }
    {
        let unit = self.units.find(path).unwrap();
        let job = self.job_for(unit, host, claim)?;
        self.build_of(unit, &job, packages)
    }

    /// The claim's host has built the unit. The build is sent to all as the claim's proposal. It
    /// shares the tree's texts, because the member may later hold it unchanged.
    pub(crate) fn built(&self, path: &PkgPath, packages: Packages) -> Result<MemberStep, Refusal>
        ensures { IsPrepared self.now (Input.Built path.now packages) result }
    {
        let (unit, job) = self.building(path)?;
        let made = self.build_of(unit, job, packages)?;
        let build = made.with_texts(&Listed { tree: self.tree })?;
        let sends = self.proposed(unit, job.claim, &build, everyone(&self.weights))?;
        let claimer = Claimer::Voting {
            claim: job.claim,
            value: build,
            voted: Tally::new(&self.weights),
        };
        let change = ClaimChange::Becomes(OpenClaim {
            unit,
            host: job.host,
            claimer,
        });
        Ok(MemberStep::saying(sends, change))
    }

    /// Sends the build of the unit to these members as the claim's proposal.
    pub(crate) fn proposed(
        &self,
        unit: u32,
        claim: Claim,
        build: &Build,
        receivers: ArrayVec<u8, 9>,
    ) -> Result<Sends, Memory>
        requires { unit < length self.now.division.units }
        ensures { IfOk result (λ sends. sends
            ≡ sent_to (Some (message_of self.now unit (Body.Propose claim build.now)))
            receivers.items) }
    {
        let sent = build.copy()?;
        self.sent(unit, receivers, Body::Propose(claim, sent))
    }

    /// The claim's host could not build the unit. The claim ends.
    pub(crate) fn failed(&self, path: &PkgPath) -> Result<MemberStep, Refusal>
        ensures { IsPrepared self.now (Input.Failed path.now) result }
    {
        let _ = self.building(path)?;
        Ok(MemberStep::saying(Sends::nothing(), ClaimChange::Ends))
    }

    /// The unit that the path names and its job, if the open claim is for it and waits for a build.
    fn building(&self, path: &PkgPath) -> Result<(u32, &Job), Refusal>
        ensures job { MatchResult result (λ x. waiting_for self.now path.now ≡ Some (x.0, x.1.now))
            (λ e. (e ≡ Refusal.NoClaim) × (waiting_for self.now path.now ≡ None)) }
        ensures member { IsMember self.now }
    {
        let (Some(unit), Some(open), Some(job)) = (self.units.find(path), &self.claim, &self.job)
        else {
            return Err(Refusal::NoClaim);
        };
        if open.unit != unit {
            return Err(Refusal::NoClaim);
        }
        Ok((unit, job))
    }

    /// The build that the job and these files make of the unit.
    fn build_of(&self, unit: u32, job: &Job, packages: Packages) -> Result<Build, Refusal>
        requires unit { unit < length self.now.division.units }
        requires claim { IsClaim job.now.claim }
        ensures { IsRightUnless Refusal.Memory result (made_by self.now unit job.now packages) }
    {
        let packages = self.packages_of(unit, packages)?;
        let built = job.deps().copy()?;
        match Build::make(self.allocator(), job.host, job.claim, built, packages) {
            Ok(build) => Ok(build),
            Err(fault) => Err(refusal_of(fault)),
        }
    }

    /// The unit's packages with these files. Fails if the files are not exactly those of the unit's
    /// packages.
    fn packages_of(&self, unit: u32, packages: Packages) -> Result<Vec<Package>, Refusal>
        requires { unit < length self.now.division.units }
        ensures member { IsMember self.now }
        ensures made { MatchResult result
            (λ made. (are_given (paths_at self.now unit) packages ≡ true)
            × (map made_of made.items ≡ map (made_at self.now.division.tree (files_at packages))
            (unit_at self.now.division unit).packages))
            (λ e. (e ≡ Refusal.Memory) ⊎ ((e ≡ Refusal.OtherPackages)
            × (are_given (paths_at self.now unit) packages ≡ false))) }
    {
        let alloc = self.allocator();
        let positions = self.units.packages(unit);
        if packages.as_slice().len() != positions.len() {
            drop(packages);
            return Err(Refusal::OtherPackages);
        }
        let mut files = by_path(alloc, packages)?;
        made(alloc, self.tree, positions, &mut files)
    }
}

/// The refusal if no build can be made: out of memory, or bad files.
fn refusal_of(fault: RecordFault) -> Refusal
    ensures { ((fault ≡ RecordFault.Memory) × (result ≡ Refusal.Memory))
        ⊎ ((fault ≢ RecordFault.Memory) × (result ≡ Refusal.BadFiles fault)) }
{
    match fault {
        RecordFault::Memory => Refusal::Memory,
        fault => Refusal::BadFiles(fault),
    }
}

//! Getters of a member's state.
ghost use Rattle.std.specs.Prelude.{◌≡◌, ◌<◌, length, option_map};
ghost use Rattle.std.specs.Option.{option_copied};
ghost use Rattle.claims.specs.Votes.{report_of};
ghost use Rattle.engine.specs.State as engines;
ghost use Rattle.protocol.specs.Answers.{tree_digest};
ghost use Rattle.protocol.specs.Member.{IsMember};
ghost use Rattle.protocol.specs.State.{engine_of, held_record};
ghost use Rattle.protocol.specs.Step.{facts_named, job_of_claim};
ghost use Rattle.member.specs.KnownBuilds.{known_build, proposal_in};
ghost use Rattle.member.specs.OpenClaims.{open_of};

use crate::held::HeldRecord;
use crate::{Member, OpenClaim};
use ballots::{Claimer, Weights};
use claims::{Claim, Job};
use engine::{Counts, Letter, Tree, Units};
use package_record::{Build, Record};
use pkgpath::PkgPath;
use std::alloc::Global;

impl<'a> Member<'a> {
    /// The member's tree.
    pub fn tree(&self) -> &'a Tree
        ensures { result.now ≡ self.now.division.tree }
    {
        self.tree
    }

    /// The tree's digest, by which messages of other trees are recognized.
    pub fn tree_digest(&self) -> &[u8; 32]
        ensures { result.now ≡ tree_digest self.now.division.tree }
    {
        &self.digest
    }

    /// The units of the tree. Facts are kept by unit.
    pub fn units(&self) -> &Units<'a>
        ensures division { result.now ≡ self.now.division }
        ensures member { IsMember self.now }
    {
        &self.units
    }

    /// The weight of each member.
    pub fn weights(&self) -> &Weights
        ensures weights { result.now ≡ self.now.weights }
        ensures member { IsMember self.now }
    {
        &self.weights
    }

    /// The member's own number.
    pub fn me(&self) -> u8
        ensures me { result ≡ self.now.me }
        ensures member { IsMember self.now }
    {
        self.me
    }

    /// The record that is held for the package path.
    pub fn held(&self, path: &PkgPath) -> Option<&Record>
        ensures { option_copied result ≡ held_record self.now path.now }
    {
        let held = self.held_record(path)?;
        Some(held.record())
    }

    /// The record that is held for the package path, with its digest if that is cached.
    pub(crate) fn held_record(&self, path: &PkgPath) -> Option<HeldRecord<'_>>
        ensures { result ≡ held_record self.now path.now }
    {
        let position = self.tree.position(path)?;
        let unit = self.units.unit_of(position)?;
        let held = self.known[unit as usize].held.as_ref()?;
        held.record_of(path)
    }

    /// The letter of the package at the position.
    pub fn letter(&self, position: u32) -> Letter
        requires { position < length self.now.division.tree }
        ensures letter { engines.HasLetter (engine_of self.now) position result }
        ensures member { IsMember self.now }
    {
        self.engine.letter(position)
    }

    /// The least position from this one on with the letter Q, if there is one.
    pub fn queued_from(&self, from: u32) -> Option<u32>
        ensures queued { engines.IsQueuedFrom (engine_of self.now) from result }
        ensures member { IsMember self.now }
    {
        self.engine.queued_from(from)
    }

    /// How many packages have each letter.
    pub fn counts(&self) -> Counts
        ensures counts { engines.AreCounts (engine_of self.now) result }
        ensures member { IsMember self.now }
    {
        self.engine.counts()
    }

    /// The claim that is open.
    pub fn open_claim(&self) -> Option<&OpenClaim>
        ensures claim { option_map open_of (option_copied result) ≡ self.now.claim }
        ensures member { IsMember self.now }
    {
        self.claim.as_ref()
    }

    /// The job of the open claim, while that waits for a build.
    pub fn job(&self) -> Option<&Job>
        ensures { option_copied result ≡ job_of_claim self.now }
    {
        self.job.as_ref()
    }

    /// The greatest round that the member opened for the unit that the path names, or 0.
    pub fn opened(&self, path: &PkgPath) -> u64
        ensures { result ≡ (facts_named self.now path.now).opened }
    {
        match self.units.find(path) {
            Some(unit) => self.known[unit as usize].opened,
            None => 0,
        }
    }

    /// The greatest claim that the member promised, or voted under, for the unit that the path
    /// names.
    pub fn promised(&self, path: &PkgPath) -> Option<Claim>
        ensures { result ≡ (facts_named self.now path.now).promised }
    {
        let unit = self.units.find(path)?;
        self.known[unit as usize].voter.promised
    }

    /// The member's last vote for the unit that the path names: the claim, and the build.
    pub fn voted(&self, path: &PkgPath) -> Option<&(Claim, Build)>
        ensures { report_of (option_copied result) ≡ (facts_named self.now path.now).voted }
    {
        let unit = self.units.find(path)?;
        self.known[unit as usize].voter.voted.as_ref()
    }

    /// A known build of the unit that the path names: the one that is held, or else the proposal of
    /// the open claim. A build that is received again is usually this one.
    pub fn known_build(&self, path: &PkgPath) -> Option<&Build>
        ensures { option_copied result ≡ known_build self.now path.now }
    {
        let unit = self.units.find(path)?;
        match &self.known[unit as usize].held {
            Some(held) => Some(held.build()),
            None => proposed(self.claim.as_ref(), unit),
        }
    }

    /// The allocator of the member's collections.
    pub fn allocator(&self) -> Global {
        *self.known.allocator()
    }
}

/// What the claim proposes, if it is for the unit and is voted on.
fn proposed(claim: Option<&OpenClaim>, unit: u32) -> Option<&Build>
    ensures { option_copied result
        ≡ proposal_in (option_map open_of (option_copied claim.entry)) unit }
{
    let claim = claim?;
    match &claim.claimer {
        Claimer::Voting { value, .. } if claim.unit == unit => Some(value),
        _ => None,
    }
}

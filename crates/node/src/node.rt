//! A node. Contracts see its member, its notes, its pieces, and its log.
ghost use Rattle.std.specs.Prelude.{◌≡◌, ◌<◌, Some, is_some, length, option_map, true, ℕ};
ghost use Rattle.std.specs.Option.{option_copied};
ghost use Rattle.claims.specs.Votes.{report_of};
ghost use Rattle.claims.specs.Claim.{IsClaim};
ghost use Rattle.engine.specs.State as engines;
ghost use Rattle.faults.specs.Answers.{IsRightUnless};
ghost use Rattle.member.specs.OpenClaims.{open_of};
ghost use Rattle.protocol.specs.Jobs.{job_of};
ghost use Rattle.protocol.specs.State.{engine_of, held_record};
ghost use Rattle.protocol.specs.Step.{facts_named, made_by, unit_in};
ghost use Rattle.stable_record.specs.History.{seen};
ghost use Rattle.stable_record.specs.OpenLog.{file_len};
ghost use Rattle.node.specs.OnLog.{IsOnLog};
ghost use Rattle.node.specs.Noted.{notes_in};

use crate::noted::Noted;
use ballots::Weights;
use claims::Claim;
use engine::{Counts, Letter, Tree, Units};
use member::{Member, OpenClaim};
use package_record::{Build, Record};
use pkgpath::PkgPath;
use protocol::{Packages, Refusal};
use stable_record::{Disk, Log};
use std::alloc::Global;
use std::marker::Model;
use wire::Piece;

/// A member over its log.
///
/// The headers that the member accepts bound what it keeps of incomplete messages: they name its
/// tree, a unit of it, and members. A header has at most 128 pieces of 32,768 bytes, and no piece
/// is kept twice.
#[derive(Drop)]
pub struct Node<'a, D: Disk> {
    pub(crate) member: Member<'a>,
    pub(crate) log: Log<D>,
    pub(crate) noted: Noted,
    /// The pieces of incomplete messages, oldest first.
    pub(crate) pieces: Vec<Piece>,
    /// The device failed.
    pub(crate) stopped: bool,
}

impl<'a, D: Disk> Model for Node<'a, D> {
    ghost use Rattle.node.specs.OnLog.{IsLogged};
    ghost use Rattle.node.specs.State.{LoggedNode};
    ghost use Rattle.node.specs.Noted.{notes_in};

    ghost Value = { LoggedNode D };

    ghost view = { λ n. record {
      node = record {
        member = n.member;
        notes = notes_in n.noted.texts;
        pieces = n.pieces.items;
        stopped = n.stopped;
      };
      log = n.log;
    } };

    ghost invariant = { λ n. IsLogged (record {
      node = record {
        member = n.member;
        notes = notes_in n.noted.texts;
        pieces = n.pieces.items;
        stopped = n.stopped;
      };
      log = n.log;
    }) };
}

impl<'a, D: Disk> Node<'a, D> {
    ghost use Rattle.node.specs.OnLog.{IsLogged};

    /// Its member.
    pub fn member(&self) -> &Member<'a>
        ensures member { result.now ≡ self.now.node.member }
        ensures node { IsLogged self.now }
    {
        &self.member
    }

    /// Whether its device failed. It then takes no step until it is opened again.
    pub fn is_stopped(&self) -> bool
        ensures { result ≡ self.now.node.stopped }
    {
        self.stopped
    }

    /// The node's tree.
    pub fn tree(&self) -> &'a Tree
        ensures { result.now ≡ self.now.node.member.division.tree }
    {
        self.member.tree()
    }

    /// The units of the tree.
    pub fn units(&self) -> &Units<'a>
        ensures { result.now ≡ self.now.node.member.division }
    {
        self.member.units()
    }

    /// The weight of each member.
    pub fn weights(&self) -> &Weights
        ensures { result.now ≡ self.now.node.member.weights }
    {
        self.member.weights()
    }

    /// The number of its member.
    pub fn me(&self) -> u8
        ensures { result ≡ self.now.node.member.me }
    {
        self.member.me()
    }

    /// The allocator of the node's collections.
    pub fn allocator(&self) -> Global {
        *self.pieces.allocator()
    }

    /// The record that is held for the package path.
    pub fn held(&self, path: &PkgPath) -> Option<&Record>
        ensures { option_copied result ≡ held_record self.now.node.member path.now }
    {
        self.member.held(path)
    }

    /// The letter of the package at the position.
    pub fn letter(&self, position: u32) -> Letter
        requires { position < length self.now.node.member.division.tree }
        ensures letter { engines.HasLetter (engine_of self.now.node.member) position result }
        ensures node { IsLogged self.now }
    {
        self.member.letter(position)
    }

    /// The least position from this one on with the letter Q, if there is one.
    pub fn queued_from(&self, from: u32) -> Option<u32>
        ensures queued { engines.IsQueuedFrom (engine_of self.now.node.member) from result }
        ensures node { IsLogged self.now }
    {
        self.member.queued_from(from)
    }

    /// How many packages have each letter.
    pub fn counts(&self) -> Counts
        ensures counts { engines.AreCounts (engine_of self.now.node.member) result }
        ensures node { IsLogged self.now }
    {
        self.member.counts()
    }

    /// The claim that is open.
    pub fn open_claim(&self) -> Option<&OpenClaim>
        ensures claim { option_map open_of (option_copied result) ≡ self.now.node.member.claim }
        ensures node { IsLogged self.now }
    {
        self.member.open_claim()
    }

    /// The greatest round that the member opened for the unit that the path names, or 0.
    pub fn opened(&self, path: &PkgPath) -> u64
        ensures { result ≡ (facts_named self.now.node.member path.now).opened }
    {
        self.member.opened(path)
    }

    /// The greatest claim that the member promised, or voted under, for the unit that the path
    /// names.
    pub fn promised(&self, path: &PkgPath) -> Option<Claim>
        ensures { result ≡ (facts_named self.now.node.member path.now).promised }
    {
        self.member.promised(path)
    }

    /// The member's last vote for the unit that the path names: the claim, and the build.
    pub fn voted(&self, path: &PkgPath) -> Option<&(Claim, Build)>
        ensures { report_of (option_copied result)
            ≡ (facts_named self.now.node.member path.now).voted }
    {
        self.member.voted(path)
    }

    /// Makes the build of the unit that the path names, by this host under the claim, from these
    /// files and on what is held. No claim has to be open.
    ///
    /// # Errors
    ///
    /// `Memory`; else the first that applies: `OtherPackages`; `BadFiles`.
    pub fn build(
        &self,
        path: &PkgPath,
        host: u16,
        claim: Claim,
        packages: Packages,
    ) -> Result<Build, Refusal>
        requires unit { is_some (unit_in self.now.node.member path.now) ≡ true }
        requires claim { IsClaim claim }
        ensures { (unit : ℕ) → unit_in self.now.node.member path.now ≡ Some unit
            → IsRightUnless Refusal.Memory result
            (made_by self.now.node.member unit (job_of self.now.node.member unit host claim)
            packages) }
    {
        self.member.build(path, host, claim, packages)
    }

    /// The length of the log's file in bytes.
    pub fn log_len(&self) -> u64
        ensures len { result ≡ file_len self.now.log }
        ensures file { IsOnLog D.history self.now
            → result ≡ length (seen (D.history self.now.log.disk)) }
        ensures node { IsLogged self.now }
    {
        self.log.len()
    }

    /// The node's disk, borrowed.
    pub fn disk(&self) -> &D
        ensures { result.now ≡ self.now.log.disk }
    {
        self.log.disk()
    }

    /// Ends the node, and returns its disk unchanged, and the texts of its notes.
    pub fn into_parts(self) -> (D, Noted)
        ensures disk { result.0 ≡ self.entry.log.disk }
        ensures notes { notes_in result.1.texts ≡ self.entry.node.notes }
    {
        let Node {
            log,
            noted,
            member,
            ..
        } = self;
        drop(member);
        (log.into_disk(), noted)
    }

    /// Ends the node, and returns its disk unchanged.
    pub fn into_disk(self) -> D
        ensures { result ≡ self.entry.log.disk }
    {
        let Node { log, member, .. } = self;
        drop(member);
        log.into_disk()
    }
}

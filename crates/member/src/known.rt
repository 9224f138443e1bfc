//! What a member knows of a unit, and still knows after a restart.
ghost use Rattle.std.specs.Prelude.{◌≡◌};
ghost use Rattle.claims.specs.Member.{no_facts, noted};
ghost use Rattle.ballots.specs.InTheAgreement.{note_of};

use crate::held::Held;
use ballots::{Fact, Voter};
use faults::Memory;
use package_record::Build;
use pkgpath::PkgPath;
use std::alloc::Global;

/// What a member knows of a unit, and still knows after a restart.
#[derive(Drop)]
pub(crate) struct Known {
    /// The greatest round that the member opened, or 0.
    pub(crate) opened: u64,
    pub(crate) voter: Voter,
    pub(crate) held: Option<Held>,
}

impl Known {
    ghost use Rattle.member.specs.shared.Fields.{facts_of_known};

    /// Nothing is known.
    pub(crate) fn nothing() -> Known
        ensures { facts_of_known result ≡ no_facts }
    {
        Known {
            opened: 0,
            voter: Voter {
                promised: None,
                voted: None,
            },
            held: None,
        }
    }

    /// Keeps the fact. Does not allocate for a build: it is moved, or shared with the last vote.
    pub(crate) fn keep(&mut self, fact: Fact)
        ensures { facts_of_known self.new ≡ noted (facts_of_known self.old) (note_of fact) }
    {
        match fact {
            Fact::Opened(round) => self.opened = self.opened.max(round),
            Fact::Promised(claim) => self.voter.apply(Some(Fact::Promised(claim))),
            Fact::Voted(claim, build) => self.voter.apply(Some(Fact::Voted(claim, build))),
            Fact::Held(build) => {
                if self.held.is_none() {
                    self.held = Some(Held::new(self.shared(build)));
                }
            }
        }
    }

    /// Computes and caches the digest of the path's record, if that is held and its digest isn't
    /// cached.
    pub(crate) fn sign(&mut self, alloc: Global, path: &PkgPath) -> Result<(), Memory>
        ensures { self.new ≡ self.old }
    {
        match &mut self.held {
            Some(held) => held.sign(alloc, path),
            None => Ok(()),
        }
    }

    /// The build. If it equals that of the last vote, it shares the contents: most builds that a
    /// member holds are those that it voted for.
    fn shared(&self, build: Build) -> Build
        ensures { result ≡ build }
    {
        match &self.voter.voted {
            Some((_, voted)) if voted.is_same(&build) => voted.copy().unwrap_or(build),
            _ => build,
        }
    }
}

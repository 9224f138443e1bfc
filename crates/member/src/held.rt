//! A build that is held. Contracts see it as the contents of its records.
ghost use Rattle.std.specs.Prelude.{◌≡◌, ◌<◌, IfOk, IfSome, MatchOption, None, Some, length};
ghost use Rattle.std.specs.List.{slice_index_or};
ghost use Rattle.package_record.specs.Content.{Content};
ghost use Rattle.protocol.specs.State.{record_in};
ghost use Rattle.member.specs.inside.Digests.{AreDigests, digest_of};

use faults::Memory;
use package_record::{Build, Record};
use pkgpath::PkgPath;
use std::alloc::Global;
use std::marker::Model;

/// Maximum number of records of a build whose digests are cached, so that the cache stays small.
const MOST_SIGNED: usize = 64;

/// A build that is held, with a cache of its records' digests. They are cached because a record is
/// signed again for each build that is made on it.
#[derive(Drop)]
pub(crate) struct Held {
    build: Build,
    /// For each record the digest of its text, once computed.
    digests: Option<Vec<Option<[u8; 32]>>>,
}

impl Model for Held {
    ghost use Rattle.std.specs.Prelude.{List};
    ghost use Rattle.std.specs.Option.{ForSome};
    ghost use Rattle.package_record.specs.Content.{Content};
    ghost use Rattle.member.specs.inside.Digests.{AreDigests};

    ghost Value = { List Content };

    ghost view = { λ h. h.build };

    ghost invariant = { λ h. ForSome h.digests (λ ds. AreDigests ds.items h.build) };
}

impl Held {
    /// Holds the build. Does not allocate.
    pub(crate) fn new(build: Build) -> Held
        ensures { result ≡ build }
    {
        Held {
            build,
            digests: None,
        }
    }

    /// The build.
    pub(crate) fn build(&self) -> &Build
        ensures { result.now ≡ self.now }
    {
        &self.build
    }

    /// Computes and caches the digest of the path's record, if there is such a record and its
    /// digest isn't cached. Builds with more than `MOST_SIGNED` records aren't cached.
    pub(crate) fn sign(&mut self, alloc: Global, path: &PkgPath) -> Result<(), Memory>
        ensures { self.new ≡ self.old }
    {
        let Some(place) = place_of(&self.build, path) else {
            return Ok(());
        };
        let records = self.build.packages();
        if records.len() > MOST_SIGNED || self.digest(place).is_some() {
            return Ok(());
        }
        let digest = records[place].digest()?;
        self.keep(alloc, place, digest)
    }

    /// Caches the digest of the record at the place.
    fn keep(&mut self, alloc: Global, place: usize, digest: [u8; 32]) -> Result<(), Memory>
        requires place { place < length self.old }
        requires digest { (r : Content) → digest ≡ digest_of (slice_index_or self.old place r) }
        ensures { self.new ≡ self.old }
    {
        let mut digests = self.taken(alloc)?;
        digests[place] = Some(digest);
        self.digests = Some(digests);
        Ok(())
    }

    /// Takes the cached digests out, for the caller to put back. Without a cache, there is an empty
    /// entry for each record.
    fn taken(&mut self, alloc: Global) -> Result<Vec<Option<[u8; 32]>>, Memory>
        ensures same { self.new ≡ self.old }
        ensures digests { IfOk result (λ digests. AreDigests digests.items self.old) }
    {
        match self.digests.take() {
            Some(digests) => Ok(digests),
            None => {
                let none = vec![in alloc; None; self.build.packages().len()]?;
                Ok(none)
            }
        }
    }

    /// The record of the path, with its digest if that is cached.
    pub(crate) fn record_of(&self, path: &PkgPath) -> Option<HeldRecord<'_>>
        ensures { result ≡ record_in path.now self.now }
    {
        let place = place_of(&self.build, path)?;
        let record = &self.build.packages()[place];
        Some(HeldRecord {
            record,
            digest: self.digest(place),
        })
    }

    /// The digest of the record at the place, if it is cached.
    fn digest(&self, place: usize) -> Option<&[u8; 32]>
        requires { place < length self.now }
        ensures { IfSome result
            (λ digest. (r : Content) → digest.now ≡ digest_of (slice_index_or self.now place r)) }
    {
        match &self.digests {
            Some(digests) => match &digests[place] {
                Some(digest) => Some(digest),
                None => None,
            },
            None => None,
        }
    }
}

/// A record that is held, and its digest if that is cached.
#[derive(Drop)]
pub(crate) struct HeldRecord<'a> {
    record: &'a Record,
    digest: Option<&'a [u8; 32]>,
}

impl<'a> Model for HeldRecord<'a> {
    ghost use Rattle.std.specs.Prelude.{◌≡◌};
    ghost use Rattle.std.specs.Option.{ForSome};
    ghost use Rattle.package_record.specs.Content.{Content};
    ghost use Rattle.member.specs.inside.Digests.{digest_of};

    ghost Value = { Content };

    ghost view = { λ h. h.record.now };

    ghost invariant = { λ h. ForSome h.digest (λ digest. digest.now ≡ digest_of h.record.now) };
}

impl<'a> HeldRecord<'a> {
    /// The record.
    pub(crate) fn record(&self) -> &'a Record
        ensures { result.now ≡ self.now }
    {
        self.record
    }

    /// The SHA-256 of the record's text: the cached digest, or else computed now.
    pub(crate) fn digest(&self) -> Result<[u8; 32], Memory>
        ensures { IfOk result (λ digest. digest ≡ digest_of self.now) }
    {
        match self.digest {
            Some(digest) => Ok(*digest),
            None => self.record.digest(),
        }
    }
}

/// The place of the path's record in the build. The build's records ascend by path.
fn place_of(build: &Build, path: &PkgPath) -> Option<usize>
    ensures { MatchOption result (record_in path.now build.now ≡ None)
        (λ place. (place < length build.now)
        × ((r : Content) → record_in path.now build.now
        ≡ Some (slice_index_or build.now place r))) }
{
    let records = build.packages();
    match records.binary_search_by(|record| record.path().cmp(path)) {
        Ok(place) => Some(place),
        Err(_) => None,
    }
}

//! What a world's nodes sent, and what is agreed.
ghost use Rattle.std.specs.Prelude.{◌≡◌, ◌++◌, ◌∷◌, [], OnOk, length, take};
ghost use Rattle.std.specs.List.{list_any};
ghost use Rattle.std.specs.Str.{bytes_eq};
ghost use Rattle.indexmap.specs.IndexSet.{insert_key};
ghost use Rattle.world.specs.Lists.{has_path, with_build};
ghost use Rattle.simulator.specs.inside.Tables.{AreListed, HasGrown, list_in};

use faults::Memory;
use indexmap::IndexSet;
use package_record::{Build, Record};
use pkgpath::PkgPath;
use std::alloc::Global;
use world::Datagrams;

/// The datagrams that were sent, and the agreed list.
#[derive(Drop)]
pub(crate) struct Tables {
    /// The different datagrams, in order of first sending.
    pub(crate) sent: Datagrams,
    /// The list, in the order in which it grew.
    pub(crate) agreed: Vec<Record>,
    /// The paths of the list's packages, in that order.
    pub(crate) listed: IndexSet<PkgPath>,
}

impl Tables {
    /// Nothing was sent, and nothing is agreed.
    pub(crate) fn new(alloc: Global) -> Tables
        ensures sent { result.sent ≡ [] }
        ensures list { list_in result ≡ [] }
        ensures listed { AreListed result }
    {
        Tables {
            sent: Datagrams::new(alloc),
            agreed: Vec::new(alloc),
            listed: IndexSet::new(alloc),
        }
    }

    /// The numbers of datagrams and of packages.
    pub(crate) fn lengths(&self) -> (usize, usize)
        ensures { result ≡ (length self.now.sent, length self.now.agreed.items) }
    {
        (self.sent.len(), self.agreed.len())
    }

    /// Keeps this number of datagrams and of packages. Does not allocate.
    pub(crate) fn cut_back(&mut self, lengths: (usize, usize))
        ensures sent { self.new.sent ≡ take lengths.0 self.old.sent }
        ensures list { list_in self.new ≡ take lengths.1 (list_in self.old) }
        ensures listed { self.new.listed.keys ≡ take lengths.1 self.old.listed.keys }
    {
        let (sent, agreed) = lengths;
        self.sent.cut_back(sent);
        self.agreed.truncate(agreed);
        self.listed.truncate(agreed);
    }

    /// Appends the build's packages, unless the list has one of their paths already.
    pub(crate) fn append(&mut self, build: &Build) -> Result<(), Memory>
        requires { AreListed self.old }
        ensures ok { OnOk result (list_in self.new ≡ with_build (list_in self.old) build.now) }
        ensures listed { OnOk result (AreListed self.new) }
        ensures grown { HasGrown self.old self.new }
        ensures sent { self.new.sent ≡ self.old.sent }
    {
        // Calling this gives the proof that it is the build of a unit.
        let _unit = build.unit_path();
        let packages = build.packages();
        if self.has_any(packages) {
            return Ok(());
        }
        for package in packages {
            self.append_package(package)?;
        }
        Ok(())
    }

    /// Whether the list has a package with the path of one of these.
    fn has_any(&self, packages: &[Record]) -> bool
        requires { AreListed self.now }
        ensures { result ≡ list_any (λ r. has_path (list_in self.now) r.path) packages.now }
    {
        packages
            .iter()
            .any(|package| self.listed.contains(package.path()))
    }

    /// Appends the package, and adds its path to the set.
    fn append_package(&mut self, content: &Record) -> Result<(), Memory>
        ensures ok { OnOk result (list_in self.new ≡ list_in self.old ++ content.now ∷ []) }
        ensures listed { OnOk result (self.new.listed.keys
            ≡ insert_key bytes_eq self.old.listed.keys content.now.path) }
        ensures grown { HasGrown self.old self.new }
        ensures sent { self.new.sent ≡ self.old.sent }
    {
        self.listed.insert(content.path().copy()?)?;
        self.agreed.push(content.copy()?)?;
        Ok(())
    }
}

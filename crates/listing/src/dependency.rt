//! Dependencies: `[pkgspec:]pkgpath[bounds][:target]`.
ghost use Rattle.std.specs.Prelude.{◌≡◌, ◌⊎◌, ◌++◌, codes, drop, true, false, Some, None, Ok, Err, List, [], ◌∷◌, length, map, option_map, MatchOption, MatchResult, ◌≤◌, is_err, is_ok};
ghost use Rattle.std.specs.List.{before_first, list_all, position_or_len};
ghost use Rattle.std.specs.Option.{option_map_or};
ghost use Rattle.faults.specs.Bytes.{has_byte, slash};
ghost use Rattle.indexmap.specs.IndexSet.{index_set_len};
ghost use Rattle.pkgpath.specs.PkgPath.{path_of};
ghost use Rattle.pkgspec.specs.Spec.{spec_of};
ghost use Rattle.listing.specs.Dependencies.{is_operator_byte, is_shaped, words_of};
ghost use Rattle.listing.specs.inside.Entries.{IsRead};
ghost use Rattle.listing.specs.Listing.{dependencies_fault, word_fault};
ghost use Rattle.listing.specs.inside.BarePackages.{all_match, resolution_of, resolution_of_word};
ghost use Rattle.listing.specs.inside.Parts.{AreFieldsOf, AreNumbersOf, Grows, IsNumberOf, IsPathField, specs_from};
ghost use Rattle.listing.specs.Rules.{names_and_specs};
ghost use Rattle.listing.specs.inside.Table.{name_in};
ghost use Rattle.listing.specs.Tree.{most_paths};

use crate::ListingFault;
use crate::line::first_word;
use crate::table::Row;
use crate::word::Word;
use faults::split_once;
use indexmap::{IndexMap, IndexSet};
use pkgname::PkgName;
use pkgpath::{PathFault, PkgPath};
use pkgspec::{Spec, SpecFault};
use std::alloc::Global;
use std::marker::Model;

/// The maximum number of dependencies in one value.
const MOST_DEPENDENCIES: usize = 512;

/// Expected minimum number of bytes per word of a value. Used to allocate room for all words of a
/// value at once.
const ROOM_FOR_WORD: usize = 16;

/// Whether the text has a slash.
fn has_slash(text: &[u8]) -> bool
    ensures { result ≡ has_byte slash text.now }
{
    text.contains(&b'/')
}

/// The field before the path, or the empty text, and the field with the path. Exactly one field
/// must have a slash, with at most one field before it and at most one after it.
fn path_field(word: &[u8]) -> Option<(&[u8], &[u8])>
    ensures { IsPathField word.now (option_map (λ f. (f.0.now, f.1.now)) result) }
{
    let Some((first, rest)) = split_once(word, b':') else {
        return if has_slash(word) {
            Some((b"".as_slice(), word))
        } else {
            None
        };
    };
    let Some((second, third)) = split_once(rest, b':') else {
        return match (has_slash(first), has_slash(rest)) {
            (true, false) => Some((b"".as_slice(), first)),
            (false, true) => Some((first, rest)),
            _ => None,
        };
    };
    if split_once(third, b':').is_some() {
        return None;
    }
    match (has_slash(first), has_slash(second), has_slash(third)) {
        (false, true, false) => Some((first, second)),
        _ => None,
    }
}

/// The fields of a dependency. A missing spec and missing bounds are the empty text.
#[derive(Clone, Copy)]
pub struct Fields<'a> {
    pub spec: &'a [u8],
    pub path: &'a [u8],
    pub bounds: &'a [u8],
}

/// The fields of a dependency, if the word has the syntax of one.
fn fields_of(word: &[u8]) -> Option<Fields<'_>>
    ensures { MatchOption result (is_shaped word.now ≡ false) (AreFieldsOf word.now) }
{
    let (spec, field) = path_field(word)?;
    let (path, bounds) = before_bounds(field);
    Some(Fields { spec, path, bounds })
}

/// The text before the bounds, and the bounds, which begin at the first `<`, `>` or `=`.
fn before_bounds(field: &[u8]) -> (&[u8], &[u8])
    ensures path { result.0.now ≡ before_first is_operator_byte field.now }
    ensures bounds { result.1.now ≡ drop (position_or_len is_operator_byte field.now) field.now }
{
    match field.iter().position(|byte| is_operator(*byte)) {
        Some(at) => (&field[..at], &field[at..]),
        None => (field, b"".as_slice()),
    }
}

fn is_operator(byte: u8) -> bool
    ensures { result ≡ is_operator_byte byte }
{
    byte == b'<' || byte == b'>' || byte == b'='
}

/// Parses a spec in a line.
fn read_spec(alloc: Global, line: u64, text: &[u8]) -> Result<Spec, ListingFault>
    ensures { MatchResult result (λ s. spec_of text.now ≡ Ok s)
        (λ e. (e ≡ ListingFault.Memory)
        ⊎ (is_ok (spec_of text.now) ≡ false) × (e ≡ ListingFault.BadLine line)) }
{
    match Spec::parse(alloc, text) {
        Ok(spec) => Ok(spec),
        Err(SpecFault::Memory) => Err(ListingFault::Memory),
        Err(_) => Err(ListingFault::BadLine(line)),
    }
}

/// The spec for the bounds after a path: any stem, and a version within the bounds.
fn read_bounds(alloc: Global, line: u64, bounds: &[u8]) -> Result<Spec, ListingFault>
    ensures { MatchResult result (λ s. spec_of (codes "STEM-" ++ bounds.now) ≡ Ok s)
        (λ e. (e ≡ ListingFault.Memory)
        ⊎ (is_ok (spec_of (codes "STEM-" ++ bounds.now)) ≡ false)
        × (e ≡ ListingFault.BadLine line)) }
{
    let mut text = Vec::from_slice(alloc, b"STEM-")?;
    text.extend_from_slice(bounds)?;
    read_spec(alloc, line, text.as_slice())
}

/// The specs of a dependency, from before and after its path.
fn read_specs(
    alloc: Global,
    line: u64,
    before: &[u8],
    bounds: &[u8],
) -> Result<Vec<Spec>, ListingFault>
    ensures { MatchResult result
        (λ v. map spec_of (specs_from before.now bounds.now) ≡ map Ok v.items)
        (λ e. (e ≡ ListingFault.Memory)
        ⊎ (list_all names_and_specs.is_spec (specs_from before.now bounds.now) ≡ false)
        × (e ≡ ListingFault.BadLine line)) }
{
    let mut specs = Vec::new(alloc);
    if !before.is_empty() {
        specs.push(read_spec(alloc, line, before)?)?;
    }
    if !bounds.is_empty() {
        specs.push(read_bounds(alloc, line, bounds)?)?;
    }
    Ok(specs)
}

/// What a dependency requires: a path, and a name there that all specs match.
#[derive(Drop)]
pub struct Dependency {
    pub path: PkgPath,
    pub specs: Vec<Spec>,
}

/// The resolution of a dependency: the position of its path, if it is listed, and whether all specs
/// match the name there.
#[derive(Clone, Copy)]
pub struct Resolution {
    pub position: Option<u32>,
    pub is_met: bool,
}

/// Whether all specs match the name.
fn all_match(specs: &[Spec], name: &PkgName) -> bool
    ensures { result ≡ all_match specs.now name.now }
{
    specs.iter().all(|spec| spec.matches(name))
}

impl Dependency {
    /// Parses a dependency.
    fn read(alloc: Global, line: u64, word: &[u8]) -> Result<Dependency, ListingFault>
        ensures { MatchResult result (IsRead word.now)
            (λ e. (e ≡ ListingFault.Memory) ⊎ (word_fault names_and_specs line word.now ≡ Some e)) }
    {
        let Some(fields) = fields_of(word) else {
            return Err(ListingFault::BadLine(line));
        };
        let specs = read_specs(alloc, line, fields.spec, fields.bounds)?;
        let path = read_path(alloc, line, fields.path)?;
        Ok(Dependency { path, specs })
    }

    /// Whether the row has a name, and all specs match it.
    fn is_met_by(&self, row: &Row<'_>) -> bool
        ensures { result ≡ option_map_or (all_match self.now.specs.items) (name_in row.now) false }
    {
        match row.name() {
            Some(name) => all_match(self.specs.as_slice(), name),
            None => false,
        }
    }

    /// Resolves the dependency, given the listed paths and a row for each.
    fn resolve(&self, listed: &IndexSet<PkgPath>, rows: &[Row<'_>]) -> Resolution
        requires few { index_set_len listed.now ≤ most_paths }
        requires rows { length rows.now ≡ length listed.now.keys }
        ensures { result ≡ resolution_of listed.now.keys rows.now self.now }
    {
        match listed.get_index_of(&self.path) {
            Some(at) => Resolution {
                position: Some(at as u32),
                is_met: self.is_met_by(&rows[at]),
            },
            None => Resolution {
                position: None,
                is_met: false,
            },
        }
    }
}

/// The distinct parsed dependencies, in the order in which they first occurred.
#[derive(Drop)]
pub struct Dependencies<'a> {
    read: IndexMap<Word<'a>, Dependency>,
}

impl<'a> Model for Dependencies<'a> {
    ghost use Rattle.std.specs.Prelude.{ℕ, List, All, map};
    ghost use Rattle.listing.specs.inside.Entries.{IsReadEntry, words_of_entries};

    ghost Value = { List (List ℕ) };

    ghost view = { λ d. words_of_entries d.read.entries };

    ghost invariant = { λ d. All IsReadEntry d.read.entries };
}

impl<'a> Dependencies<'a> {
    /// No dependencies.
    pub fn new(alloc: Global) -> Dependencies<'a>
        ensures { result ≡ [] }
    {
        Dependencies {
            read: IndexMap::new(alloc),
        }
    }

    /// Parses the dependencies of a value, from the left, and returns their numbers.
    pub fn read(
        &mut self,
        alloc: Global,
        line: u64,
        value: &'a [u8],
    ) -> Result<Vec<u32>, ListingFault>
        ensures answer { MatchResult result
            (λ ns. (dependencies_fault names_and_specs line value.now ≡ None)
            × AreNumbersOf self.new ns.items (words_of value.now))
            (λ e. (e ≡ ListingFault.Memory)
            ⊎ (dependencies_fault names_and_specs line value.now ≡ Some e)) }
        ensures grows { Grows self.old self.new }
    {
        let room = (value.len() / ROOM_FOR_WORD + 1).min(MOST_DEPENDENCIES);
        let mut numbers = Vec::with_capacity(alloc, room)?;
        let mut left = value;
        'words: while let Some((word, behind)) = first_word(left) {
            if numbers.len() >= MOST_DEPENDENCIES {
                return Err(ListingFault::TooMany(line));
            }
            numbers.push(self.number(alloc, line, word)?)?;
            left = behind;
        }
        Ok(numbers)
    }

    /// The number of a dependency as a `u32`; parses it if it is new.
    fn number(&mut self, alloc: Global, line: u64, word: &'a [u8]) -> Result<u32, ListingFault>
        ensures answer { MatchResult result
            (λ n. (word_fault names_and_specs line word.now ≡ None)
            × IsNumberOf self.new n word.now)
            (λ e. (e ≡ ListingFault.Memory) ⊎ (word_fault names_and_specs line word.now ≡ Some e)) }
        ensures grows { Grows self.old self.new }
    {
        let place = self.place(alloc, line, word)?;
        match u32::try_from(place) {
            Ok(number) => Ok(number),
            Err(_) => Err(ListingFault::Memory),
        }
    }

    /// The index of a dependency among the distinct ones; parses it if it is new.
    fn place(&mut self, alloc: Global, line: u64, word: &'a [u8]) -> Result<usize, ListingFault>
        ensures answer { MatchResult result
            (λ n. (word_fault names_and_specs line word.now ≡ None)
            × IsNumberOf self.new n word.now)
            (λ e. (e ≡ ListingFault.Memory) ⊎ (word_fault names_and_specs line word.now ≡ Some e)) }
        ensures grows { Grows self.old self.new }
    {
        let key = Word::new(word);
        match self.read.get_index_of(&key) {
            Some(number) => Ok(number),
            None => {
                let dependency = Dependency::read(alloc, line, word)?;
                let (number, _) = self.read.insert_full(key, dependency)?;
                Ok(number)
            }
        }
    }

    /// Resolves each dependency, by its number, given the listed paths and a row for each.
    pub fn resolve(
        &self,
        alloc: Global,
        listed: &IndexSet<PkgPath>,
        rows: &[Row<'_>],
    ) -> Result<Vec<Resolution>, ListingFault>
        requires few { index_set_len listed.now ≤ most_paths }
        requires rows { length rows.now ≡ length listed.now.keys }
        ensures { MatchResult result
            (λ v. v.items ≡ map (resolution_of_word listed.now.keys rows.now) self.now)
            (λ e. e ≡ ListingFault.Memory) }
    {
        let mut resolutions = Vec::with_capacity(alloc, self.read.len())?;
        for dependency in self.read.values() {
            resolutions.push(dependency.resolve(listed, rows))?;
        }
        Ok(resolutions)
    }
}

/// Parses a package path in a line.
pub fn read_path(alloc: Global, line: u64, text: &[u8]) -> Result<PkgPath, ListingFault>
    ensures { MatchResult result (λ p. path_of text.now ≡ Ok p)
        (λ e. (e ≡ ListingFault.Memory)
        ⊎ (is_err (path_of text.now) ≡ true) × (e ≡ ListingFault.BadPath line)) }
{
    match PkgPath::parse(alloc, text) {
        Ok(path) => Ok(path),
        Err(PathFault::Memory) => Err(ListingFault::Memory),
        Err(_) => Err(ListingFault::BadPath(line)),
    }
}

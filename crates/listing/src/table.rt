//! The table of what the lines of a listing set, filled line by line.
ghost use Rattle.std.specs.Prelude.{◌≡◌, ◌⊎◌, ◌++◌, ◌∷◌, [], List, None, Some, Ok, Err, false, true, is_ok, length, slice_index_or, slice_set, ◌<◌, option_map, option_to_list, IfSome, MatchResult};
ghost use Rattle.std.specs.List.{list_any};
ghost use Rattle.std.specs.Str.{bytes_eq};
ghost use Rattle.indexmap.specs.IndexSet.{insert_key};
ghost use Rattle.faults.specs.Answers.{option_or};
ghost use Rattle.pkgname.specs.PkgName.{name_of};
ghost use Rattle.pkgpath.specs.PkgPath.{path_of};
ghost use Rattle.listing.specs.Lines.{Setting, setting_of};
ghost use Rattle.listing.specs.Listing.{is_another, line_fault, setting_fault, value_fault};
ghost use Rattle.listing.specs.inside.Parts.{Grows, IsReadAs, name_of_variable};
ghost use Rattle.listing.specs.Rules.{names_and_specs};
ghost use Rattle.listing.specs.inside.Table.{IsSpelled, IsTakenIn, Stands, name_in, new_row, setting, text_in, with_value};

use crate::ListingFault;
use crate::dependency::{Dependencies, read_path};
use crate::line::{Variable, is_skipped, parts_of};
use indexmap::IndexSet;
use pkgname::{NameFault, PkgName};
use pkgpath::PkgPath;
use std::alloc::Global;

/// The maximum number of paths in a listing.
const MOST_PATHS: usize = 16_384;

/// A parsed value: a name, the numbers of dependencies, or a text that is not parsed.
#[derive(Drop)]
pub enum Reading {
    Name(PkgName),
    Numbers(Vec<u32>),
    Unread,
}

/// The value of a variable, as text and parsed.
#[derive(Drop)]
pub struct Value<'a> {
    pub text: &'a [u8],
    pub reading: Reading,
}

/// The variables of a path, the path's first line, and the spelling of the path in that line.
#[derive(Drop)]
pub struct Row<'a> {
    pub line: u64,
    pub spelled: &'a [u8],
    pub name: Option<Value<'a>>,
    pub build: Option<Value<'a>>,
    pub lib: Option<Value<'a>>,
    pub run: Option<Value<'a>>,
    pub ignore: Option<Value<'a>>,
}

/// The paths in the order of their first lines, with a row for each.
#[derive(Drop)]
pub struct Table<'a> {
    pub paths: IndexSet<PkgPath>,
    pub rows: Vec<Row<'a>>,
    pub dependencies: Dependencies<'a>,
}

impl<'a> Row<'a> {
    /// A row in which nothing is set.
    fn new(line: u64, spelled: &'a [u8]) -> Row<'a>
        ensures { result ≡ new_row line spelled.entry }
    {
        Row {
            line,
            spelled,
            name: None,
            build: None,
            lib: None,
            run: None,
            ignore: None,
        }
    }

    /// A row in which one variable is set.
    fn with(line: u64, spelled: &'a [u8], variable: Variable, value: Value<'a>) -> Row<'a>
        ensures { result ≡ with_value (new_row line spelled.entry) variable value.entry }
    {
        let mut row = Row::new(line, spelled);
        match variable {
            Variable::FullName => row.name = Some(value),
            Variable::BuildDepends => row.build = Some(value),
            Variable::LibDepends => row.lib = Some(value),
            Variable::RunDepends => row.run = Some(value),
            Variable::Ignore => row.ignore = Some(value),
        }
        row
    }

    /// The name, if it is set.
    pub fn name(&self) -> Option<&PkgName>
        ensures { option_map (λ n. n.now) result ≡ name_in self.now }
    {
        match &self.name {
            Some(
                Value {
                    reading: Reading::Name(name),
                    ..
                },
            ) => Some(name),
            _ => None,
        }
    }

    /// Sets a variable. It is a fault to set it to a different value later.
    fn set(&mut self, line: u64, variable: Variable, value: Value<'a>) -> Result<(), ListingFault>
        ensures { MatchResult result
            (λ _. (self.new ≡ with_value self.old variable value.entry)
            × (is_another value.entry.text.now (text_in variable self.old) ≡ false))
            (λ e. (is_another value.entry.text.now (text_in variable self.old) ≡ true)
            × (e ≡ ListingFault.TwiceSet line)) }
    {
        match variable {
            Variable::FullName => put(&mut self.name, line, value),
            Variable::BuildDepends => put(&mut self.build, line, value),
            Variable::LibDepends => put(&mut self.lib, line, value),
            Variable::RunDepends => put(&mut self.run, line, value),
            Variable::Ignore => put(&mut self.ignore, line, value),
        }
    }
}

/// Stores the value if there is none yet. It is a fault if there is a different one.
fn put<'a>(place: &mut Option<Value<'a>>, line: u64, value: Value<'a>) -> Result<(), ListingFault>
    ensures { MatchResult result
        (λ _. (place.new ≡ option_or place.old (Some value.entry))
        × (is_another value.entry.text.now (option_map (λ x. x.text.now) place.old) ≡ false))
        (λ e. (is_another value.entry.text.now (option_map (λ x. x.text.now) place.old) ≡ true)
        × (e ≡ ListingFault.TwiceSet line)) }
{
    match place {
        None => {
            *place = Some(value);
            Ok(())
        }
        Some(old) if old.text == value.text => Ok(()),
        Some(_) => Err(ListingFault::TwiceSet(line)),
    }
}

/// Sets a variable in one of the rows.
fn set_in<'a>(
    rows: &mut Vec<Row<'a>>,
    position: usize,
    line: u64,
    variable: Variable,
    value: Value<'a>,
) -> Result<(), ListingFault>
    requires { position < length rows.old.items }
    ensures { (d : Row) → MatchResult result
        (λ _. (rows.new.items
        ≡ slice_set rows.old.items position
        (with_value (slice_index_or rows.old.items position d) variable value.entry))
        × (is_another value.entry.text.now
        (text_in variable (slice_index_or rows.old.items position d)) ≡ false))
        (λ e. (is_another value.entry.text.now
        (text_in variable (slice_index_or rows.old.items position d)) ≡ true)
        × (e ≡ ListingFault.TwiceSet line)) }
{
    rows[position].set(line, variable, value)
}

/// Parses the value in a line as a name.
fn read_name(alloc: Global, line: u64, text: &[u8]) -> Result<PkgName, ListingFault>
    ensures { MatchResult result (λ n. name_of text.now ≡ Ok n)
        (λ e. (e ≡ ListingFault.Memory)
        ⊎ (is_ok (name_of text.now) ≡ false) × (e ≡ ListingFault.BadLine line)) }
{
    match PkgName::parse(alloc, text) {
        Ok(name) => Ok(name),
        Err(NameFault::Memory) => Err(ListingFault::Memory),
        Err(_) => Err(ListingFault::BadLine(line)),
    }
}

impl<'a> Table<'a> {
    /// An empty table.
    pub fn new(alloc: Global) -> Table<'a>
        ensures { Stands result [] }
    {
        Table {
            paths: IndexSet::new(alloc),
            rows: Vec::new(alloc),
            dependencies: Dependencies::new(alloc),
        }
    }

    /// Reads one more line.
    pub fn read(&mut self, alloc: Global, number: u64, line: &'a [u8]) -> Result<(), ListingFault>
        requires { length self.old.rows.items ≡ length self.old.paths.keys }
        ensures { (earlier : List Setting) → Stands self.old earlier → MatchResult result
            (λ _. (line_fault names_and_specs earlier (number, line.now) ≡ None)
            × Stands self.new (earlier ++ option_to_list (setting_of (number, line.now))))
            (λ e. (e ≡ ListingFault.Memory)
            ⊎ (line_fault names_and_specs earlier (number, line.now) ≡ Some e)) }
    {
        if is_skipped(line) {
            return Ok(());
        }
        let Some(parts) = parts_of(line) else {
            return Err(ListingFault::BadLine(number));
        };
        let Some(variable) = Variable::named(parts.variable) else {
            return Ok(());
        };
        if let Some(position) = self.latest(parts.path) {
            return self.set_at(alloc, number, position, variable, parts.value);
        }
        let path = read_path(alloc, number, parts.path)?;
        self.set(alloc, number, path, parts.path, variable, parts.value)
    }

    /// The index of the latest path, if its first line spells it with this text. The lines of a
    /// path are usually adjacent, so few paths must be parsed and looked up.
    fn latest(&self, spelled: &[u8]) -> Option<usize>
        ensures { IfSome result (λ at. IsSpelled self.now.rows.items at spelled.now) }
    {
        let last = self.rows.len().checked_sub(1)?;
        if self.rows[last].spelled == spelled {
            Some(last)
        } else {
            None
        }
    }

    /// Sets a variable of the path that the text spells.
    fn set(
        &mut self,
        alloc: Global,
        line: u64,
        path: PkgPath,
        spelled: &'a [u8],
        variable: Variable,
        text: &'a [u8],
    ) -> Result<(), ListingFault>
        requires rows { length self.old.rows.items ≡ length self.old.paths.keys }
        requires spells { path_of spelled.now ≡ Ok path }
        ensures { IsTakenIn self.old (setting line path variable text.now) result self.new }
    {
        match self.paths.get_index_of(&path) {
            Some(position) => self.set_at(alloc, line, position, variable, text),
            None => self.set_first(alloc, line, path, spelled, variable, text),
        }
    }

    /// Sets a variable of the path at the position.
    fn set_at(
        &mut self,
        alloc: Global,
        line: u64,
        position: usize,
        variable: Variable,
        text: &'a [u8],
    ) -> Result<(), ListingFault>
        requires rows { length self.old.rows.items ≡ length self.old.paths.keys }
        requires listed { position < length self.old.paths.keys }
        ensures { let path = slice_index_or self.old.paths.keys position [] in
            IsTakenIn self.old (setting line path variable text.now) result self.new }
    {
        let reading = self.read_value(alloc, line, variable, text)?;
        let value = Value { text, reading };
        set_in(&mut self.rows, position, line, variable, value)
    }

    /// Sets the first variable of a path that the text spells.
    fn set_first(
        &mut self,
        alloc: Global,
        line: u64,
        path: PkgPath,
        spelled: &'a [u8],
        variable: Variable,
        text: &'a [u8],
    ) -> Result<(), ListingFault>
        requires new { list_any (bytes_eq path) self.old.paths.keys ≡ false }
        requires spells { path_of spelled.now ≡ Ok path }
        ensures { IsTakenIn self.old (setting line path variable text.now) result self.new }
    {
        if self.paths.len() >= MOST_PATHS {
            return Err(ListingFault::TooMany(line));
        }
        let reading = self.read_value(alloc, line, variable, text)?;
        let value = Value { text, reading };
        self.add(line, path, spelled, variable, value)
    }

    /// Adds a path with one variable.
    fn add(
        &mut self,
        line: u64,
        path: PkgPath,
        spelled: &'a [u8],
        variable: Variable,
        value: Value<'a>,
    ) -> Result<(), ListingFault>
        ensures { let row = with_value (new_row line spelled.entry) variable value.entry in
            MatchResult result
            (λ _. (self.new.paths.keys ≡ insert_key bytes_eq self.old.paths.keys path)
            × (self.new.rows.items ≡ self.old.rows.items ++ row ∷ [])
            × (self.new.dependencies ≡ self.old.dependencies))
            (λ e. e ≡ ListingFault.Memory) }
    {
        self.paths.insert(path)?;
        self.rows.push(Row::with(line, spelled, variable, value))?;
        Ok(())
    }

    /// Parses the value of a variable.
    fn read_value(
        &mut self,
        alloc: Global,
        line: u64,
        variable: Variable,
        text: &'a [u8],
    ) -> Result<Reading, ListingFault>
        ensures answer { MatchResult result
            (λ r. (value_fault names_and_specs line (name_of_variable variable) text.now ≡ None)
            × IsReadAs self.new.dependencies variable text.now r)
            (λ e. (e ≡ ListingFault.Memory)
            ⊎ (value_fault names_and_specs line (name_of_variable variable) text.now
            ≡ Some e)) }
        ensures paths { self.new.paths ≡ self.old.paths }
        ensures rows { self.new.rows ≡ self.old.rows }
        ensures grows { Grows self.old.dependencies self.new.dependencies }
    {
        match variable {
            Variable::FullName => Ok(Reading::Name(read_name(alloc, line, text)?)),
            Variable::Ignore => Ok(Reading::Unread),
            Variable::BuildDepends | Variable::LibDepends | Variable::RunDepends => {
                Ok(Reading::Numbers(self.dependencies.read(alloc, line, text)?))
            }
        }
    }
}

//! BUILDS.
ghost use Rattle.std.specs.Prelude.{◌≡◌, ◌++◌, ◌∷◌, [], IfOk, OnOk, map, not, true};
ghost use Rattle.faults.specs.Bytes.{is_among};
ghost use Rattle.serde_json.specs.View.{members_view, view};
ghost use Rattle.traces.specs.Builds.{keyed, packages_behind, packages_of, with_member};
ghost use Rattle.traces.specs.inside.Given.{Gives};

use crate::fields::path_of;
use crate::files::files;
use crate::read_error::ReadError;
use faults::Memory;
use indexmap::IndexSet;
use package_record::Files;
use pkgpath::PkgPath;
use protocol::Packages;
use serde_json::{Map, Value};
use std::alloc::Global;
use std::string::String;

/// Inserts the path, and returns whether it is new.
fn enter(paths: &mut IndexSet<PkgPath>, path: &PkgPath) -> Result<bool, Memory>
    ensures is_new { IfOk result (λ is_new. is_new ≡ not (is_among paths.old.keys path.now)) }
    ensures entered { IfOk result (λ is_new.
        is_new ≡ true → paths.new.keys ≡ paths.old.keys ++ path.now ∷ []) }
{
    Ok(paths.insert(path.copy()?)?)
}

/// The package of a key and its value.
#[tactic(auto, unfolding(crate::specs::Builds::keyed))]
fn keyed(alloc: Global, key: &str, value: &Value) -> Result<(PkgPath, Files), ReadError>
    ensures { Gives (λ p. p) result (keyed key.now (view value.now)) }
{
    let path = path_of(alloc, key)?;
    let files = files(alloc, value)?;
    Ok((path, files))
}

/// Appends the package of a key and its value to these packages, whose paths these are.
fn add(
    alloc: Global,
    paths: &mut IndexSet<PkgPath>,
    packages: &mut Vec<(PkgPath, Files)>,
    key: &str,
    value: &Value,
) -> Result<(), ReadError>
    requires { paths.old.keys ≡ map (λ p. p.0) packages.old.items }
    ensures added { Gives (λ _. packages.new.items) result
        (with_member packages.old.items key.now (view value.now)) }
    ensures paths { OnOk result (paths.new.keys ≡ map (λ p. p.0) packages.new.items) }
{
    let (path, files) = keyed(alloc, key, value)?;
    if !enter(paths, &path)? {
        return Err(ReadError::Bad);
    }
    packages.push((path, files))?;
    Ok(())
}

/// Appends the packages of these members to the given ones, whose paths these are.
fn add_all(
    alloc: Global,
    paths: &mut IndexSet<PkgPath>,
    packages: &mut Vec<(PkgPath, Files)>,
    members: &Map<String, Value>,
) -> Result<(), ReadError>
    requires { paths.old.keys ≡ map (λ p. p.0) packages.old.items }
    ensures { Gives (λ _. packages.new.items) result
        (packages_behind packages.old.items (members_view members.now.entries)) }
{
    for (key, value) in members {
        add(alloc, paths, packages, key.as_str(), value)?;
    }
    Ok(())
}

/// The packages of an object's members.
pub fn packages(alloc: Global, value: &Value) -> Result<Packages, ReadError>
    ensures { Gives (λ p. p) result (packages_of (view value.now)) }
{
    let Some(members) = value.as_object() else {
        return Err(ReadError::Bad);
    };
    let mut packages = Vec::with_capacity(alloc, members.len())?;
    let mut paths = IndexSet::new(alloc);
    let added = add_all(alloc, &mut paths, &mut packages, members);
    drop(paths);
    added?;
    Ok(Packages::new(packages))
}

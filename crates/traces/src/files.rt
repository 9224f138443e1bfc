//! Files, and packages with their files.
ghost use Rattle.std.specs.Prelude.{◌≡◌, map};
ghost use Rattle.package_record.specs.FileView.{file_view};
ghost use Rattle.serde_json.specs.View.{view};
ghost use Rattle.traces.specs.Fields.{file_in, files_in, package_in, packages_in};
ghost use Rattle.traces.specs.inside.Given.{Gives};

use crate::fields::{field, field_count, hex, path, text};
use crate::read_error::ReadError;
use package_record::{File, Files};
use pkgpath::PkgPath;
use protocol::Packages;
use serde_json::Value;
use std::alloc::Global;

/// A file.
#[tactic(auto, unfolding(crate::specs::Fields::file_in))]
fn file(alloc: Global, value: &Value) -> Result<File, ReadError>
    ensures { Gives file_view result (file_in (view value.now)) }
{
    let bytes = hex(alloc, value)?;
    let name = text(value, "name")?;
    if field_count(value) != 2 {
        return Err(ReadError::Bad);
    }
    let name = Vec::from_slice(alloc, name.as_bytes())?;
    Ok(File { name, bytes })
}

/// The files of an array.
pub fn files(alloc: Global, value: &Value) -> Result<Files, ReadError>
    ensures { Gives (λ f. f) result (files_in (view value.now)) }
{
    let Some(items) = value.as_array() else {
        return Err(ReadError::Bad);
    };
    let mut files = Vec::with_capacity(alloc, items.len())?;
    for item in items {
        files.push(file(alloc, item)?)?;
    }
    Ok(Files::new(files))
}

/// A package.
#[tactic(auto, unfolding(crate::specs::Fields::package_in))]
fn package(alloc: Global, value: &Value) -> Result<(PkgPath, Files), ReadError>
    ensures { Gives (λ p. p) result (package_in (view value.now)) }
{
    let files = files(alloc, field(value, "files")?)?;
    let path = path(alloc, value)?;
    if field_count(value) == 2 {
        Ok((path, files))
    } else {
        Err(ReadError::Bad)
    }
}

/// The packages of an array.
pub fn packages(alloc: Global, value: &Value) -> Result<Packages, ReadError>
    ensures { Gives (λ p. p) result (packages_in (view value.now)) }
{
    let Some(items) = value.as_array() else {
        return Err(ReadError::Bad);
    };
    let mut packages = Vec::with_capacity(alloc, items.len())?;
    for item in items {
        packages.push(package(alloc, item)?)?;
    }
    Ok(Packages::new(packages))
}

//! The text of a list of packages.
ghost use Rattle.std.specs.Prelude.{◌≡◌, ◌++◌, IfOk, OnOk};
ghost use Rattle.package_lists.specs.ListText.{digest_end, list_text, record_lines, signature_line};

use faults::Memory;
use package_record::{Record, digest_text};
use pkgname::PkgName;
use pkgpath::PkgPath;
use std::alloc::Global;

/// The list in the form that an audit parses: for each package a line `package PATH NAME DIGEST`,
/// followed by a line `built PATH NAME DIGEST` for each package that it was built on.
pub fn list_text(alloc: Global, list: &[Record]) -> Result<Vec<u8>, Memory>
    ensures { IfOk result (λ text. text.items ≡ list_text list.now) }
{
    let mut text = Vec::new(alloc);
    put_list(&mut text, list)?;
    Ok(text)
}

/// Appends the text of the list.
pub fn put_list(text: &mut Vec<u8>, list: &[Record]) -> Result<(), Memory>
    ensures { OnOk result (text.new.items ≡ text.old.items ++ list_text list.now) }
{
    for package in list {
        put_package(text, package)?;
    }
    Ok(())
}

/// Appends the lines of a package.
fn put_package(text: &mut Vec<u8>, content: &Record) -> Result<(), Memory>
    ensures { OnOk result (text.new.items ≡ text.old.items ++ record_lines content.now) }
{
    let digest = content.digest()?;
    put_signature(text, b"package ", content.path(), content.name(), &digest)?;
    for dep in content.built() {
        put_signature(text, b"built ", &dep.path, &dep.name, &dep.digest)?;
    }
    Ok(())
}

/// Appends a line with the word, which includes its space, and a package's path, name and digest.
fn put_signature(
    text: &mut Vec<u8>,
    word: &[u8],
    path: &PkgPath,
    name: &PkgName,
    digest: &[u8; 32],
) -> Result<(), Memory>
    ensures { OnOk result (text.new.items
        ≡ text.old.items ++ signature_line word.now path.now name.now digest.now) }
{
    text.extend_from_slice(word)?;
    path.write_to(text)?;
    text.push(b' ')?;
    name.write_to(text)?;
    put_digest(text, digest)
}

/// Appends a space, the digest and a line feed.
fn put_digest(text: &mut Vec<u8>, digest: &[u8; 32]) -> Result<(), Memory>
    ensures { OnOk result (text.new.items ≡ text.old.items ++ digest_end digest.now) }
{
    text.push(b' ')?;
    text.extend_from_slice(&digest_text(digest))?;
    text.push(b'\n')?;
    Ok(())
}

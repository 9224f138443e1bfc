//! Texts about a made listing: held paths, and lists of packages.
ghost use Rattle.std.specs.Prelude.{◌≤◌, length};

use crate::numbers::Numbers;
use crate::tree::{Made, Package};
use std::alloc::Global;
use std::io;

/// How the list of all packages of a tree ends.
#[derive(Clone, Copy)]
pub enum Ending {
    /// With the last package and what it was built on.
    Right,
    /// The last thing that the last package was built on is left out.
    Short,
    /// The last package is listed twice.
    Twice,
    /// A package that the listing lacks comes after it.
    Unlisted,
}

/// Some of the paths, a line each: of each eight in a row so many, and none of the last tenth,
/// which may be ignored.
pub fn held_text(
    alloc: Global,
    numbers: &mut Numbers,
    made: &Made,
    of_eight: usize,
) -> io::Result<Vec<u8>> {
    let mut out = Vec::new(alloc);
    for package in made.packages.iter().take(made.packages.len() / 10 * 9) {
        if numbers.below(8) < of_eight {
            out.extend_from_slice(package.path.as_bytes())?;
            out.push(b'\n')?;
        }
    }
    Ok(out)
}

/// A list of all packages in the order of the listing. Each dependency comes before what is built
/// on it.
pub fn list_text(alloc: Global, numbers: &mut Numbers, made: &Made) -> io::Result<Vec<u8>> {
    let mut signatures = Vec::new(alloc);
    for package in &made.packages {
        signatures.push(signature(alloc, numbers, package)?)?;
    }
    let mut out = Vec::new(alloc);
    for (package, signature) in made.packages.iter().zip(&signatures) {
        out.extend_from_slice(b"package ")?;
        out.extend_from_slice(signature.as_bytes())?;
        put_needed(&mut out, package, signatures.as_slice())?;
    }
    Ok(out)
}

/// The list with another ending.
pub fn with_ending(alloc: Global, list: &[u8], ending: Ending) -> io::Result<Vec<u8>> {
    let mut out = list.to_vec(alloc)?;
    match ending {
        Ending::Right => {}
        Ending::Short => out.truncate(place_of_last(list, b"\nbuilt ")),
        Ending::Twice => out.extend_from_slice(&list[place_of_last(list, b"\npackage ")..])?,
        Ending::Unlisted => {
            out.push(b'\n')?;
            out.extend_from_slice(b"package devel/nobody nobody-1.0 ")?;
            out.resize(out.len().saturating_add(64), b'0')?;
        }
    }
    out.push(b'\n')?;
    Ok(out)
}

/// The last place of the word in the text; the end of the text if it lacks the word.
fn place_of_last(text: &[u8], word: &[u8]) -> usize
    ensures { result ≤ length text.now }
{
    let mut place = text.len();
    while place > 0 {
        place -= 1;
        if text[place..].starts_with(word) {
            return place;
        }
    }
    text.len()
}

/// The path and name of a package, and a digest.
fn signature(alloc: Global, numbers: &mut Numbers, package: &Package) -> io::Result<String> {
    let mut digest = [0; 32];
    for byte in &mut digest {
        *byte = numbers.byte();
    }
    let digits = hex::encode(alloc, &digest)?;
    let Package { path, name, .. } = package;
    let text = format!(in alloc; "{path} {name} {digits}\n")?;
    Ok(text)
}

/// What a package was built on, a line each.
fn put_needed(out: &mut Vec<u8>, package: &Package, all: &[String]) -> io::Result<()> {
    for place in &package.needed {
        if let Some(needed) = all.get(*place as usize) {
            out.extend_from_slice(b"built ")?;
            out.extend_from_slice(needed.as_bytes())?;
        }
    }
    Ok(())
}

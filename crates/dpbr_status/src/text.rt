//! The text of `dpbr status`.
ghost use Rattle.std.specs.Prelude.{◌≡◌, ◌∷◌, ◌++◌, ◌⊎◌, [], IfErr, IfOk, OnOk};
ghost use Rattle.dpbr_status.specs.Held.{AreHeld, IsFirstFault};
ghost use Rattle.dpbr_status.specs.Status.{IsStatusOf, IsStatusText, letter_text, package_line};
ghost use Rattle.engine.specs.State.{has_agreed};

use crate::held::{HeldFault, held_marks};
use engine::{Letter, Units};
use faults::Memory;
use listing::Tree;
use pkgname::PkgName;
use pkgpath::PkgPath;
use program_io::counts_text;
use status_letters::Snapshot;
use std::alloc::Global;

/// What is printed for a tree and a text of held package paths: for each package a line with its
/// letter, path and name, and then the number of packages with each letter.
pub fn status(alloc: Global, tree: &Tree, held: &[u8]) -> Result<Vec<u8>, HeldFault>
    ensures ok { IfOk result (λ text. IsStatusOf tree.now held.now text.items) }
    ensures refused { IfErr result
        (λ e. (e ≡ HeldFault.Memory) ⊎ IsFirstFault tree.now held.now e) }
{
    let (text, _letters) = status_by_letters(alloc, tree, held)?;
    Ok(text)
}

/// Like `status`; also returns the letters that were printed.
pub fn status_by_letters<'a>(
    alloc: Global,
    tree: &'a Tree,
    held: &[u8],
) -> Result<(Vec<u8>, Snapshot<'a>), HeldFault>
    ensures ok { IfOk result (λ told. IsStatusOf tree.entry.now held.now told.0.items) }
    ensures refused { IfErr result
        (λ e. (e ≡ HeldFault.Memory) ⊎ IsFirstFault tree.entry.now held.now e) }
{
    let letters = held_letters(alloc, tree, held)?;
    let text = status_text(alloc, tree, &letters)?;
    Ok((text, letters))
}

/// The letters of a tree if the packages are held that the text names.
///
/// The text has one package path in each line, in any of its spellings; empty lines are skipped. A
/// path may be repeated.
pub fn held_letters<'a>(
    alloc: Global,
    tree: &'a Tree,
    text: &[u8],
) -> Result<Snapshot<'a>, HeldFault>
    ensures tree { IfOk result (λ letters. letters.tree ≡ tree.entry.now) }
    ensures held { IfOk result (λ letters. AreHeld tree.entry.now text.now (has_agreed letters)) }
    ensures refused { IfErr result
        (λ e. (e ≡ HeldFault.Memory) ⊎ IsFirstFault tree.entry.now text.now e) }
{
    let units = Units::new(alloc, tree)?;
    let held = held_marks(alloc, tree, &units, text)?;
    let letters = Snapshot::new(alloc, tree, units, held.as_slice())?;
    Ok(letters)
}

fn status_text(alloc: Global, tree: &Tree, letters: &Snapshot<'_>) -> Result<Vec<u8>, Memory>
    requires { letters.now.tree ≡ tree.now }
    ensures { IfOk result (λ text. IsStatusText letters.now text.items) }
{
    let mut text = Vec::new(alloc);
    for position in 0..tree.len() {
        let letter = letters.letter(position);
        write_package(&mut text, letter, tree.path(position), tree.name(position))?;
    }
    let counts = counts_text(alloc, letters.counts())?;
    text.extend_from_slice(counts.as_bytes())?;
    Ok(text)
}

fn write_package(
    text: &mut Vec<u8>,
    letter: Letter,
    path: &PkgPath,
    name: &PkgName,
) -> Result<(), Memory>
    ensures { OnOk result
        (text.new.items ≡ text.old.items ++ package_line letter path.now name.now) }
{
    text.push(letter_byte(letter))?;
    text.push(b' ')?;
    path.write_to(text)?;
    text.push(b' ')?;
    name.write_to(text)?;
    text.push(b'\n')?;
    Ok(())
}

/// The printed form of a letter.
fn letter_byte(letter: Letter) -> u8
    ensures { result ∷ [] ≡ letter_text letter }
{
    match letter {
        Letter::I => b'I',
        Letter::B => b'B',
        Letter::Q => b'Q',
        Letter::T => b'T',
        Letter::Ignored => b'!',
    }
}

//! Parsing of bytes as a note.
ghost use Rattle.std.specs.Prelude.{◌≡◌};
ghost use Rattle.wire.specs.inside.Given.{Gives};
ghost use Rattle.wire.specs.Reading.{fact_at, note_at, note_of, voted_at};

use crate::WireFault;
use crate::fault::ReadError;
use crate::fields::{build, claim, kind, number, path};
use ballots::{Fact, Note};
use claims::GREATEST_ROUND;
use pkgpath::PkgPath;
use std::alloc::Global;

/// The kinds of notes.
const KINDS: [u8; 4] = [1, 2, 3, 4];

/// A vote for a build of this unit.
#[tactic(auto, unfolding(crate::specs::Reading::voted_at))]
fn voted<'a>(alloc: Global, unit: &PkgPath, text: &'a [u8]) -> Result<(Fact, &'a [u8]), ReadError>
    ensures { Gives (λ x. (x.0, x.1.now)) result (voted_at unit.now text.entry.now) }
{
    let (claim, text) = claim(text)?;
    let (build, text) = build(alloc, unit, text)?;
    Ok((Fact::Voted(claim, build), text))
}

/// The fact of a note of this kind about this unit.
fn fact<'a>(
    alloc: Global,
    unit: &PkgPath,
    kind: u8,
    text: &'a [u8],
) -> Result<(Fact, &'a [u8]), ReadError>
    ensures { Gives (λ x. (x.0, x.1.now)) result (fact_at unit.now kind text.entry.now) }
{
    match kind {
        1 => {
            let (round, text) = number(8, 1, GREATEST_ROUND, text)?;
            Ok((Fact::Opened(round), text))
        }
        2 => {
            let (claim, text) = claim(text)?;
            Ok((Fact::Promised(claim), text))
        }
        3 => voted(alloc, unit, text),
        _ => {
            let (build, text) = build(alloc, unit, text)?;
            Ok((Fact::Held(build), text))
        }
    }
}

/// The note at the front.
#[tactic(auto, unfolding(crate::specs::Reading::note_at))]
fn front(alloc: Global, text: &[u8]) -> Result<(Note, &[u8]), ReadError>
    ensures { Gives (λ x. (x.0, x.1.now)) result (note_at text.entry.now) }
{
    let (kind, text) = kind(&KINDS, text)?;
    let (path, text) = path(alloc, text)?;
    let (fact, text) = fact(alloc, &path, kind, text)?;
    Ok((Note { path, fact }, text))
}

/// The note that is the whole text.
#[tactic(auto, unfolding(crate::specs::Reading::note_of))]
pub fn note(alloc: Global, text: &[u8]) -> Result<Note, ReadError>
    ensures { Gives (λ note. note) result (note_of text.now) }
{
    let (note, rest) = front(alloc, text)?;
    if !rest.is_empty() {
        return Err(ReadError::Fault(WireFault::Trailing));
    }
    Ok(note)
}

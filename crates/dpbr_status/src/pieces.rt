//! Splitting a text into pieces.
ghost use Rattle.std.specs.Prelude.{◌≡◌, IfOk, map};
ghost use Rattle.faults.specs.Pieces.{pieces_at};

use faults::split_once;
use std::alloc::{AllocError, Global};

/// The pieces between the separators: one more than there are separators.
pub fn pieces<'t>(alloc: Global, separator: u8, text: &'t [u8]) -> Result<Vec<&'t [u8]>, AllocError>
    ensures { IfOk result
        (λ pieces. map (λ piece. piece.now) pieces.items ≡ pieces_at separator text.entry.now) }
{
    let mut pieces = Vec::new(alloc);
    let mut rest = text;
    'pieces: while let Some((piece, behind)) = split_once(rest, separator) {
        pieces.push(piece)?;
        rest = behind;
    }
    pieces.push(rest)?;
    Ok(pieces)
}

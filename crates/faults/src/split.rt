//! Splitting a text at its first separator.
ghost use Rattle.std.specs.Prelude.{◌≡◌, ◌<◌, ◌++◌, ◌∷◌, [], false, length, IfSome, MatchOption};
ghost use Rattle.faults.specs.Bytes.{has_byte};
ghost use Rattle.faults.specs.Pieces.{pieces_at};

use memchr::memchr;

/// The text before the first separator and the text after it, if there is one.
pub fn split_once(text: &[u8], separator: u8) -> Option<(&[u8], &[u8])>
    ensures pieces { MatchOption result
        (pieces_at separator text.now ≡ text.now ∷ [])
        (λ halves. pieces_at separator text.now
        ≡ halves.0.now ∷ pieces_at separator halves.1.now) }
    ensures halves { MatchOption result
        (has_byte separator text.now ≡ false)
        (λ halves. (text.now ≡ halves.0.now ++ separator ∷ halves.1.now)
        × (has_byte separator halves.0.now ≡ false)) }
    ensures shorter { IfSome result (λ halves. length halves.1.now < length text.now) }
{
    let at = memchr(separator, text)?;
    Some((&text[..at], &text[at + 1..]))
}

//! The pieces of a text between separators.
ghost use Rattle.std.specs.Prelude.{◌≡◌, option_copied};
ghost use Rattle.faults.specs.Pieces.{pieces_at};
ghost use Rattle.pkgname.specs.Pieces.{pieces_behind};

use faults::split_once;
use std::marker::Model;

/// The pieces of a text between separators, from the left. A whole text has one more than it has
/// separators. Contracts see the pieces that are left.
#[derive(Drop)]
pub struct Pieces<'a> {
    separator: u8,
    left: Option<&'a [u8]>,
}

impl<'a> Model for Pieces<'a> {
    ghost use Rattle.std.specs.Prelude.{ℕ, List, option_copied};
    ghost use Rattle.pkgname.specs.Pieces.{pieces_behind};

    ghost Value = { List (List ℕ) };

    ghost view = { λ p. pieces_behind p.separator (option_copied p.left) };
}

impl<'a> Pieces<'a> {
    /// The pieces of a text.
    pub fn new(text: &'a [u8], separator: u8) -> Pieces<'a>
        ensures { result ≡ pieces_at separator text.entry.now }
    {
        Pieces {
            separator,
            left: Some(text),
        }
    }

    /// The pieces of the text after a separator, or none if there is no separator.
    pub fn behind(text: Option<&'a [u8]>, separator: u8) -> Pieces<'a>
        ensures { result ≡ pieces_behind separator (option_copied text.entry) }
    {
        Pieces {
            separator,
            left: text,
        }
    }
}

impl<'a> Iterator for Pieces<'a> {
    ghost use Rattle.std.specs.Iterator.{YieldsFirstRef, item_count};

    type Item = &'a [u8];

    ghost next_gives = { YieldsFirstRef (λ pieces. pieces) };

    ghost remaining = { item_count (λ pieces. pieces) };

    fn next(&mut self) -> Option<&'a [u8]> {
        let text = self.left?;
        match split_once(text, self.separator) {
            Some((piece, behind)) => {
                self.left = Some(behind);
                Some(piece)
            }
            None => {
                self.left = None;
                Some(text)
            }
        }
    }
}

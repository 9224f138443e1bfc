//! A component of a version's body.
ghost use Rattle.std.specs.Prelude.{◌≡◌, length};
ghost use Rattle.std.specs.Char.{is_ascii_digit};
ghost use Rattle.std.specs.List.{take_while};
ghost use Rattle.pkgname.specs.Order.{component_cmp};
ghost use Rattle.pkgname.specs.Version.{component_of};

use crate::number::Number;
use crate::rest::Rest;
use std::cmp::Ordering;
use std::marker::Model;

#[derive(Drop)]
pub(crate) struct Component<'a> {
    number: Number<'a>,
    rest: &'a [u8],
}

impl<'a> Model for Component<'a> {
    ghost use Rattle.pkgname.specs.Version.{Component};

    ghost Value = { Component };

    ghost view = { λ c. record { number = c.number; rest = c.rest.now } };
}

impl<'a> Component<'a> {
    /// The component of a piece of a body: a number, which may have no digits, and a rest.
    pub fn new(piece: &'a [u8]) -> Component<'a>
        ensures { result ≡ component_of piece.entry.now }
    {
        let (digits, rest) = piece.split_at(leading_digits(piece));
        Component {
            number: Number::new(digits),
            rest,
        }
    }

    pub fn compare(&self, other: &Component<'_>) -> Ordering
        ensures { result ≡ component_cmp self.now other.now }
    {
        match self.number.compare(&other.number) {
            Ordering::Equal => Rest::new(self.rest).compare(&Rest::new(other.rest)),
            unequal => unequal,
        }
    }
}

fn leading_digits(piece: &[u8]) -> usize
    ensures { result ≡ length (take_while is_ascii_digit piece.now) }
{
    piece
        .iter()
        .take_while(|byte| byte.is_ascii_digit())
        .count()
}

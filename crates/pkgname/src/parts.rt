//! The markers and the body of a version.
ghost use Rattle.std.specs.Prelude.{◌≡◌, drop, length, true};
ghost use Rattle.std.specs.Char.{is_ascii_digit};
ghost use Rattle.std.specs.Cmp.Lexicographic.{slice_cmp};
ghost use Rattle.std.specs.List.{list_all};
ghost use Rattle.std.specs.Option.{option_cmp};
ghost use Rattle.std.specs.Ordering.{nat_cmp};
ghost use Rattle.pkgname.specs.Order.{body_cmp, component_cmp, parts_cmp};
ghost use Rattle.pkgname.specs.Version.{before_digits_at_end, components_of, marker, parts_of, without_marker};

use crate::Pieces;
use crate::component::Component;
use crate::number::Number;
use std::cmp::Ordering;
use std::marker::Model;

/// A version taken apart.
#[derive(Drop)]
pub(crate) struct Parts<'a> {
    v: Option<Number<'a>>,
    body: &'a [u8],
    p: Option<Number<'a>>,
}

impl<'a> Model for Parts<'a> {
    ghost use Rattle.pkgname.specs.Version.{Parts, components_of};

    ghost Value = { Parts };

    ghost view = { λ x. record { v = x.v; components = components_of x.body.now; p = x.p } };
}

impl<'a> Parts<'a> {
    pub fn new(text: &'a [u8]) -> Parts<'a>
        ensures { result ≡ parts_of text.entry.now }
    {
        let (text, v) = split_marker(text, b'v');
        let (body, p) = split_marker(text, b'p');
        Parts { v, body, p }
    }

    pub fn compare(&self, other: &Parts<'_>) -> Ordering
        ensures { result ≡ parts_cmp self.now other.now }
    {
        match compare_markers(&self.v, &other.v) {
            Ordering::Equal => self.compare_without_v(other),
            unequal => unequal,
        }
    }

    fn compare_without_v(&self, other: &Parts<'_>) -> Ordering
        ensures { result ≡ body_cmp self.now other.now }
    {
        match compare_bodies(self.body, other.body) {
            Ordering::Equal => compare_markers(&self.p, &other.p),
            unequal => unequal,
        }
    }
}

/// The text before the marker at its end, and the marker's number, if it has one.
fn split_marker(text: &[u8], letter: u8) -> (&[u8], Option<Number<'_>>)
    ensures front { result.0.now ≡ without_marker letter text.entry.now }
    ensures number { result.1 ≡ marker letter text.entry.now }
{
    let front = before_digits_at_end(text);
    match front {
        [body @ .., last] if *last == letter && front.len() < text.len() => {
            (body, Some(Number::new(&text[front.len()..])))
        }
        _ => (text, None),
    }
}

fn before_digits_at_end(mut text: &[u8]) -> &[u8]
    ensures front { result.now ≡ before_digits_at_end text.entry.now }
    ensures digits { list_all is_ascii_digit (drop (length result.now) text.entry.now) ≡ true }
{
    'digits: while let [front @ .., last] = text {
        if !last.is_ascii_digit() {
            break;
        }
        text = front;
    }
    text
}

/// Compares the numbers of markers; having no marker is less.
fn compare_markers(own: &Option<Number<'_>>, other: &Option<Number<'_>>) -> Ordering
    ensures { result ≡ option_cmp nat_cmp own.now other.now }
{
    match (own, other) {
        (None, None) => Ordering::Equal,
        (None, Some(_)) => Ordering::Less,
        (Some(_), None) => Ordering::Greater,
        (Some(own), Some(other)) => own.compare(other),
    }
}

/// Compares the components from the left; the body that ends first is less.
fn compare_bodies(own: &[u8], other: &[u8]) -> Ordering
    ensures { result
        ≡ slice_cmp component_cmp (components_of own.entry.now) (components_of other.entry.now) }
{
    let mut own_pieces = Pieces::new(own, b'.');
    let mut other_pieces = Pieces::new(other, b'.');
    'components: loop {
        let ordering = match (own_pieces.next(), other_pieces.next()) {
            (Some(own), Some(other)) => Component::new(own).compare(&Component::new(other)),
            (None, Some(_)) => return Ordering::Less,
            (Some(_), None) => return Ordering::Greater,
            (None, None) => return Ordering::Equal,
        };
        if ordering.is_ne() {
            return ordering;
        }
    }
}

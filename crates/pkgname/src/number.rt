//! A number in a version.
ghost use Rattle.std.specs.Prelude.{◌≡◌, ◌==◌, not, slice_index, true};
ghost use Rattle.std.specs.Char.{is_ascii_digit};
ghost use Rattle.std.specs.List.{list_all};
ghost use Rattle.std.specs.Ordering.{nat_cmp};
ghost use Rattle.pkgname.specs.Version.{number_of};

use std::cmp::Ordering;
use std::marker::Model;

/// A number of any length in digits. Contracts see its value. No digits are 0.
#[derive(Drop)]
pub(crate) struct Number<'a> {
    digits: &'a [u8],
}

impl<'a> Model for Number<'a> {
    ghost use Rattle.std.specs.Prelude.{◌≡◌, ℕ, true};
    ghost use Rattle.std.specs.Char.{is_ascii_digit};
    ghost use Rattle.std.specs.List.{list_all};
    ghost use Rattle.pkgname.specs.Version.{number_of};

    ghost Value = { ℕ };

    ghost view = { λ n. number_of n.digits.now };

    ghost invariant = { λ n. list_all is_ascii_digit n.digits.now ≡ true };
}

impl<'a> Number<'a> {
    pub fn new(digits: &'a [u8]) -> Number<'a>
        requires { list_all is_ascii_digit digits.now ≡ true }
        ensures { result ≡ number_of digits.entry.now }
    {
        Number { digits }
    }

    /// Compares the digits themselves, because they may be too many for any integer type.
    pub fn compare(&self, other: &Number<'_>) -> Ordering
        ensures { result ≡ nat_cmp self.now other.now }
    {
        let own = without_leading_zeros(self.digits);
        let others = without_leading_zeros(other.digits);
        own.len().cmp(&others.len()).then_with(|| own.cmp(others))
    }
}

fn without_leading_zeros(mut digits: &[u8]) -> &[u8]
    requires { list_all is_ascii_digit digits.now ≡ true }
    ensures digits { list_all is_ascii_digit result.now ≡ true }
    ensures number { number_of result.now ≡ number_of digits.entry.now }
    ensures leading { not (slice_index result.now 0 == 48) ≡ true }
{
    'zeros: while let [b'0', rest @ ..] = digits {
        digits = rest;
    }
    digits
}

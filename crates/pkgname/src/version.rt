//! A version. Contracts see its text.
ghost use Rattle.std.specs.Prelude.{◌≡◌};
ghost use Rattle.pkgname.specs.Order.{version_cmp};
ghost use Rattle.pkgname.specs.Version.{IsVersion, is_version};

use crate::bytes::has_name_bytes;
use crate::parts::Parts;
use std::cmp::Ordering;
use std::marker::Model;

/// The text of the version of a name or of a bound: a digit, and then any number of bytes of a name
/// other than dashes. It has no `==`, because different versions may tie.
#[derive(Drop)]
pub struct Version<'a> {
    text: &'a [u8],
}

impl<'a> Model for Version<'a> {
    ghost use Rattle.std.specs.Prelude.{ℕ, List};
    ghost use Rattle.pkgname.specs.Version.{IsVersion};

    ghost Value = { List ℕ };

    ghost view = { λ v. v.text.now };

    ghost invariant = { λ v. IsVersion v.text.now };
}

impl<'a> Version<'a> {
    /// The version with this text, which has to be a version (`is_version`).
    pub fn new(text: &'a [u8]) -> Version<'a>
        requires { IsVersion text.now }
        ensures { result ≡ text.entry.now }
    {
        Version { text }
    }

    /// The bytes of the version's text.
    pub fn as_bytes(&self) -> &'a [u8]
        ensures text { result.now ≡ self.now }
        ensures version { IsVersion self.now }
    {
        self.text
    }

    /// Compares this version with the other. A version is a body, then `p` and digits if it has
    /// that marker of packages-specs(7), then `v` and digits if it has that one. The order is this
    /// project's own, a total preorder (`version_order_is_total_preorder`):
    ///
    /// - by the number of `v`, where having none is less than `v0`;
    /// - then by the components between the body's dots, from the left, where the body that ends
    ///   first is less; a component by the number of its leading digits, 0 without any, and then by
    ///   its rest;
    /// - then by the number of `p`, where having none is less than `p0`.
    ///
    /// Rests are, from the lowest: `alpha`, `beta`, `pre`, `rc`, the empty rest, `pl`, and any
    /// other. A word may be followed only by digits. Equal words compare by the number of these, 0
    /// without any, and other rests by their bytes. Numbers have any number of digits. Versions
    /// that tie need not be equal, such as 1.02 and 1.2. Does not allocate.
    pub fn compare(&self, other: &Version<'_>) -> Ordering
        ensures { result ≡ version_cmp self.now other.now }
    {
        let own = Parts::new(self.as_bytes());
        let others = Parts::new(other.as_bytes());
        own.compare(&others)
    }
}

/// Whether the text is a version: it begins with a digit, and its bytes are allowed in a name and
/// not dashes.
pub fn is_version(text: &[u8]) -> bool
    ensures { result ≡ is_version text.now }
{
    text.first().is_some_and(|byte| byte.is_ascii_digit())
        && has_name_bytes(text)
        && !text.contains(&b'-')
}

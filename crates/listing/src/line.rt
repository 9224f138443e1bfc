//! A line of a listing: `PATH.VARIABLE=VALUE`.
ghost use Rattle.std.specs.Prelude.{◌≡◌, ℕ, ◌<◌, ◌≤◌, ◌==◌, ◌∷◌, [], false, length, slice_index, IfSome, MatchOption, MatchBool, position};
ghost use Rattle.faults.specs.Bytes.{dot, is_among};
ghost use Rattle.listing.specs.Dependencies.{words_of};
ghost use Rattle.listing.specs.Lines.{is_blank, is_cut, is_skipped, trimmed, variables};
ghost use Rattle.listing.specs.inside.Parts.{AreParts, name_of_variable};

use faults::split_once;
use memchr::{memchr2, memrchr};

/// The variables that are read.
#[derive(Clone, Copy, Debug, PartialEq, Eq)]
pub enum Variable {
    FullName,
    BuildDepends,
    LibDepends,
    RunDepends,
    Ignore,
}

impl Variable {
    /// The variable with this name, if it is one that is read.
    pub fn named(name: &[u8]) -> Option<Variable>
        ensures { MatchOption result (is_among variables name.now ≡ false)
            (λ v. name.now ≡ name_of_variable v) }
    {
        if name == b"FULLPKGNAME".as_slice() {
            Some(Variable::FullName)
        } else if name == b"BUILD_DEPENDS".as_slice() {
            Some(Variable::BuildDepends)
        } else if name == b"LIB_DEPENDS".as_slice() {
            Some(Variable::LibDepends)
        } else if name == b"RUN_DEPENDS".as_slice() {
            Some(Variable::RunDepends)
        } else if name == b"IGNORE".as_slice() {
            Some(Variable::Ignore)
        } else {
            None
        }
    }
}

/// The parts of a line: a path, the name of a variable, and a value without leading and trailing
/// spaces and tabs.
#[derive(Clone, Copy)]
pub struct Parts<'a> {
    pub path: &'a [u8],
    pub variable: &'a [u8],
    pub value: &'a [u8],
}

/// Whether the line is empty or begins with `===>`.
pub fn is_skipped(line: &[u8]) -> bool
    ensures { result ≡ is_skipped line.now }
{
    line.is_empty() || line.starts_with(b"===>")
}

/// The parts of a line, split at its first `=` and at the last dot before that, if it has both.
pub fn parts_of(line: &[u8]) -> Option<Parts<'_>>
    ensures { MatchOption result (is_cut line.now ≡ false) (AreParts line.now) }
{
    let (key, value) = split_once(line, b'=')?;
    let dot = memrchr(b'.', key)?;
    Some(Parts {
        path: &key[..dot],
        variable: &key[dot + 1..],
        value: trimmed(value),
    })
}

/// Whether the byte is a space or a tab.
pub fn is_blank(byte: u8) -> bool
    ensures { result ≡ is_blank byte }
{
    byte == b' ' || byte == b'\t'
}

/// The first word of a value, if it has one, and the text after the space or tab that ends the
/// word.
pub fn first_word(value: &[u8]) -> Option<(&[u8], &[u8])>
    ensures words { MatchOption result
        (words_of value.now ≡ [])
        (λ cut. words_of value.now ≡ cut.0.now ∷ words_of cut.1.now) }
    ensures shorter { IfSome result (λ cut. length cut.1.now < length value.now) }
{
    let start = value.iter().position(|byte| !is_blank(*byte))?;
    let word = &value[start..];
    match memchr2(b' ', b'\t', word) {
        Some(end) => Some((&word[..end], &word[end + 1..])),
        None => Some((word, b"")),
    }
}

/// The text without leading and trailing spaces and tabs.
fn trimmed(text: &[u8]) -> &[u8]
    ensures { result.now ≡ trimmed text.now }
{
    let mut start = 0;
    while start < text.len() && is_blank(text[start]) {
        start += 1;
    }
    let mut end = text.len();
    while end > start && is_blank(text[end - 1]) {
        end -= 1;
    }
    &text[start..end]
}

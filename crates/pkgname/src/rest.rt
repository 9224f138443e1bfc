//! The rank of what follows the digits of a component.
ghost use Rattle.std.specs.Prelude.{◌≡◌, []};
ghost use Rattle.std.specs.Char.{is_ascii_digit};
ghost use Rattle.std.specs.List.{list_all};
ghost use Rattle.pkgname.specs.Rest.{number_behind, place_of, rest_cmp, rest_of, within_rank_cmp, without_word};

use crate::number::Number;
use std::cmp::Ordering;
use std::marker::Model;

/// The ranks from the lowest: the words for what precedes a release, the release itself, the word
/// for what follows it, and any other rest.
#[derive(Clone, Copy)]
pub(crate) enum Rank {
    Alpha,
    Beta,
    Pre,
    Candidate,
    Release,
    PatchLevel,
    Other,
}

impl Rank {
    fn place(self) -> u8
        ensures { result ≡ place_of self }
    {
        match self {
            Rank::Alpha => 0,
            Rank::Beta => 1,
            Rank::Pre => 2,
            Rank::Candidate => 3,
            Rank::Release => 4,
            Rank::PatchLevel => 5,
            Rank::Other => 6,
        }
    }
}

#[derive(Drop)]
pub(crate) struct Rest<'a> {
    rank: Rank,
    number: Number<'a>,
    text: &'a [u8],
}

impl<'a> Model for Rest<'a> {
    ghost use Rattle.pkgname.specs.Rest.{Rest};

    ghost Value = { Rest };

    ghost view = { λ r. record { rank = r.rank; number = r.number; text = r.text.now } };
}

impl<'a> Rest<'a> {
    pub fn new(text: &'a [u8]) -> Rest<'a>
        ensures { result ≡ rest_of text.entry.now }
    {
        if let Some(number) = number_behind(b"alpha", text) {
            Rest::by_word(Rank::Alpha, number)
        } else if let Some(number) = number_behind(b"beta", text) {
            Rest::by_word(Rank::Beta, number)
        } else if let Some(number) = number_behind(b"pre", text) {
            Rest::by_word(Rank::Pre, number)
        } else if let Some(number) = number_behind(b"rc", text) {
            Rest::by_word(Rank::Candidate, number)
        } else if let Some(number) = number_behind(b"pl", text) {
            Rest::by_word(Rank::PatchLevel, number)
        } else {
            Rest::without_word(text)
        }
    }

    fn by_word(rank: Rank, number: Number<'a>) -> Rest<'a>
        ensures { result ≡ record { rank = rank; number = number.entry; text = [] } }
    {
        Rest {
            rank,
            number,
            text: b"",
        }
    }

    fn without_word(text: &'a [u8]) -> Rest<'a>
        ensures { result ≡ without_word text.entry.now }
    {
        let rank = if text.is_empty() {
            Rank::Release
        } else {
            Rank::Other
        };
        Rest {
            rank,
            number: Number::new(b""),
            text,
        }
    }

    pub fn compare(&self, other: &Rest<'_>) -> Ordering
        ensures { result ≡ rest_cmp self.now other.now }
    {
        match self.rank.place().cmp(&other.rank.place()) {
            Ordering::Equal => self.compare_within_rank(other),
            unequal => unequal,
        }
    }

    fn compare_within_rank(&self, other: &Rest<'_>) -> Ordering
        ensures { result ≡ within_rank_cmp self.now other.now }
    {
        let (own, others) = (self.text, other.text);
        self.number
            .compare(&other.number)
            .then_with(|| own.cmp(others))
    }
}

/// The number after the word, if the text is the word and only digits after it.
fn number_behind<'a>(word: &[u8], text: &'a [u8]) -> Option<Number<'a>>
    ensures { result ≡ number_behind word.now text.entry.now }
{
    let digits = text.strip_prefix(word)?;
    if is_all_digits(digits) {
        Some(Number::new(digits))
    } else {
        None
    }
}

fn is_all_digits(text: &[u8]) -> bool
    ensures { result ≡ list_all is_ascii_digit text.now }
{
    text.iter().all(|byte| byte.is_ascii_digit())
}

//! Decimal numbers without leading zeros.
ghost use Rattle.std.specs.Prelude.{◌≡◌, ◌+◌, ◌<◌, ◌≤◌, true, false, min, IfOk, MatchOption};
ghost use Rattle.std.specs.Str.Parse.{digits_value};
ghost use Rattle.package_record.specs.Content.{most_bytes};
ghost use Rattle.package_record.specs.inside.Given.{Gives};
ghost use Rattle.package_record.specs.Reading.{is_number, number_in, size_in};

use crate::fault::ReadError;
use crate::{LIMIT, RecordFault};

/// The number that the text encodes, or the greatest of 64 bits if it is above that.
fn number(text: &[u8]) -> Option<u64>
    ensures { MatchOption result
        (is_number text.now ≡ false)
        (λ n. (is_number text.now ≡ true)
        × (n ≡ min (digits_value 10 text.now) 18446744073709551615)) }
{
    if text.is_empty() || text.len() > 1 && text.starts_with(b"0") {
        return None;
    }
    let mut number: u64 = 0;
    for digit in text {
        if !digit.is_ascii_digit() {
            return None;
        }
        number = number
            .saturating_mul(10)
            .saturating_add(u64::from(*digit - b'0'));
    }
    Some(number)
}

/// The text of this line as a number from `least` to `greatest`.
#[tactic(auto, unfolding(crate::specs::Reading::number_in))]
pub fn number_within(least: u64, greatest: u64, line: u64, text: &[u8]) -> Result<u64, ReadError>
    requires { greatest < 18446744073709551615 }
    ensures number { Gives (λ n. n) result (number_in least greatest line text.now) }
    ensures within { IfOk result (λ n. n ≤ greatest) }
{
    match number(text) {
        Some(number) if number >= least && number <= greatest => Ok(number),
        _ => Err(ReadError::Fault(RecordFault::BadLine(line))),
    }
}

/// The text of this line as the size of a file, after files of this total size.
#[tactic(auto, unfolding(crate::specs::Reading::size_in))]
pub fn size(total: usize, line: u64, text: &[u8]) -> Result<usize, ReadError>
    requires { total ≤ most_bytes }
    ensures size { Gives (λ n. n) result (size_in total line text.now) }
    ensures within { IfOk result (λ n. total + n ≤ most_bytes) }
{
    let Some(number) = number(text) else {
        return Err(ReadError::Fault(RecordFault::BadLine(line)));
    };
    if number > (LIMIT - total) as u64 {
        return Err(ReadError::Fault(RecordFault::TooLarge));
    }
    Ok(number as usize)
}

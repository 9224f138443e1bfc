//! Hexadecimal digits.
ghost use Rattle.std.specs.Prelude.{◌≡◌, ◌<◌, ◌≤◌, ◌*◌, Ok, Some, length};
ghost use Rattle.hex.specs.Hex.{decode_of, hex_digit_value};
ghost use Rattle.traces.specs.Fields.{answer_in};
ghost use Rattle.traces.specs.inside.Given.{Gives};

use crate::read_error::ReadError;
use std::alloc::Global;

/// The value of a byte that is not a digit.
const NO_DIGIT: u8 = 16;

/// The bytes that the digits encode. All digits are decoded in one pass without an early exit,
/// which the compiler can vectorize; an invalid one is found by the greatest value. If there is
/// one, they are decoded once more into the same buffer, up to that one.
pub fn decoded(alloc: Global, text: &[u8]) -> Result<Vec<u8>, ReadError>
    ensures { Gives (λ v. v.items) result (answer_in (decode_of text.now)) }
{
    if text.len() % 2 != 0 {
        return Err(ReadError::Bad);
    }
    let mut bytes = vec![in alloc; 0u8; text.len() / 2]?;
    if read_pairs(bytes.as_mut_slice(), text) < NO_DIGIT {
        return Ok(bytes);
    }
    match hex::decode_to_slice(text, bytes.as_mut_slice()) {
        Ok(()) => Ok(bytes),
        Err(_) => Err(ReadError::Bad),
    }
}

/// Decodes the pairs of digits into the bytes, and returns the greatest value of a digit. If that
/// is `NO_DIGIT`, the bytes are meaningless.
fn read_pairs(bytes: &mut [u8], text: &[u8]) -> u8
    requires { length text.now ≡ 2 * length bytes.old }
    ensures { result < 16 → decode_of text.now ≡ Ok bytes.new }
{
    let mut greatest: u8 = 0;
    'pairs: for place in 0..bytes.len() {
        let high = digit(text[2 * place]);
        let low = digit(text[2 * place + 1]);
        greatest = greatest.max(high).max(low);
        bytes[place] = high.wrapping_mul(16).wrapping_add(low);
    }
    greatest
}

/// The value of a digit, or `NO_DIGIT`.
fn digit(byte: u8) -> u8
    ensures { result ≤ 15 → hex_digit_value byte ≡ Some result }
{
    match byte {
        b'0'..=b'9' => byte - b'0',
        b'a'..=b'f' => byte - b'a' + 10,
        b'A'..=b'F' => byte - b'A' + 10,
        _ => NO_DIGIT,
    }
}

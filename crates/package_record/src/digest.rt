//! Digests, and their hexadecimal digits.
ghost use Rattle.std.specs.Prelude.{◌≡◌, ◌≢◌, ◌<◌, ℕ, IfNone, IfSome, List, Ok, length, slice_index};
ghost use Rattle.hex.specs.Hex.{IsBytes, decode_sized, encode_lower, lower_digits};

/// The value of a lower-case hexadecimal digit, or 16 for any other byte.
fn digit_value(digit: u8) -> u8
    ensures reads { result < 16 → slice_index lower_digits result ≡ digit }
    ensures finds { (value : ℕ) → value < 16 → slice_index lower_digits value ≡ digit
        → result ≡ value }
{
    match digit {
        b'0'..=b'9' => digit - b'0',
        b'a'..=b'f' => digit - b'a' + 10,
        _ => 16,
    }
}

/// The digest that the text encodes, if it is 64 lower-case hexadecimal digits.
pub fn digest_of(text: &[u8]) -> Option<[u8; 32]>
    ensures some { IfSome result
        (λ digest. (decode_sized text.now 32 ≡ Ok digest) × (encode_lower digest ≡ text.now)) }
    ensures none { IfNone result ((digest : List ℕ) → decode_sized text.now 32 ≡ Ok digest
        → encode_lower digest ≢ text.now) }
{
    if text.len() != 64 {
        return None;
    }
    let mut digest = [0; 32];
    let mut greatest: u8 = 0;
    for i in 0..32 {
        let high = digit_value(text[2 * i]);
        let low = digit_value(text[2 * i + 1]);
        greatest = greatest.max(high).max(low);
        digest[i] = high.wrapping_mul(16).wrapping_add(low);
    }
    if greatest < 16 { Some(digest) } else { None }
}

/// The lower-case hexadecimal digit of the value.
fn lower_digit(value: u8) -> u8
    requires { value < 16 }
    ensures { result ≡ slice_index lower_digits value }
{
    if value < 10 {
        b'0' + value
    } else {
        b'a' + (value - 10)
    }
}

/// The 64 lower-case hexadecimal digits of the digest.
pub fn digest_text(digest: &[u8; 32]) -> [u8; 64]
    ensures text { result ≡ encode_lower digest.now }
    ensures size { length digest.now ≡ 32 }
    ensures bytes { IsBytes digest.now }
{
    let mut text = [0; 64];
    for i in 0..32 {
        let byte = digest[i];
        text[2 * i] = lower_digit(byte / 16);
        text[2 * i + 1] = lower_digit(byte % 16);
    }
    text
}

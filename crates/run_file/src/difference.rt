//! The first difference of two texts.
ghost use Rattle.std.specs.Prelude.{◌≡◌, MatchOption, Some, ℕ};
ghost use Rattle.run_file.specs.Difference.{PartIn};

/// The line, counted from 1, in which the texts first differ, or `None` if they are the same.
pub fn first_difference(text: &[u8], other: &[u8]) -> Option<u64>
    ensures exact { MatchOption result (text.now ≡ other.now) (PartIn text.now other.now) }
    ensures one_line { (line : ℕ) → PartIn text.now other.now line → result ≡ Some line }
{
    let mut line = 1;
    let mut rest = other;
    for byte in text {
        let Some((first, behind)) = rest.split_first() else {
            return Some(line);
        };
        if first != byte {
            return Some(line);
        }
        if *byte == b'\n' {
            line += 1;
        }
        rest = behind;
    }
    if rest.is_empty() { None } else { Some(line) }
}

//! The bytes of a name, and the place of its version.
ghost use Rattle.std.specs.Prelude.{◌≡◌, ◌+◌, ◌<◌, ◌||◌, IfSome, length};
ghost use Rattle.std.specs.Char.{is_ascii_digit};
ghost use Rattle.std.specs.List.{list_all};
ghost use Rattle.faults.specs.Bytes.{is_one_of};
ghost use Rattle.pkgname.specs.PkgName.{is_dash_before, is_name_byte, version_dash};

/// Whether each byte is allowed in a name: 0x21 to 0x7e other than `/`, `:`, `|`, `,`, `!`, `*`,
/// `<`, `>` and `=`. This set is this project's own choice.
pub fn has_name_bytes(text: &[u8]) -> bool
    ensures { result ≡ list_all is_name_byte text.now }
{
    text.iter().all(|byte| is_name_byte(*byte))
}

fn is_name_byte(byte: u8) -> bool
    ensures { result ≡ is_name_byte byte }
{
    byte.is_ascii_graphic()
        && !matches!(
            byte,
            b'/' | b':' | b'|' | b',' | b'!' | b'*' | b'<' | b'>' | b'='
        )
}

/// The index of the dash before a version or bounds: the first one, not counting the first byte,
/// that is followed by a digit or one of the bytes `also`.
pub fn dash_before_version(text: &[u8], also: &[u8]) -> Option<usize>
    ensures place { result ≡ version_dash (λ b. is_one_of also.now b || is_ascii_digit b) text.now }
    ensures within { IfSome result (λ at. at + 1 < length text.now) }
{
    (1..text.len()).find(|at| is_dash_before(text, *at, also))
}

fn is_dash_before(text: &[u8], at: usize, also: &[u8]) -> bool
    requires { at < length text.now }
    ensures { result ≡ is_dash_before (λ b. is_one_of also.now b || is_ascii_digit b) text.now at }
{
    match text.get(at + 1) {
        Some(next) => text[at] == b'-' && (also.contains(next) || next.is_ascii_digit()),
        None => false,
    }
}

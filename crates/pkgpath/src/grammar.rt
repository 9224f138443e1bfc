//! Which bytes may occur in a package path, and which texts are directories.
ghost use Rattle.std.specs.Prelude.{◌≡◌, [], ◌∷◌, codes};
ghost use Rattle.std.specs.List.{list_all};
ghost use Rattle.faults.specs.Bytes.{is_among};
ghost use Rattle.pkgpath.specs.PkgPath as grammar;

fn is_path_byte(byte: u8) -> bool
    ensures { result ≡ grammar.is_path_byte byte }
{
    matches!(byte, b'!'..=b'~') && !matches!(byte, b',' | b'/' | b':' | b'<' | b'=' | b'>')
}

pub(crate) fn has_path_bytes(text: &[u8]) -> bool
    ensures { result ≡ list_all grammar.is_path_byte text.now }
{
    text.iter().all(|byte| is_path_byte(*byte))
}

fn is_reserved(component: &[u8]) -> bool
    ensures { result ≡ is_among ([] ∷ codes "." ∷ codes ".." ∷ []) component.now }
{
    matches!(component, [] | b"." | b"..")
}

fn is_component(text: &[u8]) -> bool
    ensures { result ≡ grammar.is_component text.now }
{
    has_path_bytes(text) && !is_reserved(text)
}

pub(crate) fn is_directory(text: &[u8]) -> bool
    ensures { result ≡ grammar.is_directory text.now }
{
    text.split(|byte| *byte == b'/').all(is_component)
}

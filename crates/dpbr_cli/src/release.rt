//! The release of the programs.
ghost use Rattle.std.specs.Prelude.{◌≡◌, IfOk, map, string_bytes};
ghost use Rattle.dpbr_cli.specs.Explaining.{asks_release, release_line};

use std::alloc::{AllocError, Global};
use std::convert::AsStr;

/// The release. It changes at a release only.
const RELEASE: &str = "0.9";

/// Whether the words are the program's name and `--version`.
pub fn asks_release<S: AsStr>(words: &[S]) -> bool
    ensures { result ≡ asks_release (map S.text words.now) }
{
    match words {
        [_, word] => word.as_str() == "--version",
        _ => false,
    }
}

/// The line with the program's name and the release.
pub fn release_text(alloc: Global, program: &str) -> Result<String, AllocError>
    ensures { IfOk result (λ text. string_bytes text ≡ release_line program.now) }
{
    format!(in alloc; "{program} {RELEASE}\n")
}

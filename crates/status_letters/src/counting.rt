//! The number of packages with each letter.
ghost use Rattle.std.specs.Prelude.{◌≡◌, ◌<◌, ◌^◌, length};
ghost use Rattle.engine.specs.State.{counts_of};

use engine::{Counts, Letter};

/// The count of each letter.
pub(crate) fn counts_of(letters: &[Letter]) -> Counts
    requires { length letters.now < 2 ^ 31 }
    ensures { result ≡ counts_of letters.now }
{
    let mut counts = Counts {
        i: 0,
        b: 0,
        q: 0,
        t: 0,
        ignored: 0,
    };
    for letter in letters {
        counts.add(*letter);
    }
    counts
}

//! The number of packages with each letter.
ghost use Rattle.std.specs.Prelude.{◌≡◌, ◌<◌, ◌^◌, ◌+◌};
ghost use Rattle.engine.specs.shared.Shown.{same_letter, tally};
ghost use Rattle.engine.specs.declared.Letter.{Letter as Kind};

use crate::{Counts, Letter};

impl Counts {
    /// Counts one more package with this letter.
    pub fn add(&mut self, letter: Letter)
        requires { tally self.old letter < 2 ^ 31 }
        ensures { (l : Kind) → tally self.new l ≡ tally self.old l + same_letter letter l }
    {
        match letter {
            Letter::T => self.t += 1,
            Letter::Q => self.q += 1,
            Letter::B => self.b += 1,
            Letter::I => self.i += 1,
            Letter::Ignored => self.ignored += 1,
        }
    }

    /// Counts one package less with this letter.
    pub(crate) fn take(&mut self, letter: Letter)
        requires { 0 < tally self.old letter }
        ensures { (l : Kind) → tally self.new l + same_letter letter l ≡ tally self.old l }
    {
        match letter {
            Letter::T => self.t -= 1,
            Letter::Q => self.q -= 1,
            Letter::B => self.b -= 1,
            Letter::I => self.i -= 1,
            Letter::Ignored => self.ignored -= 1,
        }
    }
}

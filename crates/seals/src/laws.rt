//! Laws of sealed texts and runs.
ghost use Rattle.std.specs.Prelude.{◌≡◌, ◌≢◌, ◌+◌, List, length, ℕ};
ghost use Rattle.seals.specs.Run.{key_text, run_text};
ghost use Rattle.seals.specs.Sealed.{sealed};

use crate::seal::SEAL_SIZE;

/// Law: a sealed text determines its text, whatever the keys are, and is longer by the length of a
/// seal.
pub fn texts_are_told_apart()
    ensures one_text { (key other text another : List ℕ)
        → sealed key text ≡ sealed other another → text ≡ another }
    ensures longer { (key text : List ℕ)
        → length (sealed key text) ≡ length text + SEAL_SIZE }
{}

/// Law: a run's text determines the tree's digest and the weights, and so the number of members. It
/// is never the text whose code is shown of a key.
pub fn runs_are_told_apart()
    ensures one_run { (tree other weights others : List ℕ)
        → length tree ≡ 32 → length other ≡ 32 → run_text tree weights ≡ run_text other others
        → (tree ≡ other) × (weights ≡ others) }
    ensures key_apart { (tree weights : List ℕ) → run_text tree weights ≢ key_text }
{}

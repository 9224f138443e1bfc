//! Counts, by position, of what is lacking.
ghost use Rattle.std.specs.Prelude.{◌≡◌, ◌<◌, ◌≤◌, ◌+◌, ◌^◌, ℕ, All, length, slice_index};
ghost use Rattle.graph.specs.Lists.{times};

/// Decrements the count of each of the positions.
pub(crate) fn lower(lacks: &mut [usize], positions: &[u32])
    requires within { All (λ p. p < length lacks.old) positions.now }
    requires some { (p : ℕ) → p < length lacks.old
        → times p positions.now ≤ slice_index lacks.old p }
    ensures { (p : ℕ) → p < length lacks.old
        → slice_index lacks.new p + times p positions.now ≡ slice_index lacks.old p }
{
    for position in positions {
        lacks[*position as usize] -= 1;
    }
}

/// Increments the count of each of the positions.
pub(crate) fn raise(lacks: &mut [usize], positions: &[u32])
    requires within { All (λ p. p < length lacks.old) positions.now }
    requires few { (p : ℕ) → p < length lacks.old
        → slice_index lacks.old p + times p positions.now < 2 ^ 64 }
    ensures { (p : ℕ) → p < length lacks.old
        → slice_index lacks.new p ≡ slice_index lacks.old p + times p positions.now }
{
    for position in positions {
        lacks[*position as usize] += 1;
    }
}

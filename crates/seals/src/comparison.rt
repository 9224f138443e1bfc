//! Comparison of whole codes.
ghost use Rattle.std.specs.Prelude.{◌≡◌, ◌↔◌, IsTrue};

/// Whether these are the same bytes. All bytes are always compared, so that the time doesn't reveal
/// how much of a guess is right. No contract speaks of time.
pub fn is_same(ours: &[u8; 32], theirs: &[u8; 32]) -> bool
    ensures { IsTrue result ↔ (ours.now ≡ theirs.now) }
{
    let mut difference = 0;
    for place in 0..32 {
        difference |= ours[place] ^ theirs[place];
    }
    difference == 0
}

//! Weighted majorities.
ghost use Rattle.std.specs.Prelude.{
  ◌≡◌,
  ◌≤◌,
  ◌*◌,
  ◌++◌,
  ◌∷◌,
  [],
  ℕ,
  Bool,
  true,
  List,
  count_by,
  length,
  nat_lt,
  replicate,
};
ghost use Rattle.claims.specs.Quorums.{Members, is_majority, flagged_in, named_in, with_member};

/// Any two majorities share a member, and every superset of a majority is a majority. If each
/// member weighs 1, a set given by flags is a majority if twice its number of members exceeds the
/// number of all members.
pub fn majorities_meet()
    ensures meet { (weights : List ℕ) (S R : Members)
        → is_majority weights S ≡ true
        → is_majority weights R ≡ true
        → (k : ℕ) × (S k ≡ true) × (R k ≡ true) }
    ensures grow { (weights : List ℕ) (S R : Members)
        → ((k : ℕ) → S k ≡ true → R k ≡ true)
        → is_majority weights S ≡ true
        → is_majority weights R ≡ true }
    ensures counted { (flags : List Bool)
        → is_majority (replicate (length flags) 1) (flagged_in flags)
        ≡ nat_lt (length flags) (2 * count_by (λ flag. flag) flags) }
{}

/// Adding a member to a list adds it to the set that the list names, even if it was already in it.
pub fn members_join()
    ensures { (members : List ℕ) (m k : ℕ)
        → named_in (members ++ m ∷ []) k ≡ with_member (named_in members) m k }
{}

/// Whether the members are a majority; member k's weight is at index k. A member counts once,
/// however often it is named.
pub fn is_majority(weights: &[u8], members: &[u8]) -> bool
    requires { length weights.now ≤ 256 }
    ensures { result ≡ is_majority weights.now (named_in members.now) }
{
    let mut all = 0u32;
    let mut named = 0u32;
    for (member, weight) in weights.iter().enumerate() {
        let weight = u32::from(*weight);
        all += weight;
        if members.contains(&(member as u8)) {
            named += weight;
        }
    }
    all < 2 * named
}

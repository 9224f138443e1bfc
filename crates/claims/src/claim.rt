//! Claims, and their order.
ghost use Rattle.std.specs.Prelude.{◌≡◌, ◌⊎◌, true, Bool};
ghost use Rattle.claims.specs.Claims.{
  AtMost,
  Below,
  claim_below,
  is_above,
  is_below,
  is_promised,
};

/// A ballot number: its round, and the member that opened it. Claims compare by round, then by
/// member.
#[derive(Clone, Copy, Debug, PartialEq, Eq, PartialOrd, Ord, Hash)]
pub struct Claim {
    /// Rounds begin at 1; 0 is not a round.
    pub round: u64,
    /// The number of the member that opened it, from 0.
    pub member: u8,
}

/// Claims are strictly and totally ordered, by round first. The order is well-founded: what holds
/// of a claim whenever it holds of all below it holds of every claim.
pub fn claims_in_order()
    ensures never_below_itself { (c : Claim) → Below c c → Prim.⊥ }
    ensures in_turn { (c d e : Claim) → Below c d → Below d e → Below c e }
    ensures one_of_three { (c d : Claim) → Below c d ⊎ ((c ≡ d) ⊎ Below d c) }
    ensures at_most { (c d : Claim) → AtMost c d → Below c d ⊎ (c ≡ d) }
    ensures tested { (c d : Claim)
        → (claim_below c d ≡ true → Below c d) × (Below c d → claim_below c d ≡ true) }
    ensures induction { (holds : Claim → Bool)
        → ((d : Claim) → ((e : Claim) → Below e d → holds e ≡ true) → holds d ≡ true)
        → (d : Claim)
        → holds d ≡ true }
{}

/// Whether the claim is above what is promised, which is true if nothing is promised.
pub fn is_above(claim: Claim, promised: Option<Claim>) -> bool
    ensures { result ≡ is_above claim promised }
{
    match promised {
        Some(promised) => claim > promised,
        None => true,
    }
}

/// Whether the claim is the promised one.
pub fn is_promised(claim: Claim, promised: Option<Claim>) -> bool
    ensures { result ≡ is_promised claim promised }
{
    promised == Some(claim)
}

/// Whether the claim is below what is promised, which is false if nothing is promised.
pub fn is_below(claim: Claim, promised: Option<Claim>) -> bool
    ensures { result ≡ is_below claim promised }
{
    match promised {
        Some(promised) => claim < promised,
        None => false,
    }
}

//! The laws of all paths together, and of the list of agreed values.
ghost use Rattle.std.specs.Prelude.{
  ◌≡◌,
  ◌++◌,
  ℕ,
  Bool,
  List,
  [],
  ◌∷◌,
  Option,
  Some,
  length,
  slice_get,
};
ghost use Rattle.claims.specs.Quorums.{AreQuorums, Quorums, is_majority};
ghost use Rattle.claims.specs.Member.{facts_of, restored};
ghost use Rattle.claims.specs.Messages.{Agreed};
ghost use Rattle.claims.specs.Votes.{Ballot, Has};
ghost use Rattle.claims.specs.World.{IsLawfulWorld, WasProposed};
ghost use Rattle.claims.specs.Agreed.{IsAgreed, IsValue};
ghost use Rattle.claims.specs.Claims.{AtMost};
ghost use Rattle.claims.specs.AgreedList.{
  Act,
  Cluster,
  Entry,
  IsAllowed,
  IsMonotone,
  Lengthens,
  Needs,
  WasBuilt,
  after_acts,
  beginning,
  held_by,
  lookup,
};
ghost use Rattle.claims.specs.Nodes.{Happening, Matches, Node, after_all};
ghost use Rattle.claims.specs.Examples.{alone, one_and_zero, too_early, zero_first};

/// Many paths, members with at most one open claim over all paths, and values that may be built
/// only on what their builder holds. At every point there is one list, which only grows, with at
/// most one entry for each path. Each entry was built when everything that it needs was in the
/// list, and comes after that. What a member holds is in the list. The votes for each path stay
/// lawful. For each path, a member's facts are those that its notes restore.
pub fn agrees_on_one_list<V>()
    ensures grows { (enough : Quorums) (may : Needs V) (early late : List (Act V))
        → Lengthens
        (after_acts enough may early beginning).list
        (after_acts enough may (early ++ late) beginning).list }
    ensures allowed { (enough : Quorums) (may : Needs V)
        → AreQuorums enough
        → IsMonotone may
        → (acts : List (Act V))
        → IsAllowed may (after_acts enough may acts beginning).list }
    ensures held { (enough : Quorums) (may : Needs V)
        → AreQuorums enough
        → IsMonotone may
        → (acts : List (Act V)) (i p : ℕ) (v : V)
        → held_by (after_acts enough may acts beginning) i p ≡ Some v
        → lookup (after_acts enough may acts beginning).list p ≡ Some v }
    ensures value { (enough : Quorums) (may : Needs V)
        → AreQuorums enough
        → IsMonotone may
        → (acts : List (Act V)) (p : ℕ)
        → let c = after_acts enough may acts beginning in
        IsValue enough (c.at p) (lookup c.list p) }
    ensures built { (enough : Quorums) (may : Needs V)
        → AreQuorums enough
        → IsMonotone may
        → (acts : List (Act V)) (p : ℕ) (v : V)
        → lookup (after_acts enough may acts beginning).list p ≡ Some v
        → WasBuilt enough may acts beginning p v }
    ensures proposed { (enough : Quorums) (may : Needs V)
        → AreQuorums enough
        → IsMonotone may
        → (acts : List (Act V)) (p : ℕ) (b : Ballot V)
        → WasProposed ((after_acts enough may acts beginning).at p) b
        → WasBuilt enough may acts beginning p b.value }
    ensures told { (enough : Quorums) (may : Needs V)
        → AreQuorums enough
        → IsMonotone may
        → (acts : List (Act V)) (p : ℕ) (v : V)
        → Has ((after_acts enough may acts beginning).at p).sent (Agreed v)
        → lookup (after_acts enough may acts beginning).list p ≡ Some v }
    ensures repeats { (enough : Quorums) (may : Needs V)
        → AreQuorums enough
        → IsMonotone may
        → (acts : List (Act V)) (p : ℕ) (b d : Ballot V)
        → IsAgreed enough ((after_acts enough may acts beginning).at p) b
        → WasProposed ((after_acts enough may acts beginning).at p) d
        → AtMost b.claim d.claim
        → d.value ≡ b.value }
    ensures lawful { (enough : Quorums) (may : Needs V)
        → AreQuorums enough
        → IsMonotone may
        → (acts : List (Act V)) (p : ℕ)
        → IsLawfulWorld enough ((after_acts enough may acts beginning).at p) }
    ensures restored { (enough : Quorums) (may : Needs V) (acts : List (Act V)) (p i : ℕ)
        → facts_of (((after_acts enough may acts beginning).at p).members i)
        ≡ restored (((after_acts enough may acts beginning).at p).logs i) }
{}

/// These laws for nodes, one for each weight, that keep facts for all paths and one open claim, and
/// for datagrams that name their path. Whatever happens to the nodes, for each path they are what
/// members are after some acts.
pub fn nodes_have_one_list<V>()
    ensures grows { (weights : List ℕ) (may : Needs V)
        → IsMonotone may
        → (early late : List (Happening V))
        → Lengthens
        (after_all weights may early).list
        (after_all weights may (early ++ late)).list }
    ensures allowed { (weights : List ℕ) (may : Needs V)
        → IsMonotone may
        → (happenings : List (Happening V))
        → IsAllowed may (after_all weights may happenings).list }
    ensures held { (weights : List ℕ) (may : Needs V)
        → IsMonotone may
        → (happenings : List (Happening V)) (i p : ℕ) (node : Node V) (v : V)
        → slice_get (after_all weights may happenings).nodes i ≡ Some node
        → (node.facts p).held ≡ Some v
        → lookup (after_all weights may happenings).list p ≡ Some v }
    ensures alike { (weights : List ℕ) (may : Needs V)
        → IsMonotone may
        → (happenings : List (Happening V))
        → (acts : List (Act V))
        × Matches V
        (after_all weights may happenings)
        (after_acts (is_majority weights) may acts beginning) }
{}

/// A single node agrees on path 0, and then on path 1, which needs path 0; but not on path 1 first.
pub fn node_does_agree()
    ensures both { (after_all (1 ∷ []) zero_first alone).list ≡ one_and_zero }
    ensures refused { (after_all (1 ∷ []) zero_first too_early).list ≡ [] }
{}

//! The laws of one path's agreement.
ghost use Rattle.std.specs.Prelude.{
  ◌≡◌,
  ◌++◌,
  ◌∷◌,
  [],
  ℕ,
  Bool,
  true,
  List,
  Option,
  None,
  Some,
  IfSome,
  take,
};
ghost use Rattle.claims.specs.Claims.{AtMost, Claim};
ghost use Rattle.claims.specs.Quorums.{AreQuorums, Quorums, is_majority, nobody, with_member};
ghost use Rattle.claims.specs.Votes.{
  Ballot,
  Has,
  IsChosen,
  IsLawful,
  PromiseOf,
  VoteOf,
  ballot,
  kept_report,
};
ghost use Rattle.claims.specs.Messages.{Message, Nay, Offer, Propose, Vote};
ghost use Rattle.claims.specs.Noted.{IsClosedWhereHeld, IsNoted};
ghost use Rattle.claims.specs.Member.{
  Member,
  Closed,
  Gathering,
  Held,
  Opened,
  Promised,
  Voted,
  Voting,
  facts_of,
  restored,
};
ghost use Rattle.claims.specs.Step.{
  Input,
  answer,
  on_message,
  notes_and_says,
  on_offer,
  on_promise,
  on_propose,
  on_start,
  on_vote,
  says,
  still,
};
ghost use Rattle.claims.specs.World.{Event, IsLawfulWorld, WasProposed, run, start};
ghost use Rattle.claims.specs.Agreed.{IsAgreed, IsBuilt, IsValue, agreed_value};
ghost use Rattle.claims.specs.Examples.{bound_to, claim, plain, taken_over, three};

/// A proposal at or above a chosen one has its value. So any two chosen ballots have the same
/// value.
pub fn chosen_stays<V>()
    ensures repeats { (enough : Quorums)
        → AreQuorums enough
        → (proposals : List (Ballot V)) (promises : List (PromiseOf V)) (votes : List (VoteOf V))
        → IsLawful V enough (Has proposals) (Has promises) (Has votes)
        → (b d : Ballot V)
        → IsChosen V enough (Has votes) b
        → Has proposals d
        → AtMost b.claim d.claim
        → d.value ≡ b.value }
    ensures one_value { (enough : Quorums)
        → AreQuorums enough
        → (proposals : List (Ballot V)) (promises : List (PromiseOf V)) (votes : List (VoteOf V))
        → IsLawful V enough (Has proposals) (Has promises) (Has votes)
        → (a b : Ballot V)
        → IsChosen V enough (Has votes) a
        → IsChosen V enough (Has votes) b
        → a.value ≡ b.value }
{}

/// Whatever is lost, repeated, reordered or stopped, what is proposed, promised and voted stays
/// lawful. Each proposal at or above an agreed one repeats its value. At most one value is agreed,
/// for good. What a member holds is agreed, and what is agreed was built.
pub fn agrees_on_one_value<V>()
    ensures lawful { (enough : Quorums)
        → AreQuorums enough
        → (events : List (Event V))
        → IsLawfulWorld enough (run enough events start) }
    ensures repeats { (enough : Quorums)
        → AreQuorums enough
        → (events : List (Event V)) (b d : Ballot V)
        → IsAgreed enough (run enough events start) b
        → WasProposed (run enough events start) d
        → AtMost b.claim d.claim
        → d.value ≡ b.value }
    ensures one_value { (enough : Quorums)
        → AreQuorums enough
        → (early late : List (Event V)) (a b : Ballot V)
        → IsAgreed enough (run enough early start) a
        → IsAgreed enough (run enough (early ++ late) start) b
        → a.value ≡ b.value }
    ensures value { (enough : Quorums)
        → AreQuorums enough
        → (events : List (Event V))
        → IsValue enough (run enough events start) (agreed_value enough events) }
    ensures stays { (enough : Quorums) (early late : List (Event V)) (v : V)
        → agreed_value enough early ≡ Some v
        → agreed_value enough (early ++ late) ≡ Some v }
    ensures held { (enough : Quorums)
        → AreQuorums enough
        → (events : List (Event V)) (i : ℕ) (v : V)
        → ((run enough events start).members i).held ≡ Some v
        → agreed_value enough events ≡ Some v }
    ensures built { (enough : Quorums)
        → AreQuorums enough
        → (events : List (Event V)) (v : V)
        → agreed_value enough events ≡ Some v
        → IsBuilt enough start events v }
{}

/// The laws of `agrees_on_one_value` for weighted majorities, without a premise.
pub fn majorities_agree<V>()
    ensures value { (weights : List ℕ) (events : List (Event V))
        → let enough = is_majority weights in
        IsValue enough (run enough events start) (agreed_value enough events) }
    ensures stays { (weights : List ℕ) (early late : List (Event V)) (v : V)
        → agreed_value (is_majority weights) early ≡ Some v
        → agreed_value (is_majority weights) (early ++ late) ≡ Some v }
    ensures held { (weights : List ℕ) (events : List (Event V)) (i : ℕ) (v : V)
        → ((run (is_majority weights) events start).members i).held ≡ Some v
        → agreed_value (is_majority weights) events ≡ Some v }
    ensures built { (weights : List ℕ) (events : List (Event V)) (v : V)
        → agreed_value (is_majority weights) events ≡ Some v
        → IsBuilt (is_majority weights) start events v }
{}

/// After every list of events a member's facts are those that its notes restore, so a member may
/// forget everything except its notes. If a member holds the value, it has no open claim. A value
/// that is held is held for good.
pub fn notes_restore_facts<V>()
    ensures restored { (enough : Quorums) (events : List (Event V)) (i : ℕ)
        → facts_of ((run enough events start).members i)
        ≡ restored ((run enough events start).logs i) }
    ensures closed { (enough : Quorums) (events : List (Event V)) (i : ℕ) (v : V)
        → ((run enough events start).members i).held ≡ Some v
        → ((run enough events start).members i).stage ≡ Closed }
    ensures stays { (enough : Quorums) (early late : List (Event V)) (i : ℕ) (v : V)
        → ((run enough early start).members i).held ≡ Some v
        → ((run enough (early ++ late) start).members i).held ≡ Some v }
{}

/// A step changes a member's facts only by what it notes, whatever the input or message. A member
/// that holds the value has no open claim, and has none after the step.
pub fn steps_are_noted<V>()
    ensures message { (enough : Quorums) (x : Member V)
        → IsClosedWhereHeld x.held x.stage
        → (i : ℕ) (message : Message V)
        → IsNoted V x (on_message enough i x message) }
    ensures input { (enough : Quorums) (x : Member V)
        → IsClosedWhereHeld x.held x.stage
        → (i : ℕ) (sent : List (Message V)) (input : Input V)
        → IfSome (answer enough i x sent input) (IsNoted V x) }
{}

/// Three members do agree, even if one takes over from another.
pub fn members_do_agree()
    ensures plain { agreed_value (is_majority three) plain ≡ Some 7 }
    ensures held { ((run (is_majority three) plain start).members 2).held ≡ Some 7 }
    ensures not_before { agreed_value (is_majority three) (take 7 plain) ≡ None }
    ensures taken_over { agreed_value (is_majority three) taken_over ≡ Some 7 }
{}

/// What a careless member would get wrong, at certain claims and values.
pub fn members_are_careful()
    ensures no_vote_below_the_promise { let x = bound_to (claim 2 1) None Closed in
        on_propose 3 x (ballot (claim 2 0) 7) ≡ says x (Nay 3 (claim 2 0) (Some (claim 2 1))) }
    ensures no_promise_below_the_promise { let x = bound_to (claim 2 1) None Closed in
        on_offer 3 x (claim 2 0) ≡ says x (Nay 3 (claim 2 0) (Some (claim 2 1))) }
    ensures no_promise_after_the_vote { let vote = ballot (claim 2 1) 7 in
        let x = bound_to (claim 2 1) (Some vote) Closed in
        on_offer 3 x (claim 2 1) ≡ says x (Nay 3 (claim 2 1) (Some (claim 2 1))) }
    ensures bound_by_its_vote { let x = bound_to (claim 1 0) None Closed in
        (on_propose 3 x (ballot (claim 2 1) 7)).member.promised ≡ Some (claim 2 1) }
    ensures no_vote_twice { let x = bound_to (claim 2 1) (Some (ballot (claim 2 1) 7)) Closed in
        on_propose 3 x (ballot (claim 2 1) 7) ≡ says x (Vote 3 (claim 2 1)) }
    ensures no_count_twice { let once = with_member nobody 2 in
        let x = bound_to (claim 1 0) None (Voting (ballot (claim 1 0) 7) once) in
        on_vote (is_majority three) x x.stage 2 (claim 1 0)
        ≡ still (record x { stage = Voting (ballot (claim 1 0) 7) (with_member once 2) }) }
    ensures greatest_report { (a b c : ℕ)
        → kept_report
        (kept_report (Some (ballot (claim 1 2) a)) (Some (ballot (claim 1 2) b)))
        (Some (ballot (claim 2 0) c))
        ≡ Some (ballot (claim 2 0) c) }
    ensures reported_value_again { let two = claim 2 1 in
        let x = bound_to two None (Gathering two (with_member nobody 1) None) in
        let report = Some (ballot (claim 1 0) 7) in
        let promise : PromiseOf ℕ = record { member = 2; claim = two; report = report } in
        on_promise (is_majority three) x x.stage promise
        ≡ says (record x { stage = Voting (ballot two 7) nobody }) (Propose (ballot two 7)) }
    ensures new_round_each_time { let x = bound_to (claim 1 0) None Closed in
        on_start 0 x None 0
        ≡ Some (notes_and_says
        (record x { opened = 2; stage = Gathering (claim 2 0) nobody None })
        (Opened 2)
        (Offer (claim 2 0))) }
    ensures first_of_equal_reports { (a b : ℕ)
        → kept_report (Some (ballot (claim 1 2) a)) (Some (ballot (claim 1 2) b))
        ≡ Some (ballot (claim 1 2) a) }
    ensures restored { (a b : ℕ)
        → let vote = ballot (claim 1 0) a in
        let late = Held b ∷ Held a ∷ Promised (claim 1 1) ∷ [] in
        restored (late ++ Voted vote ∷ Promised (claim 1 0) ∷ Opened 1 ∷ [])
        ≡ record { opened = 1; promised = Some (claim 1 1); voted = Some vote; held = Some a } }
{}

//! Why a node can catch up if it asks only for what it shows as queued: if it lacks anything of the
//! agreed list, something that it lacks is queued there.
ghost use Rattle.laws.specs.Missing.{
  ClaimedIsQueued,
  FirstMissingIsQueued,
  StandsBehindItsNeeds,
  WhatIsMissingIsQueued,
};
ghost use Rattle.one_list.specs.MatchingLaws.{InEachRun};

/// At each moment of a run, a unit for which a node has an open claim is queued there. Each package
/// of the agreed list comes after everything that its unit's build needs, and after everything that
/// these need to run. So the first package of the list that a node lacks is queued there, with its
/// whole unit, of which the node holds nothing; and a node that lacks any package of the list lacks
/// one that is queued.
pub fn what_is_missing_is_queued()
    ensures claimed { InEachRun (λ last early w. ClaimedIsQueued w) }
    ensures behind { InEachRun (λ last early w. StandsBehindItsNeeds w) }
    ensures first { InEachRun (λ last early w. FirstMissingIsQueued w) }
    ensures some { InEachRun (λ last early w. WhatIsMissingIsQueued w) }
{}

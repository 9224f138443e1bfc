//! How events of a world correspond to acts of the agreement theory, and what follows for a world
//! that matches its acts.
ghost use Rattle.std.specs.Prelude.{All};
ghost use Rattle.one_list.specs.MatchingLaws.{
  EachEventIsAnAct,
  EachEventKeepsLocal,
  EachRunHasOneList,
  EachRunIsActs,
  InEachRun,
  MatchedHeadersAreEqual,
  MatchedHeldIsListed,
  MatchedIsNotForeign,
  MatchedVotesAreLawful,
  MatchedVotesAreNoted,
  NeedsAreMonotone,
  SentWasSaid,
};
ghost use Rattle.one_list.specs.Lost.{AnythingMayBeLeft};
ghost use Rattle.world.specs.Headline.{
  AllFit,
  AreRecords,
  AuditSaysYes,
  HasOneAPath,
  HeldIsListed,
  HoldAlike,
  InstallableIsHeld,
  IsBeginningOf,
  WasBuilt,
};
ghost use Rattle.world.specs.Laws.{
  EachHappensOrIsRefused,
  EachStepHasAList,
  EventsLeadToOneWorld,
  NothingSentIsForeign,
  OneAnswer,
  OneWorldFollows,
};
ghost use Rattle.one_list.specs.Safety.{
  EachIsOfAMessage,
  EqualHeaders,
  JobsStood,
  LaterRepeats,
  OneProposal,
  PromisesBound,
  SentVotesAreNoted,
};

/// Holding more builds never makes a build's dependencies unmet.
pub fn needs_are_monotone()
    ensures { NeedsAreMonotone }
{}

/// Each event is one act of the agreements or none, and preserves the invariant of nodes. So each
/// run corresponds to a list of acts.
pub fn events_are_acts()
    ensures acts { EachEventIsAnAct }
    ensures local { EachEventKeepsLocal }
    ensures runs { EachRunIsActs }
{}

/// A message of which all datagrams were sent was said by a member. Two such messages are equal if
/// pieces of theirs have equal headers, and no node refuses anything sent as foreign.
pub fn sent_was_said()
    ensures said { SentWasSaid }
    ensures headers { MatchedHeadersAreEqual }
    ensures foreign { MatchedIsNotForeign }
{}

/// Votes are lawful, those that were sent were noted, and what nodes hold is in the list.
pub fn matched_worlds_are_safe()
    ensures votes { MatchedVotesAreLawful }
    ensures noted { MatchedVotesAreNoted }
    ensures held { MatchedHeldIsListed }
{}

/// In a reachable world each event happens or is refused, provided that the host that it names has
/// 16 bits. It leaves at most one world. An event that happens is not refused, none is refused with
/// two faults, and none as foreign. There is a next list after each step that a node takes. So from
/// the start, events lead to one world.
pub fn events_have_one_answer()
    ensures world { OneWorldFollows }
    ensures run { EventsLeadToOneWorld }
    ensures list { EachStepHasAList }
    ensures either { EachHappensOrIsRefused }
    ensures answer { OneAnswer }
    ensures foreign { NothingSentIsForeign }
{}

/// For every list of events, at every point, there is one list of packages. It only grows, and it
/// has at most one package for each path. Each package was built by a host under a claim for its
/// unit, after every dependency in its signature was in the list with exactly that signature. Every
/// package that a node holds is in the list, and if a node shows a path as installable, it holds
/// the path's run closure. So two nodes never hold different packages for one path, at the same
/// point or at different ones.
pub fn worlds_have_one_list()
    ensures grows { InEachRun (λ last early w. IsBeginningOf w.agreed last.agreed) }
    ensures one_a_path { InEachRun (λ last early w. HasOneAPath w) }
    ensures built { InEachRun
        (λ last early w. All (WasBuilt last.division last.weights early) w.agreed) }
    ensures records { InEachRun (λ last early w. AreRecords w) }
    ensures fits { InEachRun (λ last early w. AllFit w) }
    ensures held { InEachRun (λ last early w. HeldIsListed w) }
    ensures alike { InEachRun (λ last early w. HoldAlike w last) }
    ensures installable { InEachRun (λ last early w. InstallableIsHeld w) }
    ensures allowed { InEachRun (λ last early w. AuditSaysYes w) }

    // Why that is so.
    ensures one_proposal { InEachRun (λ last early w. OneProposal w) }
    ensures promises_bound { InEachRun (λ last early w. PromisesBound w) }
    ensures votes_noted { InEachRun (λ last early w. SentVotesAreNoted w) }
    ensures later_repeats { InEachRun (λ last early w. LaterRepeats w) }
    ensures jobs_stood { InEachRun
        (λ last early w. JobsStood last.division last.weights early w) }
    ensures equal_headers { InEachRun (λ last early w. EqualHeaders w × EachIsOfAMessage w) }

    // All of it, by the names of two definitions.
    ensures together { EachRunHasOneList }
{}

/// Suppose that nodes went down inside steps, that these stops left nothing of their notes, and
/// that the nodes never start again. Then the stops might as well have left anything: the changed
/// events lead to a world with one list as well, which differs only in nodes that are down.
pub fn anything_may_be_left()
    ensures { AnythingMayBeLeft }
{}

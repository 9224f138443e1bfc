//! Laws of members, for every input.
ghost use Rattle.protocol.specs.Laws.{
  BuildsAreOfTheirUnit,
  BuildsStandOnWhatIsHeld,
  ClaimsWaitOncePromised,
  ClaimsWereReady,
  HeldRecordsStay,
  InputsAreAnsweredAsInTheTheory,
  JobsAreOfOpenClaims,
  JobsHaveAllTheyNeed,
  JobsStay,
  MembersStayMembers,
  MessagesAreAnsweredAsInTheTheory,
  NotesRestoreFacts,
  OnlyOneAnswerIsRight,
  WaitingClaimsHaveJobs,
};

/// Each input has one answer, and it leaves a valid member.
pub fn members_answer()
    ensures one { OnlyOneAnswerIsRight }
    ensures member { MembersStayMembers }
{}

/// A member answers as the theory's member does for the unit, and what is said there is sent.
pub fn members_follow_the_theory()
    ensures inputs { InputsAreAnsweredAsInTheTheory }
    ensures messages { MessagesAreAnsweredAsInTheTheory }
{}

/// Notes restore what a member knows, and a member holds for good what it holds.
pub fn notes_restore_members()
    ensures restored { NotesRestoreFacts }
    ensures held { HeldRecordsStay }
{}

/// A job belongs to an open claim, and is given first when a promise of that claim is received. It
/// depends only on what is held, has all that its build needs, and stays the same while the claim
/// waits for a build. What is built from it is a build of the claim's unit.
pub fn jobs_stay()
    ensures given { JobsAreOfOpenClaims }
    ensures stay { JobsStay }
    ensures waiting { WaitingClaimsHaveJobs }
    ensures promised { ClaimsWaitOncePromised }
    ensures ready { ClaimsWereReady }
    ensures signed { BuildsStandOnWhatIsHeld }
    ensures needed { JobsHaveAllTheyNeed }
    ensures builds { BuildsAreOfTheirUnit }
{}

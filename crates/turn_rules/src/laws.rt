//! Laws of the choice.
ghost use Rattle.turn_rules.specs.Laws.{AnswersWhatIsMade, NothingMade, OnlyOneChoice, SomeChoice};

/// Law: there is exactly one choice.
pub fn there_is_one_choice()
    ensures only_one { OnlyOneChoice }
    ensures some { SomeChoice }
{}

/// Law: if nothing is made yet, no node answers a job.
pub fn nobody_answers_what_is_not_made()
    ensures { NothingMade }
{}

/// Law: if a node answers a job, something is made for it, whatever its initiative and whatever is
/// received.
pub fn what_is_answered_is_made()
    ensures { AnswersWhatIsMade }
{}

//! Laws of printed lists of packages.
ghost use Rattle.dpbr_run.specs.ListLaws.{PrintedListsAreRead};

/// Law: the text that `list_text` makes of packages is read as the list of their entries. So an
/// audit accepts printed lists as input.
#[tactic(auto, using(crate::proofs::ReadAgain::printed_is_read))]
pub fn printed_lists_are_read()
    ensures { PrintedListsAreRead }
{}

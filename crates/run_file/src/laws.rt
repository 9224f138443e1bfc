//! Laws of run files and logs.
ghost use Rattle.run_file.specs.Found.{FreshHasNoNotes};
ghost use Rattle.run_file.specs.RunFile.{TellsRunsApart};

/// Law: a run file's text determines the listing, the weights and the member, and the key as far as
/// its fingerprint does.
pub fn runs_are_told_apart()
    ensures { TellsRunsApart }
{}

/// Law: a file that is found as long as a log without notes has none.
pub fn fresh_logs_have_no_notes()
    ensures { FreshHasNoNotes }
{}

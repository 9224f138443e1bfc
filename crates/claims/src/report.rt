//! The report that is kept.
ghost use Rattle.std.specs.Prelude.{◌≡◌};
ghost use Rattle.std.specs.Option.{option_copied};
ghost use Rattle.claims.specs.Votes.{kept_report, report_of};

use crate::Claim;

/// Of two reports of votes, the one with the greater claim; the first one if the claims are equal.
pub fn keep<'a, V>(
    kept: Option<&'a (Claim, V)>,
    report: Option<&'a (Claim, V)>,
) -> Option<&'a (Claim, V)>
    ensures { report_of (option_copied result)
        ≡ kept_report
        (report_of (option_copied kept.entry))
        (report_of (option_copied report.entry)) }
{
    match (kept, report) {
        (Some(first), Some(second)) => if second.0 > first.0 {
            Some(second)
        } else {
            Some(first)
        },
        (Some(first), None) => Some(first),
        (None, second) => second,
    }
}

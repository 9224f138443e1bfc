//! The text of `dpbr audit`.
ghost use Rattle.std.specs.Prelude.{◌≡◌, ◌⊎◌, IfErr, IfOk, string_bytes};
ghost use Rattle.package_lists.specs.List.{IsFirstBadLine};
ghost use Rattle.dpbr_audit.specs.Audit.{IsVerdictOn, no_line, reason_text, status_of, verdict_line};

use auditing::{Reason, Verdict, audit};
use listing::Tree;
use package_lists::{ListFault, read_list};
use std::alloc::{AllocError, Global};

/// The verdict on the list of packages in the text.
pub fn audit_list(alloc: Global, tree: &Tree, list: &[u8]) -> Result<Verdict, ListFault>
    ensures ok { IfOk result (IsVerdictOn tree.now list.now) }
    ensures refused { IfErr result (λ e. (e ≡ ListFault.Memory) ⊎ IsFirstBadLine list.now e) }
{
    let entries = read_list(alloc, list)?;
    let verdict = audit(alloc, tree, entries.as_slice())?;
    Ok(verdict)
}

/// The verdict as a line.
pub fn verdict_text(alloc: Global, verdict: Verdict) -> Result<String, AllocError>
    ensures { IfOk result (λ text. string_bytes text ≡ verdict_line verdict) }
{
    match verdict {
        Verdict::Yes => String::from_str(alloc, "yes\n"),
        Verdict::No { package, reason } => no_text(alloc, package, reason_words(reason)),
    }
}

fn no_text(alloc: Global, number: u64, reason: &str) -> Result<String, AllocError>
    ensures { IfOk result (λ text. string_bytes text ≡ no_line number reason.now) }
{
    format!(in alloc; "no: package {number}: {reason}\n")
}

fn reason_words(reason: Reason) -> &'static str
    ensures { result.now ≡ reason_text reason }
{
    match reason {
        Reason::Unlisted => "unlisted",
        Reason::Ignored => "ignored",
        Reason::OtherName => "other name",
        Reason::PathTwice => "path twice",
        Reason::OtherDependencies => "other dependencies",
        Reason::DependencyNotEarlier => "dependency not earlier",
    }
}

/// The exit status after a verdict.
pub fn status_after(verdict: Verdict) -> u8
    ensures { result ≡ status_of verdict }
{
    match verdict {
        Verdict::Yes => 0,
        Verdict::No { .. } => 3,
    }
}

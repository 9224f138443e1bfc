//! How a node finds its log.
ghost use Rattle.std.specs.Prelude.{◌≡◌, IfErr, IfOk, option_map, string_bytes};
ghost use Rattle.run_file.specs.Looking.{IsOwn};
ghost use Rattle.dpbn_node.specs.Keys.{shown_of};
ghost use Rattle.dpbn_node.specs.Starts.{IsStartRefusal, owner};
ghost use Rattle.program_io.specs.Refusals.{IsSystemRefusal};
ghost use Rattle.run_file.specs.Starts.{IsStarted};

use crate::sealing::Sealing;
use arrayvec::ArrayVec;
use ballots::Weights;
use listing::Tree;
use program_io::Refusal;
use run_file::{LogFolder, Start, start_on, write_run};
use stable_record::Identity;
use std::alloc::Global;

/// Finds what the member's node starts on, in this folder, in which only its owner may write.
/// Nothing is written to a file yet.
///
/// # Errors
///
/// - The system's refusal, also if the log is locked.
/// - Others may write in the folder.
/// - The log can't be read; it is lost, or belongs to another run; or it is missing although the
///   run is continued.
pub fn start_of<F: LogFolder>(
    alloc: Global,
    folder: &F,
    identity: &Identity,
    sealing: &Sealing,
    is_continued: bool,
) -> Result<Start, Refusal>
    ensures own { IfOk result (λ _. IsOwn (F.had_mode folder.now)) }
    ensures started { IfOk result (λ s. IsStarted (F.gave folder.now identity.now.me)
        (F.known folder.now identity.now.me) identity.now (shown_of sealing.now.key) is_continued
        s.disk (option_map string_bytes s.unwritten)) }
    ensures refused { IfErr result (IsStartRefusal (F.had_mode folder.now)
        (F.gave folder.now identity.now.me) identity.now (shown_of sealing.now.key)
        is_continued) }
{
    let shown = sealing.shown();
    match start_on(alloc, folder, identity, shown.as_ref(), is_continued) {
        Ok(start) => Ok(start),
        Err(fault) => Err(Refusal::of(&fault)),
    }
}

/// The owner of the log: this member, among members with these weights, over the tree.
pub fn identity_of(tree: &Tree, weights: &Weights, me: u8) -> Identity
    ensures { result ≡ owner tree.now weights.now me }
{
    let _count = weights.len();
    let mut table = ArrayVec::new();
    table.try_extend_from_slice(weights.as_slice()).unwrap();
    Identity {
        tree: tree.digest(),
        weights: table,
        me,
    }
}

/// Writes the member's run file, if it isn't written yet.
///
/// # Errors
///
/// The system's refusal.
pub fn write_unwritten(
    rt: &HostRuntime,
    folder: &str,
    me: u8,
    unwritten: Option<String>,
) -> Result<(), Refusal>
    ensures { IfErr result IsSystemRefusal }
{
    let Some(text) = unwritten else {
        return Ok(());
    };
    match write_run(rt, folder, me, text.as_bytes()) {
        Ok(()) => Ok(()),
        Err(fault) => Err(Refusal::of(&fault)),
    }
}

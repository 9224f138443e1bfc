//! Opens a node on a file.
ghost use Rattle.std.specs.Prelude.{◌≡◌, ◌≢◌, ◌<◌, ◌≤◌, IfErr, IfOk, MatchResult, Ok, OnOk, false, is_some, length, map};
ghost use Rattle.ballots.specs.Weights.{AreWeights};
ghost use Rattle.protocol.specs.Answers.{tree_digest};
ghost use Rattle.stable_record.specs.Crash.{AllAlong};
ghost use Rattle.stable_record.specs.Faults.{HasRisen};
ghost use Rattle.stable_record.specs.History.{seen};
ghost use Rattle.stable_record.specs.Log.{gate_place, note_of};
ghost use Rattle.stable_record.specs.Opening.{HasOneAnswer, Opens, OpensAsLeft};
ghost use Rattle.node.specs.Calls.{AreNotes, IsOpenFault, IsOpened, IsUntouched, OpensAsOne};
ghost use Rattle.node.specs.OnLog.{IsOnLog, identity, identity_of, texts_of};
ghost use Rattle.engine.specs.Division.{number_named};
ghost use Rattle.node.specs.inside.Opening.{IsNew, IsNoteFault, IsOver, IsReadBy, told_by, unread_by};

use crate::noted::Noted;
use crate::{Node, NodeFault};
use arrayvec::ArrayVec;
use ballots::{Note, Weights};
use engine::{Tree, Units};
use member::Member;
use stable_record::{Disk, Identity, Log, LogFault};
use std::alloc::Global;
use wire::{WireFault, decode_note};

impl<'a, D: Disk> Node<'a, D> {
    /// Opens a node in the state that the file's notes restore. Without notes it knows nothing yet.
    /// It has no open claim, and no pieces. `weights` has one weight for each member, and `me` is
    /// the number of this one.
    ///
    /// # Errors
    ///
    /// `Memory`, and those of `Log::open`. `NotALog` also if a note of the file is malformed, or
    /// isn't about a unit. The disk is returned with the error.
    pub fn open(
        alloc: Global,
        disk: D,
        tree: &'a Tree,
        weights: &Weights,
        me: u8,
    ) -> Result<Node<'a, D>, (NodeFault, D)>
        requires { me < length weights.now }
        // The node is in the state that the file's notes restore.
        ensures node { IfOk result (λ n. IsOpened tree.entry.now weights.now me n.node) }
        ensures notes { IfOk result (λ n. D.is_kept n.log.disk
            → Opens (identity_of n.node.member) (seen (D.history disk))
            (Ok (texts_of n.node.notes))) }
        ensures on_log { IfOk result (λ n. D.is_kept n.log.disk → IsOnLog D.history n) }

        // The bytes of a file determine its notes, so it can't open as others.
        ensures one_answer { OnOk result (HasOneAnswer (identity tree.entry.now weights.now me)) }

        // A file opens in one way only: one that is not a log, or is another member's, doesn't open
        // as a node, and has one refusal.
        ensures one_node { MatchResult result
            (λ _. OpensAsOne tree.entry.now weights.now me)
            (λ e. e.0 ≢ NodeFault.Memory → OpensAsOne tree.entry.now weights.now me) }

        // Whatever the call returns, a crash at any moment leaves notes that a crash at the start
        // could leave.
        ensures any_moment { IfOk result (λ n. D.is_kept n.log.disk
            → AllAlong (OpensAsLeft (identity_of n.node.member) (D.history disk))
            (D.history disk) (D.history n.log.disk)) }
        ensures any_moment_err { IfErr result (λ e. D.is_kept e.1
            → AllAlong (OpensAsLeft (identity tree.entry.now weights.now me) (D.history disk))
            (D.history disk) (D.history e.1)) }

        // Each refusal has its cause, and a file that is not a log of this member is left
        // unchanged.
        ensures refused { IfErr result (λ e. D.is_kept e.1
            → IsOpenFault tree.entry.now weights.now me (seen (D.history disk)) e.0) }
        ensures untouched { IfErr result (λ e. D.is_kept e.1
            → IsUntouched tree.entry.now weights.now me e.0 (D.history disk) (D.history e.1)) }
        ensures device { IfErr result (λ e. e.0 ≡ NodeFault.Log LogFault.Device
            → HasRisen (D.failures_of disk) (D.failures_of e.1)) }

        // What was stated of the disk before still holds.
        ensures kept { MatchResult result (λ n. D.is_kept n.log.disk → D.is_kept disk)
            (λ e. D.is_kept e.1 → D.is_kept disk) }
        ensures later { MatchResult result (λ n. D.failures_of disk ≤ D.failures_of n.log.disk)
            (λ e. D.failures_of disk ≤ D.failures_of e.1) }
    {
        Node::open_with_digest(alloc, disk, tree, &tree.digest(), weights, me)
    }

    /// As `open`, for a tree whose digest is known.
    ///
    /// # Errors
    ///
    /// As `open`.
    pub fn open_with_digest(
        alloc: Global,
        disk: D,
        tree: &'a Tree,
        digest: &[u8; 32],
        weights: &Weights,
        me: u8,
    ) -> Result<Node<'a, D>, (NodeFault, D)>
        requires member { me < length weights.now }
        requires digest { digest.now ≡ tree_digest tree.now }
        // The node is in the state that the file's notes restore.
        ensures node { IfOk result (λ n. IsOpened tree.entry.now weights.now me n.node) }
        ensures notes { IfOk result (λ n. D.is_kept n.log.disk
            → Opens (identity_of n.node.member) (seen (D.history disk))
            (Ok (texts_of n.node.notes))) }
        ensures on_log { IfOk result (λ n. D.is_kept n.log.disk → IsOnLog D.history n) }

        // The bytes of a file determine its notes, so it can't open as others.
        ensures one_answer { OnOk result (HasOneAnswer (identity tree.entry.now weights.now me)) }

        // A file opens in one way only: one that is not a log, or is another member's, doesn't open
        // as a node, and has one refusal.
        ensures one_node { MatchResult result
            (λ _. OpensAsOne tree.entry.now weights.now me)
            (λ e. e.0 ≢ NodeFault.Memory → OpensAsOne tree.entry.now weights.now me) }

        // Whatever the call returns, a crash at any moment leaves notes that a crash at the start
        // could leave.
        ensures any_moment { IfOk result (λ n. D.is_kept n.log.disk
            → AllAlong (OpensAsLeft (identity_of n.node.member) (D.history disk))
            (D.history disk) (D.history n.log.disk)) }
        ensures any_moment_err { IfErr result (λ e. D.is_kept e.1
            → AllAlong (OpensAsLeft (identity tree.entry.now weights.now me) (D.history disk))
            (D.history disk) (D.history e.1)) }

        // Each refusal has its cause, and a file that is not a log of this member is left
        // unchanged.
        ensures refused { IfErr result (λ e. D.is_kept e.1
            → IsOpenFault tree.entry.now weights.now me (seen (D.history disk)) e.0) }
        ensures untouched { IfErr result (λ e. D.is_kept e.1
            → IsUntouched tree.entry.now weights.now me e.0 (D.history disk) (D.history e.1)) }
        ensures device { IfErr result (λ e. e.0 ≡ NodeFault.Log LogFault.Device
            → HasRisen (D.failures_of disk) (D.failures_of e.1)) }

        // What was stated of the disk before still holds.
        ensures kept { MatchResult result (λ n. D.is_kept n.log.disk → D.is_kept disk)
            (λ e. D.is_kept e.1 → D.is_kept disk) }
        ensures later { MatchResult result (λ n. D.failures_of disk ≤ D.failures_of n.log.disk)
            (λ e. D.failures_of disk ≤ D.failures_of e.1) }
    {
        let Ok(member) = Member::with_digest(alloc, tree, digest, weights, me) else {
            return Err((NodeFault::Memory, disk));
        };
        let owner = owner(&member);
        match Log::open(alloc, disk, &owner) {
            Ok((log, texts)) => over(alloc, member, log, texts.as_slice()),
            Err((fault, disk)) => {
                drop(member);
                Err((told(fault), disk))
            }
        }
    }
}

/// The node over a log whose notes have these texts, for a member that knows nothing yet.
fn over<'a, D: Disk>(
    alloc: Global,
    member: Member<'a>,
    log: Log<D>,
    texts: &[Vec<u8>],
) -> Result<Node<'a, D>, (NodeFault, D)>
    requires member { IsNew member }
    requires log { log.stopped ≡ false }
    requires owner { log.identity ≡ identity_of member }
    requires end { log.end ≡ gate_place log.identity (map note_of texts.now) }
    ensures node { IfOk result (λ n. IsOver member.entry (map note_of texts.now) n.node) }
    ensures log { IfOk result (λ n. n.log ≡ log) }
    ensures refused { IfErr result
        (λ e. IsNoteFault member.entry.division (map note_of texts.now) e.0) }
    ensures disk { IfErr result (λ e. e.1 ≡ log.disk) }
{
    match all_notes(alloc, member.units(), texts) {
        Ok((notes, noted)) => {
            let mut member = member;
            member.restore(notes);
            Ok(Node {
                member,
                log,
                noted,
                pieces: Vec::new(alloc),
                stopped: false,
            })
        }
        Err(fault) => {
            drop(member);
            Err((fault, log.into_disk()))
        }
    }
}

/// The identity of this member's log.
fn owner(member: &Member<'_>) -> Identity
    ensures identity { result ≡ identity_of member.now }
    ensures weights { AreWeights member.now.weights }
{
    let mut table = ArrayVec::new();
    table
        .try_extend_from_slice(member.weights().as_slice())
        .unwrap();
    Identity {
        tree: *member.tree_digest(),
        weights: table,
        me: member.me(),
    }
}

/// The node's refusal if the log refuses with this fault.
pub(crate) fn told(fault: LogFault) -> NodeFault
    ensures { result ≡ told_by fault }
{
    match fault {
        LogFault::Memory => NodeFault::Memory,
        other => NodeFault::Log(other),
    }
}

/// The notes with these texts, each about a unit.
fn all_notes(
    alloc: Global,
    units: &Units<'_>,
    texts: &[Vec<u8>],
) -> Result<(Vec<Note>, Noted), NodeFault>
    ensures notes { IfOk result (λ r. AreNotes units.now (map note_of texts.now) r.0.items) }
    ensures texts { IfOk result (λ r. r.1.texts ≡ map note_of texts.now) }
    ensures bad { IfErr result (IsNoteFault units.now (map note_of texts.now)) }
{
    let mut notes = Vec::with_capacity(alloc, texts.len())?;
    let mut noted = Noted::new();
    for text in texts {
        notes.push(note(alloc, units, text.as_slice())?)?;
        noted.note(text.as_slice());
    }
    Ok((notes, noted))
}

/// The note with this text, about a unit.
fn note(alloc: Global, units: &Units<'_>, text: &[u8]) -> Result<Note, NodeFault>
    ensures { IsReadBy units.now text.now result }
{
    let note = match decode_note(alloc, text) {
        Ok(note) => note,
        Err(fault) => return Err(unread(fault)),
    };
    if is_unit(units, &note) {
        Ok(note)
    } else {
        Err(NodeFault::Log(LogFault::NotALog))
    }
}

/// The node's refusal if a text of its log is not that of a note.
fn unread(fault: WireFault) -> NodeFault
    ensures { result ≡ unread_by fault }
{
    match fault {
        WireFault::Memory => NodeFault::Memory,
        _ => NodeFault::Log(LogFault::NotALog),
    }
}

/// Whether the note names a unit.
fn is_unit(units: &Units<'_>, note: &Note) -> bool
    ensures { result ≡ is_some (number_named units.now note.now.path) }
{
    match units.find(&note.path) {
        Some(unit) => units.name(unit) == &note.path,
        None => false,
    }
}

//! The end of a node's step: its note is written to the log, and then the step is taken.
ghost use Rattle.std.specs.Prelude.{◌≡◌, ◌+◌, ◌≤◌, ◌<◌, ◌⊎◌, IfErr, IfOk, IsErrOf, List, OnErr, OnOk, ℕ, false, true, vec_capacity, vec_len};
ghost use Rattle.std.specs.Option.{ForSome, option_copied};
ghost use Rattle.member.specs.Prepared.{MayBeTaken};
ghost use Rattle.stable_record.specs.Faults.{HasRisen};
ghost use Rattle.stable_record.specs.OpenLog.{Holds};
ghost use Rattle.node.specs.Calls.{HasTaken, IsLogCause};
ghost use Rattle.node.specs.OnLog.{IsOnLog, LacksRoom, LeavesOneMoreAtMost};
ghost use Rattle.node.specs.Parcels.{datagrams_to};
ghost use Rattle.node.specs.Step.{IsReadyFor, answer_then, changed, note_in, sends_in, taken_by};
ghost use Rattle.node.specs.inside.Stepping.{GoesOnWith, HasRoomForText, IsNoteCause, LacksRoomFor, committed, entry_len, is_device, with_text};

use crate::kept::{change_kept, make_room};
use crate::noted::Noted;
use crate::opening::told;
use crate::{Effects, Node, NodeFault, PreparedStep};
use claims::Job;
use member::{Member, MemberStep};
use protocol::Outcome;
use stable_record::{Disk, Log, LogFault};
use wire::Piece;

impl<'a, D: Disk> Node<'a, D> {
    /// Takes a step that was made ready in the present state. First its note is written to the log.
    /// Once that is on the disk, its datagrams and its job are returned. After `Device` nothing is
    /// given out, and the node is `Stopped` until it is opened again. After any other refusal
    /// nothing has changed.
    ///
    /// # Errors
    ///
    /// `Memory`, and those of `Log::append`.
    pub fn finish(&mut self, ready: PreparedStep) -> Result<Effects, NodeFault>
        requires present { IsReadyFor self.old.node ready }
        ensures taken { IfOk result
            (HasTaken self.old.node self.new.node (taken_by self.old.node ready)) }
        ensures on_log { D.is_kept self.new.log.disk → IsOnLog D.history self.old
            → OnOk result (IsOnLog D.history self.new) }

        // A crash at any moment of the call, and after it, leaves the previous notes, either with
        // or without the step's note.
        ensures any_moment { D.is_kept self.new.log.disk → IsOnLog D.history self.old
            → LeavesOneMoreAtMost self.old.node (note_in ready.step)
            (D.history self.old.log.disk) (D.history self.new.log.disk) }

        // What was stated of the disk before still holds, so that calls can follow one another.
        ensures kept { D.is_kept self.new.log.disk → D.is_kept self.old.log.disk }
        ensures later { D.failures_of self.old.log.disk ≤ D.failures_of self.new.log.disk }

        // Each refusal has its cause. The clauses say how it leaves the node and the log.
        ensures causes { IfErr result (IsLogCause self.old.log (note_in ready.step)) }
        ensures within { OnOk result (¬ (LacksRoom self.old.log (note_in ready.step))) }
        ensures full { LacksRoom self.old.log (note_in ready.step)
            → IsErrOf result NodeFault.Memory ⊎ IsErrOf result (NodeFault.Log LogFault.Full) }
        ensures device { IsErrOf result (NodeFault.Log LogFault.Device)
            → HasRisen (D.failures_of self.old.log.disk) (D.failures_of self.new.log.disk) }
        ensures stops { IsErrOf result (NodeFault.Log LogFault.Device)
            → self.new.node ≡ record self.old.node { stopped = true } }
        ensures refused { IfErr result (λ f. (f ≡ NodeFault.Log LogFault.Device)
            ⊎ (self.new.node ≡ self.old.node)) }
        ensures still_on_log { D.is_kept self.new.log.disk → IsOnLog D.history self.old
            → IfErr result (λ f. (f ≡ NodeFault.Log LogFault.Device)
            ⊎ (IsOnLog D.history self.new
            × (D.history self.new.log.disk ≡ D.history self.old.log.disk))) }
    {
        if let Err(memory) = make_room(&mut self.pieces) {
            drop(ready);
            return Err(NodeFault::from(memory));
        }
        let note = ready.note();
        match write_note(&mut self.log, &mut self.noted, &mut self.stopped, note) {
            Ok(()) => Ok(take(&mut self.member, &mut self.pieces, ready)),
            Err(fault) => {
                drop(ready);
                Err(fault)
            }
        }
    }
}

/// Writes the step's note, if there is one, to the log of a node that is not stopped. If the device
/// fails, the node stops.
fn write_note<D: Disk>(
    log: &mut Log<D>,
    noted: &mut Noted,
    stopped: &mut bool,
    note: Option<&[u8]>,
) -> Result<(), NodeFault>
    requires node_runs { stopped.old ≡ false }
    requires log_runs { log.old.stopped ≡ false }
    ensures noted { OnOk result
        (noted.new.texts ≡ with_text noted.old.texts (option_copied note.entry)) }
    ensures not_noted { OnErr result (noted.new.texts ≡ noted.old.texts) }
    ensures acknowledged { D.is_kept log.new.disk → (texts : List (List ℕ))
        → Holds D.history log.old texts
        → OnOk result (Holds D.history log.new (with_text texts (option_copied note.entry))) }
    ensures any_moment { D.is_kept log.new.disk → (texts : List (List ℕ))
        → Holds D.history log.old texts
        → GoesOnWith log.old.identity texts (option_copied note.entry) (D.history log.old.disk)
        (D.history log.new.disk) }
    ensures kept { D.is_kept log.new.disk → D.is_kept log.old.disk }
    ensures later { D.failures_of log.old.disk ≤ D.failures_of log.new.disk }
    ensures owner { log.new.identity ≡ log.old.identity }
    ensures end { OnOk result
        (log.new.end ≡ log.old.end + entry_len (option_copied note.entry)) }
    ensures same_end { OnErr result (log.new.end ≡ log.old.end) }
    ensures causes { IfErr result (IsNoteCause log.old (option_copied note.entry)) }
    ensures within { OnOk result (¬ (LacksRoomFor log.old (option_copied note.entry))) }
    ensures is_full { LacksRoomFor log.old (option_copied note.entry)
        → IsErrOf result (NodeFault.Log LogFault.Full) }
    ensures device { IsErrOf result (NodeFault.Log LogFault.Device)
        → HasRisen (D.failures_of log.old.disk) (D.failures_of log.new.disk) }
    ensures together { log.new.stopped ≡ stopped.new }
    ensures goes_on { OnOk result (stopped.new ≡ false) }
    ensures stops { IsErrOf result (NodeFault.Log LogFault.Device) → stopped.new ≡ true }
    ensures stays { IfErr result (λ f. (f ≡ NodeFault.Log LogFault.Device)
        ⊎ (stopped.new ≡ false)) }
    ensures refused { D.is_kept log.new.disk → (texts : List (List ℕ))
        → Holds D.history log.old texts
        → IfErr result (λ f. (f ≡ NodeFault.Log LogFault.Device)
        ⊎ (Holds D.history log.new texts
        × (D.history log.new.disk ≡ D.history log.old.disk))) }
{
    match write(log, noted, note) {
        Ok(()) => Ok(()),
        Err(fault) => {
            *stopped = is_device(fault);
            Err(told(fault))
        }
    }
}

/// Appends the note to the log, if there is one. After `Ok` it is on the disk.
fn write<D: Disk>(log: &mut Log<D>, noted: &mut Noted, note: Option<&[u8]>) -> Result<(), LogFault>
    ensures noted { OnOk result
        (noted.new.texts ≡ with_text noted.old.texts (option_copied note.entry)) }
    ensures not_noted { OnErr result (noted.new.texts ≡ noted.old.texts) }
    ensures acknowledged { D.is_kept log.new.disk → (texts : List (List ℕ))
        → Holds D.history log.old texts
        → OnOk result (Holds D.history log.new (with_text texts (option_copied note.entry))) }
    ensures any_moment { D.is_kept log.new.disk → (texts : List (List ℕ))
        → Holds D.history log.old texts
        → GoesOnWith log.old.identity texts (option_copied note.entry) (D.history log.old.disk)
        (D.history log.new.disk) }
    ensures kept { D.is_kept log.new.disk → D.is_kept log.old.disk }
    ensures later { D.failures_of log.old.disk ≤ D.failures_of log.new.disk }
    ensures owner { log.new.identity ≡ log.old.identity }
    ensures end { OnOk result
        (log.new.end ≡ log.old.end + entry_len (option_copied note.entry)) }
    ensures same_end { OnErr result (log.new.end ≡ log.old.end) }
    ensures full { IsErrOf result LogFault.Full → LacksRoomFor log.old (option_copied note.entry) }
    ensures within { OnOk result (¬ (LacksRoomFor log.old (option_copied note.entry))) }
    ensures is_full { log.old.stopped ≡ false → LacksRoomFor log.old (option_copied note.entry)
        → IsErrOf result LogFault.Full }
    ensures room { IsErrOf result LogFault.Device
        → HasRoomForText log.old (option_copied note.entry) }
    ensures device { IsErrOf result LogFault.Device
        → HasRisen (D.failures_of log.old.disk) (D.failures_of log.new.disk) }
    ensures stopped { IsErrOf result LogFault.MustReopen → log.old.stopped ≡ true }
    ensures no_opening { IsErrOf result LogFault.NotALog ⊎ IsErrOf result LogFault.OtherCluster
        → ⊥ }
    ensures stops { IsErrOf result LogFault.Device → log.new.stopped ≡ true }
    ensures goes_on { log.new.stopped ≡ true
        → log.old.stopped ≡ true ⊎ IsErrOf result LogFault.Device }
    ensures refused { D.is_kept log.new.disk → (texts : List (List ℕ))
        → Holds D.history log.old texts
        → IsErrOf result LogFault.Memory ⊎ IsErrOf result LogFault.Full
        → Holds D.history log.new texts × (D.history log.new.disk ≡ D.history log.old.disk) }
{
    if let Some(text) = note {
        log.append(text)?;
        noted.note(text);
    }
    Ok(())
}

/// Takes a step whose note is on the disk. Does not allocate.
fn take(member: &mut Member<'_>, pieces: &mut Vec<Piece>, ready: PreparedStep) -> Effects
    requires room { vec_len pieces.old < vec_capacity pieces.old }
    requires step { ForSome ready.step (MayBeTaken member.old) }
    ensures member { member.new ≡ committed member.old ready.step }
    ensures pieces { pieces.new.items ≡ changed ready.change pieces.old.items }
    ensures sends { result.sends ≡ datagrams_to (sends_in ready.step) }
    ensures job { result.job ≡ (answer_then member.old ready.step).job }
{
    let (step, sends, change) = ready.apart();
    change_kept(pieces, change);
    let job = commit(member, step);
    Effects { sends, job }
}

/// Takes the member's part of a step, if it has one. Does not allocate.
fn commit(member: &mut Member<'_>, step: Option<MemberStep>) -> Option<Job>
    requires { ForSome step (MayBeTaken member.old) }
    ensures member { member.new ≡ committed member.old step }
    ensures job { result ≡ (answer_then member.old step).job }
{
    match step {
        Some(step) => {
            let Outcome { note, sends, job } = member.commit(step);
            drop(note);
            drop(sends);
            job
        }
        None => None,
    }
}

/// Whether it is a fault of the device, which stops a node.
fn is_device(fault: LogFault) -> bool
    ensures { result ≡ is_device fault }
{
    match fault {
        LogFault::Device => true,
        _ => false,
    }
}

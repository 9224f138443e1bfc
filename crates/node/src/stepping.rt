//! The steps of a node.
ghost use Rattle.std.specs.Prelude.{◌≡◌, ◌≤◌, ◌<◌, ◌⊎◌, IfErr, IfOk, IsErrOf, OnOk, true};
ghost use Rattle.faults.specs.Answers.{map_ok};
ghost use Rattle.protocol.specs.Step as members;
ghost use Rattle.stable_record.specs.Faults.{HasRisen};
ghost use Rattle.wire.specs.Joining.{bytes_of};
ghost use Rattle.wire.specs.Messages.{IsGoodBody};
ghost use Rattle.wire.specs.Pieces.{IsPiece};
ghost use Rattle.wire.specs.Reading.{joined as message_of};
ghost use Rattle.node.specs.Arrival.{arrival_of_all, arrival_of_piece, refusal_of};
ghost use Rattle.node.specs.Calls.{HasFilled, HasHandled, HasPrepared, IsCause, LeavesItsNoteAtMost, left_by};
ghost use Rattle.node.specs.Kept.{with_piece, without};
ghost use Rattle.node.specs.OnLog.{IsOnLog};
ghost use Rattle.node.specs.Ranges.{IsGoodInput};
ghost use Rattle.node.specs.Step.{Comes, Does, IsReadyFor, changed, heard, taken_by};
ghost use Rattle.node.specs.inside.Stepping.{AreKept, ComesAs, IsPrepared, MakesReady, dropped_by, foreign_by, refused_by, strange_by};

use crate::kept::{drop_pieces, has_number, is_last, joined, known_build, test_header};
use crate::{Change, Effects, Foreign, Node, NodeFault, PreparedStep};
use ballots::Message;
use member::Input;
use protocol::Refusal;
use stable_record::{Disk, LogFault};
use wire::{Datagram, Header, Piece, WireFault, decode};

impl<'a, D: Disk> Node<'a, D> {
    /// Makes the step on an input ready: allocates all that it needs, and changes nothing.
    ///
    /// # Errors
    ///
    /// `Stopped`; else `Memory`, or the member's refusal.
    pub fn prepare(&mut self, input: Input) -> Result<PreparedStep, NodeFault>
        requires message { IsGoodInput input }
        ensures step { HasPrepared self.old.node self.new.node (Does input)
            (map_ok (taken_by self.old.node) result) }
        ensures ready { IfOk result (IsReadyFor self.new.node) }
        ensures same { self.new ≡ self.old }
        ensures stopped { self.old.node.stopped ≡ true → IsErrOf result NodeFault.Stopped }
    {
        if self.stopped {
            drop(input);
            return Err(NodeFault::Stopped);
        }
        match self.prepare_input(input, Change::Stays) {
            Ok(ready) => Ok(ready),
            Err(refusal) => Err(refused(refusal)),
        }
    }

    /// Makes the step on received bytes ready. Changes nothing, except that pieces which don't join
    /// to a message are dropped.
    ///
    /// # Errors
    ///
    /// `Stopped`; else `Memory`, or `Foreign` with the reason.
    pub fn prepare_datagram(&mut self, bytes: &[u8]) -> Result<PreparedStep, NodeFault>
        ensures step { HasPrepared self.old.node self.new.node (Comes bytes.now)
            (map_ok (taken_by self.old.node) result) }
        ensures ready { IfOk result (IsReadyFor self.new.node) }
        ensures log { self.new.log ≡ self.old.log }
        ensures same { OnOk result (self.new ≡ self.old) }
        ensures stopped { self.old.node.stopped ≡ true
            → IsErrOf result NodeFault.Stopped × (self.new ≡ self.old) }
    {
        if self.stopped {
            return Err(NodeFault::Stopped);
        }
        match decode(self.allocator(), bytes) {
            Ok(Datagram::Whole(message)) => self.prepare_message(message, Change::Stays),
            Ok(Datagram::Piece(piece)) => self.prepare_piece(piece),
            Err(fault) => Err(strange(fault)),
        }
    }

    /// Makes the step on an input ready, with this change of the pieces.
    fn prepare_input(&mut self, input: Input, change: Change) -> Result<PreparedStep, Refusal>
        requires message { IsGoodInput input }
        requires pieces { AreKept self.old.node.member (changed change self.old.node.pieces) }
        ensures step { IsPrepared self.old.node input change result }
        ensures same { self.new ≡ self.old }
    {
        let alloc = self.allocator();
        let step = match self.member.prepare(input) {
            Ok(step) => step,
            Err(refusal) => {
                drop(change);
                return Err(refusal);
            }
        };
        Ok(PreparedStep::of(alloc, step, change)?)
    }

    /// Makes the step on a received message ready, with this change of the pieces.
    fn prepare_message(
        &mut self,
        message: Message,
        change: Change,
    ) -> Result<PreparedStep, NodeFault>
        requires message { IsGoodBody message.path message.body }
        requires pieces { AreKept self.old.node.member (changed change self.old.node.pieces) }
        ensures step { MakesReady self.old.node
            (heard (changed change self.old.node.pieces)
            (members.heard self.old.node.member message)) result }
        ensures same { self.new ≡ self.old }
    {
        match self.prepare_input(Input::Message(message), change) {
            Ok(ready) => Ok(ready),
            Err(refusal) => Err(foreign(refusal)),
        }
    }

    /// Makes the step on a received piece ready. Its header is tested first.
    fn prepare_piece(&mut self, piece: Piece) -> Result<PreparedStep, NodeFault>
        requires { IsPiece piece }
        ensures step { ComesAs self.old.node self.new.node
            (arrival_of_piece self.old.node.pieces piece
            (refusal_of self.old.node.member piece.header)) result }
        ensures log { self.new.log ≡ self.old.log }
    {
        if let Err(refusal) = test_header(&self.member, &piece.header) {
            drop(piece);
            return Err(foreign(refusal));
        }
        if has_number(self.pieces.as_slice(), &piece.header, piece.number) {
            Ok(PreparedStep::waiting(self.allocator(), Change::Stays))
        } else if is_last(self.pieces.as_slice(), &piece) {
            self.prepare_joined(piece)
        } else {
            Ok(PreparedStep::waiting(self.allocator(), Change::Keeps(piece)))
        }
    }

    /// Makes the step on a message ready whose last missing piece was received.
    fn prepare_joined(&mut self, piece: Piece) -> Result<PreparedStep, NodeFault>
        requires { IsPiece piece }
        ensures step { ComesAs self.old.node self.new.node
            (arrival_of_all (without piece.header self.old.node.pieces)
            (message_of piece.header (bytes_of piece.header
            (with_piece self.old.node.pieces piece)))) result }
        ensures log { self.new.log ≡ self.old.log }
    {
        let header = piece.header.copy()?;
        let known = known_build(&self.member, &header);
        match joined(&mut self.pieces, piece, known) {
            Ok(message) => self.prepare_message(message, Change::Drops(header)),
            Err(fault) => Err(self.drop_strange(&header, fault)),
        }
    }

    /// The refusal if the pieces of a message don't join to one. They are dropped, unless memory
    /// ran out.
    fn drop_strange(&mut self, header: &Header, fault: WireFault) -> NodeFault
        ensures fault { result ≡ strange_by fault }
        ensures node { self.new.node ≡ dropped_by self.old.node header.now fault }
        ensures log { self.new.log ≡ self.old.log }
    {
        match fault {
            WireFault::Memory => NodeFault::Memory,
            other => {
                drop_pieces(&mut self.pieces, header);
                NodeFault::Foreign(Foreign::Bytes(other))
            }
        }
    }

    /// Takes the step on an input: `prepare`, and then `finish`.
    ///
    /// # Errors
    ///
    /// Those of both.
    pub fn handle(&mut self, input: Input) -> Result<Effects, NodeFault>
        requires message { IsGoodInput input }
        ensures taken { IfOk result (HasHandled self.old.node self.new.node (Does input)) }
        ensures on_log { D.is_kept self.new.log.disk → IsOnLog D.history self.old
            → OnOk result (IsOnLog D.history self.new) }

        // A crash at any moment of the call, and after it, leaves the previous notes, either with
        // or without the step's note.
        ensures any_moment { D.is_kept self.new.log.disk → IsOnLog D.history self.old
            → LeavesItsNoteAtMost self.old.node (Does input) (D.history self.old.log.disk)
            (D.history self.new.log.disk) }

        // What was stated of the disk before still holds, so that calls can follow one another.
        ensures kept { D.is_kept self.new.log.disk → D.is_kept self.old.log.disk }
        ensures later { D.failures_of self.old.log.disk ≤ D.failures_of self.new.log.disk }

        // Each refusal has its cause. Unless the device failed, it leaves the node and the log
        // unchanged.
        ensures causes { IfErr result (IsCause self.old (Does input)) }
        ensures full { HasFilled self.old (Does input)
            → IsErrOf result NodeFault.Memory ⊎ IsErrOf result (NodeFault.Log LogFault.Full) }
        ensures left { IfErr result (λ f. self.new.node ≡ left_by self.old.node (Does input) f) }
        ensures still_on_log { D.is_kept self.new.log.disk → IsOnLog D.history self.old
            → IfErr result (λ f. (f ≡ NodeFault.Log LogFault.Device)
            ⊎ (IsOnLog D.history self.new
            × (D.history self.new.log.disk ≡ D.history self.old.log.disk))) }
        ensures device { IsErrOf result (NodeFault.Log LogFault.Device)
            → HasRisen (D.failures_of self.old.log.disk) (D.failures_of self.new.log.disk) }
        ensures stopped { self.old.node.stopped ≡ true
            → IsErrOf result NodeFault.Stopped × (self.new ≡ self.old) }
    {
        let ready = self.prepare(input)?;
        self.finish(ready)
    }

    /// Takes the step on received bytes: `prepare_datagram`, and then `finish`.
    ///
    /// # Errors
    ///
    /// Those of both.
    pub fn handle_datagram(&mut self, bytes: &[u8]) -> Result<Effects, NodeFault>
        ensures taken { IfOk result (HasHandled self.old.node self.new.node (Comes bytes.now)) }
        ensures on_log { D.is_kept self.new.log.disk → IsOnLog D.history self.old
            → OnOk result (IsOnLog D.history self.new) }

        // A crash at any moment of the call, and after it, leaves the previous notes, either with
        // or without the step's note.
        ensures any_moment { D.is_kept self.new.log.disk → IsOnLog D.history self.old
            → LeavesItsNoteAtMost self.old.node (Comes bytes.now) (D.history self.old.log.disk)
            (D.history self.new.log.disk) }

        // What was stated of the disk before still holds, so that calls can follow one another.
        ensures kept { D.is_kept self.new.log.disk → D.is_kept self.old.log.disk }
        ensures later { D.failures_of self.old.log.disk ≤ D.failures_of self.new.log.disk }

        // Each refusal has its cause. Unless the device failed, it leaves the node and the log
        // unchanged, except that pieces which don't join to a message are dropped.
        ensures causes { IfErr result (IsCause self.old (Comes bytes.now)) }
        ensures full { HasFilled self.old (Comes bytes.now)
            → IsErrOf result NodeFault.Memory ⊎ IsErrOf result (NodeFault.Log LogFault.Full) }
        ensures left { IfErr result
            (λ f. self.new.node ≡ left_by self.old.node (Comes bytes.now) f) }
        ensures still_on_log { D.is_kept self.new.log.disk → IsOnLog D.history self.old
            → IfErr result (λ f. (f ≡ NodeFault.Log LogFault.Device)
            ⊎ (IsOnLog D.history self.new
            × (D.history self.new.log.disk ≡ D.history self.old.log.disk))) }
        ensures device { IsErrOf result (NodeFault.Log LogFault.Device)
            → HasRisen (D.failures_of self.old.log.disk) (D.failures_of self.new.log.disk) }
        ensures stopped { self.old.node.stopped ≡ true
            → IsErrOf result NodeFault.Stopped × (self.new ≡ self.old) }
    {
        let ready = self.prepare_datagram(bytes)?;
        self.finish(ready)
    }
}

/// The refusal of an input that the member refuses.
fn refused(refusal: Refusal) -> NodeFault
    ensures { result ≡ refused_by refusal }
{
    match refusal {
        Refusal::Memory => NodeFault::Memory,
        other => NodeFault::Refused(other),
    }
}

/// The refusal of a message that the member refuses.
fn foreign(refusal: Refusal) -> NodeFault
    ensures { result ≡ foreign_by refusal }
{
    match refusal {
        Refusal::Memory => NodeFault::Memory,
        other => NodeFault::Foreign(Foreign::Message(other)),
    }
}

/// The refusal of bytes, or of pieces, that mean nothing.
fn strange(fault: WireFault) -> NodeFault
    ensures { result ≡ strange_by fault }
{
    match fault {
        WireFault::Memory => NodeFault::Memory,
        other => NodeFault::Foreign(Foreign::Bytes(other)),
    }
}

//! The work between a node's turns: its builds, its wishes, and what is printed about it.

use crate::ending::{Answers, Rest};
use crate::host::Builder;
use crate::pacing::Pacing;
use datagram_ports::Port;
use dpbn_node::{Act, Solo, Telling, TurnFault, front_of_requests};
use engine::Counts;
use job_folder::WorkFault;
use member::{Input, Member};
use program_io::Refusal;
use protocol::Packages;
use scheduler::{Desk, Look, Wish};
use stable_record::Disk;
use std::alloc::Global;
use std::io::Write;
use std::time::{Duration, Instant};
use udp::{Hurry, Tallies};

/// The most bytes of a log's file.
const MOST_BYTES: u64 = 2_147_483_648;

/// Above this many bytes the log is nearly full.
const NEARLY_FULL: u64 = MOST_BYTES / 10 * 9;

/// How often to check for the end and for builds to retry, in milliseconds.
const LOOK: u64 = 1_000;

/// The input of a turn.
#[derive(Drop)]
pub(crate) struct Handed {
    /// The result for the node's job, if there is one yet.
    pub made: Option<Packages>,
    /// The node's wish.
    pub wish: Option<Wish>,
    /// How long the turn waits for a datagram.
    pub hurry: Hurry,
}

/// The outcome of a turn.
#[derive(Drop)]
pub(crate) struct Turned {
    pub answer: Result<Option<Act>, TurnFault>,
    /// Whether the node had a wish.
    pub is_wished: bool,
    /// Whether datagrams were sent.
    pub has_sent: bool,
}

/// The work between a node's turns.
#[derive(Drop)]
pub struct Office<'f> {
    pub(crate) desk: Desk<'f>,
    pub(crate) pacing: Pacing,
    pub(crate) builder: Builder<'f>,
    pub(crate) rest: Rest,
    pub(crate) telling: Telling,
    /// Every how many seconds the node's line is printed, if at all.
    pub(crate) progress: Option<u32>,
    /// When it was printed last.
    pub(crate) told_at: Instant,
    /// When the last check for the end and for retries was.
    pub(crate) looked_at: Instant,
    /// Whether it was printed that the log is nearly full.
    pub(crate) is_full_told: bool,
}

impl<'f> Office<'f> {
    /// The input of the next turn. A fault of the work folder is printed, and then there is no
    /// input for a while.
    pub(crate) fn hand_in<D: Disk, P: Port, E: Write>(
        &mut self,
        rt: &HostRuntime,
        solo: &Solo<'_, D, P>,
        err: &mut E,
    ) -> Handed {
        self.pacing.look(rt);
        let (made, wish) = match self.looked(rt, solo, err) {
            Ok(found) => found,
            Err(fault) => {
                self.refuse(&fault, err);
                (None, None)
            }
        };
        let hurry = self.hurry(solo, wish.is_some());
        Handed { made, wish, hurry }
    }

    /// The result for the node's job, and the node's wish. A wish waits for a pause between
    /// datagrams, but not for long.
    fn looked<D: Disk, P: Port, E: Write>(
        &mut self,
        rt: &HostRuntime,
        solo: &Solo<'_, D, P>,
        err: &mut E,
    ) -> Result<(Option<Packages>, Option<Wish>), WorkFault> {
        if self.pacing.is_paused() {
            return Ok((None, None));
        }
        let now = self.pacing.now;
        let member = solo.node().member();
        if self.pacing.is_held_up() && !self.desk.is_hit(member) {
            return Ok((None, None));
        }
        self.desk.tick(member, now)?;
        self.look_at_host(rt, member, err)?;
        let made = self.made(rt, member, err)?;
        if made.is_some() {
            return Ok((made, None));
        }
        let wish = self.desk.wish(rt, member, solo.is_in_the_way(), now)?;
        Ok((made, self.unless_early(wish)))
    }

    /// The wish, unless it is a question and the notice of a failed build has to come first.
    fn unless_early(&self, wish: Option<Wish>) -> Option<Wish> {
        match wish {
            Some(Wish::Ask { .. }) if self.pacing.is_noticing() => None,
            wish => wish,
        }
    }

    /// The result for the member's job, if there is one. A malformed result is printed, and counts
    /// as a failed build.
    fn made<E: Write>(
        &mut self,
        rt: &HostRuntime,
        member: &Member<'_>,
        err: &mut E,
    ) -> Result<Option<Packages>, WorkFault> {
        match self.desk.look(rt, member)? {
            Look::NotYet => Ok(None),
            Look::Failed => Ok(Some(no_packages(rt.alloc()))),
            Look::Made(builds) => Ok(Some(builds)),
            Look::Bad(refusal) => {
                self.telling.refused(refusal, err);
                Ok(Some(no_packages(rt.alloc())))
            }
        }
    }

    /// How long the next turn waits if nothing comes. The first of these that applies:
    ///
    /// - as long as the port's patience says, before it claims although a greater claim is in the
    ///   way: nodes that claim the same unit must not wait equally long;
    /// - not at all, if the node has a wish;
    /// - if the node offers its claim again: a second if it did so lately, else as long as the
    ///   port's patience says;
    /// - not at all, if the last turn took a datagram;
    /// - else 20 ms, so that an answer in the work folder is seen soon.
    fn hurry<D: Disk, P: Port>(&self, solo: &Solo<'_, D, P>, is_wished: bool) -> Hurry {
        if is_wished && solo.is_in_the_way() && !self.pacing.is_late() {
            Hurry::Patient
        } else if is_wished {
            Hurry::Brief
        } else if !offers_again(solo) {
            self.hurry_idle()
        } else if self.pacing.is_too_soon() {
            Hurry::Slow
        } else if self.pacing.is_late() {
            Hurry::Brief
        } else {
            Hurry::Patient
        }
    }

    /// How long the next turn waits if the node has neither a wish nor an offer to repeat.
    fn hurry_idle(&self) -> Hurry {
        if self.pacing.is_busy() && !self.pacing.is_paused() {
            Hurry::Brief
        } else {
            Hurry::Steady
        }
    }

    /// Updates the state after a turn, and prints what is to be printed about it.
    pub(crate) fn keep<D: Disk, P: Port, E: Write>(
        &mut self,
        rt: &HostRuntime,
        solo: &Solo<'_, D, P>,
        turned: Turned,
        err: &mut E,
    ) {
        // a turn acts at its end, which may be a second after its start
        self.pacing.look(rt);
        let Turned {
            answer,
            is_wished,
            has_sent,
        } = turned;
        let mut has_moved = false;
        match answer {
            Ok(Some(Act::Datagram(bytes))) => {
                has_moved = has_sent && is_question(bytes.as_slice());
                self.pacing.took(true);
                self.keep_act(rt, solo.node().member(), &Act::Datagram(bytes), err);
            }
            Ok(Some(Act::Own(input))) => {
                self.pacing.took(false);
                self.pacing.did(&input, is_wished);
                has_moved = matches!(&input, Input::Built { .. } | Input::Failed { .. });
                self.keep_own(rt, solo.node().member(), input, err);
            }
            Ok(None) => self.pacing.took(false),
            Err(fault) => {
                self.telling.refused(Refusal::of(&fault), err);
                self.pacing.refused(&fault);
            }
        }
        let log_len = solo.node().log_len();
        let held = held_of(solo.counts());
        let answers = Answers::of(solo.node().member());
        self.rest
            .note(self.pacing.now, log_len, held, answers, has_moved);
        self.tell_fill(log_len, err);
    }

    /// Updates the state after a step of the node's own, and prints that a build failed.
    fn keep_own<E: Write>(
        &mut self,
        rt: &HostRuntime,
        member: &Member<'_>,
        input: Input,
        err: &mut E,
    ) {
        if let Input::Failed { path } = &input {
            let _ = err.write_all(b"dpbn: failed ");
            let _ = err.write_all(path.as_bytes());
            let _ = err.write_all(b"\n");
        }
        self.keep_act(rt, member, &Act::Own(input), err);
    }

    /// Updates the desk after a step of the node. A mark that couldn't be written is a fault, too:
    /// the build counts as failed all the same.
    fn keep_act<E: Write>(
        &mut self,
        rt: &HostRuntime,
        member: &Member<'_>,
        act: &Act,
        err: &mut E,
    ) {
        match self.desk.took(rt, member, act, self.pacing.now) {
            Ok(None) => {}
            Ok(Some(fault)) | Err(fault) => self.refuse(&fault, err),
        }
    }

    /// Whether the next check for the end and for retries is due.
    pub(crate) fn is_look_due(&mut self) -> bool {
        let is_due = self.pacing.now.duration_since(self.looked_at) >= Duration::from_millis(LOOK);
        if is_due {
            self.looked_at = self.pacing.now;
        }
        is_due
    }

    /// Forgets the failed builds whose marks are gone.
    pub(crate) fn retry<E: Write>(&mut self, rt: &HostRuntime, err: &mut E) {
        if self.pacing.is_paused() {
            return;
        }
        if let Err(fault) = self.desk.retry(rt) {
            self.refuse(&fault, err);
        }
    }

    /// Prints a fault of the work folder. The node has no wishes for a while.
    pub(crate) fn refuse<E: Write>(&mut self, fault: &WorkFault, err: &mut E) {
        self.telling.refused(Refusal::of(fault), err);
        self.pacing.pause();
    }

    /// Prints, once, that the log is nearly full.
    fn tell_fill<E: Write>(&mut self, log_len: u64, err: &mut E) {
        if log_len > NEARLY_FULL && !self.is_full_told {
            self.is_full_told = true;
            let _ = writeln!(err, "dpbn: the log has {log_len} of {MOST_BYTES} bytes");
        }
    }

    /// Prints the node's line, and then a line for each other member.
    pub(crate) fn tell_line<E: Write>(
        &mut self,
        alloc: Global,
        counts: Option<Counts>,
        seen: &Tallies,
        err: &mut E,
    ) {
        self.told_at = self.pacing.now;
        self.telling.tell_line(alloc, counts, seen, err);
    }

    /// Whether the node's line is due.
    pub(crate) fn is_due(&self) -> bool {
        match self.progress {
            Some(seconds) => {
                self.pacing.now.duration_since(self.told_at)
                    >= Duration::from_secs(u64::from(seconds))
            }
            None => false,
        }
    }
}

/// No packages: the result of a build that failed.
fn no_packages(alloc: Global) -> Packages {
    Packages::new(Vec::new(alloc))
}

/// Whether a node with nothing else to do offers its open claim again: the claim gathers promises
/// or has its build, and no greater claim is in its way.
fn offers_again<D: Disk, P: Port>(solo: &Solo<'_, D, P>) -> bool {
    let node = solo.node();
    node.open_claim().is_some() && node.member().job().is_none() && !solo.is_in_the_way()
}

/// The number of held packages in these counts.
fn held_of(counts: Option<Counts>) -> u64 {
    match counts {
        Some(counts) => u64::from(counts.i).saturating_add(u64::from(counts.b)),
        None => 0,
    }
}

/// Whether a datagram asks for a unit's agreed build.
fn is_question(bytes: &[u8]) -> bool {
    bytes.starts_with(&front_of_requests())
}

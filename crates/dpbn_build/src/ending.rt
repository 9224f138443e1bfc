//! When the node ends.
ghost use Rattle.std.specs.Prelude.{◌≡◌, is_some, true};
ghost use Rattle.dpbn_build.specs.Turns.{IsAtEnd};
ghost use Rattle.protocol.specs.Step.{job_of_claim};

use crate::office::Office;
use ballots::{Claimer, Tally};
use datagram_ports::Port;
use dpbn_node::Solo;
use member::Member;
use stable_record::Disk;
use std::io::Write;
use std::time::{Duration, Instant};

/// By how many seconds more than `--takeover` a unit may be left to other members before it is
/// claimed: the slots of nine members, and a question with its slot.
const SLOTS: u64 = 5;

/// The most members of a run.
const MOST_MEMBERS: u8 = 9;

/// How many members answered to the open claim.
#[derive(Clone, Copy)]
pub(crate) struct Answers {
    /// Those that promised, while the claim gathers promises.
    promises: u32,
    /// Those that voted, while it gathers votes.
    votes: u32,
}

impl Answers {
    /// Nobody answered.
    fn none() -> Answers {
        Answers {
            promises: 0,
            votes: 0,
        }
    }

    /// The answers to the member's open claim so far. A member that answers again isn't counted
    /// again.
    pub fn of(member: &Member<'_>) -> Answers {
        let Some(open) = member.open_claim() else {
            return Answers::none();
        };
        match &open.claimer {
            Claimer::Gathering { promised, .. } => Answers {
                promises: count_of(promised),
                votes: 0,
            },
            Claimer::Building { .. } => Answers::none(),
            Claimer::Voting { voted, .. } => Answers {
                promises: 0,
                votes: count_of(voted),
            },
        }
    }
}

/// How many members joined.
fn count_of(joined: &Tally) -> u32 {
    let mut count: u32 = 0;
    for member in 0..MOST_MEMBERS {
        if joined.has(member) {
            count = count.saturating_add(1);
        }
    }
    count
}

/// For how long nothing has happened.
#[derive(Clone, Copy)]
pub(crate) struct Rest {
    /// When something was last noted, when another member promised or voted, or when somebody who
    /// asked learned something.
    since: Instant,
    /// The log's length at that time, in bytes.
    log_len: u64,
    /// When something was last held, built, voted for or failed here, or somebody who asked learned
    /// something. This ignores notes and promises, because claims that are taken over again and
    /// again are noted and promised, too.
    moved_at: Instant,
    /// The number of held packages at that time.
    held: u64,
    /// The answers to the open claim after the last turn.
    answers: Answers,
    /// After how many seconds another member's unit is taken over.
    takeover: u32,
    /// How many members there are.
    members: u8,
}

impl Rest {
    /// Starts now.
    pub fn new(now: Instant, takeover: u32, members: u8) -> Rest {
        Rest {
            since: now,
            log_len: 0,
            moved_at: now,
            held: 0,
            answers: Answers::none(),
            takeover,
            members,
        }
    }

    /// Notes what the last turn left: the log's length, the number of held packages, and how many
    /// members answered to the open claim. `has_moved` says whether it answered a question or gave
    /// the node the result of its job.
    pub fn note(
        &mut self,
        now: Instant,
        log_len: u64,
        held: u64,
        answers: Answers,
        has_moved: bool,
    ) {
        let has_moved = has_moved || held != self.held || answers.votes > self.answers.votes;
        let is_promised = answers.promises > self.answers.promises;
        if has_moved {
            self.moved_at = now;
            self.held = held;
        }
        if has_moved || is_promised || log_len != self.log_len {
            self.since = now;
            self.log_len = log_len;
        }
        self.answers = answers;
    }

    /// Starts again, because something is being built here.
    fn begin_anew(&mut self, now: Instant) {
        self.since = now;
        self.moved_at = now;
    }

    /// Whether nothing was noted for this number of seconds.
    fn is_over(&self, now: Instant, seconds: u32) -> bool {
        now.duration_since(self.since) >= Duration::from_secs(u64::from(seconds))
    }

    /// Whether nothing moved for so long that each member in turn could have taken a unit over and
    /// then rested for this number of seconds.
    fn is_long_over(&self, now: Instant, seconds: u32) -> bool {
        let rests = u64::from(seconds).saturating_mul(u64::from(self.members));
        let left = u64::from(self.takeover).saturating_add(SLOTS);
        now.duration_since(self.moved_at) >= Duration::from_secs(rests.saturating_add(left))
    }
}

/// Whether the node ends: it is down, or it is at rest and `rest` says that it ends then.
pub(crate) fn is_at_end<D: Disk, P: Port, E: Write>(
    rt: &HostRuntime,
    solo: &Solo<'_, D, P>,
    office: &mut Office<'_>,
    rest: Option<u32>,
    err: &mut E,
) -> bool
    ensures ends { result ≡ true → IsAtEnd rest solo.now.node.node }
    ensures down { solo.now.node.node.stopped ≡ true → result ≡ true }
{
    if solo.node().is_stopped() {
        return true;
    }
    if !office.is_look_due() {
        return false;
    }
    office.retry(rt, err);
    let Some(seconds) = rest else {
        return false;
    };
    !waits_for_its_build(solo) && is_at_rest(rt, solo, office, seconds)
}

/// Whether the node's open claim waits for a build.
fn waits_for_its_build<D: Disk, P: Port>(solo: &Solo<'_, D, P>) -> bool
    ensures { result ≡ is_some (job_of_claim solo.now.node.node.member) }
{
    match solo.node().member().job() {
        Some(_) => true,
        None => false,
    }
}

/// Whether nothing is being built here, and either nothing happened for this number of seconds and
/// the node has nothing left to do, or nothing moved for so long that nothing will.
fn is_at_rest<D: Disk, P: Port>(
    rt: &HostRuntime,
    solo: &Solo<'_, D, P>,
    office: &mut Office<'_>,
    seconds: u32,
) -> bool {
    let now = office.pacing.now;
    if office.desk.is_building(rt, solo.node().member()) {
        office.rest.begin_anew(now);
        return false;
    }
    let is_over = office.rest.is_over(now, seconds) && is_done(solo, office);
    is_over || office.rest.is_long_over(now, seconds)
}

/// Whether the node has nothing left to do: its open claim gets no answers, or no job is out and
/// each queued unit failed here. A job with an answer must still be claimed anew. A claim that gave
/// way counts as none.
fn is_done<D: Disk, P: Port>(solo: &Solo<'_, D, P>, office: &Office<'_>) -> bool {
    let node = solo.node();
    if node.open_claim().is_some() && !solo.is_in_the_way() {
        return true;
    }
    office.desk.is_clear() && !office.desk.has_more(node.member())
}

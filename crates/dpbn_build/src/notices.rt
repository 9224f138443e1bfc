//! The notices of failed builds, which members exchange between their nodes' turns.
ghost use Rattle.std.specs.Prelude.{◌≡◌};
ghost use Rattle.dpbn_build.specs.Turns.{HasExchanged};

use crate::office::Office;
use crate::turning::BuildPort;
use datagram_ports::Port;
use dpbn_node::Solo;
use job_folder::WorkFault;
use member::Member;
use stable_record::Disk;
use std::io::Write;
use udp::Notice;

/// The most notices that are taken between two turns.
const MOST_AT_ONCE: u32 = 64;

/// Hands the notices that came to the desk, and sends the one that is due. Of the node only the
/// port changes.
pub(crate) fn exchange<D: Disk, P: Port + BuildPort, E: Write>(
    solo: &mut Solo<'_, D, P>,
    office: &mut Office<'_>,
    err: &mut E,
)
    ensures same { solo.new ≡ record solo.old { port = solo.new.port } }
    ensures exchanged { HasExchanged P.noticed solo.old.port solo.new.port }
{
    take_all(solo, office, err);
    let now = office.pacing.now;
    if let Some(unit) = office.desk.next_notice(now) {
        let member = solo.node().me();
        solo.port().send_notice(Notice { member, unit });
    }
}

/// Hands the notices that came to the desk.
fn take_all<D: Disk, P: Port + BuildPort, E: Write>(
    solo: &mut Solo<'_, D, P>,
    office: &mut Office<'_>,
    err: &mut E,
)
    ensures same { solo.new ≡ record solo.old { port = solo.new.port } }
    ensures exchanged { HasExchanged P.noticed solo.old.port solo.new.port }
{
    for _ in 0..MOST_AT_ONCE {
        let Some(notice) = solo.port().take_notice() else {
            return;
        };
        office.hear_notice(solo.node().member(), notice, err);
    }
}

impl Office<'_> {
    /// Hands a notice to the desk.
    fn hear_notice<E: Write>(&mut self, member: &Member<'_>, notice: Notice, err: &mut E) {
        let Notice { member: from, unit } = notice;
        if self.desk.hear_notice(member, from, unit).is_err() {
            self.refuse(&WorkFault::Memory, err);
        }
    }
}

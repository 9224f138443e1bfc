//! Laws of ports over UDP.
ghost use Rattle.udp.specs.Calls.{CallsLeaveWhatIsSent};
ghost use Rattle.udp.specs.Uses.{NoticesAreReadAsSent, UsesLeaveWhatIsSent};

use std::time::Clock;

/// Law: nothing leaves a port except what calls send. Whatever calls it went through, its
/// configuration and keys are unchanged. The texts handed over or queued are those from before and
/// those of the accepted sends to nodes of other processes, as they leave under the key, each once.
pub fn calls_leave_what_is_sent<C: Clock>()
    ensures { CallsLeaveWhatIsSent C }
{}

/// Law: nothing leaves a port except what its uses send. Its configuration, keys and listing are
/// unchanged. The texts handed over or queued are those from before, those of the accepted sends to
/// nodes of other processes, and those of the notices that were sent, as they leave under the key.
pub fn uses_leave_what_is_sent<C: Clock>()
    ensures { UsesLeaveWhatIsSent C }
{}

/// Law: under one key, the bytes that encode a notice encode no other notice, and none about
/// another listing. So a notice that one port sends is read by another one as that notice or not at
/// all.
pub fn notices_are_read_as_sent()
    ensures { NoticesAreReadAsSent }
{
    seals::texts_are_told_apart();
}

//! Laws of ports.
ghost use Rattle.datagram_ports.specs.Calls.{CallsGoOn};
ghost use Rattle.datagram_ports.specs.InMemory.{CallsLeaveWaiting};

use crate::Port;

/// Law: a port that went through these calls and then through more went through both.
pub fn calls_go_on<P: Port>()
    ensures { CallsGoOn P.does }
{}

/// Law: the calls that a port in memory went through determine its queue, and so what the next
/// receives return.
pub fn calls_leave_waiting()
    ensures { CallsLeaveWaiting }
{}

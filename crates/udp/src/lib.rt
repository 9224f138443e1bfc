//! A port over UDP, through which the nodes of a process reach those of others.
#![tactic(auto)]

mod addresses;
mod guard;
mod hosts;
mod inbox;
mod laws;
mod line;
mod notice;
mod notices;
mod outbox;
mod patience;
mod requests;
mod sockets;
mod tallies;
mod udp_port;

pub use crate::addresses::loopback;
pub use crate::guard::Guard;
pub use crate::hosts::{HostsFault, parse_hosts};
pub use crate::laws::{
    calls_leave_what_is_sent, notices_are_read_as_sent, uses_leave_what_is_sent,
};
pub use crate::notice::Notice;
pub use crate::patience::Hurry;
pub use crate::tallies::{Tallies, Tally};
pub use crate::udp_port::UdpPort;

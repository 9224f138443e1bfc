//! What `dpbn node` does: one member's node runs on its log and hears its peers over UDP. Also what
//! each run of a node needs: its key, its peers, the log on which it starts, and its messages.
#![tactic(auto)]

mod answering;
mod given;
mod identity;
mod laws;
mod repeats;
mod sealing;
mod starting;
mod telling;
mod turning;

pub use crate::answering::{line_of, node_of_words, run_from_start};
pub use crate::given::{Given, given_of_words, log_of_file, weights_of_words};
pub use crate::identity::{identity_of, start_of, write_unwritten};
pub use crate::laws::faults_are_counted;
pub use crate::repeats::{Repeated, Repeats};
pub use crate::sealing::{Sealing, front_of_requests, key_of_words};
pub use crate::starting::{Begun, Place, begin, open, place_of_words, solo_on_log};
pub use crate::telling::Telling;
pub use crate::turning::run;
pub use datagram_ports::{MemPort, Port};
pub use dpbn_key::SystemKeys;
pub use lone_node::{Act, Initiative, Solo, TurnFault};
pub use udp::UdpPort;

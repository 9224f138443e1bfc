//! The command `dpbn build`: one member's node runs on its log and talks to its peers over UDP. A
//! builder that watches the work folder builds what it claims. `dpbn node` is passed on.
#![tactic(auto)]

mod answering;
mod ending;
mod host;
mod notices;
mod office;
mod pacing;
mod turning;
mod work_folder;

pub use crate::answering::{build_from_start, build_of_words, has_notes, office_of};
pub use crate::office::Office;
pub use crate::turning::run;
pub use dpbn_node::{MemPort, Port, Solo, UdpPort, node_of_words};

//! What `dpbr run` does: it runs the events of a trace over a listing, and prints the state of the
//! nodes and the agreed list afterwards. It can print a line for each event first.
#![tactic(auto)]

mod events;
mod files;
mod laws;
mod lines;
mod text;
mod texts;

pub use crate::files::run_of_files;
pub use crate::laws::printed_lists_are_read;
pub use crate::text::{run_of_trace, run_text};
pub use crate::texts::run_of_texts;
pub use simulator::{RunFault, World, run};

//! What the programs share: reading a listing, the status line of a node, printing an answer, and
//! reporting why they stop.
#![tactic(auto)]

mod answer;
mod named;
mod node_line;
mod printing;
mod refusal;
mod stop;
mod tree;

pub use crate::answer::Answer;
pub use crate::named::{NamedTexts, SystemFiles};
pub use crate::node_line::{counts_text, node_text};
pub use crate::printing::print;
pub use crate::refusal::Refusal;
pub use crate::stop::Stop;
pub use crate::tree::{tree_of_file, tree_of_name, tree_of_text};

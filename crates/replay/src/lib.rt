//! What `dpbr` does: the calls that its arguments make. Each has a crate of its own.
#![tactic(auto)]

mod calls;

pub use crate::calls::{dpbr_call, dpbr_main};
pub use dpbr_audit::{
    Entry, ListFault, Reason, Verdict, audit, audit_list, audit_of_texts, list_text,
    lists_and_faults, read_list, verdict_text,
};
pub use dpbr_cli::{Call, dpbr_words};
pub use dpbr_run::{
    RunFault, World, printed_lists_are_read, run, run_of_texts, run_of_trace, run_text,
};
pub use dpbr_status::{HeldFault, held_letters, status, status_of_texts};
pub use dpbr_wayon::{WayFault, way_of_events, way_on};
pub use program_io::{NamedTexts, Refusal, Stop, SystemFiles, tree_of_text};

//! The status line of a node.
ghost use Rattle.std.specs.Prelude.{◌≡◌, IfOk, string_bytes};
ghost use Rattle.program_io.specs.NodeLine.{counts_line, node_line};

use engine::Counts;
use std::alloc::{AllocError, Global};

/// The number of packages of each letter, as a line.
pub fn counts_text(alloc: Global, counts: Counts) -> Result<String, AllocError>
    ensures { IfOk result (λ text. string_bytes text ≡ counts_line counts) }
{
    let Counts {
        i,
        b,
        q,
        t,
        ignored,
    } = counts;
    format!(in alloc; "I={i} B={b} Q={q} T={t} !={ignored}\n")
}

/// The number of packages that have each letter at the node, or that it is down, as a line.
pub fn node_text(alloc: Global, node: u8, counts: Option<Counts>) -> Result<String, AllocError>
    ensures { IfOk result (λ text. string_bytes text ≡ node_line node counts) }
{
    match counts {
        Some(counts) => {
            let counts = counts_text(alloc, counts)?;
            format!(in alloc; "node {node}: {counts}")
        }
        None => format!(in alloc; "node {node}: down\n"),
    }
}

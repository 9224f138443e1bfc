//! Nodes that build a listing's packages together, on hosts or in one process.
#![tactic(auto)]

mod lines;

use crate::lines::Lines;
use cluster::dpbn_main;
use std::io::{ErrorKind, Write};
use std::process::ExitCode;
use std::{env, io};

fn main(rt: HostRuntime) -> ExitCode {
    let mut out = rt.stdout();
    let Ok(words) = words(&rt) else {
        let _ = writeln!(rt.stderr(), "dpbn: fault 1");
        return ExitCode::FAILURE;
    };
    let mut err = if runs_a_node(words.as_slice()) {
        Lines::that_never_wait(&rt)
    } else {
        Lines::Plain(rt.stderr())
    };
    let status = dpbn_main(&rt, words.as_slice(), &mut out, &mut err);
    ExitCode::from(status)
}

/// Whether these are the words of a node that runs until a signal ends it, or for many turns.
fn runs_a_node(words: &[String]) -> bool {
    match words.get(1) {
        Some(word) => word.as_str() == "node" || word.as_str() == "build",
        None => false,
    }
}

/// The arguments. If one isn't valid UTF-8, this is an empty list, which makes no call.
fn words(rt: &HostRuntime) -> io::Result<Vec<String>> {
    let args = match env::args(rt) {
        Ok(args) => args,
        Err(error) if error.kind() == ErrorKind::InvalidData => return Ok(Vec::new(rt.alloc())),
        Err(error) => return Err(error),
    };
    let words = args.collect(rt.alloc())?;
    Ok(words)
}

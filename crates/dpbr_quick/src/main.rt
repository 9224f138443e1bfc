//! Letters and audits of a bulk build of ports, from files: the calls of `dpbr` that need no node.
#![tactic(auto)]

use quick_calls::{SystemFiles, quick_main};
use std::io::{ErrorKind, Write};
use std::process::ExitCode;
use std::{env, io};

fn main(rt: HostRuntime) -> ExitCode {
    let mut out = rt.stdout();
    let mut err = rt.stderr();
    let Ok(words) = words(&rt) else {
        let _ = writeln!(err, "dpbr: fault 1");
        return ExitCode::FAILURE;
    };
    let status = quick_main(
        &SystemFiles::of(&rt),
        rt.alloc(),
        words.as_slice(),
        &mut out,
        &mut err,
    );
    ExitCode::from(status)
}

/// The arguments, of which the first is the name of the whole program, so that clap's texts name
/// that. If one isn't valid UTF-8, this is an empty list, which makes no call.
fn words(rt: &HostRuntime) -> io::Result<Vec<String>> {
    let args = match env::args(rt) {
        Ok(args) => args,
        Err(error) if error.kind() == ErrorKind::InvalidData => return Ok(Vec::new(rt.alloc())),
        Err(error) => return Err(error),
    };
    let mut words: Vec<String> = args.collect(rt.alloc())?;
    if let Some(name) = words.first_mut() {
        *name = String::from_str(rt.alloc(), "dpbr")?;
    }
    Ok(words)
}

//! The works of `dpbr` on made inputs, for benches. A work's texts are made in memory from the
//! seed, and no two are the same. The program prints the work's name, the digest of all answers,
//! and the first line of the last answer.
//!
//! `workloads WORK SEED PATHS TIMES` does one work: `status`, `audit`, `run`, `chain`, `again` or
//! `large`; `workloads all SEED PATHS TIMES` does each, one after the other.
#![tactic(auto)]

mod lives;
mod numbers;
mod results;
mod texts;
mod tree;
mod works;

use numbers::Numbers;
use results::Results;
use std::process::ExitCode;
use std::{env, io};
use works::Size;

const WORKS: [&str; 6] = ["status", "audit", "run", "chain", "again", "large"];

/// The most paths that a listing may have.
const MOST_PATHS: u32 = 16_384;

fn main(rt: HostRuntime) -> io::Result<ExitCode> {
    let words: Vec<String> = env::args(&rt)?.collect(rt.alloc())?;
    if let [_program, work, seed, paths, times] = words.as_slice()
        && let (Ok(seed), Some(size)) = (seed.parse(), size_of(paths, times))
    {
        return done(&rt, work, seed, size);
    }
    usage(&rt)
}

fn usage(rt: &HostRuntime) -> io::Result<ExitCode> {
    eprintln!(rt;
        "usage: workloads all | status | audit | run | chain | again | large SEED PATHS TIMES"
    )?;
    Ok(ExitCode::from(2))
}

fn size_of(paths: &str, times: &str) -> Option<Size> {
    let paths: u32 = paths.parse().ok()?;
    let times: u32 = times.parse().ok()?;
    if paths <= MOST_PATHS {
        Some(Size { paths, times })
    } else {
        None
    }
}

/// Does the works of that name.
fn done(rt: &HostRuntime, name: &str, seed: u32, size: Size) -> io::Result<ExitCode> {
    let mut status = 2;
    for work in WORKS {
        if name == work || name == "all" {
            status = told(rt, work, seed, size)?;
        }
    }
    Ok(ExitCode::from(status))
}

/// Does a work and tells what came of it.
fn told(rt: &HostRuntime, work: &str, seed: u32, size: Size) -> io::Result<u8> {
    let mut numbers = Numbers::new(u64::from(seed));
    let mut out = Results::new(rt.alloc());
    work_of(rt, work, &mut numbers, size, &mut out)?;
    match out.told() {
        Some(text) => {
            println!(rt; "{work} {text}")?;
            Ok(0)
        }
        None => Ok(1),
    }
}

fn work_of(
    rt: &HostRuntime,
    work: &str,
    numbers: &mut Numbers,
    size: Size,
    out: &mut Results,
) -> io::Result<()> {
    match work {
        "status" => works::status(rt.alloc(), numbers, size, out),
        "audit" => works::audit(rt.alloc(), numbers, size, out),
        "run" => works::run(rt.alloc(), numbers, size, out),
        "chain" => works::chain(rt.alloc(), numbers, size, out),
        "again" => works::again(rt.alloc(), numbers, size, out),
        _ => works::large(rt.alloc(), numbers, size, out),
    }
}

//! Opens logs, appends to them, and prints the results.
//!
//! `log_probe PATH COUNT LENGTH` prints how many notes it found, how many of COUNT notes of LENGTH
//! bytes it appended, and the number of the refusal, if there was one. The path `-` means a disk in
//! memory; for that it also prints how many notes are left after a crash.
//!
//! `log_probe PATH TREE WEIGHTS ME` opens the log of a member, given the digest of the tree and the
//! weights in hexadecimal and the member's number. It prints each note in hexadecimal, or the
//! number of the refusal.
#![tactic(auto)]

mod own;

use faults::Fault;
use own::{owner, same_weights};
use stable_record::{Disk, FileDisk, Identity, Left, Log, MemDisk};
use std::process::ExitCode;
use std::{env, io};

/// The number for a file that can't be opened.
const UNREADABLE: u32 = 2;

fn main(rt: HostRuntime) -> io::Result<ExitCode> {
    let words: Vec<String> = env::args(&rt)?.collect(rt.alloc())?;
    match words.as_slice() {
        [_program, path, count, length] => appending(&rt, path, count, length),
        [_program, path, tree, weights, me] => match owner(rt.alloc(), tree, weights, me) {
            Some(identity) => told(&rt, path, &identity),
            None => usage(&rt),
        },
        _ => usage(&rt),
    }
}

fn usage(rt: &HostRuntime) -> io::Result<ExitCode> {
    eprintln!(rt; "usage: log_probe PATH COUNT LENGTH | log_probe PATH TREE WEIGHTS ME")?;
    Ok(ExitCode::from(2))
}

/// Appends this many notes of a length.
fn appending(rt: &HostRuntime, path: &str, count: &str, length: &str) -> io::Result<ExitCode> {
    let count: u32 = count.parse().unwrap_or(0);
    let length: u32 = length.parse().unwrap_or(0);
    let note = vec![in rt.alloc(); 7u8; length as usize]?;
    if path == "-" {
        in_memory(rt, note.as_slice(), count)
    } else {
        in_file(rt, path, note.as_slice(), count)
    }
}

/// Opens the log of a member, and prints its notes.
fn told(rt: &HostRuntime, path: &str, identity: &Identity) -> io::Result<ExitCode> {
    let Ok(disk) = disk_at(rt, path) else {
        return refused(rt, UNREADABLE);
    };
    match Log::open(rt.alloc(), disk, identity) {
        Ok((_log, notes)) => {
            for note in &notes {
                tell(rt, note)?;
            }
            Ok(ExitCode::from(0))
        }
        Err((fault, _disk)) => refused(rt, fault.number()),
    }
}

fn tell(rt: &HostRuntime, note: &[u8]) -> io::Result<()> {
    let text = hex::encode(rt.alloc(), note)?;
    println!(rt; "note {text}")
}

/// Appends to the log in a file.
fn in_file(rt: &HostRuntime, path: &str, note: &[u8], count: u32) -> io::Result<ExitCode> {
    let Ok(disk) = disk_at(rt, path) else {
        return refused(rt, UNREADABLE);
    };
    match Log::open(rt.alloc(), disk, &same_weights()) {
        Ok((log, notes)) => {
            let _disk = appended(rt, log, notes.len(), note, count)?;
            Ok(ExitCode::from(0))
        }
        Err((fault, _disk)) => refused(rt, fault.number()),
    }
}

fn disk_at(rt: &HostRuntime, path: &str) -> io::Result<FileDisk> {
    let file = FileDisk::open_file(rt, path)?;
    Ok(FileDisk::new(file))
}

/// Appends to a new log in memory, and opens what a crash leaves of it.
fn in_memory(rt: &HostRuntime, note: &[u8], count: u32) -> io::Result<ExitCode> {
    let disk = match MemDisk::new(rt.alloc(), &[]) {
        Ok(disk) => disk,
        Err(fault) => return refused(rt, fault.number()),
    };
    let disk = match Log::open(rt.alloc(), disk, &same_weights()) {
        Ok((log, notes)) => appended(rt, log, notes.len(), note, count)?,
        Err((fault, _disk)) => return refused(rt, fault.number()),
    };
    match Log::open(rt.alloc(), disk.crash(Left::Before), &same_weights()) {
        Ok((_log, notes)) => {
            println!(rt; "left {}", notes.len())?;
            Ok(ExitCode::from(0))
        }
        Err((fault, _disk)) => refused(rt, fault.number()),
    }
}

/// Prints how many notes were found, appends a note this many times or up to the first refusal, and
/// prints the result. Returns the disk.
fn appended<D: Disk>(
    rt: &HostRuntime,
    mut log: Log<D>,
    found: usize,
    note: &[u8],
    count: u32,
) -> io::Result<D> {
    println!(rt; "found {found}")?;
    let (appended, refusal) = append_all(&mut log, note, count);
    println!(rt; "appended {appended}")?;
    if let Some(number) = refusal {
        println!(rt; "refused {number}")?;
    }
    Ok(log.into_disk())
}

/// Prints the number of a refusal before anything is appended.
fn refused(rt: &HostRuntime, number: u32) -> io::Result<ExitCode> {
    println!(rt; "refused {number}")?;
    Ok(ExitCode::from(1))
}

/// Appends a note this many times, and stops at the first refusal.
fn append_all<D: Disk>(log: &mut Log<D>, note: &[u8], count: u32) -> (u32, Option<u32>) {
    for appended in 0..count {
        if let Err(fault) = log.append(note) {
            return (appended, Some(fault.number()));
        }
    }
    (count, None)
}

//! Lines on standard error.
use std::fs::{File, OpenOptions};
use std::io::{Stderr, Write};
use std::os::fd::OwnedFd;
use std::os::unix::fs::FileTypeExt;
use std::os::unix::net::UnixStream;
use std::{fs, io};

/// The name of standard error.
const STDERR: &str = "/dev/stderr";

/// Standard error.
#[derive(Drop)]
pub enum Lines {
    /// As it is: a write may wait.
    Plain(Stderr),
    /// A pipe that nobody waits for, and the line that is begun.
    Pipe { pipe: File, line: Vec<u8> },
}

impl Lines {
    /// Lines that don't wait for their reader if standard error is a pipe: one that doesn't fit is
    /// dropped. A write to a terminal or a socket can still wait.
    pub fn that_never_wait(rt: &HostRuntime) -> Lines {
        match open_pipe(rt) {
            Ok(Some(pipe)) => Lines::Pipe {
                pipe,
                line: Vec::new(rt.alloc()),
            },
            Ok(None) | Err(_) => Lines::Plain(rt.stderr()),
        }
    }
}

impl Write for Lines {
    fn write(&mut self, buf: &[u8]) -> io::Result<usize> {
        match self {
            Lines::Plain(stderr) => stderr.write(buf),
            Lines::Pipe { pipe, line } => {
                add(pipe, line, buf);
                Ok(buf.len())
            }
        }
    }

    fn flush(&mut self) -> io::Result<()> {
        match self {
            Lines::Plain(stderr) => stderr.flush(),
            Lines::Pipe { pipe, line } => {
                put(pipe, line);
                Ok(())
            }
        }
    }
}

/// Adds bytes to the line that is begun, and writes it if they end it. A line that doesn't fit into
/// the pipe, or for which there is no memory, is dropped.
fn add(pipe: &mut File, line: &mut Vec<u8>, bytes: &[u8]) {
    if line.extend_from_slice(bytes).is_err() {
        line.clear();
    } else if bytes.ends_with(b"\n") {
        put(pipe, line);
    }
}

/// Writes what is begun of a line, or drops it.
fn put(pipe: &mut File, line: &mut Vec<u8>) {
    let _ = pipe.write(line.as_slice());
    line.clear();
}

/// Standard error, opened once more so that no write waits, if it is a pipe.
fn open_pipe(rt: &HostRuntime) -> io::Result<Option<File>> {
    if !fs::metadata(rt, STDERR)?.file_type().is_fifo() {
        return Ok(None);
    }
    // While it is open for reading, opening it for writing doesn't wait for a reader.
    let mut both = OpenOptions::new();
    both.read(true).write(true);
    let held = both.open(rt, STDERR)?;
    let mut only = OpenOptions::new();
    only.write(true);
    let pipe = only.open(rt, STDERR)?;
    drop(held);
    // The flag is one of the opened file, which both descriptors share.
    let again = UnixStream::from(OwnedFd::from(pipe.try_clone()?));
    again.set_nonblocking(true)?;
    Ok(Some(pipe))
}

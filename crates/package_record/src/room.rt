//! How many bytes the text of a record takes, so that it can be allocated at once. Also how many
//! bytes its lines have besides their fields.

use crate::File;
use crate::fields::Fields;
use claims::{Dep, PkgPath};

/// The maximum number of bytes of the first five lines and the empty line, without the name and the
/// path.
const FRONT: usize = 77;

/// The number of bytes of a dependency's line, without its path and name.
pub const BUILT: usize = 74;

/// The number of bytes of the line of a path to run, without the path.
pub const RUN: usize = 6;

/// The maximum number of bytes of the three lines of a file, without its name.
const MOST_FILE: usize = 98;

/// The minimum number of bytes of these lines, without the name: those with a size of one digit.
pub const LEAST_FILE: usize = 79;

fn built_room(deps: &[Dep]) -> usize {
    let mut room: usize = 0;
    for dep in deps {
        room = room
            .saturating_add(BUILT)
            .saturating_add(dep.path.as_bytes().len())
            .saturating_add(dep.name.as_bytes().len());
    }
    room
}

fn run_room(paths: &[PkgPath]) -> usize {
    let mut room: usize = 0;
    for path in paths {
        room = room
            .saturating_add(RUN)
            .saturating_add(path.as_bytes().len());
    }
    room
}

fn lines_room(files: &[File]) -> usize {
    let mut room: usize = 0;
    for file in files {
        room = room
            .saturating_add(MOST_FILE)
            .saturating_add(file.name.len());
    }
    room
}

fn bodies_room(files: &[File]) -> usize {
    let mut room: usize = 0;
    for file in files {
        room = room.saturating_add(file.bytes.len());
    }
    room
}

/// Capacity for the header: its length, or a few bytes more.
pub fn header_room(fields: &Fields) -> usize {
    FRONT
        .saturating_add(fields.name.as_bytes().len())
        .saturating_add(fields.path.as_bytes().len())
        .saturating_add(built_room(fields.built.as_slice()))
        .saturating_add(run_room(fields.run.as_slice()))
        .saturating_add(lines_room(fields.files.as_slice()))
}

/// Capacity for the whole text: its length, or a few bytes more.
pub fn text_room(fields: &Fields) -> usize {
    header_room(fields).saturating_add(bodies_room(fields.files.as_slice()))
}

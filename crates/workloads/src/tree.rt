//! Listings that are made up.
//!
//! They have layers, as a ports tree has: a path depends on paths of lower layers, often on few
//! hubs (a compiler, a make, a library of everything) and seldom far down; most paths have few
//! dependencies, a few have sixty; some have flavors or stand for subpackages, and some are
//! ignored.
ghost use Rattle.std.specs.Prelude.{◌≤◌};

use crate::numbers::Numbers;
use std::alloc::{AllocError, Global};
use std::io;
use std::io::Write;

const CATEGORIES: [&str; 12] = [
    "archivers",
    "audio",
    "databases",
    "devel",
    "editors",
    "graphics",
    "lang",
    "math",
    "net",
    "textproc",
    "www",
    "x11",
];

const LAYERS: usize = 12;

const HUBS: usize = 40;

/// A package of a made listing: its path and name, and the places of those that it is built on,
/// ascending, each once.
#[derive(Drop)]
pub struct Package {
    pub path: String,
    pub name: String,
    pub needed: Vec<u32>,
}

/// A listing, and its packages in order.
#[derive(Drop)]
pub struct Made {
    pub listing: Vec<u8>,
    pub packages: Vec<Package>,
}

/// A listing in layers of so many paths. With subpackages each fifth path, or so, is of the port
/// before it. Only the last tenth of the paths may be ignored, if some may.
pub fn in_layers(
    alloc: Global,
    numbers: &mut Numbers,
    paths: u32,
    is_divided: bool,
    some_ignored: bool,
) -> io::Result<Made> {
    let mut made = Made {
        listing: Vec::new(alloc),
        packages: Vec::new(alloc),
    };
    let mut port = 0;
    for place in 0..paths as usize {
        if !is_divided || numbers.below(5) > 0 {
            port = place;
        }
        let path = path_of(alloc, numbers, port, place)?;
        let name = name_of(alloc, numbers, place)?;
        put_head(&mut made.listing, path.as_str(), name.as_str(), place)?;
        let start = layer_of(port, paths as usize);
        let Made { listing, packages } = &mut made;
        let needed = put_needed(numbers, listing, packages.as_slice(), path.as_str(), start)?;
        if some_ignored && place > paths as usize / 10 * 9 && numbers.below(40) == 0 {
            writeln!(listing, "{path}.IGNORE=is marked as broken: does not build")?;
        }
        made.packages.push(Package { path, name, needed })?;
    }
    Ok(made)
}

/// Where the layer of the place begins: packages of it may need what comes before.
fn layer_of(place: usize, paths: usize) -> usize {
    let size = (paths / LAYERS).max(1);
    place / size * size
}

fn path_of(alloc: Global, numbers: &mut Numbers, port: usize, place: usize) -> io::Result<String> {
    let category = CATEGORIES[port % CATEGORIES.len()];
    let path = if place != port {
        format!(in alloc; "{category}/port{port},-part{place}")?
    } else if port % 10 == 0 {
        format!(in alloc; "{category}/port{port},no_x11,-main")?
    } else if numbers.below(2) == 0 {
        format!(in alloc; "{category}/port{port},-main")?
    } else {
        format!(in alloc; "{category}/port{port}")?
    };
    Ok(path)
}

fn name_of(alloc: Global, numbers: &mut Numbers, place: usize) -> Result<String, AllocError> {
    let major = numbers.below(20);
    let minor = numbers.below(20);
    let patch = numbers.below(4);
    format!(in alloc; "port{place}-{major}.{minor}p{patch}")
}

/// The lines that have nothing to do with dependencies.
fn put_head(out: &mut Vec<u8>, path: &str, name: &str, place: usize) -> io::Result<()> {
    writeln!(out, "===> {path}")?;
    writeln!(out, "{path}.FULLPKGNAME={name}")?;
    writeln!(
        out,
        "{path}.COMMENT=port number {place} of a tree that nobody has"
    )?;
    writeln!(
        out,
        "{path}.HOMEPAGE=https://ports.example/port{place}/?a=b"
    )
}

/// The lines of the dependencies of a path, which are before `start`. Gives the places of those
/// that it is built on.
fn put_needed(
    numbers: &mut Numbers,
    out: &mut Vec<u8>,
    packages: &[Package],
    path: &str,
    start: usize,
) -> io::Result<Vec<u32>> {
    let alloc: Global = *out.allocator();
    let mut built = Vec::new(alloc);
    if start == 0 {
        return Ok(built);
    }
    let count = count_of(numbers);
    let [first, second] = [numbers.below(count + 1), numbers.below(count + 1)];
    let [build, lib] = [first.min(second), first.max(second)];
    let earlier = packages.get(..start).unwrap_or(packages);
    put_variable(
        numbers,
        out,
        earlier,
        path,
        "BUILD_DEPENDS",
        build,
        &mut built,
    )?;
    put_variable(
        numbers,
        out,
        earlier,
        path,
        "LIB_DEPENDS",
        lib - build,
        &mut built,
    )?;
    let mut run = Vec::new(alloc);
    put_variable(
        numbers,
        out,
        earlier,
        path,
        "RUN_DEPENDS",
        count - lib,
        &mut run,
    )?;
    built.sort_unstable();
    built.dedup();
    Ok(built)
}

/// How many dependencies a path has.
fn count_of(numbers: &mut Numbers) -> usize
    ensures { result ≤ 60 }
{
    if numbers.below(100) == 0 {
        60
    } else {
        1 + numbers.below(24)
    }
}

/// The line of a variable with so many dependencies, whose places are put into `found`.
fn put_variable(
    numbers: &mut Numbers,
    out: &mut Vec<u8>,
    packages: &[Package],
    path: &str,
    variable: &str,
    count: usize,
    found: &mut Vec<u32>,
) -> io::Result<()> {
    if count == 0 || packages.is_empty() {
        return Ok(());
    }
    write!(out, "{path}.{variable}=")?;
    for turn in 0..count {
        let among = if numbers.below(3) > 0 {
            packages.len().min(HUBS)
        } else {
            packages.len()
        };
        let place = numbers.below(among);
        if turn > 0 {
            out.push(b' ')?;
        }
        if let (Some(package), Ok(place)) = (packages.get(place), u32::try_from(place)) {
            put_dependency(numbers, out, package.path.as_str())?;
            found.push(place)?;
        }
    }
    out.push(b'\n')?;
    Ok(())
}

fn put_dependency(numbers: &mut Numbers, out: &mut Vec<u8>, path: &str) -> io::Result<()> {
    if numbers.below(8) == 0 {
        let above = 30 + numbers.below(5);
        write!(out, "STEM->=0.0,<{above}:")?;
    }
    out.extend_from_slice(path.as_bytes())?;
    Ok(())
}

/// A listing in which each path needs one other to run, all in one chain, whose places are
/// shuffled.
pub fn in_chain(alloc: Global, numbers: &mut Numbers, paths: u32) -> io::Result<Made> {
    let mut made = Made {
        listing: Vec::new(alloc),
        packages: Vec::new(alloc),
    };
    let order = shuffled(alloc, numbers, paths)?;
    let mut next = vec![in alloc; paths; paths as usize]?;
    for pair in order.as_slice().windows(2) {
        if let [link, behind] = pair {
            if let Some(place) = next.get_mut(*link as usize) {
                *place = *behind;
            }
        }
    }
    for (place, needed) in next.iter().enumerate() {
        let path = format!(in alloc; "devel/link{place}")?;
        let name = format!(in alloc; "link{place}-1.0")?;
        writeln!(made.listing, "{path}.FULLPKGNAME={name}")?;
        if *needed < paths {
            writeln!(made.listing, "{path}.RUN_DEPENDS=devel/link{needed}")?;
        }
        let needed = Vec::new(alloc);
        made.packages.push(Package { path, name, needed })?;
    }
    Ok(made)
}

/// The numbers below the count in an order that looks random.
fn shuffled(alloc: Global, numbers: &mut Numbers, count: u32) -> Result<Vec<u32>, AllocError> {
    let mut order = Vec::with_capacity(alloc, count as usize)?;
    for place in 0..count {
        order.push(place)?;
    }
    for place in 0..order.len() {
        let other = numbers.below(order.len());
        order.swap(place, other);
    }
    Ok(order)
}

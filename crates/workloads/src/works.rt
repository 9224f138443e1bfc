//! What is asked of `dpbr`'s calls.
use crate::lives::{Roles, Trace};
use crate::numbers::Numbers;
use crate::results::Results;
use crate::texts::{Ending, held_text, list_text, with_ending};
use crate::tree::{Made, Package, in_chain, in_layers};
use replay::{audit_of_texts, run_of_texts, status_of_texts};
use std::alloc::Global;
use std::io;
use std::io::Write;

/// The bytes of a piece of a datagram's message.
const PIECE: usize = 32_768;

/// How large a work is: so many paths, and so often.
#[derive(Clone, Copy)]
pub struct Size {
    pub paths: u32,
    pub times: u32,
}

/// Letters of a whole tree, by units, with nothing, some, most and all held.
pub fn status(
    alloc: Global,
    numbers: &mut Numbers,
    size: Size,
    out: &mut Results,
) -> io::Result<()> {
    for _turn in 0..size.times {
        let made = in_layers(alloc, numbers, size.paths, true, true)?;
        for of_eight in [0, 1, 2, 4, 5, 6, 7, 8] {
            let held = held_text(alloc, numbers, &made, of_eight)?;
            let listing = made.listing.as_slice();
            out.take(status_of_texts(alloc, listing, held.as_slice(), false));
        }
    }
    Ok(())
}

/// Audits of all packages of a tree, which are right, and of three lists with a fault at the end.
pub fn audit(
    alloc: Global,
    numbers: &mut Numbers,
    size: Size,
    out: &mut Results,
) -> io::Result<()> {
    for _turn in 0..size.times {
        let made = in_layers(alloc, numbers, size.paths, false, false)?;
        let whole = list_text(alloc, numbers, &made)?;
        let text = whole
            .as_slice()
            .strip_suffix(b"\n")
            .unwrap_or(whole.as_slice());
        for ending in [
            Ending::Right,
            Ending::Short,
            Ending::Twice,
            Ending::Unlisted,
        ] {
            let list = with_ending(alloc, text, ending)?;
            let listing = made.listing.as_slice();
            out.take_verdict(audit_of_texts(alloc, listing, list.as_slice(), false));
        }
    }
    Ok(())
}

/// The lives of all packages of a tree.
pub fn run(alloc: Global, numbers: &mut Numbers, size: Size, out: &mut Results) -> io::Result<()> {
    for _turn in 0..size.times {
        let made = in_layers(alloc, numbers, size.paths, false, false)?;
        let trace = lives(alloc, numbers, made.packages.as_slice())?;
        ran(alloc, &made, trace, out)?;
    }
    Ok(())
}

/// The lives of packages that need each other to run in one chain.
pub fn chain(
    alloc: Global,
    numbers: &mut Numbers,
    size: Size,
    out: &mut Results,
) -> io::Result<()> {
    let made = in_chain(alloc, numbers, size.paths)?;
    let trace = lives(alloc, numbers, made.packages.as_slice())?;
    ran(alloc, &made, trace, out)
}

/// The lives of packages, each of whose datagrams comes so many times more, and a claim that stays
/// open.
pub fn again(
    alloc: Global,
    numbers: &mut Numbers,
    size: Size,
    out: &mut Results,
) -> io::Result<()> {
    let made = in_layers(alloc, numbers, size.paths, false, false)?;
    if let Some((last, packages)) = made.packages.as_slice().split_last() {
        let mut trace = lives(alloc, numbers, packages)?;
        trace.claim(0, last.path.as_str())?;
        let times = u64::from(size.times).saturating_mul(10 * u64::from(size.paths));
        trace.again(numbers, times)?;
        ran(alloc, &made, trace, out)?;
    }
    Ok(())
}

/// The lives of packages of some megabytes, as many as it is to be often.
pub fn large(
    alloc: Global,
    numbers: &mut Numbers,
    size: Size,
    out: &mut Results,
) -> io::Result<()> {
    let made = alone(alloc, size.times)?;
    let mut trace = Trace::new(alloc)?;
    for (place, package) in made.packages.iter().enumerate() {
        let pieces = 48 + 20 * (place % 5);
        let file = file_of(alloc, numbers, pieces * PIECE - PIECE / 2)?;
        let roles = Roles::next(numbers);
        trace.life(roles, package, file.as_slice(), pieces as u64)?;
    }
    ran(alloc, &made, trace, out)
}

fn ran(alloc: Global, made: &Made, trace: Trace, out: &mut Results) -> io::Result<()> {
    let text = trace.finish()?;
    out.take(run_of_texts(alloc, made.listing.as_slice(), text.as_slice(), true));
    Ok(())
}

/// The lives of these packages, each of which has a small file.
fn lives(alloc: Global, numbers: &mut Numbers, packages: &[Package]) -> io::Result<Trace> {
    let mut trace = Trace::new(alloc)?;
    for package in packages {
        let length = 1 + numbers.below(200);
        let file = file_of(alloc, numbers, length)?;
        let roles = Roles::next(numbers);
        trace.life(roles, package, file.as_slice(), 1)?;
    }
    Ok(trace)
}

/// Bytes that look random.
fn file_of(alloc: Global, numbers: &mut Numbers, length: usize) -> io::Result<Vec<u8>> {
    let mut file = vec![in alloc; 0u8; length]?;
    for byte in &mut file {
        *byte = numbers.byte();
    }
    Ok(file)
}

/// A listing of so many packages that need nothing.
fn alone(alloc: Global, count: u32) -> io::Result<Made> {
    let mut listing = Vec::new(alloc);
    let mut packages = Vec::new(alloc);
    for place in 0..count {
        let path = format!(in alloc; "devel/large{place}")?;
        let name = format!(in alloc; "large{place}-1.0")?;
        writeln!(listing, "{path}.FULLPKGNAME={name}")?;
        let needed = Vec::new(alloc);
        packages.push(Package { path, name, needed })?;
    }
    Ok(Made { listing, packages })
}

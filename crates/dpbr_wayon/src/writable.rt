//! Events that a trace can contain, so that they are parsed as they were. These functions do
//! nothing; their contracts follow from the types of the events.
ghost use Rattle.std.specs.Prelude.{◌≤◌, All, map};
ghost use Rattle.dpbr_wayon.specs.inside.Sound.{AreTextFiles, HaveTextNames, IsSound};
ghost use Rattle.protocol.specs.Events.{event_view};
ghost use Rattle.hex.specs.Hex.{IsBytes};
ghost use Rattle.package_record.specs.FileView.{file_view};
ghost use Rattle.pkgpath.specs.PkgPath.{IsPath};
ghost use Rattle.traces.specs.Again.{AreLeft, IsTextEvent, IsTextPackage};
ghost use Rattle.traces.specs.Events.{most};

use package_record::{File, Files};
use pkgpath::PkgPath;
use protocol::{Event, Left, Packages};

/// A trace can contain these events if names of their files are text and their stops are during
/// steps.
pub(crate) fn can_be_written(events: &[Event])
    ensures { All IsSound (map event_view events.now)
        → All IsTextEvent (map event_view events.now) }
{
    for event in events {
        event_can_be_written(event);
    }
}

/// A trace can contain this event, on the same condition.
fn event_can_be_written(event: &Event)
    ensures { IsSound (event_view event.now) → IsTextEvent (event_view event.now) }
{
    match event {
        Event::Claim {
            node,
            path,
            host,
            above,
        } => {
            are_numbers(*host, *above);
            is_at(*node, path);
        }
        Event::Built {
            node,
            path,
            packages,
        } => {
            packages_can_be_written(packages);
            is_at(*node, path);
        }
        Event::Failed { node, path } => is_at(*node, path),
        Event::Nudge { node } => is_node(*node),
        Event::Ask { node, path } => is_at(*node, path),
        Event::Deliver { datagram, node } => {
            are_numbers(0, *datagram);
            is_node(*node);
        }
        Event::Stop { node } => is_node(*node),
        Event::StopIn { input, left } => {
            are_left(left);
            event_can_be_written(input);
        }
        Event::Restart { node } => is_node(*node),
    }
}

fn is_node(node: u8)
    ensures { node ≤ 255 }
{}

fn is_at(node: u8, path: &PkgPath)
    ensures node { node ≤ 255 }
    ensures path { IsPath path.now }
{
    let _text = path.as_bytes();
}

fn are_numbers(host: u16, number: u64)
    ensures host { host ≤ 65535 }
    ensures number { number ≤ most }
{}

/// What is left of a note consists of bytes.
fn are_left(left: &Left)
    ensures { AreLeft left.now }
{
    match left {
        Left::None => {}
        Left::Torn(torn) => are_bytes(torn.as_slice()),
        Left::Whole => {}
    }
}

fn are_bytes(bytes: &[u8])
    ensures { IsBytes bytes.now }
{}

fn packages_can_be_written(packages: &Packages)
    ensures { AreTextFiles packages.now → All IsTextPackage packages.now }
{
    let given = packages.as_slice();
    for package in given {
        package_can_be_written(package);
    }
}

fn package_can_be_written(one: &(PkgPath, Files))
    ensures { HaveTextNames one.now.1 → IsTextPackage one.now }
{
    let (path, files) = one;
    let _text = path.as_bytes();
    files_are_bytes(files.as_slice());
}

/// The files consist of bytes.
fn files_are_bytes(files: &[File])
    ensures { All (λ f. IsBytes f.bytes) (map file_view files.now) }
{
    for file in files {
        are_bytes(file.bytes.as_slice());
    }
}

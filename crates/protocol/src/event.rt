//! What may happen to a node of a world.
ghost use Rattle.std.specs.Prelude.{◌≡◌, IfOk};
ghost use Rattle.protocol.specs.Events.{Claim, Built, Failed, Ask, StopIn, event_view};

use crate::Packages;
use faults::Memory;
use package_record::PkgPath;
use std::alloc::Global;
use std::marker::Model;

/// Bytes that a torn write left. Contracts see them as a list.
#[derive(Drop)]
pub struct Torn {
    bytes: Vec<u8>,
}

impl Model for Torn {
    ghost use Rattle.std.specs.Prelude.{List, ℕ};

    ghost Value = { List ℕ };

    ghost view = { λ t. t.bytes.items };
}

impl Torn {
    /// Wraps these bytes.
    pub fn new(bytes: Vec<u8>) -> Torn
        ensures { result ≡ bytes.items }
    {
        Torn { bytes }
    }

    /// The bytes.
    pub fn as_slice(&self) -> &[u8]
        ensures { result.now ≡ self.now }
    {
        self.bytes.as_slice()
    }

    /// Copies the bytes. Returns `Memory` if out of memory.
    pub fn copy(&self) -> Result<Torn, Memory>
        ensures { IfOk result (λ torn. torn ≡ self.now) }
    {
        let bytes = self.bytes.clone()?;
        Ok(Torn { bytes })
    }
}

/// What a stop inside a step leaves of its note.
#[derive(Drop)]
pub enum Left {
    /// Nothing of the note.
    None,
    /// These bytes after the closed gate. A restart cuts them off.
    Torn(Torn),
    /// The whole note.
    Whole,
}

impl Left {
    /// Copies the value. Returns `Memory` if out of memory.
    pub fn copy(&self) -> Result<Left, Memory>
        ensures { IfOk result (λ left. left ≡ self.now) }
    {
        match self {
            Left::None => Ok(Left::None),
            Left::Torn(torn) => Ok(Left::Torn(torn.copy()?)),
            Left::Whole => Ok(Left::Whole),
        }
    }
}

/// What may happen to a node. A path names a unit: it is the unit's name, or the path of any of its
/// packages. Node numbers are below the number of members; no node has another number.
#[derive(Drop)]
pub enum Event {
    /// The node opens a claim for the unit, in a round above `above`, for this host to build it.
    Claim {
        node: u8,
        path: PkgPath,
        host: u16,
        above: u64,
    },
    /// The host of the node's open claim has built the unit: these are its packages.
    Built {
        node: u8,
        path: PkgPath,
        packages: Packages,
    },
    /// The host could not build the unit.
    Failed {
        node: u8,
        path: PkgPath,
    },
    /// The node sends again what its open claim waits for.
    Nudge {
        node: u8,
    },
    /// The node asks the others for what is agreed for the unit.
    Ask {
        node: u8,
        path: PkgPath,
    },
    /// The node receives a datagram that was sent. Datagrams are counted from 0.
    Deliver {
        datagram: u64,
        node: u8,
    },
    /// The node stops between two steps.
    Stop {
        node: u8,
    },
    /// The node stops inside a step, which is one of the first six: nothing is sent, and no job is
    /// given.
    StopIn {
        input: Box<Event>,
        left: Left,
    },
    /// The node starts again, with what its notes restore.
    Restart {
        node: u8,
    },
}

impl Event {
    /// Copies the event. Returns `Memory` if out of memory.
    pub fn copy(&self, alloc: Global) -> Result<Event, Memory>
        ensures { IfOk result (λ event. event_view event ≡ event_view self.now) }
    {
        match self {
            Event::Claim {
                node,
                path,
                host,
                above,
            } => copy_of_claim(*node, path, *host, *above),
            Event::Built {
                node,
                path,
                packages,
            } => copy_of_built(*node, path, packages),
            Event::Failed { node, path } => copy_of_failed(*node, path),
            Event::Nudge { node } => Ok(Event::Nudge { node: *node }),
            Event::Ask { node, path } => copy_of_ask(*node, path),
            Event::Deliver { datagram, node } => Ok(Event::Deliver {
                datagram: *datagram,
                node: *node,
            }),
            Event::Stop { node } => Ok(Event::Stop { node: *node }),
            Event::StopIn { input, left } => {
                let input = input.copy(alloc)?;
                Event::stop_in(alloc, input, left.copy()?)
            }
            Event::Restart { node } => Ok(Event::Restart { node: *node }),
        }
    }

    /// The event of a stop inside the step of this one. Returns `Memory` if out of memory.
    pub fn stop_in(alloc: Global, input: Event, left: Left) -> Result<Event, Memory>
        ensures { IfOk result (λ event. event_view event ≡ StopIn (event_view input) left) }
    {
        let input = Box::new(alloc, input)?;
        Ok(Event::StopIn { input, left })
    }
}

/// A claim for a copy of the path.
fn copy_of_claim(node: u8, path: &PkgPath, host: u16, above: u64) -> Result<Event, Memory>
    ensures { IfOk result (λ event. event_view event ≡ Claim node path.now host above) }
{
    let path = path.copy()?;
    Ok(Event::Claim {
        node,
        path,
        host,
        above,
    })
}

/// A Built with copies of the path and the packages.
fn copy_of_built(node: u8, path: &PkgPath, packages: &Packages) -> Result<Event, Memory>
    ensures { IfOk result (λ event. event_view event ≡ Built node path.now packages.now) }
{
    let path = path.copy()?;
    let packages = packages.copy()?;
    Ok(Event::Built {
        node,
        path,
        packages,
    })
}

/// A Failed for a copy of the path.
fn copy_of_failed(node: u8, path: &PkgPath) -> Result<Event, Memory>
    ensures { IfOk result (λ event. event_view event ≡ Failed node path.now) }
{
    let path = path.copy()?;
    Ok(Event::Failed { node, path })
}

/// An Ask for a copy of the path.
fn copy_of_ask(node: u8, path: &PkgPath) -> Result<Event, Memory>
    ensures { IfOk result (λ event. event_view event ≡ Ask node path.now) }
{
    let path = path.copy()?;
    Ok(Event::Ask { node, path })
}

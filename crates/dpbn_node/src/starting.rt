//! How a member's node starts: its run, its place among its peers, its log and its port.
ghost use Rattle.std.specs.Prelude.{
  ◌≡◌,
  ◌≢◌,
  ◌<◌,
  ◌≤◌,
  ◌⊎◌,
  IfErr,
  IfOk,
  None,
  Some,
  false,
  length,
  option_map,
};
ghost use Rattle.dpbn_node.specs.Runs.{
  AreGood,
  HasBegun,
  IsHostsRefusal,
  IsLogRefusal,
  IsNodeOf,
  IsOpenedOn,
  Listen,
  RefusesOnLog,
  RefusesPlace,
  RefusesStart,
  is_local,
  listing_of,
  member_refusal,
  run_at,
  socket_refusal,
};
ghost use Rattle.dpbn_node.specs.Keys.{IsKeyOf, seal_of};
ghost use Rattle.run_file.specs.Looking.{IsOwn};
ghost use Rattle.program_io.specs.Refusals.{memory_refusal};
ghost use Rattle.udp.specs.Calls.{IsEmpty};
ghost use Rattle.udp.specs.Ways.{IsSeatOf};

use crate::{Sealing, identity_of, key_of_words, start_of, write_unwritten};
use ballots::Weights;
use dpbn_cli::{Peers, Run};
use dpbn_key::KeyFiles;
use listing::Tree;
use lone_node::Solo;
use node::Node;
use program_io::Refusal;
use run_file::{LogFolder, Start};
use stable_record::FileDisk;
use std::alloc::Global;
use std::net::SocketAddr;
use udp::{Guard, UdpPort, loopback, parse_hosts};

/// The default number of milliseconds that a turn waits for a datagram.
const PATIENCE: u16 = 20;

/// A node's place among its peers, and its run.
#[derive(Drop)]
pub struct Place {
    pub sealing: Sealing,
    /// The addresses where the members listen, by number.
    pub addresses: Vec<SocketAddr>,
    /// The number of milliseconds that a turn waits for a datagram.
    pub patience: u16,
    /// Whether a log of the run must already exist.
    pub is_continued: bool,
    /// The number of units, if the node reads and sends notices of failed builds.
    pub units: Option<u32>,
}

impl Place {
    /// Which datagrams the node's port accepts, in the run over the tree, among members with these
    /// weights.
    fn guard(&self, tree: &Tree, weights: &Weights) -> Guard
        ensures sealed { result.seal ≡ seal_of tree.now weights.now self.now.sealing.key }
        ensures closed { self.now.sealing.key ≢ None → result.is_open ≡ false }
        ensures members { self.now.sealing.is_open ≡ false → result.is_open ≡ false }
        ensures notices { result.listing ≡ listing_of tree.now self.now.units }
    {
        let guard = self.sealing.guard(tree, weights);
        match self.units {
            Some(units) => guard.with_notices(tree.digest(), units),
            None => guard,
        }
    }
}

/// The place that the arguments describe.
///
/// # Errors
///
/// Those of the key's file, and then those of the hosts.
pub fn place_of_words<K: KeyFiles>(
    alloc: Global,
    keys: &K,
    members: u8,
    peers: &Peers<'_>,
    patience: Option<u16>,
    run: &Run<'_>,
) -> Result<Place, Refusal>
    requires few { members ≤ 9 }
    requires peers { AreGood peers.now }
    ensures each { IfOk result (λ place. length place.addresses.items ≡ members) }
    ensures listen { IfOk result (λ place. Listen peers.now members place.addresses.items) }
    ensures key { IfOk result (λ place. IsKeyOf (K.gave keys.now)
        (option_map (λ t. t.now) run.now.key) place.sealing.key) }
    ensures open_to { IfOk result (λ place. place.sealing.is_open ≡ is_local peers.now) }
    ensures continued { IfOk result (λ place. place.is_continued ≡ run.now.is_continued) }
    ensures refused { IfErr result
        (RefusesPlace (K.gave keys.now) members peers.now run.now) }
{
    let key = key_of_words(keys, run.key)?;
    let addresses = addresses_of(alloc, members, peers)?;
    Ok(Place {
        sealing: Sealing {
            key,
            is_open: is_local(peers),
        },
        addresses,
        patience: patience.unwrap_or(PATIENCE),
        is_continued: run.is_continued,
        units: None,
    })
}

/// Whether all members are on this host.
fn is_local(peers: &Peers<'_>) -> bool
    ensures { result ≡ is_local peers.now }
{
    match peers {
        Peers::Base(_) => true,
        Peers::Hosts(_) => false,
    }
}

/// The addresses where the members listen.
fn addresses_of(alloc: Global, members: u8, peers: &Peers<'_>) -> Result<Vec<SocketAddr>, Refusal>
    requires few { members ≤ 9 }
    requires peers { AreGood peers.now }
    ensures count { IfOk result (λ addresses. length addresses.items ≡ members) }
    ensures listen { IfOk result (λ addresses. Listen peers.now members addresses.items) }
    ensures refused { IfErr result
        (λ r. (r ≡ memory_refusal) ⊎ IsHostsRefusal members peers.now r) }
{
    match peers {
        Peers::Base(base) => Ok(loopback(alloc, members, *base)?),
        Peers::Hosts(text) => match parse_hosts(alloc, text, members) {
            Ok(hosts) => Ok(hosts),
            Err(fault) => Err(Refusal::of(&fault)),
        },
    }
}

/// The log and the port of a node that starts.
#[derive(Drop)]
pub struct Begun<'c> {
    /// The log that it starts on.
    pub start: Start,
    pub port: UdpPort<'c, HostRuntime>,
}

/// Prepares the log and the port of the member's node at this place, in the run over the tree,
/// among members with these weights. Nothing is written to a file in the folder yet.
///
/// # Errors
///
/// That no member has the number; why the node can't start on its log; that its address isn't
/// available. In this order.
pub fn begin<'c, F: LogFolder>(
    rt: &'c HostRuntime,
    tree: &Tree,
    weights: &Weights,
    folder: &F,
    me: u8,
    place: Place,
) -> Result<Begun<'c>, Refusal>
    requires { length place.addresses.items ≡ length weights.now }
    ensures member { IfOk result (λ begun. me < length weights.now) }
    ensures own { IfOk result (λ begun. IsOwn (F.had_mode folder.now)) }
    ensures begun { IfOk result (HasBegun (F.gave folder.now me) (F.known folder.now me)
        (run_at tree.now weights.now place) me) }
    ensures notices { IfOk result
        (λ begun. begun.port.notices.listing ≡ listing_of tree.now place.units) }
    ensures refused { IfErr result (RefusesStart (F.had_mode folder.now) (F.gave folder.now me) me
        (run_at tree.now weights.now place)) }
{
    if me as usize >= weights.len() {
        return Err(not_a_member());
    }
    let identity = identity_of(tree, weights, me);
    let start = start_of(
        rt.alloc(),
        folder,
        &identity,
        &place.sealing,
        place.is_continued,
    )?;
    let guard = place.guard(tree, weights);
    let port = port_of(rt, place.addresses, me, place.patience, guard)?;
    Ok(Begun { start, port })
}

/// No member has this number.
fn not_a_member() -> Refusal
    ensures { result ≡ member_refusal }
{
    Refusal {
        number: 909,
        place: None,
    }
}

/// The port of the member's node, with this guard.
fn port_of<'c>(
    rt: &'c HostRuntime,
    addresses: Vec<SocketAddr>,
    me: u8,
    patience: u16,
    guard: Guard,
) -> Result<UdpPort<'c, HostRuntime>, Refusal>
    requires { me < length addresses.items }
    ensures seat { IfOk result (λ port. IsSeatOf port.seats.items me 0) }
    ensures lone { IfOk result (λ port. length port.seats.items ≡ 1) }
    ensures addresses { IfOk result (λ port. port.addresses.items ≡ addresses.items) }
    ensures sealed { IfOk result (λ port. (port.inbox.key ≡ guard.seal)
        × (port.outbox.key ≡ guard.seal)) }
    ensures open { IfOk result (λ port. port.is_open ≡ guard.is_open) }
    ensures notices { IfOk result (λ port. port.notices.listing ≡ guard.listing) }
    ensures empty { IfOk result IsEmpty }
    ensures refused { IfErr result (λ r. (r ≡ memory_refusal) ⊎ (r ≡ socket_refusal)) }
{
    match UdpPort::alone_behind(rt, rt, rt.alloc(), addresses, me, patience, guard) {
        Ok(port) => Ok(port),
        Err(fault) => Err(Refusal::of(&fault)),
    }
}

/// Opens the member's node on its log. This holds whatever is known of the log's file before: what
/// its disk says of it, if the file does what that says.
///
/// # Errors
///
/// Why the log can't be opened as a node of the member.
pub fn open<'a>(
    alloc: Global,
    disk: FileDisk,
    tree: &'a Tree,
    weights: &Weights,
    me: u8,
) -> Result<Node<'a, FileDisk>, Refusal>
    requires { me < length weights.now }
    ensures opened { IfOk result (IsNodeOf tree.entry.now weights.now me disk) }
    ensures refused { IfErr result IsLogRefusal }
{
    match Node::open(alloc, disk, tree, weights, me) {
        Ok(node) => Ok(node),
        Err((fault, disk)) => {
            drop(disk);
            Err(Refusal::of(&fault))
        }
    }
}

/// Opens the member's node on the log of a start, writes its run file if that isn't written yet,
/// and joins the node with its port. This holds whatever is known of the log's file before: what
/// its disk says of it, if the file does what that says.
///
/// # Errors
///
/// Why the log can't be opened as a node of the member; why the run file can't be written. In this
/// order.
pub fn solo_on_log<'a, 'c>(
    rt: &HostRuntime,
    start: Start,
    port: UdpPort<'c, HostRuntime>,
    tree: &'a Tree,
    weights: &Weights,
    dir: &str,
    me: u8,
) -> Result<Solo<'a, FileDisk, UdpPort<'c, HostRuntime>>, Refusal>
    requires { me < length weights.now }
    ensures opened { IfOk result
        (IsOpenedOn start.disk port.entry tree.entry.now weights.now me) }
    ensures refused { IfErr result RefusesOnLog }
{
    let Start { disk, unwritten } = start;
    let node = open(rt.alloc(), disk, tree, weights, me)?;
    write_unwritten(rt, dir, me, unwritten)?;
    Ok(Solo::new(node, port))
}

//! The choice of a turn.
ghost use Rattle.std.specs.List.{list_any, range_with_len};
ghost use Rattle.std.specs.Prelude.{
  ◌≡◌,
  ◌≤◌,
  ◌<◌,
  ◌-◌,
  ◌==◌,
  [],
  ◌∷◌,
  IfErr,
  IfOk,
  OnOk,
  Some,
  is_some,
  length,
  option_and_then,
  option_map,
  slice_get,
};
ghost use Rattle.turn_rules.specs.Choice.{comes_to, in_turn, is_elsewhere};
ghost use Rattle.faults.specs.Bytes.{is_among};
ghost use Rattle.turn_rules.specs.Unfailed.{AllFailedBelow};
ghost use Rattle.datagram_ports.specs.Kept.{GoesOnBy};
ghost use Rattle.cluster_turns.specs.Choice.{first_job};
ghost use Rattle.cluster_turns.specs.Choosing.{
  ByReceives,
  HasChosen,
  IsChoosingFault,
  IsChosenAs,
  IsPartAt,
  NoneIsForeign,
  told,
};
ghost use Rattle.cluster_turns.specs.Here.{here_in};
ghost use Rattle.cluster_turns.specs.Unfailed.{EachFailedBelow};
ghost use Rattle.cluster_turns.specs.inside.Cases.{
  IsFirstFault,
  IsFirstPart,
  IsNotTaken,
  IsOwnFault,
  IsOwnPart,
  IsWantFor,
  WasReceived,
  WasSent,
  answer_here,
  arrived,
};

use arrayvec::ArrayVec;
use datagram_ports::Port;
use faults::Memory;
use node::{Node, NodeFault};
use protocol::Packages;
use stable_record::Disk;
use std::alloc::Global;
use turn_rules::{CausedStep, Pending, TurnFault, answer, own_from, take_in, unfailed_from};
use world::{DatagramBytes, Datagrams};

/// What was chosen: a node, by its number, and what it does, with its step prepared.
#[derive(Drop)]
pub struct Chosen {
    pub node: usize,
    pub readied: CausedStep,
}

/// The choice of the turn, if anything: a node, and its part, with its step prepared. It is the
/// first of these that applies:
/// 1. The least node that has a job answers it.
/// 2. A node takes a received datagram that is for it; the port is asked once.
/// 3. The first node that does anything on its own initiative does so, beginning with the one after
/// the last.
///
/// `nodes` are by number, and aren't changed. Below its position in `unfailed`, each node's only
/// queued packages are those whose units failed, so turns needn't search there again.
///
/// # Errors
///
/// `Memory`; `NotSent` if bytes were received for a node that is up and no node sent them; `Node`,
/// why the chosen node refuses what it would do on its own initiative.
pub fn choose<D: Disk, P: Port>(
    alloc: Global,
    nodes: &mut Vec<Node<'_, D>>,
    port: &mut P,
    sent: &Datagrams,
    pending: &Pending,
    unfailed: &mut [u32; 9],
    builds: &Packages,
) -> Result<Option<Chosen>, TurnFault>
    requires few { length nodes.old.items ≤ 9 }
    requires next { pending.now.next ≤ length nodes.old.items }
    requires known { NoneIsForeign nodes.old.items sent.now }
    requires below { EachFailedBelow nodes.old.items pending.now unfailed.old }
    ensures same { nodes.new.items ≡ nodes.old.items }
    ensures below { EachFailedBelow nodes.old.items pending.now unfailed.new }
    ensures offered { GoesOnBy [] (P.offered port.old) (P.offered port.new) }
    ensures chosen { IfOk result (HasChosen nodes.new.items sent.now pending.now
        builds.now (P.given port.old) (P.given port.new)) }
    ensures refused { IfErr result (IsChoosingFault nodes.old.items sent.now pending.now
        builds.now (P.given port.old) (P.given port.new)) }

    // The choice, seen by the port's calls, even if it doesn't record them: it only received.
    ensures calls { IfOk result (λ r. ByReceives P.Port port.old port.new
        (λ before after. HasChosen nodes.new.items sent.now pending.now
        builds.now before after r)) }
    ensures calls_refused { IfErr result (λ f. ByReceives P.Port port.old port.new
        (λ before after. IsChoosingFault nodes.old.items sent.now pending.now
        builds.now before after f)) }
{
    if let Some(chosen) = answered(alloc, nodes, builds)? {
        return Ok(Some(chosen));
    }
    let came = received(port);
    if let Some(chosen) = taken_in(alloc, nodes, sent, came)? {
        return Ok(Some(chosen));
    }
    own_in_turn(nodes, pending, unfailed)
}

/// The answer of the least node that has a job.
fn answered<D: Disk>(
    alloc: Global,
    nodes: &mut Vec<Node<'_, D>>,
    builds: &Packages,
) -> Result<Option<Chosen>, TurnFault>
    ensures same { nodes.new.items ≡ nodes.old.items }
    ensures chosen { IfOk result (IsChosenAs nodes.old.items
        (first_job (here_in nodes.old.items) (length nodes.old.items) builds.now)) }
    ensures refused { IfErr result (IsWantFor
        (first_job (here_in nodes.old.items) (length nodes.old.items) builds.now)) }
{
    for node in 0..nodes.len() {
        if let Some(readied) = answer_at(alloc, nodes, node, builds)? {
            return Ok(Some(Chosen { node, readied }));
        }
    }
    Ok(None)
}

/// The answer of this node, if it is up and has a job.
fn answer_at<D: Disk>(
    alloc: Global,
    nodes: &mut Vec<Node<'_, D>>,
    at: usize,
    builds: &Packages,
) -> Result<Option<CausedStep>, TurnFault>
    requires { at < length nodes.old.items }
    ensures same { nodes.new.items ≡ nodes.old.items }
    ensures part { IfOk result
        (IsPartAt nodes.old.items at (answer_here nodes.old.items builds.now at)) }
    ensures refused { IfErr result (IsWantFor (answer_here nodes.old.items builds.now at)) }
{
    let node = &mut nodes[at];
    if node.is_stopped() {
        return Ok(None);
    }
    match answer(alloc, node, builds) {
        Ok(readied) => Ok(readied),
        Err(fault) => Err(told(fault)),
    }
}

/// Receives a datagram. A receive that fails counts as one that returned nothing.
fn received<P: Port>(port: &mut P) -> Option<(u8, Vec<u8>)>
    ensures given { GoesOnBy (arrived result ∷ []) (P.given port.old) (P.given port.new) }
    ensures offered { GoesOnBy [] (P.offered port.old) (P.offered port.new) }
    ensures calls { WasReceived P.Port port.old (arrived result) port.new }
{
    match port.receive() {
        Ok(came) => came,
        Err(_) => None,
    }
}

/// Prepares the node's step on a received datagram that is for it, if it is up. The datagram was
/// sent by one of the nodes.
fn taken_in<D: Disk>(
    alloc: Global,
    nodes: &mut Vec<Node<'_, D>>,
    sent: &Datagrams,
    came: Option<(u8, Vec<u8>)>,
) -> Result<Option<Chosen>, TurnFault>
    requires known { NoneIsForeign nodes.old.items sent.now }
    ensures same { nodes.new.items ≡ nodes.old.items }
    ensures chosen { IfOk result (IsChosenAs nodes.old.items
        (comes_to (here_in nodes.old.items) (arrived came))) }
    ensures sent { OnOk result (WasSent nodes.old.items sent.now (arrived came)) }
    ensures refused { IfErr result (IsNotTaken nodes.old.items sent.now (arrived came)) }
{
    let Some((to, bytes)) = came else {
        return Ok(None);
    };
    let at = to as usize;
    if !is_up(nodes.as_slice(), at) {
        return Ok(None);
    }
    if !is_sent(alloc, sent, bytes.as_slice())? {
        return Err(TurnFault::NotSent);
    }
    match take_in(&mut nodes[at], bytes) {
        Ok(readied) => Ok(Some(Chosen { node: at, readied })),
        Err(fault) => Err(told(fault)),
    }
}

/// Whether one of the nodes sent these bytes.
fn is_sent(alloc: Global, sent: &Datagrams, bytes: &[u8]) -> Result<bool, Memory>
    ensures { IfOk result (λ is. is ≡ is_among sent.now bytes.now) }
{
    let bytes = DatagramBytes::new(bytes.to_vec(alloc)?);
    Ok(sent.contains(&bytes))
}

/// Whether there is a node with this number, and it is up.
fn is_up<D: Disk>(nodes: &[Node<'_, D>], at: usize) -> bool
    ensures { result ≡ is_some (here_in nodes.now at) }
{
    match nodes.get(at) {
        Some(node) => !node.is_stopped(),
        None => false,
    }
}

/// What the first node that does anything does on its own initiative.
fn own_in_turn<D: Disk>(
    nodes: &mut Vec<Node<'_, D>>,
    pending: &Pending,
    unfailed: &mut [u32; 9],
) -> Result<Option<Chosen>, TurnFault>
    requires few { length nodes.old.items ≤ 9 }
    requires next { pending.now.next ≤ length nodes.old.items }
    requires below { EachFailedBelow nodes.old.items pending.now unfailed.old }
    ensures same { nodes.new.items ≡ nodes.old.items }
    ensures below { EachFailedBelow nodes.old.items pending.now unfailed.new }
    ensures chosen { IfOk result (IsFirstPart nodes.old.items pending.now
        (in_turn pending.now.next (length nodes.old.items))) }
    ensures refused { IfErr result (IsFirstFault nodes.old.items pending.now
        (in_turn pending.now.next (length nodes.old.items))) }
{
    let next = pending.next() as usize;
    if let Some(chosen) = own_among(nodes, pending, unfailed, next, nodes.len())? {
        return Ok(Some(chosen));
    }
    own_among(nodes, pending, unfailed, 0, next)
}

/// Like `own_in_turn`, for the nodes from number `from` on, below `below`.
fn own_among<D: Disk>(
    nodes: &mut Vec<Node<'_, D>>,
    pending: &Pending,
    unfailed: &mut [u32; 9],
    from: usize,
    below: usize,
) -> Result<Option<Chosen>, TurnFault>
    requires few { length nodes.old.items ≤ 9 }
    requires there { below ≤ length nodes.old.items }
    requires below { EachFailedBelow nodes.old.items pending.now unfailed.old }
    ensures same { nodes.new.items ≡ nodes.old.items }
    ensures below { EachFailedBelow nodes.old.items pending.now unfailed.new }
    ensures chosen { IfOk result (IsFirstPart nodes.old.items pending.now
        (range_with_len from (below - from))) }
    ensures refused { IfErr result (IsFirstFault nodes.old.items pending.now
        (range_with_len from (below - from))) }
{
    for node in from..below {
        if let Some(readied) = own_at(nodes, pending, unfailed, node)? {
            return Ok(Some(Chosen { node, readied }));
        }
    }
    Ok(None)
}

/// What this node does on its own initiative, if it is up and does anything.
fn own_at<D: Disk>(
    nodes: &mut Vec<Node<'_, D>>,
    pending: &Pending,
    unfailed: &mut [u32; 9],
    at: usize,
) -> Result<Option<CausedStep>, TurnFault>
    requires few { length nodes.old.items ≤ 9 }
    requires there { at < length nodes.old.items }
    requires below { EachFailedBelow nodes.old.items pending.now unfailed.old }
    ensures same { nodes.new.items ≡ nodes.old.items }
    ensures part { IfOk result (IsOwnPart nodes.old.items pending.now at) }
    ensures refused { IfErr result (IsOwnFault nodes.old.items pending.now at) }
    ensures below { EachFailedBelow nodes.old.items pending.now unfailed.new }
{
    if !is_up(nodes.as_slice(), at) {
        return Ok(None);
    }
    let elsewhere = open_elsewhere(nodes.as_slice(), at);
    let above = pending.above(at as u8);
    let from = unfailed_at(nodes.as_slice(), pending, unfailed, at);
    match own_from(&mut nodes[at], above, pending, elsewhere.as_slice(), from) {
        Ok(readied) => Ok(readied),
        Err(fault) => Err(told(fault)),
    }
}

/// The least position of a package that is queued at this node and whose unit hasn't failed, or the
/// number of packages if there is none. The next turn's search begins there.
fn unfailed_at<D: Disk>(
    nodes: &[Node<'_, D>],
    pending: &Pending,
    unfailed: &mut [u32; 9],
    at: usize,
) -> u32
    requires few { length nodes.now ≤ 9 }
    requires there { at < length nodes.now }
    requires below { EachFailedBelow nodes.now pending.now unfailed.old }
    ensures each { EachFailedBelow nodes.now pending.now unfailed.new }
    ensures below { (n : _) → slice_get nodes.now at ≡ Some n
        → AllFailedBelow n.node.member pending.now result }
{
    let from = unfailed_from(nodes[at].member(), pending, unfailed[at]);
    unfailed[at] = from;
    from
}

/// The units for which other nodes that are up have open claims.
fn open_elsewhere<D: Disk>(nodes: &[Node<'_, D>], at: usize) -> ArrayVec<u32, 9>
    requires { length nodes.now ≤ 9 }
    ensures { (u : _) → list_any (λ v. v == u) result.items
        ≡ is_elsewhere (here_in nodes.now) (length nodes.now) at u }
{
    let mut units = ArrayVec::new();
    for other in 0..nodes.len() {
        if other != at {
            if let Some(unit) = open_unit(nodes, other) {
                units.push(unit);
            }
        }
    }
    units
}

/// The unit of the node's open claim, if it is up and has one.
fn open_unit<D: Disk>(nodes: &[Node<'_, D>], at: usize) -> Option<u32>
    ensures { result ≡ option_map (λ o. o.unit)
        (option_and_then (λ s. s.claim) (here_in nodes.now at)) }
{
    let node = nodes.get(at)?;
    if node.is_stopped() {
        return None;
    }
    let open = node.open_claim()?;
    Some(open.unit)
}

/// The node's refusal as that of a turn.
pub fn told(fault: NodeFault) -> TurnFault
    ensures { result ≡ told fault }
{
    match fault {
        NodeFault::Memory => TurnFault::Memory,
        other => TurnFault::Node(other),
    }
}

//! The values of the subcommands for the node of one member, `dpbn node` and `dpbn build`.
ghost use Rattle.std.specs.Prelude.{◌≡◌, IfErr, IfNone, IfOk, IfSome, [], codes};
ghost use Rattle.clap.specs.Words.{IsAmong, found_of, rows_of};
ghost use Rattle.dpbn_cli.specs.Calls.{ArePeers, IsOneNode, IsRun, choice_fault, is_given, one_node_fault, sealing_fault};
ghost use Rattle.dpbn_cli.specs.inside.Naming.{HasOneNode};
ghost use Rattle.dpbr_cli.specs.Values.{IsNumberIf, is_set};
ghost use Rattle.dpbr_cli.specs.shared.Matches.{MayHaveNumber};

use crate::call_table::{BASE, CONTINUE, HOSTS, KEY, ME, PATIENCE, UNSEALED};
use crate::{Peers, Run};
use clap::ArgMatches;
use clap::error::ErrorKind;
use dpbr_cli::{is_set, number_if, number_of, text_of};

/// The values for the node of one member.
#[derive(Debug, Drop)]
pub struct OneNode<'a> {
    pub me: u8,
    pub peers: Peers<'a>,
    /// The number of milliseconds that a turn waits for a datagram: at most 60,000.
    pub patience: Option<u16>,
    pub run: Run<'a>,
}

/// The values for the node, or the kind of their fault.
pub fn one_node_of<'a>(found: &ArgMatches<'a>) -> Result<OneNode<'a>, ErrorKind>
    ensures node { IfOk result (λ node.
        IsOneNode (rows_of (found_of found.now)) node.me node.peers node.patience node.run) }
    ensures sound { IfOk result (λ node. one_node_fault (rows_of (found_of found.now)) ≡ []) }
    ensures kind { IfErr result (λ kind. HasOneNode (rows_of (found_of found.now))
        → IsAmong kind (one_node_fault (rows_of (found_of found.now)))) }
{
    let peers = peers_of(found)?;
    let run = run_of(found)?;
    with_peers(found, peers, run).ok_or(ErrorKind::MissingRequiredArgument)
}

/// The first port of all members, or their hosts: exactly one is required.
fn peers_of<'a>(found: &ArgMatches<'a>) -> Result<Peers<'a>, ErrorKind>
    ensures peers { IfOk result (ArePeers (rows_of (found_of found.now))) }
    ensures sound { IfOk result (λ peers.
        choice_fault (is_given (rows_of (found_of found.now)) (codes "base"))
        (is_given (rows_of (found_of found.now)) (codes "hosts")) ≡ []) }
    ensures kind { IfErr result (λ kind.
        MayHaveNumber (rows_of (found_of found.now)) (codes "base") BASE.2
        → IsAmong kind (choice_fault (is_given (rows_of (found_of found.now)) (codes "base"))
        (is_given (rows_of (found_of found.now)) (codes "hosts")))) }
{
    match (number_if(found, &BASE), text_of(found, HOSTS.0)) {
        (Some(Some(base)), None) => Ok(Peers::Base(base as u16)),
        (Some(None), Some(hosts)) => Ok(Peers::Hosts(hosts)),
        (Some(Some(_)), Some(_)) => Err(ErrorKind::ArgumentConflict),
        _ => Err(ErrorKind::MissingRequiredArgument),
    }
}

/// The file of the key, and whether the run is continued. With hosts either a key is required, or
/// the flag that the run has no key. Both are never allowed.
fn run_of<'a>(found: &ArgMatches<'a>) -> Result<Run<'a>, ErrorKind>
    ensures run { IfOk result (IsRun (rows_of (found_of found.now))) }
    ensures sound { IfOk result (λ run.
        sealing_fault (is_given (rows_of (found_of found.now)) (codes "hosts"))
        (is_given (rows_of (found_of found.now)) (codes "key"))
        (is_set (rows_of (found_of found.now)) (codes "unsealed")) ≡ []) }
    ensures kind { IfErr result (λ kind. IsAmong kind
        (sealing_fault (is_given (rows_of (found_of found.now)) (codes "hosts"))
        (is_given (rows_of (found_of found.now)) (codes "key"))
        (is_set (rows_of (found_of found.now)) (codes "unsealed")))) }
{
    let key = text_of(found, KEY.0);
    let hosts = text_of(found, HOSTS.0);
    match (key.is_some(), is_set(found, UNSEALED.0)) {
        (true, true) => Err(ErrorKind::ArgumentConflict),
        (false, false) if hosts.is_some() => Err(ErrorKind::MissingRequiredArgument),
        _ => Ok(Run {
            key,
            is_continued: is_set(found, CONTINUE.0),
        }),
    }
}

/// The node with these peers, this run and the matched values.
fn with_peers<'a>(found: &ArgMatches<'a>, peers: Peers<'a>, run: Run<'a>) -> Option<OneNode<'a>>
    requires peers { ArePeers (rows_of (found_of found.now)) peers }
    requires run { IsRun (rows_of (found_of found.now)) run }
    ensures some { IfSome result (λ node.
        IsOneNode (rows_of (found_of found.now)) node.me node.peers node.patience node.run) }
    ensures none { IfNone result (¬ HasOneNode (rows_of (found_of found.now))) }
{
    let me = number_of(found, &ME)? as u8;
    let patience = patience_of(found)?;
    Some(OneNode {
        me,
        peers,
        patience,
        run,
    })
}

/// The number of milliseconds that a turn waits, if it was given.
fn patience_of(found: &ArgMatches<'_>) -> Option<Option<u16>>
    ensures some { IfSome result
        (IsNumberIf (rows_of (found_of found.now)) (codes "patience") PATIENCE.2) }
    ensures none { IfNone result
        (¬ MayHaveNumber (rows_of (found_of found.now)) (codes "patience") PATIENCE.2) }
{
    match number_if(found, &PATIENCE)? {
        Some(patience) => Some(Some(patience as u16)),
        None => Some(None),
    }
}

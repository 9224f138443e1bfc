//! What a vote decides.
ghost use Rattle.std.specs.Prelude.{◌≡◌, ◌<◌, IfOk, length, option_and_then, option_map};
ghost use Rattle.ballots.specs.Support.{set_of};
ghost use Rattle.protocol.specs.Step.{facts_named};
ghost use Rattle.simulator.specs.inside.Deciding.{
  claim_voted,
  decision,
  makes_majority,
  value_under,
  voted_by,
  voted_in,
  voters_in,
};

use ballots::{Body, Fact, Message, Tally, Weights};
use claims::Claim;
use faults::Memory;
use node::{MemberStep, Node, PreparedStep};
use package_record::Build;
use pkgpath::PkgPath;
use stable_record::MemDisk;
use std::alloc::Global;
use wire::SENDER_PLACE;
use world::{DatagramBytes, Datagrams};

/// The claim that the message votes for, if it is a vote.
fn claim_of(message: &Message) -> Option<Claim>
    ensures { result ≡ claim_voted message.now.body }
{
    match &message.body {
        Body::Vote(claim) => Some(*claim),
        _ => None,
    }
}

/// The members that sent this vote. The votes of two members for one claim differ only in the
/// sender.
fn voters(alloc: Global, weights: &Weights, sent: &Datagrams, text: &[u8]) -> Result<Tally, Memory>
    requires { SENDER_PLACE < length text.now }
    ensures weights { IfOk result (λ tally. tally.weights ≡ weights.now) }
    ensures voters { IfOk result (λ tally. set_of tally
        ≡ voters_in weights.now sent.now text.now) }
{
    let mut vote = DatagramBytes::new(text.to_vec(alloc)?);
    let mut tally = Tally::new(weights);
    for member in 0..weights.len() as u8 {
        vote.put(SENDER_PLACE, member);
        if sent.contains(&vote) {
            tally.join(member);
        }
    }
    Ok(tally)
}

/// Whether this member's vote makes a majority that didn't exist before. A sender that is not a
/// member makes none.
fn makes_majority(mut tally: Tally, sender: u8) -> bool
    ensures { result ≡ makes_majority tally.weights (set_of tally) sender }
{
    if sender as usize >= tally.weights().len() {
        return false;
    }
    let was_majority = tally.is_majority();
    tally.join(sender);
    tally.is_majority() && !was_majority
}

/// The build that the fact is a vote for, under the claim.
fn voted_in(fact: &Fact, claim: Claim) -> Option<&Build>
    ensures { option_map (λ build. build.now) result ≡ voted_in claim fact.now }
{
    match fact {
        Fact::Voted(under, build) => { if *under == claim { Some(build) } else { None } }
        _ => None,
    }
}

/// The build of the node's last vote for the unit that the path names, if that vote is under the
/// claim.
fn voted_last<'a>(node: &'a Node<'_, MemDisk>, path: &PkgPath, claim: Claim) -> Option<&'a Build>
    ensures { option_map (λ build. build.now) result
        ≡ option_and_then (value_under claim)
        (facts_named node.entry.now.node.member path.now).voted }
{
    match node.voted(path) {
        Some((under, build)) if *under == claim => Some(build),
        _ => None,
    }
}

/// The build that the step votes for under the claim: by the note of the step, or by an earlier
/// one.
fn voted<'a>(
    node: &'a Node<'_, MemDisk>,
    step: &'a MemberStep,
    message: &Message,
    claim: Claim,
) -> Option<&'a Build>
    ensures { option_map (λ build. build.now) result
        ≡ voted_by node.entry.now.node.member step.entry.now.note message.now.path claim }
{
    match step.note() {
        Some(note) => voted_in(&note.fact, claim),
        None => voted_last(node, &message.path, claim),
    }
}

/// The build that the node's step decides, if it does: with the vote that it sends, a majority of
/// the members has sent votes for the claim, and before it had not.
pub(crate) fn decided<'a>(
    alloc: Global,
    weights: &Weights,
    sent: &Datagrams,
    node: &'a Node<'_, MemDisk>,
    ready: &'a PreparedStep,
) -> Result<Option<&'a Build>, Memory>
    ensures { IfOk result (λ build. option_map (λ b. b.now) build
        ≡ decision weights.now sent.now node.entry.now.node.member
        ready.entry.now.step) }
{
    let Some(step) = ready.step() else {
        return Ok(None);
    };
    let Some(message) = step.sends().message() else {
        return Ok(None);
    };
    let Some(claim) = claim_of(message) else {
        return Ok(None);
    };
    let Some((_, vote)) = ready.sends().get(0) else {
        return Ok(None);
    };
    let tally = voters(alloc, weights, sent, vote)?;
    if makes_majority(tally, message.sender) {
        Ok(voted(node, step, message, claim))
    } else {
        Ok(None)
    }
}

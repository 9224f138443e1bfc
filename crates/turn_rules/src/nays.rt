//! What nays say about an open claim.
ghost use Rattle.std.specs.Prelude.{◌≡◌, IfOk, None, if◌then◌else◌};
ghost use Rattle.std.specs.Str.{bytes_eq};
ghost use Rattle.turn_rules.specs.Nays.{above_after, in_the_way, nay_in, with_nay};
ghost use Rattle.wire.specs.Reading.{datagram_of};

use ballots::{Body, Message};
use claims::{Claim, is_above};
use faults::Memory;
use member::Member;
use pkgpath::PkgPath;
use std::alloc::Global;
use wire::{Datagram, WireFault, decode};

/// The greatest round of the greater claims that block the member's open claim, after these bytes
/// were received.
#[tactic(auto, using(crate::proofs::Keeping::claim_is))]
pub(crate) fn above_after(
    alloc: Global,
    member: &Member<'_>,
    above: Option<u64>,
    bytes: &[u8],
) -> Result<Option<u64>, Memory>
    ensures { IfOk result
        (λ after. after ≡ above_after member.now member.now.claim above bytes.now) }
{
    let Some(open) = member.open_claim() else {
        return Ok(above);
    };
    let claim = open.claimer.claim();
    let nay = nay_in(alloc, member.units().name(open.unit), claim, bytes)?;
    Ok(with_nay(claim, above, nay))
}

/// The claim that blocks this one for the named unit, if the bytes name one.
fn nay_in(
    alloc: Global,
    name: &PkgPath,
    claim: Claim,
    bytes: &[u8],
) -> Result<Option<Claim>, Memory>
    ensures { IfOk result (λ nay. nay ≡ nay_in name.now claim (datagram_of bytes.now)) }
{
    match decode(alloc, bytes) {
        Ok(Datagram::Whole(message)) => Ok(in_the_way(name, claim, &message)),
        Err(WireFault::Memory) => Err(Memory),
        _ => Ok(None),
    }
}

/// The claim that blocks this one for the named unit, if the message names one.
fn in_the_way(name: &PkgPath, claim: Claim, message: &Message) -> Option<Claim>
    ensures { result ≡ (if bytes_eq message.now.path name.now
        then in_the_way claim message.now.body else None) }
{
    match &message.body {
        Body::Nay(turned_down, promised) if message.path == *name && *turned_down == claim => {
            Some(*promised)
        }
        _ => None,
    }
}

/// The greatest round of the greater claims that block this one, with one more claim.
fn with_nay(claim: Claim, above: Option<u64>, nay: Option<Claim>) -> Option<u64>
    ensures { result ≡ with_nay claim above nay }
{
    match nay {
        Some(promised) if is_above(promised, Some(claim)) => {
            Some(above.unwrap_or(0).max(promised.round))
        }
        _ => above,
    }
}

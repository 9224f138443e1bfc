//! The receivers of messages.
ghost use Rattle.std.specs.Prelude.{◌≡◌, ◌==◌, ◌∷◌, [], filter, length, not};
ghost use Rattle.std.specs.List.{range_with_len};
ghost use Rattle.ballots.specs.Support.{set_of};

use arrayvec::ArrayVec;
use ballots::{Tally, Weights};

/// All members, in ascending order.
pub(crate) fn everyone(weights: &Weights) -> ArrayVec<u8, 9>
    ensures { result.items ≡ range_with_len 0 (length weights.now) }
{
    let mut members = ArrayVec::new();
    for member in 0..weights.len() as u8 {
        members.push(member);
    }
    members
}

/// All members but this one, in ascending order.
pub(crate) fn others(weights: &Weights, me: u8) -> ArrayVec<u8, 9>
    ensures { result.items ≡ filter (λ k. not (k == me)) (range_with_len 0 (length weights.now)) }
{
    let mut members = ArrayVec::new();
    for member in 0..weights.len() as u8 {
        if member != me {
            members.push(member);
        }
    }
    members
}

/// The members that did not join, in ascending order.
pub(crate) fn missing(weights: &Weights, tally: &Tally) -> ArrayVec<u8, 9>
    ensures { result.items ≡
        filter (λ k. not (set_of tally.now k)) (range_with_len 0 (length weights.now)) }
{
    let mut members = ArrayVec::new();
    for member in 0..weights.len() as u8 {
        if !tally.has(member) {
            members.push(member);
        }
    }
    members
}

/// Only this member.
pub(crate) fn one(member: u8) -> ArrayVec<u8, 9>
    ensures { result.items ≡ member ∷ [] }
{
    let mut members = ArrayVec::new();
    members.push(member);
    members
}

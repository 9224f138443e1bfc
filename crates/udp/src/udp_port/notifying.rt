//! Outgoing notices of a port: they are queued for the other members.
ghost use Rattle.std.specs.Prelude.{◌≡◌, ◌++◌, ◌∷◌, [], IfSome, List, false, length, min, true, ℕ};
ghost use Rattle.udp.specs.Notifying.{AreNotified, IsNotified};
ghost use Rattle.udp.specs.Ways.{in_line};

use crate::line::Line;
use crate::sockets::{Seat, Way, has_seat, way_of};
use crate::tallies::Tallies;
use std::alloc::Global;
use std::net::SocketAddr;

/// The most members to whom a notice is sent.
const MOST_MEMBERS: usize = 255;

/// Queues the bytes for each member whose node isn't here, if the sender's is. For a member for
/// whom they are lost they count as unsent. Without bytes all are lost.
pub(crate) fn notify_each(
    alloc: Global,
    seats: &[Seat],
    addresses: &[SocketAddr],
    from: u8,
    bytes: Option<&[u8]>,
    leaving: &mut Line<Way>,
    tallies: &mut Tallies,
)
    ensures { (text : List ℕ) → IfSome bytes.entry (λ b. b.now ≡ text)
        → AreNotified seats.now addresses.now from text (min (length addresses.now) 255)
        (record { waiting = leaving.old.waiting.items; tallies = tallies.old.members.items })
        (record { waiting = leaving.new.waiting.items; tallies = tallies.new.members.items }) }
{
    let members = addresses.len().min(MOST_MEMBERS) as u8;
    for to in 0..members {
        notify(alloc, seats, addresses, from, to, bytes, leaving, tallies);
    }
}

/// Queues the bytes for the member, if the sender's node is here and the member's isn't. If they
/// are lost, they count as unsent.
fn notify(
    alloc: Global,
    seats: &[Seat],
    addresses: &[SocketAddr],
    from: u8,
    to: u8,
    bytes: Option<&[u8]>,
    leaving: &mut Line<Way>,
    tallies: &mut Tallies,
)
    ensures { (text : List ℕ) → IfSome bytes.entry (λ b. b.now ≡ text)
        → IsNotified seats.now addresses.now from to text
        (record { waiting = leaving.old.waiting.items; tallies = tallies.old.members.items })
        (record { waiting = leaving.new.waiting.items; tallies = tallies.new.members.items }) }
{
    let Some(way) = way_of(seats, addresses, from, to) else {
        return;
    };
    if has_seat(seats, to) {
        return;
    }
    if !is_put(alloc, way, bytes, leaving) {
        tallies.note_unsent(to as usize);
    }
}

/// Queues the bytes, if there are any, with the way, and returns whether there was room and memory
/// for them.
fn is_put(alloc: Global, way: Way, bytes: Option<&[u8]>, leaving: &mut Line<Way>) -> bool
    ensures put { result ≡ true → (text : List ℕ) → IfSome bytes.entry (λ b. b.now ≡ text)
        → in_line leaving.new.waiting.items
        ≡ in_line leaving.old.waiting.items ++ (way, text) ∷ [] }
    ensures lost { result ≡ false → leaving.new.waiting.items ≡ leaving.old.waiting.items }
{
    match bytes {
        Some(bytes) => leaving.put(alloc, way, bytes).unwrap_or(false),
        None => false,
    }
}

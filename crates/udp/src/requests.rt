//! The last requests that were received.
ghost use Rattle.std.specs.Prelude.{◌≡◌, ◌<◌, IfOk, None, Some, length, replicate, set};
ghost use Rattle.std.specs.List.{list_any};
ghost use Rattle.udp.specs.Requests.{behind, is_again, is_request, request_in};

use faults::Memory;
use sha2::{Digest, Sha256};
use std::alloc::Global;
use std::time::Instant;

/// The minimum time between two equal requests, in nanoseconds: a tenth less than a second, so that
/// a member that asks each second is always heard.
const PAUSE: u128 = 900_000_000;

/// The number of requests that are remembered.
const MOST_KNOWN: usize = 512;

/// A received request, and its time.
#[derive(Clone, Copy)]
pub struct Request {
    /// The node that it is for.
    pub node: u8,
    /// The member whose address it came from.
    pub member: usize,
    pub at: Instant,
    /// SHA-256 of its bytes, as they came.
    pub digest: [u8; 32],
}

/// The bytes as a request from the member's address for the node: if they begin with `front` and
/// the time is known.
pub fn request_in(
    front: Option<[u8; 5]>,
    now: Option<Instant>,
    node: u8,
    member: usize,
    bytes: &[u8],
) -> Option<Request>
    ensures { result ≡ request_in front now node member bytes.now }
{
    let at = now?;
    if !is_request(front, bytes) {
        return None;
    }
    Some(Request {
        node,
        member,
        at,
        digest: Sha256::digest(bytes),
    })
}

/// Whether the bytes begin as a request does.
fn is_request(front: Option<[u8; 5]>, bytes: &[u8]) -> bool
    ensures { result ≡ is_request front bytes.now }
{
    match front {
        Some(front) => bytes.starts_with(&front),
        None => false,
    }
}

/// A ring of the last requests that were queued.
#[derive(Drop)]
pub struct Requests {
    known: Vec<Option<Request>>,
    /// The next place: that of the oldest request, once all places are taken.
    next: usize,
    ghost many: { length known.items ≡ 512 },
    ghost placed: { next < 512 },
}

impl Requests {
    /// An empty ring.
    pub fn new(alloc: Global) -> Result<Requests, Memory>
        ensures { IfOk result (λ requests. requests.known.items ≡ replicate 512 None) }
    {
        let none: Option<Request> = None;
        Ok(Requests {
            known: vec![in alloc; none; MOST_KNOWN]?,
            next: 0,
        })
    }

    /// Whether the request repeats one of these too soon.
    pub fn has(&self, request: &Request) -> bool
        ensures { result ≡ list_any (is_again request.now) self.now.known.items }
    {
        self.known.iter().any(|known| is_again(request, known))
    }

    /// Notes a request, at the place of the oldest.
    pub fn note(&mut self, request: Request)
        ensures known { self.new.known.items
            ≡ set self.old.known.items self.old.next (Some request) }
        ensures next { self.new.next ≡ behind self.old.next }
    {
        self.known[self.next] = Some(request);
        self.next = (self.next + 1) % MOST_KNOWN;
    }
}

/// Whether the request repeats the known one too soon.
fn is_again(request: &Request, known: &Option<Request>) -> bool
    ensures { result ≡ is_again request.now known.now }
{
    match known {
        Some(known) => {
            known.node == request.node
                && known.member == request.member
                && known.digest == request.digest
                && request.at.duration_since(known.at).as_nanos() < PAUSE
        }
        None => false,
    }
}

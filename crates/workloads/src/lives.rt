//! Traces of three nodes that build packages, each of which is claimed, promised, built, voted for
//! and held by all, one after the other.
use crate::numbers::Numbers;
use crate::tree::Package;
use std::alloc::Global;
use std::io;
use std::io::Write;

/// A trace, event by event, as text.
#[derive(Drop)]
pub struct Trace {
    text: Vec<u8>,
    /// How many datagrams were sent so far.
    sent: u64,
    /// Which datagrams came to which nodes, in turn.
    delivered: Vec<(u64, u8)>,
}

/// The nodes that build a package: who claims it, who votes with it, and the third.
#[derive(Clone, Copy)]
pub struct Roles {
    claimer: u8,
    voter: u8,
    other: u8,
}

impl Roles {
    pub fn next(numbers: &mut Numbers) -> Roles {
        let (claimer, voter, other) = match numbers.below(6) {
            0 => (0, 1, 2),
            1 => (0, 2, 1),
            2 => (1, 0, 2),
            3 => (1, 2, 0),
            4 => (2, 0, 1),
            _ => (2, 1, 0),
        };
        Roles {
            claimer,
            voter,
            other,
        }
    }
}

impl Trace {
    pub fn new(alloc: Global) -> io::Result<Trace> {
        Ok(Trace {
            text: Vec::from_slice(alloc, b"{\"events\":[")?,
            sent: 0,
            delivered: Vec::new(alloc),
        })
    }

    /// The whole text.
    pub fn finish(self) -> io::Result<Vec<u8>> {
        let Trace { mut text, .. } = self;
        // the last event ends with a comma
        let _comma = text.pop();
        text.extend_from_slice(b"],\"members\":3}")?;
        Ok(text)
    }

    /// So many times a datagram comes once more to a node to which it came, or node 0 says again
    /// what its open claim waits for.
    pub fn again(&mut self, numbers: &mut Numbers, times: u64) -> io::Result<()> {
        for _turn in 0..times {
            let count = self.delivered.len();
            let place = numbers.below(count.saturating_add(count / 7).max(1));
            match self.delivered.get(place) {
                Some((datagram, node)) => {
                    let (datagram, node) = (*datagram, *node);
                    self.put_delivery(datagram, node)?;
                }
                None => self
                    .text
                    .extend_from_slice(b"{\"event\":\"nudge\",\"node\":0},")?,
            }
        }
        Ok(())
    }

    pub fn claim(&mut self, node: u8, path: &str) -> io::Result<()> {
        write!(
            self.text,
            "{{\"above\":0,\"event\":\"claim\",\"host\":3,\"node\":{node},\"path\":\"{path}\"}},"
        )
    }

    fn deliver(&mut self, datagram: u64, node: u8) -> io::Result<()> {
        self.delivered.push((datagram, node))?;
        self.put_delivery(datagram, node)
    }

    fn put_delivery(&mut self, datagram: u64, node: u8) -> io::Result<()> {
        write!(
            self.text,
            "{{\"datagram\":{datagram},\"event\":\"deliver\",\"node\":{node}}},"
        )
    }

    /// The package is built, and has one file.
    fn built(&mut self, node: u8, path: &str, file: &[u8]) -> io::Result<()> {
        let alloc: Global = *self.text.allocator();
        self.text
            .extend_from_slice(b"{\"event\":\"built\",\"files\":[{\"hex\":\"")?;
        let digits = hex::encode(alloc, file)?;
        self.text.extend_from_slice(digits.as_bytes())?;
        write!(
            self.text,
            "\",\"name\":\"x\"}}],\"node\":{node},\"path\":\"{path}\"}},"
        )
    }

    /// The life of a package that is one build, whose message goes out in so many pieces.
    pub fn life(
        &mut self,
        roles: Roles,
        package: &Package,
        file: &[u8],
        pieces: u64,
    ) -> io::Result<()> {
        let Roles {
            claimer,
            voter,
            other,
        } = roles;
        let path = package.path.as_str();
        self.claim(claimer, path)?;
        let asked = self.send(1);
        self.deliver(asked, claimer)?;
        self.deliver(asked, voter)?;
        for _promise in 0..2 {
            let sent = self.send(1);
            self.deliver(sent, claimer)?;
        }
        self.built(claimer, path, file)?;
        let proposed = self.send(pieces);
        self.deliver_all(proposed, pieces, &[claimer, voter])?;
        let voted = self.send(2);
        self.deliver_all(voted, 2, &[claimer])?;
        let held = self.send(pieces);
        self.deliver_all(held, pieces, &[voter, other])
    }

    /// So many datagrams in a row come to each of the nodes.
    fn deliver_all(&mut self, first: u64, count: u64, nodes: &[u8]) -> io::Result<()> {
        for datagram in first..first.saturating_add(count) {
            for node in nodes {
                self.deliver(datagram, *node)?;
            }
        }
        Ok(())
    }

    /// So many datagrams are sent, and the number of the first of them is given.
    fn send(&mut self, count: u64) -> u64 {
        let first = self.sent;
        self.sent = first.saturating_add(count);
        first
    }
}

//! The members that promised or voted so far.
ghost use Rattle.std.specs.Prelude.{◌≡◌, IfOk};
ghost use Rattle.claims.specs.Quorums.{is_majority};
ghost use Rattle.ballots.specs.Support.{IsMember, joined_by, of_nobody, set_of};

use crate::Weights;
use arrayvec::ArrayVec;
use faults::Memory;
use std::marker::Model;

/// The members that joined, without repetition. Contracts see the weight of each member, and the
/// members that joined, in the order in which they did.
#[derive(Drop)]
pub struct Tally {
    weights: Weights,
    joined: ArrayVec<u8, 9>,
}

impl Model for Tally {
    ghost use Rattle.ballots.specs.Support.{Support};

    ghost Value = { Support };

    ghost use Rattle.ballots.specs.inside.Tally.{HoldsMembersOnce, support_of};

    ghost view = { support_of };

    ghost invariant = { HoldsMembersOnce };
}

impl Tally {
    /// An empty tally.
    pub fn new(weights: &Weights) -> Tally
        ensures { result ≡ of_nobody weights.now }
    {
        Tally {
            weights: weights.copy(),
            joined: ArrayVec::new(),
        }
    }

    /// Adds the member. It counts once, however often it joins.
    pub fn join(&mut self, member: u8)
        requires { IsMember member }
        ensures { self.new ≡ joined_by self.old member }
    {
        if !self.joined.contains(&member) {
            self.joined.push(member);
        }
    }

    /// The tally with this member, which counts once.
    pub fn with(&self, member: u8) -> Result<Tally, Memory>
        requires { IsMember member }
        ensures { IfOk result (λ tally. tally ≡ joined_by self.now member) }
    {
        let joined = self.joined.clone()?;
        let mut tally = Tally {
            weights: self.weights.copy(),
            joined,
        };
        tally.join(member);
        Ok(tally)
    }

    /// An empty tally with the same weights.
    pub fn emptied(&self) -> Tally
        ensures { result ≡ of_nobody self.now.weights }
    {
        Tally::new(&self.weights)
    }

    /// The members' weights.
    pub fn weights(&self) -> &Weights
        ensures { result.now ≡ self.now.weights }
    {
        &self.weights
    }

    /// Whether the member joined. The others are asked again.
    pub fn has(&self, member: u8) -> bool
        ensures { result ≡ set_of self.now member }
    {
        self.joined.contains(&member)
    }

    /// Whether the members that joined are a majority.
    pub fn is_majority(&self) -> bool
        ensures { result ≡ is_majority self.now.weights (set_of self.now) }
    {
        claims::is_majority(self.weights.as_slice(), self.joined.as_slice())
    }
}

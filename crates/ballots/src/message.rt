//! The messages that members send each other about a unit, and their notes.
ghost use Rattle.std.specs.Prelude.{◌≡◌, IfOk};

use crate::Value;
use crate::value::copy_of_vote;
use claims::Claim;
use faults::Memory;
use package_record::{Build, PkgPath};

/// The contents of a message about its unit.
#[derive(Drop)]
pub enum Body<V = Build> {
    /// The claim's member asks for a promise.
    Offer(Claim),
    /// The sender will vote for no claim below this one. The message has its last vote, if it has
    /// cast one.
    Promise(Claim, Option<(Claim, V)>),
    /// The claim's member asks for a vote for the value.
    Propose(Claim, V),
    /// The sender votes for the claim's proposal.
    Vote(Claim),
    /// The value is agreed.
    Agreed(V),
    /// The sender asks for the agreed value.
    Ask,
    /// The claim that the sender rejects, and the one that it has promised.
    Nay(Claim, Claim),
}

/// A message of a member to another about a unit.
#[derive(Drop)]
pub struct Message<V = Build> {
    /// The number of the sender.
    pub sender: u8,
    /// The digest of the sender's tree.
    pub tree: [u8; 32],
    /// The name of the unit.
    pub path: PkgPath,
    /// The contents about that unit.
    pub body: Body<V>,
}

/// What a member still has to know of a unit after a stop.
#[derive(Drop)]
pub enum Fact<V = Build> {
    /// It opened a claim of this round.
    Opened(u64),
    /// It promised the claim.
    Promised(Claim),
    /// It voted for the value, under the claim.
    Voted(Claim, V),
    /// The value is agreed.
    Held(V),
}

/// What a member writes to its log about a unit before it answers.
#[derive(Drop)]
pub struct Note<V = Build> {
    /// The name of the unit.
    pub path: PkgPath,
    /// The fact about that unit.
    pub fact: Fact<V>,
}

impl<V: Value> Body<V> {
    /// An equal body. Fails only if memory runs out.
    pub fn copy(&self) -> Result<Body<V>, Memory>
        ensures { IfOk result (λ body. body ≡ self.now) }
    {
        match self {
            Body::Offer(claim) => Ok(Body::Offer(*claim)),
            Body::Promise(claim, vote) => {
                let vote = copy_of_vote(vote.as_ref())?;
                Ok(Body::Promise(*claim, vote))
            }
            Body::Propose(claim, value) => {
                let value = value.copy()?;
                Ok(Body::Propose(*claim, value))
            }
            Body::Vote(claim) => Ok(Body::Vote(*claim)),
            Body::Agreed(value) => {
                let value = value.copy()?;
                Ok(Body::Agreed(value))
            }
            Body::Ask => Ok(Body::Ask),
            Body::Nay(claim, promised) => Ok(Body::Nay(*claim, *promised)),
        }
    }
}

impl<V: Value> Message<V> {
    /// An equal message. Fails only if memory runs out.
    pub fn copy(&self) -> Result<Message<V>, Memory>
        ensures { IfOk result (λ message. message ≡ self.now) }
    {
        let path = self.path.copy()?;
        let body = self.body.copy()?;
        Ok(Message {
            sender: self.sender,
            tree: self.tree,
            path,
            body,
        })
    }
}

impl<V: Value> Fact<V> {
    /// An equal fact. Fails only if memory runs out.
    pub fn copy(&self) -> Result<Fact<V>, Memory>
        ensures { IfOk result (λ fact. fact ≡ self.now) }
    {
        match self {
            Fact::Opened(round) => Ok(Fact::Opened(*round)),
            Fact::Promised(claim) => Ok(Fact::Promised(*claim)),
            Fact::Voted(claim, value) => {
                let value = value.copy()?;
                Ok(Fact::Voted(*claim, value))
            }
            Fact::Held(value) => {
                let value = value.copy()?;
                Ok(Fact::Held(value))
            }
        }
    }
}

impl<V: Value> Note<V> {
    /// An equal note. Fails only if memory runs out.
    pub fn copy(&self) -> Result<Note<V>, Memory>
        ensures { IfOk result (λ note. note ≡ self.now) }
    {
        let path = self.path.copy()?;
        let fact = self.fact.copy()?;
        Ok(Note { path, fact })
    }
}

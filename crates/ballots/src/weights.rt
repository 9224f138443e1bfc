//! The weights of members.
ghost use Rattle.std.specs.Prelude.{◌≡◌, ◌≤◌, ◌↔◌, false, None, IfOk, IsErr, length};
ghost use Rattle.std.specs.List.{list_all};
ghost use Rattle.ballots.specs.Weights.{AreWeights, are_weights, is_weight};

use claims::MEMBERS;
use faults::Fault;
use std::marker::Model;
use thiserror::Error;

/// The maximum weight of a member. The minimum is 1.
pub const GREATEST_WEIGHT: u8 = 100;

/// Invalid weights: there is no member, there are more than nine, or a weight is not 1 to 100.
#[derive(Clone, Copy, Debug, PartialEq, Eq, Error)]
#[error("the weights of the members are invalid")]
pub struct BadWeights;

impl Fault for BadWeights {
    ghost number_of = { λ _. 801 };

    ghost place_of = { λ _. None };

    fn number(&self) -> u32 {
        801
    }

    fn place(&self) -> Option<u64> {
        None
    }
}

/// The weight of each member: one to nine members, each with a weight of 1 to 100. The weight of
/// member k is at place k.
#[derive(Drop)]
pub struct Weights {
    table: [u8; 9],
    count: u8,
}

impl Model for Weights {
    ghost use Rattle.std.specs.Prelude.{List, ℕ};

    ghost Value = { List ℕ };

    ghost use Rattle.ballots.specs.inside.Weights.{AreInTable, in_table};

    ghost view = { in_table };

    ghost invariant = { AreInTable };
}

impl Weights {
    /// The members' weights, the first member's first.
    pub fn new(weights: &[u8]) -> Result<Weights, BadWeights>
        ensures weights { IfOk result (λ w. w ≡ weights.now) }
        ensures bad { IsErr result ↔ (are_weights weights.now ≡ false) }
    {
        if !are_weights(weights) {
            return Err(BadWeights);
        }
        let mut table = [0; 9];
        table[..weights.len()].copy_from_slice(weights);
        Ok(Weights {
            table,
            count: weights.len() as u8,
        })
    }

    /// The weights, the first member's first.
    pub fn as_slice(&self) -> &[u8]
        ensures weights { result.now ≡ self.now }
        ensures are_weights { AreWeights self.now }
    {
        &self.table[..self.count as usize]
    }

    /// The number of members: one to nine.
    pub fn len(&self) -> usize
        ensures members { result ≡ length self.now }
        ensures few { (1 ≤ result) × (result ≤ 9) }
    {
        self.count as usize
    }

    /// Equal weights. Does not allocate.
    pub fn copy(&self) -> Weights
        ensures { result ≡ self.now }
    {
        Weights {
            table: self.table,
            count: self.count,
        }
    }
}

/// Whether these are valid weights of one to nine members.
fn are_weights(weights: &[u8]) -> bool
    ensures { result ≡ are_weights weights.now }
{
    !weights.is_empty() && weights.len() <= usize::from(MEMBERS) && all_weigh(weights)
}

/// Whether each is a valid weight.
fn all_weigh(weights: &[u8]) -> bool
    ensures { result ≡ list_all is_weight weights.now }
{
    for weight in weights {
        if !is_weight(*weight) {
            return false;
        }
    }
    true
}

/// Whether the weight is valid.
fn is_weight(weight: u8) -> bool
    ensures { result ≡ is_weight weight }
{
    weight >= 1 && weight <= GREATEST_WEIGHT
}

//! What decides what a node does if it has nothing to answer and received nothing.

use crate::Wish;

/// What decides what a node does in a turn in which it has nothing to answer and received nothing.
#[derive(Drop)]
pub enum Initiative {
    /// The node itself: it renews or nudges its open claim, or else claims the least free package.
    Own,
    /// A scheduler: the node does what is wished, or else continues with its open claim.
    Scheduled(Option<Wish>),
}

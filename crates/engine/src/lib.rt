//! Which packages of a tree are ignored, which of the others one build makes, and the letters of
//! all packages as more and more are agreed.
#![tactic(auto)]

mod counting;
mod engine;
mod first;
mod gathering;
mod ignored;
mod lacks;
mod laws;
mod letters;
mod making;
mod queueing;
mod row;
mod search;
mod turned;
mod unit_laws;
mod units;

pub use crate::engine::Engine;
pub use crate::ignored::marks_of;
pub use crate::laws::{
    each_is_counted_once, each_package_has_a_letter, ignored_whatever_is_agreed,
    only_one_letter_applies, queued_together, run_closure_is_held, same_held_same_letters,
    stays_installable,
};
pub use crate::making::paths_at;
pub use crate::unit_laws::{
    ignored_spreads, names_tell_units, only_one_division, paths_are_found, singles_stand_alone,
    unit_unless_ignored, units_are_well_made,
};
pub use crate::units::Units;
pub use listing::Tree;

/// The state of a package, as a letter of dpb(1)'s status line. Exactly one letter applies.
#[derive(Clone, Copy, Debug, PartialEq, Eq, Hash)]
pub enum Letter {
    /// To build: neither held nor ignored, and something that its unit needs to be built is not
    /// installable.
    T,
    /// Queued, ready to be built: neither held nor ignored, and everything that its unit needs to
    /// be built is installable.
    Q,
    /// Built: held, but not installable.
    B,
    /// Installable: it is in some set of held packages that contains all run dependencies of its
    /// members.
    I,
    /// Ignored and not held: it is in the least set that contains each marked package and each
    /// package with a build or run dependency in the set. `Tree::marked` says which packages are
    /// marked; a dependency that isn't listed marks its package.
    Ignored,
}

/// The number of packages with each letter. Each package of the tree is counted once.
#[derive(Clone, Copy, Debug, PartialEq, Eq)]
pub struct Counts {
    pub i: u32,
    pub b: u32,
    pub q: u32,
    pub t: u32,
    pub ignored: u32,
}

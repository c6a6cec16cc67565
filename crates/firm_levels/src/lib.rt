//! The types by which one crate proposes a round and another judges it, so that neither rests on the other: rents in
//! levels, and the `Work` in which both count. For each machine, and for waiting, the rents have an amount and behind
//! it a number at each time. `specs/Levels.antt` of firm_rents says what a time is, and how they compare.
//!
//! A proposer of firm_proposals writes `LevelRents`, and so does firm_rents for a ladder; `shows_first` of firm_rents
//! reads them. No clause asks anything of them: `shows_first` itself checks the form that is described here. A `Work`
//! never exceeds its allowance, and no call sets its counts back (`specs/Work.antt`).
#![tactic(auto)]

mod work;

pub use work::{Allowance, Work};

/// A class of places: at its time their rents have its number, else they are those of its parent's. A rent of the first
/// class has 1 at each time.
#[derive(Clone, Copy, PartialEq, Eq)]
pub struct Class {
    pub parent: u32,
    pub time: u32,
    pub number: u32,
}

/// Rents in levels: for each machine an amount, at most 2^40, followed by the numbers of a class. Waiting has an
/// amount of 0.
#[derive(Drop)]
pub struct LevelRents {
    pub amounts: Vec<u64>,
    /// The class of each machine and, last, that of waiting.
    pub places: Vec<u32>,
    /// Each but the first stands behind its parent, and has a later time than that unless it is the first.
    pub classes: Vec<Class>,
}

//! A list from which an item leaves without the others moving: `Sequence`.
//!
//! Items lie in slots, in order. A removal leaves a gap, and `specs/Kept.antt` says which list the slots and the
//! numbers of the gaps make. A place is found in steps in proportion to the logarithm of the number of gaps, in one
//! step while there are none. The gaps are closed, in one pass, once the room for their numbers is used.
#![tactic(auto)]

mod gaps;
mod sequence;

pub use sequence::Sequence;

//! A state (docs/FORMATS.md) with some of its tenants alone, and the state that two make up.
//!
//! A `Saved` as firm_saved has it. `cut_state`, `joined_state` and `book_in`, the book that places have for a name, are
//! in `specs/Parts.antt`.
//!
//! # What is proved
//!
//! - `cut_to`: the state with the tenants of some names alone: each other has left its place, whose count stays
//! - `join`: the state once the tenants of another have come, each to the place that an admission would give it; else
//!   the first that finds none, and why
//! - `has_tenant`: whether a tenant of a name stays somewhere
//!
//! By the law `books_are_kept` (`specs/Laws.antt`) a cut state has the books of the named tenants alone, and a joined
//! one those of both, which have no tenant in common. No call takes memory.
#![tactic(auto)]

mod cutting;
mod joining;
mod laws;

pub use cutting::{cut_to, has_tenant};
pub use joining::{JoinFault, join};
pub use laws::books_are_kept;

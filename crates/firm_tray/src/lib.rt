//! The *tray* is the way back of a tenant whose round is solved on another thread, opened for that round. Its answering
//! side travels with the tenant, its asking side stays with the asker; no lock guards the tenant.
//!
//! The contracts are in `src/sides.rt`; `specs/Rule.antt` has a tray's states, `src/protocol.rt` the steps between
//! them. `AskSide::poll` takes no `Wait`, so it never waits. The types rule out a second answer, or polling after the
//! round has returned. A tenant with an equal book may answer. An answering side may be dropped here, but not by a
//! `Job` of firm_rounds.
//!
//! # How it works
//!
//! `wait` looks 1,024 times, and then sleeps on the tray's word while that is 0. `answer` stores 1 and then wakes the
//! sleeper, at most one. The kernel compares the word and suspends the thread in one step, so no wake-up is lost.
#![tactic(auto)]

mod laws;
mod protocol;
mod sides;

pub use laws::trays_are_read_aloud;
pub use protocol::Solved;
pub use sides::{AnswerSide, AskSide, LOOKS_BEFORE_SLEEP, Polled, Spent, Tray};

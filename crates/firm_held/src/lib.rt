//! Answers held until those to all earlier lines are known. `Held` has them in the order of their lines, and the text
//! of those taken off its front, which is still to be written. It knows neither who answers nor when.
//!
//! An answer is known, or waits for a place: for the reply of the tenant there to a command. Several may wait for one
//! place, in their order, so they form a queue for each place. `first_of` finds the first that waits for a
//! place, and `fill` makes it known. A known answer at the front is put after the text by `put_first`, and `write`
//! writes that.
//!
//! # What is proved
//!
//! Each call says how the list and the text change (`specs/Held.antt`). At most 1,024 answers are held, in room
//! that `open` takes. `has_room` also bounds the text of the changes in them: it is false from 4 MB on, by their count
//! `bytes_in`. `push` needs room in the list alone. `specs/Laws.antt` has laws for callers, proved there.
#![tactic(auto)]

mod change_bytes;
mod held;

pub use held::{Held, HeldAnswer};

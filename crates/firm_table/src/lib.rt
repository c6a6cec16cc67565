//! All tenants of a service: the answer to each line, the service on one thread, and the laws by which no tenant's
//! replies depend on another's lines.
//!
//! A service is a list of 64 places (`specs/Places.antt`), each with the *stay* of its tenant: the name, the book that
//! the stay began with, and the commands since. An admission begins with the opening book of its limits. Each line and
//! command has a *mark*: whether memory was refused to it. `specs/Answers.antt` defines the answer to a line and its
//! text, `Output.antt` the output of an input, `Service.antt` what a call reads and writes. They are functions of the
//! places that a service opens with (`ServedFrom`); `Served` is the same for those of a roster. An `Opening`
//! is a roster or a saved state (`specs/Openings.antt`). A `Clerk` has ghost members (`specs/Telling.antt`). A `Table`
//! is its tenants, their rounds, the queue and the workers, changed by an `Event` (`specs/Interleaving.antt`).
//!
//! # What is proved
//!
//! Devices must not have failed before, and the clerk of `serve_lines` must be open, with nothing answered. A refused
//! event of the table (`NotNow`, `NoMemory`) changes nothing; `specs/Fitting.antt` says which events fit.
//!
//! The law `isolation` is about these definitions alone. For lines (`specs/Isolation.antt`):
//!
//! - At every moment a tenant's replies since its admission are those of a service that holds it alone.
//! - A stay has the commands of the tenant's own lines, from the first line (for a row of the roster) or from the
//!   admission until an operator's line for it is obeyed. A refused line of the operator changes nothing.
//! - So services that agree on a tenant's limits, these lines and their marks give it the same replies.
//! - If no answer says that memory was refused, the output is a function of the roster and the bytes read.
//!
//! The law `saved_isolation` says the same of a service that opens with a saved state, with the book that a stay began
//! with in place of its limits (`specs/SavedIsolation.antt`). A roster is such a state, in which each tenant has its
//! opening book.
//!
//! The law `cut_anywhere` (`specs/Cutting.antt`): a service that goes on from the state after some lines gives the
//! later lines the answers that it would have given, with the same numbers, and comes to the same state. So a text can
//! be cut after each line feed, with the same marks, and the outputs of its parts follow each other.
//!
//! For every list of events (`specs/Histories.antt`), in each stay at a place, ended ones too, the replies are the
//! first ones of a tenant alone with the same limits and commands, and all of them once the stay has ended or while the
//! tenant is home. So stays with equal limits that agree up to a command, also in refused memory, have the same reply
//! to it.
//!
//! `serve_one` keeps a piece of 4,096 bytes, one line's cutter and one buffer, which it writes at 4,096 bytes, before
//! each read and at the end, so memory stays constant (docs/results/lines.md) over any input.
#![tactic(auto)]

mod answers;
mod clerk;
mod events;
mod faults;
mod laws;
mod occupants;
mod openings;
mod reading;
mod seats;
mod serving;
mod table;
mod tenants;
mod watching;
mod writing;

pub use answers::LineAnswer;
pub use clerk::Clerk;
pub use events::{Answer, Event};
pub use faults::ServeFault;
pub use laws::{answers_add_up, cut_anywhere, isolation, saved_isolation};
pub use openings::Opening;
pub use reading::{MOST_INPUT, serve_lines};
pub use serving::{serve_one, serve_one_from, serve_to_state};
pub use table::Table;
pub use tenants::Tenants;
pub use watching::{Watcher, serve_watched_from};
pub use writing::write_held;

//! The round queue: tenants on their way to a worker. Each place of the service has a pass to put its rounds, numbered
//! from 1; each worker has a pass to get them. Each ticket put is got exactly once.
//!
//! The queue's rule (`specs/Rounds.antt`) speaks of tickets, never of tenants. `put` requires the pass's next ticket,
//! with a number of at most 2^55; at most 2^61 tickets are got in all. `close` says that each ticket was got as often
//! as it was put: however tickets are weighed, both weigh the same (`specs/Closed.antt`). The types rule out putting or
//! solving a job twice, or dropping it.
//!
//! The queue's bell (firm_bell) wakes the workers. Each round is counted by its caller once, before it is put, and
//! taken from the count once, by the pass that got it. `put` rings; after `put_unrung` the caller has to, before it
//! waits or ends. `pop` finds nothing only if the queue was empty at one step, and a worker rests or ends only after
//! such a look: `found_none` of its pass says so (`specs/Passes.antt`).
//!
//! # How it works
//!
//! The queue has room for 8 rounds. `pop` never waits for one. On a full queue `put` tries 64 times, announces a sleep,
//! tries once more, and sleeps, as a hall's threads do. With no sleep announced a notification is one load.
#![tactic(auto)]

mod closing;
mod cuts;
mod gathering;
mod job;
mod passes;
mod protocol;
mod queue;

pub use closing::Closing;
pub use job::{Job, finish_all};
pub use passes::{Ended, PopPass, PutPass};
pub use queue::{Queue, QueueFault};

//! Tests alone, by public calls: sources and sinks, trays and the queue of rounds on threads of the tests' own, and the
//! events of a table. They need no hall, so they are proved before it.
//!
//! tests/hammer.py raises the count of `queues.rt`. A new event of a table is a row more:
//!
//! ```text
//! (Ask(0), Queued(A1)),
//! (Ask(0), NotNow),
//! ```
#![tactic(auto)]

#[cfg(test)]
mod tests;

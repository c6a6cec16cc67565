//! Tests alone, by public calls: the source that reads ahead, the hall's desks and workers, and whole services over it,
//! on threads of the tests' own.
//!
//! `held.rt` and `services.rt` show what no clause says of threads (docs/TRUST.md), with up to 1,024 answers while a
//! round is held. tests/hammer.py raises the counts of `callers.rt`, `wakes.rt` and `services.rt`. A round is solved
//! behind its gate: of nine, the least time from the gate's opening to the answer exceeds the least time from the
//! asking to the gate (`solving.rt`).
//!
//! A type that is dropped somewhere costs as much to prove as several functions, once for each crate: so all tests of
//! the hall are in this one. A new service is a `Scene` more (`stages.rt`).
#![tactic(auto)]

#[cfg(test)]
mod tests;

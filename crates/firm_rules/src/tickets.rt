//! Rounds that wait for a worker.

/// A round that was queued. One tenant after another may have a place; the numbers of its rounds go on through all of
/// them.
#[derive(Clone, Copy, PartialEq, Eq)]
pub struct Ticket {
    /// The place of its tenant, from 0.
    pub place: u32,
    /// Which of the place's rounds it is, from 1.
    pub number: u64,
}

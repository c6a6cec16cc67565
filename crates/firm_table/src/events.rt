//! The events of the table, and its answers.
use firm_rules::{Command, Limits, Reply, Ticket};

/// An event of the table. Places and workers are each numbered from 0; the first places are those of the roster, in its
/// order.
#[derive(Clone, Copy)]
pub enum Event {
    /// A command of the tenant at this place that is not a round.
    Post(usize, Command),
    /// A round of the tenant at this place.
    Ask(usize),
    /// This worker takes the round at the front of the queue.
    Take(usize),
    /// This worker solves the round that it took.
    Answer(usize),
    /// The tenant at this place comes home with the reply to its round.
    Collect(usize),
    /// A tenant with these limits comes to this place, which is empty.
    Admit(usize, Limits),
    /// The tenant at this place, which is home, leaves.
    Retire(usize),
}

/// The answer to an event.
#[derive(Drop)]
pub enum Answer {
    /// The tenant replied.
    Replied(Reply),
    /// The round was queued.
    Queued(Ticket),
    /// The worker took the round.
    Took(Ticket),
    /// The round was solved.
    Solved(Ticket),
    /// The new tenant is home, and has nothing yet.
    Admitted,
    /// Memory for a new tenant was refused: the place stays empty, and no admission is used.
    NoMemory,
    /// The tenant has left, and its place is empty.
    Retired,
    /// The event does not fit now, and changes nothing.
    NotNow,
}

//! The nodes and arcs of a tenant's network, told by the places of its machines, jobs and tasks.

/// A node of the network.
#[derive(Clone, Copy, PartialEq, Eq)]
pub enum Node {
    /// Where every flow ends.
    Sink,
    /// The aggregator, through which each task reaches each machine.
    Hub,
    /// The machine at a place.
    Machine(u32),
    /// The job at a place, where its tasks wait.
    Owner(u32),
    /// The task at a place, a source of one unit.
    Task(u32),
}

/// What an arc of the network is for.
#[derive(Clone, Copy, PartialEq, Eq)]
pub enum Key {
    /// From the hub to the machine at a place.
    Through(u32),
    /// From the machine at a place to the sink: one of its slots, counted from 0.
    Slot(u32, u32),
    /// From the job at a place to the sink.
    Exit(u32),
    /// From the task at a place to the hub.
    Wide(u32),
    /// From the task at a place to the machine that it runs on; while it waits, to the hub with capacity 0.
    Stay(u32),
    /// From the task at a place to its job: the task waits.
    Wait(u32),
    /// From the task at a place to a machine that it prefers: which of its preferences, counted from 0.
    Prefer(u32, u32),
}

//! The rows of a state's text.

use firm_rules::{Job, Limits, Machine, Name, RecentCosts, Task};

/// A row of a state's text.
#[derive(Clone, Copy)]
pub enum Row {
    /// The number of times that a place was given. The rows of its tenant, if any, follow.
    Place(u64),
    /// A tenant's name, its limits, and how many commands it was given.
    Tenant(Name, Limits, u64),
    /// The costs of the tenant's last rounds.
    Costs(RecentCosts),
    /// A machine of the tenant, after those added before it.
    Machine(Machine),
    /// A job, likewise.
    Job(Job),
    /// A task as it stands, after those submitted before it.
    Task(Task),
    /// The last row: how many rows stand before it.
    Rows(u64),
}

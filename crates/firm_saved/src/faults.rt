//! Faults of a state's text.
ghost use Rattle.std.specs.Prelude.{◌≡◌};
ghost use Rattle.firm_saved.specs.Faults.{fault_code, fault_name};
ghost use Rattle.firm_saved.specs.declared.faults.FaultKind.TheVariants.{Memory as NoMemory};

use std::alloc::{AllocError, AllocFailed};

/// The first fault of a state's text, and the number of its line, from 1.
#[derive(Clone, Copy, Debug, PartialEq, Eq)]
pub struct StateFault {
    pub line: u64,
    pub kind: FaultKind,
}

/// The fault of a line.
#[derive(Clone, Copy, Debug, PartialEq, Eq)]
pub enum FaultKind {
    /// It is the first and not that of the version that is read.
    Version,
    /// Its words are no row, or the row may not stand there.
    Row,
    /// A name is malformed.
    BadName,
    /// A number is not written as one, or is out of its range.
    BadNumber,
    /// The tenant, machine, job or task has the name of an earlier one.
    Repeated,
    /// The task's job is not there.
    NoSuchJob,
    /// The task runs on a machine that is not there, or prefers one.
    NoSuchMachine,
    /// The machine has no slot left for the task.
    NoRoom,
    /// The rows have more nodes than the tenant's limit.
    ArenaNodes,
    /// The rows have more arcs than the tenant's limit.
    ArenaArcs,
    /// The tenant was given more commands than its life, or fewer than its rows and rounds up to here took.
    Commands,
    /// It is the row of a 65th place, or the last row with no place before it.
    Places,
    /// The last line is missing, has another count, or is not the last.
    Rows,
    /// Out of memory before another fault.
    Memory,
    /// The task runs or has waited, and there were fewer rounds by the costs, of which the last 8 are recorded.
    Rounds,
    /// The task runs where its wait would cost less than its slot, in each round that there may have been. Of a task
    /// that later rows crowd, or whose slot is worth more to one that waits, the line is that which ends the tenant's
    /// rows.
    Crowded,
}

impl FaultKind {
    /// The number of the fault, 1 to 16.
    pub fn code(self) -> u32
        ensures { result ≡ fault_code self }
    {
        match self {
            FaultKind::Version => 1,
            FaultKind::Row => 2,
            FaultKind::BadName => 3,
            FaultKind::BadNumber => 4,
            FaultKind::Repeated => 5,
            FaultKind::NoSuchJob => 6,
            FaultKind::NoSuchMachine => 7,
            FaultKind::NoRoom => 8,
            FaultKind::ArenaNodes => 9,
            FaultKind::ArenaArcs => 10,
            FaultKind::Commands => 11,
            FaultKind::Places => 12,
            FaultKind::Rows => 13,
            FaultKind::Memory => 14,
            FaultKind::Rounds => 15,
            FaultKind::Crowded => 16,
        }
    }

    /// The name of the fault, as a program prints it.
    pub fn name(self) -> &'static str
        ensures { result.now ≡ fault_name self }
    {
        match self {
            FaultKind::Version => "version",
            FaultKind::Row => "row",
            FaultKind::BadName => "name",
            FaultKind::BadNumber => "number",
            FaultKind::Repeated => "repeated-name",
            FaultKind::NoSuchJob => "no-such-job",
            FaultKind::NoSuchMachine => "no-such-machine",
            FaultKind::NoRoom => "no-room",
            FaultKind::ArenaNodes => "arena-nodes",
            FaultKind::ArenaArcs => "arena-arcs",
            FaultKind::Commands => "commands",
            FaultKind::Places => "places",
            FaultKind::Rows => "rows",
            FaultKind::Memory => "memory",
            FaultKind::Rounds => "rounds",
            FaultKind::Crowded => "crowded",
        }
    }
}

impl From<AllocError> for FaultKind {
    ghost from_gives = { λ _ kind. kind ≡ NoMemory };

    fn from(_: AllocError) -> FaultKind {
        FaultKind::Memory
    }
}

impl<T: Drop> From<AllocFailed<T>> for FaultKind {
    ghost from_gives = { λ _ kind. kind ≡ NoMemory };

    fn from(_: AllocFailed<T>) -> FaultKind {
        FaultKind::Memory
    }
}

//! Faults that end a program early: text and exit status.

ghost use Rattle.std.specs.Prelude.{◌≡◌};
ghost use Rattle.firm_program.specs.Faults.{fault_of_roster, fault_of_state, status_of};
ghost use Rattle.firm_program.specs.declared.faults.Fault.TheVariants.{Service};
ghost use Rattle.firm_table.specs.declared.faults.ServeFault.TheVariants.{Memory};

use firm_rules::Name;
use firm_saved::{FaultKind, StateFault};
use firm_table::ServeFault;
use firm_text::{OperatorRefusal, RosterFault, Sink, write_all};
use std::alloc::{AllocError, AllocFailed};
use std::fmt;
use std::fmt::Write;
use thiserror::Error;

/// The reason why a program ended early; its text, after the program's name, is the line that goes to standard error.
#[derive(Debug, Drop, Error)]
pub enum Fault {
    #[error("{0}")]
    Words(WordsFault),
    #[error("cannot read roster")]
    UnreadableRoster,
    #[error("roster fault {code} {name}", code = .0.code(), name = .0.name())]
    Roster(RosterFault),
    #[error("cannot read state")]
    UnreadableState,
    #[error("state too long")]
    LongState,
    #[error("state fault {code} {name} in line {line}", code = .0.kind.code(), name = .0.kind.name(), line = .0.line)]
    State(StateFault),
    /// A tenant can't be in the requested state.
    #[error("tenant fault {code} {name} of {tenant:?}", code = .1.code(), name = .1.name(), tenant = .0)]
    Tenant(Name, OperatorRefusal),
    /// The service stopped, or memory was refused before it.
    #[error("{cause}", cause = cause_name(*.0))]
    Service(ServeFault),
}

/// The fault of a command line whose words each have their form.
#[derive(Clone, Copy, Debug, Error)]
pub enum WordsFault {
    #[error("no roster and no state: give --roster FILE or --state FILE")]
    NoFile,
    #[error("a roster and a state: give --roster FILE or --state FILE, not both")]
    TwoFiles,
    #[error("the command line is not UTF-8")]
    NoText,
    #[error("a tenant's name is not valid")]
    NoTenant,
    #[error("the tenant's or the task's name is not valid")]
    NoTenantOrTask,
}

impl Fault {
    /// The exit status.
    pub fn status(&self) -> u8
        ensures { result ≡ status_of self.now }
    {
        match self {
            Fault::Words(_) => 2,
            Fault::UnreadableRoster | Fault::Roster(_) => 3,
            Fault::UnreadableState | Fault::LongState => 3,
            Fault::State(_) | Fault::Tenant(_, _) => 3,
            Fault::Service(ServeFault::Read | ServeFault::TooLong) => 4,
            Fault::Service(ServeFault::Write) => 5,
            Fault::Service(ServeFault::Memory) => 6,
        }
    }
}

fn cause_name(fault: ServeFault) -> &'static str {
    match fault {
        ServeFault::Read => "read",
        ServeFault::Write => "write",
        ServeFault::TooLong => "input too long",
        ServeFault::Memory => "memory",
    }
}

impl From<ServeFault> for Fault {
    ghost from_gives = { λ given fault. fault ≡ Service given };

    fn from(given: ServeFault) -> Fault {
        Fault::Service(given)
    }
}

impl From<RosterFault> for Fault {
    ghost from_gives = { λ given fault. fault ≡ fault_of_roster given };

    fn from(given: RosterFault) -> Fault {
        match given {
            RosterFault::Memory => Fault::Service(ServeFault::Memory),
            named => Fault::Roster(named),
        }
    }
}

impl From<StateFault> for Fault {
    ghost from_gives = { λ given fault. fault ≡ fault_of_state given };

    fn from(given: StateFault) -> Fault {
        match given.kind {
            FaultKind::Memory => Fault::Service(ServeFault::Memory),
            _ => Fault::State(given),
        }
    }
}

impl From<AllocError> for Fault {
    ghost from_gives = { λ _ fault. fault ≡ Service Memory };

    fn from(_: AllocError) -> Fault {
        Fault::Service(ServeFault::Memory)
    }
}

impl<T: Drop> From<AllocFailed<T>> for Fault {
    ghost from_gives = { λ _ fault. fault ≡ Service Memory };

    fn from(_: AllocFailed<T>) -> Fault {
        Fault::Service(ServeFault::Memory)
    }
}

/// Writes the fault's line, after the program's name, and returns its status. Takes no memory; a failed write changes
/// nothing else.
pub fn tell<F: Sink>(program: &str, faults: &mut F, fault: &Fault) -> u8
    ensures { result ≡ status_of fault.now }
{
    let mut line = FaultLine { faults };
    let _ = writeln!(line, "{program}: {fault}");
    let _ = faults.flush();
    fault.status()
}

// A sink as a writer of formatted text.
#[derive(Drop)]
struct FaultLine<'a, F: Sink> {
    faults: &'a mut F,
}

impl<F: Sink> Write for FaultLine<'_, F> {
    fn write_str(&mut self, text: &str) -> fmt::Result {
        match write_all(self.faults, text.as_bytes()) {
            Ok(()) => Ok(()),
            Err(_) => Err(fmt::Error),
        }
    }
}

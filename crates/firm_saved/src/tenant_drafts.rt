//! A tenant while its rows are read.
ghost use Rattle.std.specs.Prelude.{◌≡◌, ◌⊎◌, ◌+◌, ◌<◌, ◌≤◌, MatchResult, OnOk, IfOk, Ok, Err, Option, None, Some};
ghost use Rattle.std.specs.Prelude.{length, map};
ghost use Rattle.std.specs.Prelude.{IfNone, IfSome, true};
ghost use Rattle.firm_rules.specs.Book.{Book as BookRow, with_job, with_machine};
ghost use Rattle.firm_rules.specs.Book.{machine_names, with_restored};
ghost use Rattle.firm_rules.specs.Names.{is_among};
ghost use Rattle.firm_rules.specs.declared.book.Task.{Task as TaskRow};
ghost use Rattle.firm_rules.specs.SoundBook.{IsSoundBook, most_rounds};
ghost use Rattle.firm_saved.specs.Drafts.{after_costs, after_job, after_machine, after_task, arena_fault, booked};
ghost use Rattle.firm_saved.specs.Drafts.{commands_fault, costs_fault, costs_read, grown, job_fault, kind_of};
ghost use Rattle.firm_saved.specs.Drafts.{limit_fault, machine_fault, naming_fault, new_tenant, rounds_fault};
ghost use Rattle.firm_saved.specs.Drafts.{book_with, crowded_fault, rounds_with, running_fault, task_fault};
ghost use Rattle.firm_saved.specs.inner.Loads.{AreLoads, loads_of, view};
ghost use Rattle.firm_saved.specs.inner.Returned.{Gives};

use crate::faults::FaultKind;
use crate::rows::Row;
use firm_rules::{
    Book, BookFault, Job, Limits, MOST_COSTS, Machine, Name, RecentCosts, Rows, Task, may_run,
    use_of,
};
use std::alloc::Global;

/// The tenant whose rows are being read.
pub struct TenantDraft {
    name: Name,
    rows: Rows,
    costs: Option<RecentCosts>,
    given: u64,
    rounds: u64,
    // Number of tasks that run on each machine, so that no row goes through the tasks.
    loads: Vec<u32>,
}

impl Drop for TenantDraft {
    // Written out, so that who drops a tenant makes one call, and not one for each of its tables.
    fn drop(self) {
        let Self {
            name: _,
            rows,
            costs: _,
            given: _,
            rounds: _,
            loads,
        } = self;
        drop(rows);
        drop(loads);
    }
}

impl TenantDraft {
    /// A tenant of which nothing more was read.
    pub fn new(alloc: Global, name: Name, limits: Limits, given: u64) -> TenantDraft
        ensures value { view result ≡ new_tenant name limits given }
        ensures loads { AreLoads result }
    {
        TenantDraft {
            name,
            rows: Rows::new(alloc, limits),
            costs: None,
            given,
            rounds: 0,
            loads: Vec::new(alloc),
        }
    }

    /// Takes one more row of the tenant.
    pub fn grow(&mut self, row: &Row) -> Result<(), FaultKind>
        requires { AreLoads self.old }
        ensures grown { Gives (λ _. view self.new) result (grown (view self.old) row.now) }
        ensures loads { OnOk result (AreLoads self.new) }
    {
        match row {
            Row::Costs(costs) => self.take_costs(*costs),
            Row::Machine(machine) => self.take_machine(machine),
            Row::Job(job) => self.take_job(job),
            Row::Task(task) => self.take_task(task),
            Row::Place(_) | Row::Tenant(_, _, _) | Row::Rows(_) => Err(FaultKind::Row),
        }
    }

    fn take_costs(&mut self, costs: RecentCosts) -> Result<(), FaultKind>
        requires { AreLoads self.old }
        ensures grown { Gives (λ _. view self.new) result (after_costs (view self.old) costs) }
        ensures loads { OnOk result (AreLoads self.new) }
    {
        if let Some(kind) = self.costs_fault(costs) {
            return Err(kind);
        }
        self.costs = Some(costs);
        self.rounds = costs.as_slice().len() as u64;
        Ok(())
    }

    fn take_machine(&mut self, machine: &Machine) -> Result<(), FaultKind>
        requires { AreLoads self.old }
        ensures grown { Gives (λ _. view self.new) result (after_machine (view self.old) machine.now) }
        ensures loads { OnOk result (AreLoads self.new) }
    {
        if let Some(kind) = self.machine_fault(machine) {
            return Err(kind);
        }
        self.rows.add_machine(machine.name, machine.slots)?;
        self.loads.push(0)?;
        Ok(())
    }

    fn take_job(&mut self, job: &Job) -> Result<(), FaultKind>
        requires { AreLoads self.old }
        ensures grown { Gives (λ _. view self.new) result (after_job (view self.old) job.now) }
        ensures loads { OnOk result (AreLoads self.new) }
    {
        if let Some(kind) = self.job_fault(job) {
            return Err(kind);
        }
        self.rows.add_job(job.name, job.weight)?;
        Ok(())
    }

    fn take_task(&mut self, task: &Task) -> Result<(), FaultKind>
        requires { AreLoads self.old }
        ensures grown { Gives (λ _. view self.new) result (after_task (view self.old) task.now) }
        ensures loads { OnOk result (AreLoads self.new) }
    {
        if let Some(kind) = self.task_fault(task) {
            return Err(kind);
        }
        add_load(&mut self.loads, &self.rows, task.machine);
        self.rows.restore_task(*task)?;
        self.rounds = self.rounds_with(task);
        Ok(())
    }

    fn costs_fault(&self, costs: RecentCosts) -> Option<FaultKind>
        ensures { result ≡ costs_fault (view self.now) costs }
    {
        if self.costs.is_some() {
            return Some(FaultKind::Row);
        }
        self.commands_fault(0, costs.as_slice().len() as u64)
    }

    fn machine_fault(&self, machine: &Machine) -> Option<FaultKind>
        ensures { result ≡ machine_fault (view self.now) machine.now }
    {
        if self.costs.is_none() || self.rows.job_count() > 0 || self.rows.task_count() > 0 {
            return Some(FaultKind::Row);
        }
        if self.rows.has_machine(machine.name) {
            return Some(FaultKind::Repeated);
        }
        self.limit_fault(1 + u64::from(machine.slots.get()), self.rounds)
    }

    fn job_fault(&self, job: &Job) -> Option<FaultKind>
        ensures { result ≡ job_fault (view self.now) job.now }
    {
        if self.costs.is_none() || self.rows.task_count() > 0 {
            return Some(FaultKind::Row);
        }
        if self.rows.has_job(job.name) {
            return Some(FaultKind::Repeated);
        }
        self.limit_fault(1, self.rounds)
    }

    fn task_fault(&self, task: &Task) -> Option<FaultKind>
        requires { AreLoads self.now }
        ensures { result ≡ task_fault (view self.now) task.now }
    {
        if self.costs.is_none() {
            return Some(FaultKind::Row);
        }
        if let Some(kind) = naming_fault(&self.rows, task) {
            return Some(kind);
        }
        if let Some(machine) = task.machine {
            if let Some(kind) = self.running_fault(task, machine) {
                return Some(kind);
            }
        }
        if let Some(kind) = rounds_fault(self.costs, task) {
            return Some(kind);
        }
        let arcs = 3 + task.preferred.len() as u64;
        if let Some(kind) = self.limit_fault(arcs, self.rounds_with(task)) {
            return Some(kind);
        }
        self.crowded_fault(task)
    }

    // Why no round may have left the task on its machine, if it runs, among those that are read.
    fn crowded_fault(&self, task: &Task) -> Option<FaultKind>
        requires loads { AreLoads self.now }
        requires there { IfSome task.now.machine (λ name. is_among (machine_names self.now.rows) name ≡ true) }
        ensures { result ≡ crowded_fault (view self.now) task.now }
    {
        let machine = task.machine?;
        let place = self.rows.machine_place(machine)?;
        // No machine runs more tasks than it has slots, so no load wraps.
        prove!(self.rows.limits().nodes() <= 4_096);
        let load = u64::from(self.loads[place]) + 1;
        if may_run(
            &self.rows,
            self.most_rounds_with_task(),
            task,
            machine,
            load,
        ) {
            None
        } else {
            Some(FaultKind::Crowded)
        }
    }

    // The greatest possible number of rounds, if a task is the last row.
    fn most_rounds_with_task(&self) -> u64
        ensures { (task : TaskRow) → result ≡ most_rounds (book_with (view self.now) task) }
    {
        let left = cost_count(self.costs);
        if left < MOST_COSTS {
            return left as u64;
        }
        // The rows fit the limits, so no sum wraps.
        prove!(self.rows.limits().nodes() <= 4_096);
        let rows = self.rows.machine_count() + self.rows.job_count() + self.rows.task_count() + 1;
        self.given.saturating_sub(rows as u64)
    }

    fn running_fault(&self, task: &Task, machine: Name) -> Option<FaultKind>
        requires loads { AreLoads self.now }
        requires runs { task.now.machine ≡ Some machine }
        ensures { result ≡ running_fault self.now.rows task.now (Some machine) }
    {
        let Some(place) = self.rows.machine_place(machine) else {
            return Some(FaultKind::NoSuchMachine);
        };
        if task.waited > 0 {
            return Some(FaultKind::BadNumber);
        }
        // The rows are sound, so no other machine runs more tasks than it has slots.
        prove!(self.rows.limits().nodes() <= 4_096);
        let slots = self.rows.machine_at(place).unwrap().slots.get();
        if self.loads[place] < slots {
            None
        } else {
            Some(FaultKind::NoRoom)
        }
    }

    // The least possible number of rounds, by a task too.
    fn rounds_with(&self, task: &Task) -> u64
        ensures { result ≡ rounds_with self.now.rounds task.now }
    {
        self.rounds.max(task.rounds_shown())
    }

    // Why the tenant may not have one more row, with this many arcs, where there were this many rounds.
    fn limit_fault(&self, arcs: u64, rounds: u64) -> Option<FaultKind>
        requires { arcs ≤ 65 }
        ensures { result ≡ limit_fault (view self.now) arcs rounds }
    {
        if let Some(kind) = arena_fault(&self.rows, arcs) {
            return Some(kind);
        }
        self.commands_fault(1, rounds)
    }

    // Why the tenant may not have this many rows more, and this many rounds: each took a command.
    fn commands_fault(&self, more: u64, rounds: u64) -> Option<FaultKind>
        requires { more ≤ 1 }
        ensures { result ≡ commands_fault (view self.now) more rounds }
    {
        // The rows fit the limits, so no sum wraps.
        prove!(self.rows.limits().nodes() <= 4_096);
        let rows = self.rows.machine_count() + self.rows.job_count() + self.rows.task_count();
        let added = rows as u64 + more;
        if self.given < added || self.given - added < rounds {
            return Some(FaultKind::Commands);
        }
        None
    }

    /// The tenant's name and its book, once its rows are read.
    pub fn finish(self) -> Result<(Name, Book), FaultKind>
        ensures value { result ≡ booked (view self) (view self).costs }
        ensures sound { IfOk result (λ tenant. IsSoundBook tenant.1) }
    {
        let Some(costs) = self.costs else {
            return Err(FaultKind::Row);
        };
        let TenantDraft {
            name,
            rows,
            costs: _,
            given,
            rounds: _,
            loads: _,
        } = self;
        match Book::new(rows, costs, given) {
            Ok(book) => Ok((name, book)),
            Err(fault) => Err(kind_of(fault)),
        }
    }
}

fn kind_of(fault: BookFault) -> FaultKind
    ensures { result ≡ kind_of fault }
{
    match fault {
        BookFault::Cost => FaultKind::BadNumber,
        BookFault::Life | BookFault::Count => FaultKind::Commands,
        BookFault::Rounds => FaultKind::Rounds,
        BookFault::Crowded => FaultKind::Crowded,
    }
}

// Counts a task that runs on the machine of this name, if it runs.
fn add_load(loads: &mut Vec<u32>, rows: &Rows, machine: Option<Name>)
    requires loads { loads.old.items ≡ loads_of rows.now }
    requires there { IfSome machine (λ name. is_among (machine_names rows.now) name ≡ true) }
    ensures { (task : TaskRow) → task.machine ≡ machine → loads.new.items ≡ loads_of (with_restored rows.now task) }
{
    let Some(name) = machine else {
        return;
    };
    let place = rows.machine_place(name).unwrap();
    // No machine runs more tasks than it has slots, so no load wraps.
    prove!(rows.limits().nodes() <= 4_096);
    loads[place] += 1;
}

// Why the task does not fit the rows that it names, or has waited too long.
fn naming_fault(rows: &Rows, task: &Task) -> Option<FaultKind>
    ensures { result ≡ naming_fault rows.now task.now }
{
    if rows.has_task(task.name) {
        return Some(FaultKind::Repeated);
    }
    if !rows.has_job(task.job) {
        return Some(FaultKind::NoSuchJob);
    }
    if !rows.has_machines(task.preferred.as_slice()) {
        return Some(FaultKind::NoSuchMachine);
    }
    if u64::from(task.waited) > rows.limits().patience() {
        return Some(FaultKind::BadNumber);
    }
    None
}

// The fault of a task that shows rounds which may not have been: each left a cost, of which the last 8 are recorded.
fn rounds_fault(costs: Option<RecentCosts>, task: &Task) -> Option<FaultKind>
    ensures { result ≡ rounds_fault (costs_read costs) task.now }
{
    if (cost_count(costs) as u64) < task.rounds_shown().min(8) {
        return Some(FaultKind::Rounds);
    }
    None
}

// Why the limits leave no room for a node and this many arcs more.
fn arena_fault(rows: &Rows, arcs: u64) -> Option<FaultKind>
    requires { arcs ≤ 65 }
    ensures { result ≡ arena_fault rows.now arcs }
{
    let limits = rows.limits();
    let used = use_of(rows);
    // The rows fit the limits, so no sum wraps.
    prove!(limits.nodes() <= 4_096 && limits.arcs() <= 65_536);
    if limits.nodes() < used.nodes + 1 {
        return Some(FaultKind::ArenaNodes);
    }
    if limits.arcs() < used.arcs + arcs {
        return Some(FaultKind::ArenaArcs);
    }
    None
}

// Number of costs read.
fn cost_count(costs: Option<RecentCosts>) -> usize
    ensures count { result ≡ length (costs_read costs) }
    ensures few { result ≤ 8 }
{
    match costs {
        Some(costs) => costs.as_slice().len(),
        None => 0,
    }
}

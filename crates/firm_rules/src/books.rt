//! The book of a tenant as a whole, as it is taken out of one service and put into another.
ghost use Rattle.std.specs.Prelude.{◌≡◌, ◌↔◌, ◌≤◌, nat_le, List, true, IsOk, IfOk, IfErr, IfSome, IfNone, Some};
ghost use Rattle.std.specs.List.{list_all};
ghost use Rattle.firm_rules.specs.SoundBook.{IsSoundBook, entry_count, is_cost, book_fault, most_rounds, rounds_shown};
ghost use Rattle.firm_rules.specs.declared.book.Task.{Task as TaskRow};

use crate::recent::{MOST_COSTS, RecentCosts};
use crate::standing::may_stand;
use crate::tables::Rows;
use std::marker::Model;

// No round costs more: 3,000,000 for each of 4,096 machines and tasks.
const MOST_COST: i64 = 4_096 * 3_000_000;

/// What keeps rows, costs and a count of commands from being those of a tenant.
#[derive(Clone, Copy, Debug, PartialEq, Eq)]
pub enum BookFault {
    /// A cost is below 0 or above 12,288,000,000, and no round has it.
    Cost,
    /// More commands were given than the life.
    Life,
    /// Fewer commands were given than there are rows and costs, of which each took one.
    Count,
    /// A task runs or has waited, and there were fewer rounds.
    Rounds,
    /// A task runs where its wait would cost less than its slot, or than that is worth to a task that waits, in each
    /// round that there may have been.
    Crowded,
}

/// The rows of a tenant, the costs of its last rounds, and how many commands it was given.
#[derive(Drop)]
pub struct Book {
    rows: Rows,
    costs: RecentCosts,
    given: u64,
}

impl Model for Book {
    ghost use Rattle.firm_rules.specs.Book.{Book as BookRow};
    ghost use Rattle.firm_rules.specs.SoundBook.{IsSoundBook};

    ghost Value = { BookRow };

    ghost view = { λ b. record { rows = b.rows; costs = b.costs; given = b.given } };

    ghost invariant = { λ b. IsSoundBook (record { rows = b.rows; costs = b.costs; given = b.given }) };
}

impl Book {
    /// The book of these parts, exactly where it is sound, as every tenant's is at all times. The error says what is
    /// wrong first.
    pub fn new(rows: Rows, costs: RecentCosts, given: u64) -> Result<Book, BookFault>
        ensures ok { IfOk result (λ book. book ≡ record { rows = rows; costs = costs; given = given }) }
        ensures exact { IsOk result ↔ IsSoundBook (record { rows = rows; costs = costs; given = given }) }
        ensures err { IfErr result (λ fault. book_fault (record { rows = rows; costs = costs; given = given })
            ≡ Some fault) }
    {
        match fault_of(&rows, costs, given) {
            Some(fault) => Err(fault),
            None => Ok(Book { rows, costs, given }),
        }
    }

    /// The limits, machines, jobs and tasks.
    pub fn rows(&self) -> &Rows
        ensures value { result.now ≡ self.now.rows }
        ensures sound { IsSoundBook self.now }
    {
        &self.rows
    }

    /// The costs of the last rounds.
    pub fn costs(&self) -> RecentCosts
        ensures value { result ≡ self.now.costs }
        ensures sound { IsSoundBook self.now }
    {
        self.costs
    }

    /// How many commands the tenant was given.
    pub fn given(&self) -> u64
        ensures value { result ≡ self.now.given }
        ensures sound { IsSoundBook self.now }
    {
        self.given
    }
}

// What first keeps a book of these parts from being sound.
fn fault_of(rows: &Rows, costs: RecentCosts, given: u64) -> Option<BookFault>
    ensures fault { result ≡ book_fault (record { rows = rows.now; costs = costs; given = given }) }
    ensures sound { IfNone result (IsSoundBook (record { rows = rows.now; costs = costs; given = given })) }
    ensures unsound { IfSome result (λ _. IsSoundBook (record { rows = rows.now; costs = costs; given = given }) → ⊥) }
{
    if !are_costs(costs.as_slice()) {
        return Some(BookFault::Cost);
    }
    let life = rows.limits().life();
    if life < given {
        return Some(BookFault::Life);
    }
    if given < entries_of(rows, costs) {
        return Some(BookFault::Count);
    }
    let rounds = most_rounds(rows, costs, given);
    if !are_shown(rows, rounds) {
        return Some(BookFault::Rounds);
    }
    if !may_stand(rows, rounds) {
        return Some(BookFault::Crowded);
    }
    None
}

// How many rows and costs there are.
fn entries_of(rows: &Rows, costs: RecentCosts) -> u64
    ensures { result ≡ entry_count (record { rows = rows.now; costs = costs; given = 0 }) }
{
    // The rows fit the limits, so no sum wraps.
    prove!(rows.limits().nodes() <= 4_096);
    let count = rows.machine_count() + rows.job_count() + rows.task_count();
    (count + costs.as_slice().len()) as u64
}

// How many rounds there may have been.
fn most_rounds(rows: &Rows, costs: RecentCosts, given: u64) -> u64
    requires { entry_count (record { rows = rows.now; costs = costs; given = given }) ≤ given }
    ensures { result ≡ most_rounds (record { rows = rows.now; costs = costs; given = given }) }
{
    let left = costs.as_slice().len();
    if left < MOST_COSTS {
        return left as u64;
    }
    // The rows fit the limits, so no sum wraps.
    prove!(rows.limits().nodes() <= 4_096);
    given - (rows.machine_count() + rows.job_count() + rows.task_count()) as u64
}

// Whether no task shows more rounds than these.
fn are_shown(rows: &Rows, most: u64) -> bool
    ensures { result ≡ list_all (λ task. nat_le (rounds_shown task) most) rows.now.tasks }
{
    rows.tasks().all(|task| task.rounds_shown() <= most)
}

fn are_costs(costs: &[i64]) -> bool
    ensures { result ≡ list_all is_cost costs.now }
{
    costs.iter().all(|cost| may_cost(*cost))
}

// Whether a round may cost that.
fn may_cost(cost: i64) -> bool
    ensures { result ≡ is_cost cost }
{
    0 <= cost && cost <= MOST_COST
}

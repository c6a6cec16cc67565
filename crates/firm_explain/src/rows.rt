//! The rows that a round is computed from, as comment lines in the words of a state.

ghost use Rattle.std.specs.Prelude.{◌≡◌, ◌++◌, OnOk, IfOk, length, map};
ghost use Rattle.std.specs.List.{flat_map};
ghost use Rattle.firm_saved.specs.StateText.{book_rows};
ghost use Rattle.firm_saved.specs.declared.rows.Row.TheVariants as row;
ghost use Rattle.firm_explain.specs.RoundRows.{comment_text, rows_text};

use firm_rules::{Name, RecentCosts, Rows};
use firm_saved::{Row, put_row};
use std::alloc::AllocError;

/// Adds the rows of the tenant of this name from its book's parts, and at last how many they are.
pub(crate) fn put_rows(
    text: &mut Vec<u8>,
    name: Name,
    rows: &Rows,
    costs: RecentCosts,
    given: u64,
) -> Result<(), AllocError>
    ensures { OnOk result (text.new.items ≡ text.old.items
        ++ rows_text name (record { rows = rows.now; costs = costs; given = given })) }
{
    let count = put_book(text, name, rows, costs, given)?;
    put_comment(text, &Row::Rows(count))
}

// Adds the rows, and says how many they are.
fn put_book(
    text: &mut Vec<u8>,
    name: Name,
    rows: &Rows,
    costs: RecentCosts,
    given: u64,
) -> Result<u64, AllocError>
    ensures added { OnOk result (text.new.items ≡ text.old.items
        ++ flat_map comment_text (book_rows name (record { rows = rows.now; costs = costs; given = given }))) }
    ensures count { IfOk result (λ count. count
        ≡ length (book_rows name (record { rows = rows.now; costs = costs; given = given }))) }
{
    put_comment(text, &Row::Tenant(name, rows.limits(), given))?;
    put_comment(text, &Row::Costs(costs))?;
    put_machines(text, rows)?;
    put_jobs(text, rows)?;
    put_tasks(text, rows)?;
    // The rows fit the limits, so no sum wraps.
    prove!(rows.limits().nodes() <= 4_096);
    let kept = rows.machine_count() + rows.job_count() + rows.task_count();
    Ok(2 + kept as u64)
}

fn put_machines(text: &mut Vec<u8>, rows: &Rows) -> Result<(), AllocError>
    ensures { OnOk result (text.new.items ≡ text.old.items
        ++ flat_map comment_text (map row.Machine rows.now.machines)) }
{
    for machine in rows.machines() {
        put_comment(text, &Row::Machine(*machine))?;
    }
    Ok(())
}

fn put_jobs(text: &mut Vec<u8>, rows: &Rows) -> Result<(), AllocError>
    ensures { OnOk result (text.new.items ≡ text.old.items ++ flat_map comment_text (map row.Job rows.now.jobs)) }
{
    for job in rows.jobs() {
        put_comment(text, &Row::Job(*job))?;
    }
    Ok(())
}

fn put_tasks(text: &mut Vec<u8>, rows: &Rows) -> Result<(), AllocError>
    ensures { OnOk result (text.new.items ≡ text.old.items ++ flat_map comment_text (map row.Task rows.now.tasks)) }
{
    for task in rows.tasks() {
        put_comment(text, &Row::Task(*task))?;
    }
    Ok(())
}

// Adds a row as a comment line.
fn put_comment(text: &mut Vec<u8>, row: &Row) -> Result<(), AllocError>
    ensures { OnOk result (text.new.items ≡ text.old.items ++ comment_text row.now) }
{
    text.extend_from_slice(b"# ")?;
    put_row(text, row)
}

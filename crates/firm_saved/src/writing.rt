//! Writing the text of a state.
ghost use Rattle.std.specs.Prelude.{◌≡◌, ◌∷◌, ◌++◌, ◌+◌, [], All, List, ℕ, OnOk, IfOk, ◌≤◌, map, codes, length, take};
ghost use Rattle.std.specs.Io.{StartsWith};
ghost use Rattle.std.specs.List.{flat_map};
ghost use Rattle.std.specs.Fmt.{decimal, signed_decimal};
ghost use Rattle.firm_rules.specs.Book.{Book as BookRow};
ghost use Rattle.firm_rules.specs.declared.book.Machine.{Machine as MachineRow};
ghost use Rattle.firm_rules.specs.declared.book.Job.{Job as JobRow};
ghost use Rattle.firm_rules.specs.declared.book.Task.{Task as TaskRow};
ghost use Rattle.firm_text.specs.Replies.{labelled, spaced};
ghost use Rattle.firm_saved.specs.declared.rows.Row.TheVariants as row;
ghost use Rattle.firm_saved.specs.StateText.{words_text, row_words, row_text, first_line, limits_words, standing_words};
ghost use Rattle.firm_saved.specs.StateText.{patience_words};
ghost use Rattle.firm_text.specs.Rosters.{most_places};
ghost use Rattle.firm_text.specs.Registers.{IsRegister};
ghost use Rattle.firm_saved.specs.Saved.{AreGivenInOrder, AreSoundSaved, IsSoundPlace, register_of};
ghost use Rattle.firm_saved.specs.StateText.{preference_words, book_rows, given_places, place_rows, state_text};
ghost use Rattle.firm_saved.specs.declared.saved.SavedPlace.{SavedPlace as PlaceRow};

use crate::rows::Row;
use crate::saved::{Saved, SavedPlace};
use firm_rules::{Job, LONGEST_PATIENCE, Limits, Machine, Name, RecentCosts, Rows, Task};
use firm_text::{Entry, Heading};
use itoa::Buffer;
use std::alloc::AllocError;

/// Adds the first line of the text of a state with this heading. If memory is refused, some bytes may have been added,
/// here and below.
#[tactic(auto, using(crate::proofs::Puts::kept_trans))]
pub fn put_heading(output: &mut Vec<u8>, heading: Heading) -> Result<(), AllocError>
    ensures kept { StartsWith output.new.items output.old.items }
    ensures added { OnOk result (output.new.items ≡ output.old.items ++ first_line heading ++ 10 ∷ []) }
{
    output.extend_from_slice(first_line(heading))?;
    end_line(output)
}

fn first_line(heading: Heading) -> &'static [u8]
    ensures { result.now ≡ first_line heading }
{
    match heading {
        Heading::Plain => b"firm state 1",
        Heading::Extended => b"firm state 1 extended",
    }
}

/// Adds the text of a state.
#[tactic(auto, using(crate::proofs::Puts::kept_trans))]
pub fn put_state(output: &mut Vec<u8>, saved: &Saved) -> Result<(), AllocError>
    ensures kept { StartsWith output.new.items output.old.items }
    ensures added { OnOk result (output.new.items ≡ output.old.items ++ state_text saved.now) }
{
    put_heading(output, saved.heading())?;
    let count = put_places(output, given_places(saved.places()))?;
    put_row(output, &Row::Rows(count))
}

// Adds the rows of some places, and says how many they are.
#[tactic(auto, using(crate::proofs::Puts::kept_trans))]
fn put_places(output: &mut Vec<u8>, places: &[SavedPlace]) -> Result<u64, AllocError>
    requires { length places.now ≤ most_places }
    ensures kept { StartsWith output.new.items output.old.items }
    ensures added { OnOk result (output.new.items ≡ output.old.items
        ++ flat_map row_text (flat_map place_rows places.now)) }
    ensures count { IfOk result (λ count. count ≡ length (flat_map place_rows places.now)) }
{
    let mut count = 0;
    for place in places {
        count += put_place(output, place)?;
    }
    Ok(count)
}

/// Adds the rows of a place, and says how many they are.
#[tactic(auto, using(crate::proofs::Puts::kept_trans))]
pub fn put_place(output: &mut Vec<u8>, place: &SavedPlace) -> Result<u64, AllocError>
    ensures kept { StartsWith output.new.items output.old.items }
    ensures added { OnOk result (output.new.items ≡ output.old.items ++ flat_map row_text (place_rows place.now)) }
    ensures count { IfOk result (λ count. count ≡ length (place_rows place.now)) }
    ensures few { IfOk result (λ count. count ≤ 4097) }
{
    put_row(output, &Row::Place(u64::from(place.admissions)))?;
    match &place.tenant {
        None => Ok(1),
        Some((name, book)) => {
            let count = put_book(output, *name, book.rows(), book.costs(), book.given())?;
            Ok(1 + count)
        }
    }
}

// The places up to the last that was ever given.
fn given_places(places: &[SavedPlace]) -> &[SavedPlace]
    requires { length places.now ≤ most_places }
    ensures { result.now ≡ given_places places.now }
{
    let mut rest = places;
    while let [front @ .., last] = rest {
        if last.admissions > 0 {
            return rest;
        }
        rest = front;
    }
    rest
}

/// The number of places up to the last that was ever given, by the entries of their register. Where these are
/// sound, the state is.
pub fn given_count(entries: &[Entry]) -> usize
    ensures count { (places : List PlaceRow) → register_of places ≡ entries.now
        → given_places places ≡ take result places }
    ensures few { result ≤ length entries.now }
    ensures sound { (places : List PlaceRow) → register_of places ≡ entries.now → IsRegister entries.now
        → AreGivenInOrder entries.now → All IsSoundPlace (take result places) → AreSoundSaved places }
{
    let mut rest = entries;
    while let [front @ .., last] = rest {
        if last.admissions > 0 {
            return rest.len();
        }
        rest = front;
    }
    0
}

/// Adds the line of a row.
#[tactic(auto, using(crate::proofs::Puts::kept_trans))]
pub fn put_row(output: &mut Vec<u8>, row: &Row) -> Result<(), AllocError>
    ensures kept { StartsWith output.new.items output.old.items }
    ensures added { OnOk result (output.new.items ≡ output.old.items ++ row_text row.now) }
{
    put_words(output, row)?;
    end_line(output)
}

/// Adds the rows of a tenant from its parts: its limits and commands, the costs, and its machines, jobs and tasks. Says
/// how many they are.
#[tactic(auto, using(crate::proofs::Puts::kept_trans))]
pub fn put_book(
    output: &mut Vec<u8>,
    name: Name,
    rows: &Rows,
    costs: RecentCosts,
    given: u64,
) -> Result<u64, AllocError>
    ensures kept { StartsWith output.new.items output.old.items }
    ensures added { OnOk result (output.new.items ≡ output.old.items
        ++ flat_map row_text (book_rows name (record { rows = rows.now; costs = costs; given = given }))) }
    ensures count { IfOk result (λ count. count
        ≡ length (book_rows name (record { rows = rows.now; costs = costs; given = given }))) }
    ensures few { IfOk result (λ count. count ≤ 4096) }
{
    put_row(output, &Row::Tenant(name, rows.limits(), given))?;
    put_row(output, &Row::Costs(costs))?;
    put_rows(output, rows)?;
    Ok(2 + row_count(rows))
}

// Number of machines, jobs and tasks.
fn row_count(rows: &Rows) -> u64
    ensures count { result ≡ length rows.now.machines + length rows.now.jobs + length rows.now.tasks }
    ensures few { result ≤ 4094 }
{
    // The rows fit the limits, so no sum wraps.
    prove!(rows.limits().nodes() <= 4_096);
    let kept = rows.machine_count() + rows.job_count() + rows.task_count();
    kept as u64
}

#[tactic(auto, using(crate::proofs::Puts::kept_trans))]
fn put_rows(output: &mut Vec<u8>, rows: &Rows) -> Result<(), AllocError>
    ensures kept { StartsWith output.new.items output.old.items }
    ensures added { OnOk result (output.new.items ≡ output.old.items ++ flat_map row_text
        (map row.Machine rows.now.machines ++ map row.Job rows.now.jobs ++ map row.Task rows.now.tasks)) }
{
    put_machines(output, rows)?;
    put_jobs(output, rows)?;
    put_tasks(output, rows)
}

#[tactic(auto, using(crate::proofs::Puts::kept_trans))]
fn put_machines(output: &mut Vec<u8>, rows: &Rows) -> Result<(), AllocError>
    ensures kept { StartsWith output.new.items output.old.items }
    ensures added { OnOk result (output.new.items ≡ output.old.items
        ++ flat_map row_text (map row.Machine rows.now.machines)) }
{
    for machine in rows.machines() {
        put_row(output, &Row::Machine(*machine))?;
    }
    Ok(())
}

#[tactic(auto, using(crate::proofs::Puts::kept_trans))]
fn put_jobs(output: &mut Vec<u8>, rows: &Rows) -> Result<(), AllocError>
    ensures kept { StartsWith output.new.items output.old.items }
    ensures added { OnOk result (output.new.items ≡ output.old.items ++ flat_map row_text (map row.Job rows.now.jobs)) }
{
    for job in rows.jobs() {
        put_row(output, &Row::Job(*job))?;
    }
    Ok(())
}

#[tactic(auto, using(crate::proofs::Puts::kept_trans))]
fn put_tasks(output: &mut Vec<u8>, rows: &Rows) -> Result<(), AllocError>
    ensures kept { StartsWith output.new.items output.old.items }
    ensures added { OnOk result (output.new.items ≡ output.old.items
        ++ flat_map row_text (map row.Task rows.now.tasks)) }
{
    for task in rows.tasks() {
        put_row(output, &Row::Task(*task))?;
    }
    Ok(())
}

/// Adds the words of a row, with a space between them and no line feed.
#[tactic(auto, using(crate::proofs::Puts::kept_trans))]
pub(crate) fn put_words(output: &mut Vec<u8>, row: &Row) -> Result<(), AllocError>
    ensures kept { StartsWith output.new.items output.old.items }
    ensures added { OnOk result (output.new.items ≡ output.old.items ++ words_text (row_words row.now)) }
{
    match row {
        Row::Place(admissions) => put_labelled(output, b"place admissions ", *admissions),
        Row::Tenant(name, limits, given) => put_tenant(output, *name, limits, *given),
        Row::Costs(costs) => put_costs(output, costs.as_slice()),
        Row::Machine(machine) => put_machine(output, machine),
        Row::Job(job) => put_job(output, job),
        Row::Task(task) => put_task(output, task),
        Row::Rows(count) => put_labelled(output, b"rows ", *count),
    }
}

#[tactic(auto, using(crate::proofs::Puts::kept_trans))]
fn put_tenant(
    output: &mut Vec<u8>,
    name: Name,
    limits: &Limits,
    given: u64,
) -> Result<(), AllocError>
    ensures kept { StartsWith output.new.items output.old.items }
    ensures added { OnOk result (output.new.items ≡ output.old.items
        ++ words_text (row_words (row.Tenant name limits.now given))) }
{
    put_after(output, b"tenant ", name.as_bytes())?;
    put_limits(output, limits)?;
    put_labelled(output, b" commands ", given)
}

#[tactic(auto, using(crate::proofs::Puts::kept_trans))]
fn put_limits(output: &mut Vec<u8>, limits: &Limits) -> Result<(), AllocError>
    ensures kept { StartsWith output.new.items output.old.items }
    ensures added { OnOk result (output.new.items ≡ output.old.items ++ flat_map spaced (limits_words limits.now)) }
{
    put_labelled(output, b" nodes ", limits.nodes())?;
    put_labelled(output, b" arcs ", limits.arcs())?;
    put_labelled(output, b" life ", limits.life())?;
    put_labelled(output, b" spread ", limits.spread())?;
    put_labelled(output, b" churn ", limits.churn())?;
    put_labelled(output, b" remote ", limits.remote())?;
    put_patience(output, limits.patience())
}

#[tactic(auto, using(crate::proofs::Puts::kept_trans))]
fn put_patience(output: &mut Vec<u8>, patience: u64) -> Result<(), AllocError>
    ensures kept { StartsWith output.new.items output.old.items }
    ensures added { OnOk result (output.new.items ≡ output.old.items ++ flat_map spaced (patience_words patience)) }
{
    if patience == LONGEST_PATIENCE {
        return Ok(());
    }
    put_labelled(output, b" patience ", patience)
}

#[tactic(auto, using(crate::proofs::Puts::kept_trans))]
fn put_costs(output: &mut Vec<u8>, costs: &[i64]) -> Result<(), AllocError>
    ensures kept { StartsWith output.new.items output.old.items }
    ensures added { OnOk result (output.new.items ≡ output.old.items
        ++ codes "costs" ++ flat_map spaced (map signed_decimal costs.now)) }
{
    output.extend_from_slice(b"costs")?;
    put_each_cost(output, costs)
}

#[tactic(auto, using(crate::proofs::Puts::kept_trans))]
fn put_each_cost(output: &mut Vec<u8>, costs: &[i64]) -> Result<(), AllocError>
    ensures kept { StartsWith output.new.items output.old.items }
    ensures added { OnOk result (output.new.items
        ≡ output.old.items ++ flat_map spaced (map signed_decimal costs.now)) }
{
    for cost in costs {
        put_cost(output, *cost)?;
    }
    Ok(())
}

#[tactic(auto, using(crate::proofs::Puts::kept_trans))]
fn put_cost(output: &mut Vec<u8>, cost: i64) -> Result<(), AllocError>
    ensures kept { StartsWith output.new.items output.old.items }
    ensures added { OnOk result (output.new.items ≡ output.old.items ++ spaced (signed_decimal cost)) }
{
    let mut digits = Buffer::new();
    put_word(output, digits.format(cost).as_bytes())
}

#[tactic(auto, using(crate::proofs::Puts::kept_trans))]
fn put_machine(output: &mut Vec<u8>, machine: &Machine) -> Result<(), AllocError>
    ensures kept { StartsWith output.new.items output.old.items }
    ensures added { OnOk result (output.new.items ≡ output.old.items
        ++ words_text (row_words (row.Machine machine.now))) }
{
    put_after(output, b"machine ", machine.name.as_bytes())?;
    put_labelled(output, b" ", u64::from(machine.slots.get()))
}

#[tactic(auto, using(crate::proofs::Puts::kept_trans))]
fn put_job(output: &mut Vec<u8>, job: &Job) -> Result<(), AllocError>
    ensures kept { StartsWith output.new.items output.old.items }
    ensures added { OnOk result (output.new.items ≡ output.old.items ++ words_text (row_words (row.Job job.now))) }
{
    put_after(output, b"job ", job.name.as_bytes())?;
    put_labelled(output, b" ", u64::from(job.weight.get()))
}

#[tactic(auto, using(crate::proofs::Puts::kept_trans))]
fn put_task(output: &mut Vec<u8>, task: &Task) -> Result<(), AllocError>
    ensures kept { StartsWith output.new.items output.old.items }
    ensures added { OnOk result (output.new.items ≡ output.old.items ++ words_text (row_words (row.Task task.now))) }
{
    put_after(output, b"task ", task.job.as_bytes())?;
    put_word(output, task.name.as_bytes())?;
    put_standing(output, task.machine, task.waited)?;
    put_preferences(output, task.preferred.as_slice())
}

#[tactic(auto, using(crate::proofs::Puts::kept_trans))]
fn put_standing(output: &mut Vec<u8>, machine: Option<Name>, waited: u32) -> Result<(), AllocError>
    ensures kept { StartsWith output.new.items output.old.items }
    ensures added { OnOk result (output.new.items ≡ output.old.items
        ++ flat_map spaced (standing_words machine waited)) }
{
    match machine {
        Some(machine) => put_after(output, b" at ", machine.as_bytes()),
        None => put_labelled(output, b" waits ", u64::from(waited)),
    }
}

#[tactic(auto, using(crate::proofs::Puts::kept_trans))]
fn put_preferences(output: &mut Vec<u8>, names: &[Name]) -> Result<(), AllocError>
    ensures kept { StartsWith output.new.items output.old.items }
    ensures added { OnOk result (output.new.items ≡ output.old.items ++ flat_map spaced (preference_words names.now)) }
{
    if names.is_empty() {
        return Ok(());
    }
    output.extend_from_slice(b" prefers")?;
    put_names(output, names)
}

#[tactic(auto, using(crate::proofs::Puts::kept_trans))]
fn put_names(output: &mut Vec<u8>, names: &[Name]) -> Result<(), AllocError>
    ensures kept { StartsWith output.new.items output.old.items }
    ensures added { OnOk result (output.new.items ≡ output.old.items ++ flat_map spaced names.now) }
{
    for name in names {
        put_word(output, name.as_bytes())?;
    }
    Ok(())
}

// Adds a word, and the space before it.
#[tactic(auto, using(crate::proofs::Puts::kept_trans))]
fn put_word(output: &mut Vec<u8>, word: &[u8]) -> Result<(), AllocError>
    ensures kept { StartsWith output.new.items output.old.items }
    ensures added { OnOk result (output.new.items ≡ output.old.items ++ spaced word.now) }
{
    output.push(b' ')?;
    output.extend_from_slice(word)
}

// Adds a label, which ends in a space, and a word.
#[tactic(auto, using(crate::proofs::Puts::kept_trans))]
fn put_after(output: &mut Vec<u8>, label: &[u8], word: &[u8]) -> Result<(), AllocError>
    ensures kept { StartsWith output.new.items output.old.items }
    ensures added { OnOk result (output.new.items ≡ output.old.items ++ label.now ++ word.now) }
{
    output.extend_from_slice(label)?;
    output.extend_from_slice(word)
}

// Adds a label, which ends in a space, and a number.
#[tactic(auto, using(crate::proofs::Puts::kept_trans))]
fn put_labelled(output: &mut Vec<u8>, label: &[u8], number: u64) -> Result<(), AllocError>
    ensures kept { StartsWith output.new.items output.old.items }
    ensures added { OnOk result (output.new.items ≡ output.old.items ++ label.now ++ decimal number) }
{
    output.extend_from_slice(label)?;
    let mut digits = Buffer::new();
    output.extend_from_slice(digits.format(number).as_bytes())
}

#[tactic(auto, using(crate::proofs::Puts::kept_trans))]
fn end_line(output: &mut Vec<u8>) -> Result<(), AllocError>
    ensures kept { StartsWith output.new.items output.old.items }
    ensures added { OnOk result (output.new.items ≡ output.old.items ++ 10 ∷ []) }
{
    output.push(b'\n')?;
    Ok(())
}

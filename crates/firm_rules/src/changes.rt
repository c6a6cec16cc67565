//! What a round changes.
ghost use Rattle.std.specs.Prelude.{◌≡◌, ◌<◌, ◌++◌, true, IfOk, OnOk, length, option_to_list, slice_index_or};
ghost use Rattle.firm_rules.specs.Placement.{IsPlace, is_legal};
ghost use Rattle.firm_rules.specs.Round.{case_of, changes_made, machine_at, task_changes};
ghost use Rattle.firm_rules.specs.declared.book.Task.{Task as TaskRow};

use crate::book::Task;
use crate::names::Name;
use crate::rounds::{Change, Choice};
use crate::tables::Rows;
use std::alloc::{AllocError, Allocator, Global};
use std::marker::Model;

/// The changes of a round, in order of submission of their tasks, one a task at most.
#[derive(Drop)]
pub struct Changes {
    list: Vec<Change>,
}

impl Model for Changes {
    ghost use Rattle.std.specs.Prelude.{List};
    ghost use Rattle.firm_rules.specs.declared.rounds.Change.{Change};

    ghost Value = { List Change };

    ghost view = { λ c. c.list.items };
}

impl Changes {
    /// The changes as a list.
    pub fn as_slice(&self) -> &[Change]
        ensures { result.now ≡ self.now }
    {
        &self.list
    }
}

impl From<Vec<Change>> for Changes {
    ghost use Rattle.std.specs.Prelude.{◌≡◌};

    ghost from_gives = { λ list changes. changes ≡ list.items };

    fn from(list: Vec<Change>) -> Changes {
        Changes { list }
    }
}

impl PartialEq for Changes {
    ghost use Rattle.std.specs.Cmp.Lexicographic.{pointwise};
    ghost use Rattle.std.specs.Cmp.Lexicographic.{lists_per};
    ghost use Rattle.firm_rules.specs.contracts.rounds.ChangePartialEq.TheImpl.{eq-value};
    ghost use Rattle.firm_rules.specs.contracts.rounds.ChangePartialEq.TheImpl.Laws.{laws-law};

    ghost eq = { pointwise eq-value.it };

    ghost laws = { lists_per laws-law };

    fn eq(&self, other: &Changes) -> bool {
        self.as_slice() == other.as_slice()
    }
}

impl Eq for Changes {
    ghost use Rattle.std.specs.Cmp.Lexicographic.{lists_equiv};
    ghost use Rattle.firm_rules.specs.contracts.rounds.ChangeEq.TheImpl.Laws.{laws-law};

    ghost laws = { lists_equiv laws-law };
}

/// What a legal placement changes. The error comes only where memory is refused.
pub fn changes_of<A: Allocator>(
    alloc: Global,
    rows: &Rows<A>,
    placement: &[Choice],
) -> Result<Changes, AllocError>
    requires { is_legal (case_of rows.now) placement.now ≡ true }
    ensures { IfOk result (λ changes. changes ≡ changes_made rows.now placement.now) }
{
    let mut list = Vec::with_capacity(alloc, moves(rows, placement))?;
    for task in 0..rows.task_count() {
        note(&mut list, change_at(rows, task, placement[task]))?;
    }
    Ok(list.into())
}

// How many tasks are chosen to be elsewhere than where they are: the list of changes takes its memory at once.
fn moves<A: Allocator>(rows: &Rows<A>, placement: &[Choice]) -> usize
    requires { length placement.now ≡ length rows.now.tasks }
{
    rows.limits();
    let mut moves = 0;
    for task in 0..rows.task_count() {
        if !is_same(rows.case().home(task), placement[task]) {
            moves += 1;
        }
    }
    moves
}

// Adds the change last, if there is one.
fn note(list: &mut Vec<Change>, change: Option<Change>) -> Result<(), AllocError>
    ensures { OnOk result (list.new.items ≡ list.old.items ++ option_to_list change) }
{
    if let Some(change) = change {
        list.push(change)?;
    }
    Ok(())
}

// What the choice changes for the task of this number, if anything. Most tasks stay, and their rows are not read.
fn change_at<A: Allocator>(rows: &Rows<A>, number: usize, choice: Choice) -> Option<Change>
    requires there { number < length rows.now.tasks }
    requires machine { IsPlace (length rows.now.machines) choice }
    ensures { (d : TaskRow) → option_to_list result
        ≡ task_changes rows.now (slice_index_or rows.now.tasks number d) choice }
{
    rows.limits();
    if is_same(rows.case().home(number), choice) {
        return None;
    }
    change_of(rows, rows.task_row(number), choice)
}

// Whether the choices are the same.
fn is_same(one: Choice, other: Choice) -> bool
    ensures { result ≡ true → one ≡ other }
{
    match (one, other) {
        (Choice::On(place), Choice::On(another)) => place == another,
        (Choice::Wait, Choice::Wait) => true,
        _ => false,
    }
}

// What the choice changes for the task, if anything.
fn change_of<A: Allocator>(rows: &Rows<A>, task: &Task, choice: Choice) -> Option<Change>
    requires { IsPlace (length rows.now.machines) choice }
    ensures { option_to_list result ≡ task_changes rows.now task.now choice }
{
    match (task.machine, choice) {
        (None, Choice::Wait) => None,
        (None, Choice::On(place)) => Some(Change::Start(task.name, name_of(rows, place))),
        (Some(home), Choice::Wait) => Some(Change::Preempt(task.name, home)),
        (Some(home), Choice::On(place)) => {
            let machine = name_of(rows, place);
            if home == machine {
                None
            } else {
                Some(Change::Move(task.name, home, machine))
            }
        }
    }
}

// The name of the machine at a place.
fn name_of<A: Allocator>(rows: &Rows<A>, place: u32) -> Name
    requires { place < length rows.now.machines }
    ensures { result ≡ machine_at rows.now place }
{
    match rows.machine_at(place as usize) {
        Some(machine) => machine.name,
        None => unreachable!(),
    }
}

//! Savings and costs of other slots in a round, by its rents.
ghost use Rattle.std.specs.Prelude.{◌≡◌, ◌+◌, ◌-◌, ◌^◌, ◌<◌, ◌≤◌, [], ◌∷◌, ◌++◌, List, length, slice_index, IfOk};
ghost use Rattle.std.specs.Prelude.{slice_set as set};
ghost use Rattle.firm_rules.specs.declared.rounds.Choice.{Choice as ChoiceOf};
ghost use Rattle.firm_rules.specs.declared.rounds.Choice.TheVariants.{On};
ghost use Rattle.firm_rules.specs.Placement.{IsLegal, placement_cost, task_cost};
ghost use Rattle.firm_rents.specs.Rents.{gain, Show};
ghost use Rattle.firm_rules.specs.Placement.{task_at};
ghost use Rattle.firm_rents.specs.OtherSlots.{with_slots, drawn};

use crate::bounds::gain_of;
use crate::choices::least_paid;
use crate::laws::{one_more_machine_saves, other_slots_cost};
use crate::rents::{MOST_RENT, Rents};
use firm_rules::{Case, Choice, Slots, slot_cost};
use std::alloc::{AllocError, Global};
use std::cmp::Reverse;

/// Saving of one more machine, which no task prefers, in a round.
#[derive(Drop)]
pub struct Saving {
    /// The most it saves.
    pub most: u64,
    /// The rent of the machine that proves it.
    pub rent: u64,
    /// The numbers of the tasks that would go there, those that would save most first.
    pub tasks: Vec<u32>,
}

/// The most that one more machine with this number of slots would save in a round whose placement these rents show.
/// Fails only if memory is refused.
pub fn saved_by_machine(
    alloc: Global,
    case: &Case,
    rents: &Rents,
    slots: Slots,
) -> Result<Saving, AllocError>
    requires { length rents.now ≡ length case.now.slots }
    ensures most { IfOk result (λ saving. saving.most ≡ drawn case.now rents.now saving.rent case.now.tasks
        + gain case.now.spread saving.rent slots) }
    ensures saved { IfOk result (λ saving. (placement : List ChoiceOf) → Show case.now rents.now placement
        → (other : List ChoiceOf) → IsLegal (with_slots case.now (case.now.slots ++ slots ∷ [])) other
        → placement_cost case.now placement
        ≤ placement_cost (with_slots case.now (case.now.slots ++ slots ∷ [])) other + saving.most) }
{
    one_more_machine_saves();
    let worths = worths_of(alloc, case, rents)?;
    let (rent, tasks) = takers_of(alloc, case.spread(), &worths, slots)?;
    let most = drawn_at(case, rents, rent) + gain_of(case.spread(), rent, u64::from(slots.get()));
    Ok(Saving { most, rent, tasks })
}

/// The most that one more slot of the machine would save in a round whose placement these rents show.
pub fn saved_by_slot(case: &Case, rents: &Rents, place: usize) -> u64
    requires place { place < length case.now.slots }
    requires one_each { length rents.now ≡ length case.now.slots }
    ensures saved { (placement : List ChoiceOf) → Show case.now rents.now placement → (other : List ChoiceOf)
        → IsLegal (with_slots case.now (set case.now.slots place (slice_index case.now.slots place + 1))) other
        → placement_cost case.now placement ≤ placement_cost
        (with_slots case.now (set case.now.slots place (slice_index case.now.slots place + 1))) other + result }
{
    other_slots_cost();
    let rent = rents.as_slice()[place];
    let slots = case.slots(place);
    gain_of(case.spread(), rent, slots + 1) - gain_of(case.spread(), rent, slots)
}

/// The least that one fewer slot of the machine would cost in a round whose placement these rents show.
pub fn lost_by_slot(case: &Case, rents: &Rents, place: usize) -> u64
    requires place { place < length case.now.slots }
    requires one_each { length rents.now ≡ length case.now.slots }
    ensures lost { (placement : List ChoiceOf) → Show case.now rents.now placement → (other : List ChoiceOf)
        → IsLegal (with_slots case.now (set case.now.slots place (slice_index case.now.slots place - 1))) other
        → placement_cost case.now placement + result ≤ placement_cost
        (with_slots case.now (set case.now.slots place (slice_index case.now.slots place - 1))) other }
{
    other_slots_cost();
    let rent = rents.as_slice()[place];
    let slots = case.slots(place);
    gain_of(case.spread(), rent, slots) - gain_of(case.spread(), rent, slots.saturating_sub(1))
}

// How far the least that each task pays exceeds its cost on a machine added last, with the task's number, greatest
// first.
fn worths_of(
    alloc: Global,
    case: &Case,
    rents: &Rents,
) -> Result<Vec<(Reverse<u64>, u32)>, AllocError>
    requires { length rents.now ≡ length case.now.slots }
{
    let mut worths = Vec::with_capacity(alloc, case.task_count())?;
    for task in 0..case.task_count() {
        let worth = least_paid(case, rents, task).saturating_sub(cost_on_last(case, task));
        worths.push((Reverse(worth), task as u32))?;
    }
    worths.sort()?;
    Ok(worths)
}

// The tasks that go to a further machine, each as long as it is worth more than its slot costs, and the rent at which
// no other task would go.
fn takers_of(
    alloc: Global,
    spread: u64,
    worths: &[(Reverse<u64>, u32)],
    slots: Slots,
) -> Result<(u64, Vec<u32>), AllocError>
    requires { spread ≤ 1000 }
    ensures { IfOk result (λ found. found.0 ≤ 2 ^ 40) }
{
    let mut tasks = Vec::with_capacity(alloc, slots.get() as usize)?;
    let mut rent = 0;
    for slot in 0..slots.get() {
        let cost = slot_cost(spread, u64::from(slot));
        match worths.get(slot as usize) {
            Some((Reverse(worth), task)) if *worth > cost => tasks.push(*task)?,
            _ => break,
        }
        rent = cost;
    }
    let next = match worths.get(tasks.len()) {
        Some((Reverse(worth), _)) => *worth,
        None => 0,
    };
    Ok((u64::max(next, rent).min(MOST_RENT), tasks))
}

// The tasks' saving on a machine added last at this rent.
fn drawn_at(case: &Case, rents: &Rents, rent: u64) -> u64
    requires one_each { length rents.now ≡ length case.now.slots }
    requires rent { rent ≤ 2 ^ 40 }
    ensures drawn { result ≡ drawn case.now rents.now rent case.now.tasks }
    ensures most { result ≤ 2 ^ 34 }
{
    let mut drawn = 0;
    for task in 0..case.task_count() {
        drawn += least_paid(case, rents, task).saturating_sub(cost_on_last(case, task) + rent);
    }
    drawn
}

// A task's cost of a machine added last.
fn cost_on_last(case: &Case, task: usize) -> u64
    requires { task < length case.now.tasks }
    ensures cost { result ≡ task_cost case.now (task_at case.now task) (On (length case.now.slots)) }
    ensures most { result ≤ 2 ^ 22 }
{
    case.cost_of_choice(task, Choice::On(case.machine_count() as u32))
}

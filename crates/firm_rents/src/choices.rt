//! A task's price of a choice, and the excess of another choice.
ghost use Rattle.std.specs.Prelude.{◌≡◌, ◌-◌, ◌^◌, ◌<◌, ◌≤◌, true, false, length};
ghost use Rattle.firm_rules.specs.Placement.{goes_to, IsPlace};
ghost use Rattle.firm_rents.specs.Rents.{paid, least_paid, CostsMore};
ghost use Rattle.firm_rules.specs.Placement.{task_at};
ghost use Rattle.firm_rents.specs.Lowest.{IsLowest};
ghost use Rattle.firm_rules.specs.declared.rounds.Choice.TheVariants.{On};

use crate::rents::Rents;
use firm_rules::{Case, Choice};

/// The cost of a choice to the task of this number, with its rent.
pub fn paid(case: &Case, rents: &Rents, task: usize, choice: Choice) -> u64
    requires task { task < length case.now.tasks }
    ensures paid { result ≡ paid case.now rents.now (task_at case.now task) choice }
    ensures most { result ≤ 2 ^ 41 }
{
    case.cost_of_choice(task, choice) + rents.of_choice(choice)
}

/// The excess of the other choice over the chosen one for the task of this number; 0 if it is cheaper. If the
/// rents show a placement with the chosen one, every legal placement with the other costs at least this much more.
pub fn excess(case: &Case, rents: &Rents, task: usize, chosen: Choice, other: Choice) -> u64
    requires task { task < length case.now.tasks }
    ensures excess { result ≡ paid case.now rents.now (task_at case.now task) other
        - paid case.now rents.now (task_at case.now task) chosen }
    ensures more { CostsMore case.now rents.now task chosen other result }
{
    paid(case, rents, task, other).saturating_sub(paid(case, rents, task, chosen))
}

/// A machine that costs the task of this number least with its rent, apart from these two; `Wait` if there is no other
/// machine. Looks at the task's own machine, those it prefers, and one with the lowest rent.
pub fn cheapest_other(case: &Case, rents: &Rents, task: usize, one: Choice, other: Choice) -> Choice
    requires task { task < length case.now.tasks }
    requires one_each { length rents.now ≡ length case.now.slots }
    ensures { IsLowest (λ j. paid case.now rents.now (task_at case.now task) (On j)) (length case.now.slots)
        one other result }
{
    let mut best = rents.lowest_but(one, other);
    for place in case.near(task).as_slice() {
        let machine = Choice::On(*place);
        if !is_on(one, *place)
            && !is_on(other, *place)
            && is_before(case, rents, task, machine, best)
        {
            best = machine;
        }
    }
    best
}

// Whether a machine costs the task less with its rent than the other one, or as much and stands before it.
fn is_before(case: &Case, rents: &Rents, task: usize, machine: Choice, other: Choice) -> bool
    requires task { task < length case.now.tasks }
    ensures yes { result ≡ true → paid case.now rents.now (task_at case.now task) machine
        ≤ paid case.now rents.now (task_at case.now task) other }
    ensures no { result ≡ false → paid case.now rents.now (task_at case.now task) other
        ≤ paid case.now rents.now (task_at case.now task) machine }
{
    let here = paid(case, rents, task, machine);
    let there = paid(case, rents, task, other);
    here < there || (here == there && stands_before(machine, other))
}

// Whether these are two machines, and the first was added first.
fn stands_before(machine: Choice, other: Choice) -> bool {
    match (machine, other) {
        (Choice::On(place), Choice::On(another)) => place < another,
        _ => false,
    }
}

/// The least that the task of this number pays: to wait, or for a machine with its rent.
pub fn least_paid(case: &Case, rents: &Rents, task: usize) -> u64
    requires task { task < length case.now.tasks }
    requires one_each { length rents.now ≡ length case.now.slots }
    ensures paid { result ≡ least_paid case.now rents.now (task_at case.now task) }
    ensures most { result ≤ 2 ^ 22 }
{
    let wait = case.cost_of_choice(task, Choice::Wait);
    let machine = cheapest_other(case, rents, task, Choice::Wait, Choice::Wait);
    wait.min(paid(case, rents, task, machine))
}

/// Whether the choice is the machine at this place.
pub(crate) fn is_on(choice: Choice, place: u32) -> bool
    ensures { result ≡ goes_to place choice }
{
    match choice {
        Choice::On(other) => other == place,
        Choice::Wait => false,
    }
}

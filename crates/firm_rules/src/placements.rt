//! Whether a placement is legal, what it costs, and which of two comes first. None of these calls takes memory or looks
//! up a name.
ghost use Rattle.std.specs.Prelude.{ℕ, ◌≡◌, ◌<◌, ◌^◌, ◌≤◌, true, pos, length, slice_index, bytes_eq};
ghost use Rattle.std.specs.List.{position_or_len};
ghost use Rattle.firm_rules.specs.Book.{job_names};
ghost use Rattle.firm_rules.specs.Placement.{comes_before, is_legal, load, load_cost, placement_cost, slot_cost};
ghost use Rattle.firm_rules.specs.SlotCosts.{most_slot_cost};
ghost use Rattle.firm_rules.specs.SoundBook.{is_cost};
ghost use Rattle.firm_rules.specs.Round.{case_of, weight_at};

use crate::names::Name;
use crate::rounds::Choice;
use crate::tables::Rows;
use std::alloc::Allocator;

/// The length of an array with an entry for each machine: each is a node, and a tenant has at most 4,096 nodes.
pub const MOST_MACHINES: usize = 4_096;

/// Whether there is one choice for each task, each a machine or to wait, and no machine has more tasks than slots.
pub fn legal<A: Allocator>(rows: &Rows<A>, placement: &[Choice]) -> bool
    ensures { result ≡ is_legal (case_of rows.now) placement.now }
{
    rows.case().is_legal(placement)
}

/// What a legal placement costs: for each machine what its load costs, for each task that waits its job's weight and
/// the rounds that left it waiting, churn for each running task that does not stay, and `remote` for each placed task
/// that has preferences and is neither on one of them nor stays.
pub fn cost_of<A: Allocator>(rows: &Rows<A>, placement: &[Choice]) -> i64
    requires { is_legal (case_of rows.now) placement.now ≡ true }
    ensures cost { result ≡ pos (placement_cost (case_of rows.now) placement.now) }
    ensures within { is_cost result ≡ true }
{
    rows.limits();
    rows.case().cost_of(placement) as i64
}

/// Whether the first of two legal placements comes before the second: at the first task on which they differ, it has
/// the choice that ranks first, its own machine before the others in order of addition, and waiting last.
pub fn ranks_before<A: Allocator>(rows: &Rows<A>, first: &[Choice], second: &[Choice]) -> bool
    requires first_legal { is_legal (case_of rows.now) first.now ≡ true }
    requires second_legal { is_legal (case_of rows.now) second.now ≡ true }
    ensures { result ≡ comes_before (length rows.now.machines) (case_of rows.now).tasks first.now second.now }
{
    let case = rows.case();
    for task in 0..case.task_count() {
        let one = case.rank_of(task, first[task]);
        let other = case.rank_of(task, second[task]);
        if one != other {
            return one < other;
        }
    }
    false
}

/// How many tasks the placement has on each machine, for as many machines as a tenant may have.
pub fn loads_of(placement: &[Choice]) -> [u32; MOST_MACHINES]
    requires { length placement.now ≤ 4096 }
    ensures { (j : ℕ) → j < 4096 → slice_index result j ≡ load placement.now j }
{
    let mut loads = [0; MOST_MACHINES];
    for task in 0..placement.len() {
        if let Choice::On(place) = placement[task] {
            if (place as usize) < MOST_MACHINES {
                loads[place as usize] += 1;
            }
        }
    }
    loads
}

/// What a task costs in a machine's slot of this number, counted from 0: nothing in the first, and in each further one
/// `spread` more than in the one before. `loads_are_sums_of_slots` compares slots, and adds them up.
pub fn slot_cost(spread: u64, slot: u64) -> u64
    requires least_spread { spread ≤ 1000 }
    requires few_slots { slot ≤ 4096 }
    ensures cost { result ≡ slot_cost spread slot }
    ensures most { result ≤ 2 ^ 22 }
    ensures of_machine { slot < 64 → result ≤ most_slot_cost }
{
    slot * spread
}

/// What a load of `tasks` tasks costs on one machine: nothing for the first, and for each further one `spread` more
/// than for the one before.
pub fn cost_of_load(spread: u64, tasks: u64) -> u64
    requires least_spread { spread ≤ 1000 }
    requires few_tasks { tasks ≤ 4096 }
    ensures cost { result ≡ load_cost spread tasks }
    ensures most { result ≤ 2 ^ 33 }
{
    spread * (tasks * tasks.saturating_sub(1) / 2)
}

/// The weight of the job of this name; 0, as defined, where no job has it.
pub fn weight_of<A: Allocator>(rows: &Rows<A>, job: Name) -> u32
    ensures { result ≡ weight_at rows.now (position_or_len (bytes_eq job) (job_names rows.now)) }
{
    let place = rows.job_place(job).unwrap_or(rows.job_count());
    match rows.job_at(place) {
        Some(row) => row.weight.get(),
        None => 0,
    }
}

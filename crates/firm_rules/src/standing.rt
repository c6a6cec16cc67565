//! Whether rounds may have left the tasks of some rows where they run.
ghost use Rattle.std.specs.Prelude.{ℕ, ◌≡◌, ◌==◌, ◌<◌, ◌≤◌, ◌^◌, true, max, All, length, slice_index};
ghost use Rattle.std.specs.Prelude.{if◌then◌else◌};
ghost use Rattle.std.specs.List.{list_all, list_any};
ghost use Rattle.firm_rules.specs.Book.{machine_names, name_at, running_on};
ghost use Rattle.firm_rules.specs.Names.{is_among};
ghost use Rattle.firm_rules.specs.SoundBook.{bid, cost_of_wait, highest, may_pay, may_run, may_stand, slot_price};
ghost use Rattle.firm_rules.specs.SoundBook.{start_cost};
ghost use Rattle.firm_rules.specs.inner.Bids.{near_bid, wide_bid};

use crate::book::Task;
use crate::names::Name;
use crate::placements::{MOST_MACHINES, slot_cost, weight_of};
use crate::rounds::Choice;
use crate::tables::Rows;

/// Whether the last of so many rounds may have left each task where it is. It looks at each task four times.
pub(crate) fn may_stand(rows: &Rows, rounds: u64) -> bool
    ensures { result ≡ list_all (λ task. may_stand rows.now rounds task task.machine) rows.now.tasks }
{
    // Only for its contract, by which the machine of each task is there.
    rows.limits();
    let loads = loads_of(rows);
    let near = near_bids(rows);
    let wide = wide_bid(rows);
    for place in 0..rows.task_count() {
        let Some(task) = rows.task_at(place) else {
            unreachable!()
        };
        if let Some(machine) = task.machine {
            let price = price_on(rows, &loads, &near, wide, machine);
            if !may_pay(rows, rounds, &task, machine, price) {
                return false;
            }
        }
    }
    true
}

// How many tasks run on each machine, by its place.
fn loads_of(rows: &Rows) -> [u32; MOST_MACHINES]
    ensures { (j : ℕ) → j < length rows.now.machines
        → slice_index result j ≡ running_on rows.now (name_at (machine_names rows.now) j) }
{
    // Only for its contract, by which no more machines are there.
    rows.limits();
    let case = rows.case();
    let mut loads = [0; MOST_MACHINES];
    for task in 0..case.task_count() {
        if let Choice::On(place) = case.home(task) {
            if (place as usize) < MOST_MACHINES {
                loads[place as usize] += 1;
            }
        }
    }
    loads
}

// The highest bid of a task that prefers each machine, by its place.
fn near_bids(rows: &Rows) -> [u64; MOST_MACHINES]
    ensures { (j : ℕ) → j < length rows.now.machines
        → slice_index result j ≡ highest (near_bid rows.now (name_at (machine_names rows.now) j)) rows.now.tasks }
{
    // Only for its contract, by which no more machines are there, and no task that runs has waited.
    rows.limits();
    let case = rows.case();
    let mut bids = [0; MOST_MACHINES];
    for number in 0..rows.task_count() {
        let Some(task) = rows.task_at(number) else {
            unreachable!()
        };
        raise(&mut bids, case.near(number).as_slice(), bid_of(rows, &task));
    }
    bids
}

// Raises what is at the places to the bid.
fn raise(bids: &mut [u64; MOST_MACHINES], places: &[u32], bid: u64)
    requires { All (λ place. place < 4096) places.now }
    ensures { (j : ℕ) → j < 4096
        → slice_index bids.new j
        ≡ max (slice_index bids.old j) (if list_any (λ place. place == j) places.now then bid else 0) }
{
    for place in places {
        let at = *place as usize;
        bids[at] = bids[at].max(bid);
    }
}

// The highest bid of any task, less `remote`.
fn wide_bid(rows: &Rows) -> u64
    ensures { result ≡ highest (wide_bid rows.now) rows.now.tasks }
{
    let remote = rows.limits().remote();
    let mut most: u64 = 0;
    for number in 0..rows.task_count() {
        let Some(task) = rows.task_at(number) else {
            unreachable!()
        };
        most = most.max(bid_of(rows, &task).saturating_sub(remote));
    }
    most
}

// What a wait cost the task in the last round, at least, if that left it waiting.
fn bid_of(rows: &Rows, task: &Task) -> u64
    ensures { result ≡ bid rows.now task.now }
{
    if task.waited == 0 {
        return 0;
    }
    cost_of_wait(rows, task, u64::from(task.waited - 1))
}

// What a task must be worth to run on the machine of this name.
fn price_on(
    rows: &Rows,
    loads: &[u32; MOST_MACHINES],
    near: &[u64; MOST_MACHINES],
    wide: u64,
    machine: Name,
) -> u64
    requires there { is_among (machine_names rows.now) machine ≡ true }
    requires loads { (j : ℕ) → j < length rows.now.machines
        → slice_index loads.now j ≡ running_on rows.now (name_at (machine_names rows.now) j) }
    requires near { (j : ℕ) → j < length rows.now.machines
        → slice_index near.now j ≡ highest (near_bid rows.now (name_at (machine_names rows.now) j)) rows.now.tasks }
    requires wide { wide ≡ highest (wide_bid rows.now) rows.now.tasks }
    ensures { result ≡ slot_price rows.now machine (running_on rows.now machine) }
{
    // Only for its contract, by which no more tasks are there.
    let limits = rows.limits();
    let Some(place) = rows.machine_place(machine) else {
        unreachable!()
    };
    let slot = slot_cost(limits.spread(), u64::from(loads[place]).saturating_sub(1));
    slot.max(wide).max(near[place])
}

/// Whether the last of so many rounds may have left the task on the machine, as one of so many there, whatever tasks
/// wait: that costs no more than its wait, by what it may have waited, or by its weight and churn if it ran there
/// before.
pub fn may_run(rows: &Rows, rounds: u64, task: &Task, machine: Name, load: u64) -> bool
    requires { load ≤ 4096 }
    ensures { result ≡ may_run rows.now rounds task.now machine load }
{
    let slot = slot_cost(rows.limits().spread(), load.saturating_sub(1));
    may_pay(rows, rounds, task, machine, slot)
}

// Whether the last of so many rounds may have left the task on the machine at this price.
fn may_pay(rows: &Rows, rounds: u64, task: &Task, machine: Name, price: u64) -> bool
    ensures { result ≡ may_pay rows.now rounds task.now machine price }
{
    let start = start_cost(rows, task, machine);
    let started = price.saturating_add(start) <= cost_of_wait(rows, task, rounds.saturating_sub(1));
    let stayed = 2 <= rounds
        && price <= cost_of_wait(rows, task, 0) + rows.limits().churn()
        && start <= cost_of_wait(rows, task, rounds.saturating_sub(2));
    started || stayed
}

// What it costs to place the task on the machine: `remote`, if it prefers machines and this is none of them.
fn start_cost(rows: &Rows, task: &Task, machine: Name) -> u64
    ensures cost { result ≡ start_cost rows.now task.now machine }
    ensures most { result ≤ 2 ^ 20 }
{
    if task.preferred.len() == 0 || task.preferred.contains(machine) {
        0
    } else {
        rows.limits().remote()
    }
}

// What a wait costs the task once this many rounds left it waiting.
fn cost_of_wait(rows: &Rows, task: &Task, rounds: u64) -> u64
    ensures cost { result ≡ cost_of_wait rows.now task.now rounds }
    ensures most { result ≤ 2 ^ 33 }
{
    let patience = rows.limits().patience();
    u64::from(weight_of(rows, task.job)) + patience.min(rounds)
}

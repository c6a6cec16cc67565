//! Bounds by rents on the cost of a tenant's placements. None of these calls takes memory.
ghost use Rattle.std.specs.Prelude.{ℕ, ◌≡◌, ◌+◌, ◌*◌, ◌^◌, ◌≤◌, ◌↔◌, true, length, slice_index, List, IsTrue};
ghost use Rattle.firm_rules.specs.declared.rounds.Choice.{Choice};
ghost use Rattle.firm_rules.specs.Placement.{IsLegal, is_legal, placement_cost};
ghost use Rattle.firm_rents.specs.Rents.{all_least, gain, gains, Show};

use crate::choices::least_paid;
use crate::laws::rents_show_least;
use crate::rents::Rents;
use firm_rules::{Case, Choice, cost_of_load, legality_is_judged};

/// The verdict of rents on a placement.
#[derive(Clone, Copy, PartialEq, Eq)]
pub struct Shown {
    /// Whether they show it to be least: its cost plus the gains equals the least that the tasks pay.
    pub least: bool,
    pub cost: u64,
    /// The least that the tasks pay, together.
    pub paid: u64,
    /// The gains of the machines, together.
    pub gains: u64,
}

/// The verdict of the rents on a legal placement. If they show it to be least, no legal placement costs less.
pub fn shows_least(case: &Case, rents: &Rents, placement: &[Choice]) -> Shown
    requires legal { is_legal case.now placement.now ≡ true }
    requires one_each { length rents.now ≡ length case.now.slots }
    ensures cost { result.cost ≡ placement_cost case.now placement.now }
    ensures paid { result.paid ≡ all_least case.now rents.now case.now.tasks }
    ensures gains { result.gains ≡ gains case.now rents.now }
    ensures shown { IsTrue result.least ↔ Show case.now rents.now placement.now }
    ensures least { IsTrue result.least → (other : List Choice) → IsLegal case.now other
        → placement_cost case.now placement.now ≤ placement_cost case.now other }
{
    rents_show_least();
    let cost = case.cost_of(placement);
    let paid = paid_of_all(case, rents);
    let gains = gains_of(case, rents);
    Shown {
        least: cost + gains == paid,
        cost,
        paid,
        gains,
    }
}

// The least that the tasks pay, together: each for its cheapest choice with rent.
fn paid_of_all(case: &Case, rents: &Rents) -> u64
    requires one_each { length rents.now ≡ length case.now.slots }
    ensures paid { result ≡ all_least case.now rents.now case.now.tasks }
    ensures most { result ≤ 2 ^ 34 }
{
    let mut paid = 0;
    for task in 0..case.task_count() {
        paid += least_paid(case, rents, task);
    }
    paid
}

// The gains of all machines.
fn gains_of(case: &Case, rents: &Rents) -> u64
    requires one_each { length rents.now ≡ length case.now.slots }
    ensures gains { result ≡ gains case.now rents.now }
    ensures most { result ≤ 2 ^ 59 }
{
    let spread = case.spread();
    let mut gains = 0;
    for place in 0..case.machine_count() {
        gains += gain_of(spread, rents.as_slice()[place], case.slots(place));
    }
    gains
}

/// The most that any number of tasks, up to the slots, brings at a rent beyond what they cost as a load.
pub(crate) fn gain_of(spread: u64, rent: u64, slots: u64) -> u64
    requires spread { spread ≤ 1000 }
    requires rent { rent ≤ 2 ^ 40 }
    requires slots { slots ≤ 65 }
    ensures gain { result ≡ gain spread rent slots }
    ensures most { result ≤ 2 ^ 47 }
{
    let mut most = 0;
    for before in 0..slots {
        let tasks = before + 1;
        most = most.max((tasks * rent).saturating_sub(cost_of_load(spread, tasks)));
    }
    most
}

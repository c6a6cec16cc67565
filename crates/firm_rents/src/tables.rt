//! The lowest and the highest rents that a placement leaves its machines, and those that make one task's other choices
//! as dear as they can be. `shows_least` checks anew whether each table shows the placement.
ghost use Rattle.std.specs.Prelude.{◌≡◌, ◌+◌, ◌-◌, ◌^◌, ◌<◌, ◌≤◌, ℕ, List, length, slice_index, IfOk, true};
ghost use Rattle.std.specs.Prelude.{if◌then◌else◌, nat_lt, min, max, slice_set as set};
ghost use Rattle.firm_rules.specs.Placement.{is_legal, IsPlace, load, slot_cost};
ghost use Rattle.firm_rules.specs.declared.rounds.Choice.{Choice as ChoiceOf};
ghost use Rattle.firm_rules.specs.declared.rounds.Choice.TheVariants.{On};
ghost use Rattle.firm_rents.specs.Rents.{AreRents, IsBelow, Show, Suit, paid, rent};
ghost use Rattle.firm_rules.specs.Placement.{task_at, choice_at};
ghost use Rattle.firm_rents.specs.inner.Bounds.{IsWithin};

use crate::laws::rents_that_show_suit;
use crate::rents::{MOST_RENT, Rents, rent_of};
use firm_rules::{Case, Choice, legality_is_judged, loads_of, slot_cost};
use std::alloc::{AllocError, Global};

/// The lowest rents that a legal placement leaves its machines: each machine's last task is paid for, and no task would
/// pay less elsewhere. No rents that show the placement have a lower one. Fails only if memory is refused.
pub fn low_rents(alloc: Global, case: &Case, placement: &[Choice]) -> Result<Rents, AllocError>
    requires legal { is_legal case.now placement.now ≡ true }
    ensures rents { IfOk result (λ low. AreRents (length case.now.slots) low) }
    ensures lowest { IfOk result (λ low. (rents : List ℕ) → Show case.now rents placement.now
        → IsBelow low rents) }
{
    rents_that_show_suit();
    legality_is_judged();
    prove!(case.machine_count() <= 4_096);
    let mut table = paid_for(alloc, case, placement)?;
    raise_all(case, placement, &mut table);
    Ok(Rents::of(table))
}

/// The highest rents that a legal placement leaves its machines: no free slot is worth more than it would cost, and no
/// task would pay less elsewhere or by waiting. No rents up to 2^40 that show the placement have a higher one. Fails
/// only if memory is refused.
pub fn high_rents(alloc: Global, case: &Case, placement: &[Choice]) -> Result<Rents, AllocError>
    requires legal { is_legal case.now placement.now ≡ true }
    ensures rents { IfOk result (λ high. AreRents (length case.now.slots) high) }
    ensures highest { IfOk result (λ high. (rents : List ℕ) → AreRents (length case.now.slots) rents
        → Show case.now rents placement.now → IsBelow rents high) }
{
    rents_that_show_suit();
    legality_is_judged();
    prove!(case.machine_count() <= 4_096);
    let mut table = free_slots(alloc, case, placement)?;
    lower_all(case, placement, &mut table);
    Ok(Rents::of(table))
}

/// Rents by which each other choice of the task of this number is as dear, compared with its own, as any rents up to
/// 2^40 that show the placement can make it. Fails only if memory is refused.
pub fn rents_for(
    alloc: Global,
    case: &Case,
    placement: &[Choice],
    task: usize,
) -> Result<Rents, AllocError>
    requires legal { is_legal case.now placement.now ≡ true }
    requires task { task < length case.now.tasks }
    ensures rents { IfOk result (λ own. AreRents (length case.now.slots) own) }
    ensures dearest { IfOk result (λ own. (rents : List ℕ) → AreRents (length case.now.slots) rents
        → Show case.now rents placement.now → (other : ChoiceOf) → IsPlace (length case.now.slots) other
        → rent rents other + rent own (choice_at placement.now task)
        ≤ rent own other + rent rents (choice_at placement.now task)) }
{
    rents_that_show_suit();
    legality_is_judged();
    prove!(case.machine_count() <= 4_096);
    let low = low_rents(alloc, case, placement)?;
    let high = high_rents(alloc, case, placement)?;
    let chosen = placement[task];
    let mut table = capped(alloc, &high, chosen, low.of_choice(chosen))?;
    lower_all(case, placement, &mut table);
    Ok(Rents::of(table))
}

// Rents by which each machine's last task is paid for.
fn paid_for(alloc: Global, case: &Case, placement: &[Choice]) -> Result<Vec<u64>, AllocError>
    requires { is_legal case.now placement.now ≡ true }
    ensures one_each { IfOk result (λ rents. length rents.items ≡ length case.now.slots) }
    ensures rents { IfOk result (λ rents. (j : ℕ) → j < length case.now.slots
        → slice_index rents.items j ≤ slot_cost case.now.spread (load placement.now j - 1)) }
    ensures small { IfOk result (λ rents. (j : ℕ) → slice_index rents.items j ≤ 2 ^ 40) }
{
    // No more tasks are counted than a tenant may have.
    prove!(case.task_count() <= 4_096);
    let loads = loads_of(placement);
    let mut rents = vec![in alloc; 0; case.machine_count()]?;
    for place in 0..rents.len() {
        let others = u64::from(loads[place]).saturating_sub(1);
        rents[place] = slot_cost(case.spread(), others).min(MOST_RENT);
    }
    Ok(rents)
}

// Rents by which a free slot is worth what it would cost, and those of full machines are as high as they can be.
fn free_slots(alloc: Global, case: &Case, placement: &[Choice]) -> Result<Vec<u64>, AllocError>
    requires { is_legal case.now placement.now ≡ true }
    ensures one_each { IfOk result (λ rents. length rents.items ≡ length case.now.slots) }
    ensures rents { IfOk result (λ rents. (j : ℕ) → j < length case.now.slots
        → slice_index rents.items j ≡ (if nat_lt (load placement.now j) (slice_index case.now.slots j)
        then slot_cost case.now.spread (load placement.now j) else 2 ^ 40)) }
    ensures small { IfOk result (λ rents. (j : ℕ) → slice_index rents.items j ≤ 2 ^ 40) }
{
    // No more tasks are counted than a tenant may have.
    prove!(case.task_count() <= 4_096);
    let loads = loads_of(placement);
    let mut rents = vec![in alloc; 0; case.machine_count()]?;
    for place in 0..rents.len() {
        let load = u64::from(loads[place]);
        rents[place] = if load < case.slots(place) {
            slot_cost(case.spread(), load)
        } else {
            MOST_RENT
        };
    }
    Ok(rents)
}

// Raises the rents until no task would pay less elsewhere.
fn raise_all(case: &Case, placement: &[Choice], rents: &mut [u64])
    requires legal { is_legal case.now placement.now ≡ true }
    requires one_each { length rents.old ≡ length case.now.slots }
    requires small { (j : ℕ) → slice_index rents.old j ≤ 2 ^ 40 }
    ensures one_each { length rents.new ≡ length case.now.slots }
    ensures small { (j : ℕ) → slice_index rents.new j ≤ 2 ^ 40 }
    ensures below { (bounds : List ℕ) → Suit case.now bounds placement.now → IsBelow rents.old bounds
        → IsBelow rents.new bounds }
{
    for _ in 0..case.machine_count() {
        if !raise(case, placement, rents) {
            return;
        }
    }
}

// Raises each rent to what the tasks pay beyond what its machine costs them; returns whether one rose.
fn raise(case: &Case, placement: &[Choice], rents: &mut [u64]) -> bool
    requires legal { is_legal case.now placement.now ≡ true }
    requires one_each { length rents.old ≡ length case.now.slots }
    requires small { (j : ℕ) → slice_index rents.old j ≤ 2 ^ 40 }
    ensures one_each { length rents.new ≡ length case.now.slots }
    ensures small { (j : ℕ) → slice_index rents.new j ≤ 2 ^ 40 }
    ensures below { (bounds : List ℕ) → Suit case.now bounds placement.now → IsBelow rents.old bounds
        → IsBelow rents.new bounds }
{
    legality_is_judged();
    let mut rose = false;
    let mut floor = 0;
    for task in 0..case.task_count() {
        let pays = case.cost_of_choice(task, placement[task]) + rent_of(rents, placement[task]);
        floor = pays.saturating_sub(case.wide_cost(task)).max(floor);
        rose = raise_near(case, task, pays, rents) || rose;
    }
    raise_to_floor(rents, floor) || rose
}

// Raises the rents of the task's own machine and of those it prefers; returns whether one rose.
fn raise_near(case: &Case, task: usize, pays: u64, rents: &mut [u64]) -> bool
    requires task { task < length case.now.tasks }
    requires one_each { length rents.old ≡ length case.now.slots }
    requires small { (j : ℕ) → slice_index rents.old j ≤ 2 ^ 40 }
    ensures one_each { length rents.new ≡ length case.now.slots }
    ensures small { (j : ℕ) → slice_index rents.new j ≤ 2 ^ 40 }
    ensures below { (bounds : List ℕ) → ((j : ℕ) → j < length case.now.slots
        → pays ≤ paid case.now bounds (task_at case.now task) (On j)) → IsBelow rents.old bounds
        → IsBelow rents.new bounds }
{
    let mut rose = false;
    let near = case.near(task);
    for place in near.as_slice() {
        rose = raise_one(case, task, pays, *place, rents) || rose;
    }
    rose
}

// Raises the rent of the machine to what the task pays beyond what the machine costs it; returns whether it rose.
fn raise_one(case: &Case, task: usize, pays: u64, place: u32, rents: &mut [u64]) -> bool
    requires task { task < length case.now.tasks }
    requires place { place < length case.now.slots }
    requires one_each { length rents.old ≡ length case.now.slots }
    requires small { (j : ℕ) → slice_index rents.old j ≤ 2 ^ 40 }
    ensures one_each { length rents.new ≡ length case.now.slots }
    ensures small { (j : ℕ) → slice_index rents.new j ≤ 2 ^ 40 }
    ensures below { (bounds : List ℕ) → ((j : ℕ) → j < length case.now.slots
        → pays ≤ paid case.now bounds (task_at case.now task) (On j)) → IsBelow rents.old bounds
        → IsBelow rents.new bounds }
{
    let cost = case.cost_of_choice(task, Choice::On(place));
    raise_to(rents, place as usize, pays.saturating_sub(cost))
}

// Raises all rents to this one; returns whether one rose.
fn raise_to_floor(rents: &mut [u64], least: u64) -> bool
    requires small { (j : ℕ) → slice_index rents.old j ≤ 2 ^ 40 }
    ensures one_each { length rents.new ≡ length rents.old }
    ensures small { (j : ℕ) → slice_index rents.new j ≤ 2 ^ 40 }
    ensures below { (bounds : List ℕ) → ((j : ℕ) → j < length rents.old → least ≤ slice_index bounds j)
        → IsBelow rents.old bounds → IsBelow rents.new bounds }
{
    let mut rose = false;
    for place in 0..rents.len() {
        rose = raise_to(rents, place, least) || rose;
    }
    rose
}

// Raises the rent of a machine to this one, if that is more; returns whether it rose.
fn raise_to(rents: &mut [u64], place: usize, least: u64) -> bool
    requires { place < length rents.old }
    ensures { rents.new ≡ set rents.old place (max (slice_index rents.old place) (min least (2 ^ 40))) }
{
    let least = least.min(MOST_RENT);
    let rises = rents[place] < least;
    rents[place] = rents[place].max(least);
    rises
}

// Lowers the rents until no task would pay less elsewhere or by waiting.
fn lower_all(case: &Case, placement: &[Choice], rents: &mut [u64])
    requires legal { is_legal case.now placement.now ≡ true }
    requires one_each { length rents.old ≡ length case.now.slots }
    requires small { (j : ℕ) → slice_index rents.old j ≤ 2 ^ 40 }
    ensures one_each { length rents.new ≡ length case.now.slots }
    ensures falls { IsBelow rents.new rents.old }
    ensures within { (bounds : List ℕ) (less more : ℕ) → Suit case.now bounds placement.now → less ≤ more
        → IsWithin bounds rents.old less more → IsWithin bounds rents.new less more }
{
    for _ in 0..case.machine_count() {
        if !lower(case, placement, rents) {
            return;
        }
    }
}

// Lowers the rent of each machine to what its tasks would pay elsewhere; returns whether one fell.
fn lower(case: &Case, placement: &[Choice], rents: &mut [u64]) -> bool
    requires legal { is_legal case.now placement.now ≡ true }
    requires one_each { length rents.old ≡ length case.now.slots }
    requires small { (j : ℕ) → slice_index rents.old j ≤ 2 ^ 40 }
    ensures one_each { length rents.new ≡ length case.now.slots }
    ensures falls { IsBelow rents.new rents.old }
    ensures within { (bounds : List ℕ) (less more : ℕ) → Suit case.now bounds placement.now → less ≤ more
        → IsWithin bounds rents.old less more → IsWithin bounds rents.new less more }
{
    legality_is_judged();
    let mut fell = false;
    let mut lowest = lowest_place(rents);
    for task in 0..case.task_count() {
        let one = lower_for(case, rents, task, placement[task], lowest);
        fell = one.fell || fell;
        lowest = one.lowest;
    }
    fell
}

// Whether a rent fell, and the place of a lowest rent.
#[derive(Clone, Copy)]
struct Lowered {
    fell: bool,
    lowest: usize,
}

// Lowers the rent of the machine that a task has to what it would pay elsewhere.
fn lower_for(case: &Case, rents: &mut [u64], task: usize, choice: Choice, lowest: usize) -> Lowered
    requires task { task < length case.now.tasks }
    requires place { IsPlace (length case.now.slots) choice }
    requires one_each { length rents.old ≡ length case.now.slots }
    requires small { (j : ℕ) → slice_index rents.old j ≤ 2 ^ 40 }
    requires lowest { 0 < length case.now.slots → lowest < length case.now.slots }
    ensures lowest { 0 < length case.now.slots → result.lowest < length case.now.slots }
    ensures one_each { length rents.new ≡ length case.now.slots }
    ensures falls { IsBelow rents.new rents.old }
    ensures within { (bounds : List ℕ) (less more : ℕ) → less ≤ more → IsWithin bounds rents.old less more
        → ((other : ChoiceOf) → IsPlace (length case.now.slots) other
        → paid case.now bounds (task_at case.now task) choice ≤ paid case.now bounds (task_at case.now task) other)
        → IsWithin bounds rents.new less more }
{
    let Choice::On(machine) = choice else {
        return Lowered {
            fell: false,
            lowest,
        };
    };
    let place = machine as usize;
    let pays = pays_elsewhere(case, rents, task, lowest);
    let fell = lower_to(
        rents,
        place,
        pays.saturating_sub(case.cost_of_choice(task, choice)),
    );
    Lowered {
        fell,
        lowest: if rents[place] < rents[lowest] {
            place
        } else {
            lowest
        },
    }
}

// The least that the task would pay: for a machine of the lowest rent, its own or one it prefers, or to wait.
fn pays_elsewhere(case: &Case, rents: &[u64], task: usize, lowest: usize) -> u64
    requires task { task < length case.now.tasks }
    requires one_each { length rents.now ≡ length case.now.slots }
    requires small { (j : ℕ) → slice_index rents.now j ≤ 2 ^ 40 }
    requires lowest { lowest < length case.now.slots }
    ensures { (bounds : List ℕ) (less more least : ℕ) → less ≤ more → IsWithin bounds rents.now less more
        → ((other : ChoiceOf) → IsPlace (length case.now.slots) other
        → least ≤ paid case.now bounds (task_at case.now task) other) → least + less ≤ result + more }
{
    let wide = case.wide_cost(task) + rents[lowest];
    let mut most = wide.min(case.cost_of_choice(task, Choice::Wait));
    let near = case.near(task);
    for place in near.as_slice() {
        most = most.min(pays_on(case, rents, task, *place));
    }
    most
}

// The task's price of the machine.
fn pays_on(case: &Case, rents: &[u64], task: usize, place: u32) -> u64
    requires task { task < length case.now.tasks }
    requires place { place < length case.now.slots }
    requires one_each { length rents.now ≡ length case.now.slots }
    requires small { (j : ℕ) → slice_index rents.now j ≤ 2 ^ 40 }
    ensures { (bounds : List ℕ) (less more least : ℕ) → less ≤ more → IsWithin bounds rents.now less more
        → ((other : ChoiceOf) → IsPlace (length case.now.slots) other
        → least ≤ paid case.now bounds (task_at case.now task) other) → least + less ≤ result + more }
{
    case.cost_of_choice(task, Choice::On(place)) + rents[place as usize]
}

// These rents, with that of the choice's machine, if it is one, lowered to this rent.
fn capped(alloc: Global, rents: &Rents, choice: Choice, most: u64) -> Result<Vec<u64>, AllocError>
    requires { IsPlace (length rents.now) choice }
    ensures one_each { IfOk result (λ table. length table.items ≡ length rents.now) }
    ensures small { IfOk result (λ table. (j : ℕ) → slice_index table.items j ≤ 2 ^ 40) }
    ensures capped { IfOk result (λ table. rent table.items choice ≤ most) }
    ensures within { IfOk result (λ table. (bounds : List ℕ) → most ≤ rent bounds choice
        → IsWithin bounds rents.now 0 0 → IsWithin bounds table.items most (rent bounds choice)) }
{
    let mut table = Vec::from_slice(alloc, rents.as_slice())?;
    cap(&mut table, choice, most);
    Ok(table)
}

// Lowers the rent of the machine of a choice, if it is one, to this rent.
fn cap(rents: &mut [u64], choice: Choice, most: u64)
    requires { IsPlace (length rents.old) choice }
    ensures one_each { length rents.new ≡ length rents.old }
    ensures falls { IsBelow rents.new rents.old }
    ensures capped { rent rents.new choice ≤ most }
    ensures within { (bounds : List ℕ) → most ≤ rent bounds choice → IsWithin bounds rents.old 0 0
        → IsWithin bounds rents.new most (rent bounds choice) }
{
    let Choice::On(machine) = choice else {
        return;
    };
    lower_to(rents, machine as usize, most);
}

// Lowers the rent of a machine to this one, if that is less; returns whether it fell.
fn lower_to(rents: &mut [u64], place: usize, most: u64) -> bool
    requires { place < length rents.old }
    ensures { rents.new ≡ set rents.old place (min (slice_index rents.old place) most) }
{
    let falls = most < rents[place];
    rents[place] = rents[place].min(most);
    falls
}

// The place of a lowest rent, or 0.
fn lowest_place(rents: &[u64]) -> usize
    ensures { 0 < length rents.now → result < length rents.now }
{
    let mut lowest = 0;
    for place in 0..rents.len() {
        if rents[place] < rents[lowest] {
            lowest = place;
        }
    }
    lowest
}

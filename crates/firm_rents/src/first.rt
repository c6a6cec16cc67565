//! Whether a placement is the round's: whether rents in levels suit it, by one pass over machines and one over tasks.
ghost use Rattle.std.specs.Prelude.{◌≡◌, ◌+◌, ◌-◌, ◌*◌, ◌^◌, ◌<◌, ◌≤◌, true, false, ℕ, suc, length, slice_index};
ghost use Rattle.std.specs.Prelude.{IsTrue};
ghost use Rattle.firm_rules.specs.declared.rounds.Choice.{Choice as ChoiceOf};
ghost use Rattle.firm_rules.specs.declared.rounds.Choice.TheVariants.{On, Wait};
ghost use Rattle.firm_rules.specs.Placement.{rank, runs_at, stays, task_cost, IsPlace};
ghost use Rattle.firm_rules.specs.Round.{IsRound};
ghost use Rattle.firm_rules.specs.Placement.{task_at, choice_at};
ghost use Rattle.firm_rents.specs.Levels.{time, IsAtMost, paid_by_level, slot_by_level};
ghost use Rattle.firm_rules.specs.ChoiceCost.{wide_cost};
ghost use Rattle.firm_rents.specs.inner.Classes.{AreClasses, AreInLevels, IsKnown, IsLeast, IsSpent, NoMore};
ghost use Rattle.firm_rents.specs.inner.Classes.{SuitsLoad, level_rents, offered, place_levels, place_of, place_offer};
ghost use Rattle.firm_levels.specs.Work.{GoesOn};

use crate::classes::{
    Known, Offer, cheaper_from_parted, cheaper_since, is_at_most, is_at_most_parted,
};
use crate::laws::rents_show_first;
use crate::rents::MOST_RENT;
use firm_levels::{Class, LevelRents, Work};
use firm_rules::{Case, Choice, MOST_MACHINES, legality_is_judged, slot_cost};

/// Whether rents in levels, from any proposer, show that a placement is the round's: it is legal, no legal one
/// costs less, and none that costs as much comes before it. A no says nothing, as where the remaining work
/// doesn't suffice. Counts each pass over tasks, machines and classes, so a yes takes at least a look at
/// each task and machine. Takes no memory.
pub fn shows_first(case: &Case, rents: &LevelRents, placement: &[Choice], work: &mut Work) -> bool
    ensures first { IsTrue result → IsRound case.now placement.now }
    ensures work { GoesOn work.old work.new }
    ensures looks { IsTrue result
        → work.old.looks + (length case.now.tasks + length case.now.slots) ≤ work.new.looks }
{
    rents_show_first();
    legality_is_judged();
    // No more tasks are counted than a tenant may have.
    prove!(case.task_count() <= 4_096);
    if !counts_passes(case, rents, work) {
        return false;
    }
    let mut loads = [0u8; MOST_MACHINES];
    if !case.counts_loads(placement, &mut loads) || !are_in_levels(rents, case.machine_count()) {
        return false;
    }
    if !machines_suit(case, rents, &loads) {
        return false;
    }
    tasks_suit(case, rents, placement, work)
}

// Counts the passes over tasks, machines and classes that are made in any case, and says whether the work that is left
// allows them: two over the tasks, for their loads and their choices, and six over the machines, for loads, amounts,
// classes, slots, the lowest rent and those that are spent, and one over the classes.
fn counts_passes(case: &Case, rents: &LevelRents, work: &mut Work) -> bool
    ensures work { GoesOn work.old work.new }
    ensures looks { result ≡ true
        → work.old.looks + (length case.now.tasks + length case.now.slots) ≤ work.new.looks }
{
    prove!(case.task_count() <= 4_096);
    prove!(case.machine_count() <= 4_096);
    let tasks = case.task_count() as u32;
    let machines = case.machine_count() as u32;
    let classes = u32::try_from(rents.classes.len()).unwrap_or(u32::MAX);
    let entries = (2 * tasks + 6 * machines).saturating_add(classes);
    work.pass(entries) == entries
}

// Checks for an amount and a class for each of this number of machines, a class for waiting, and a tree of
// classes.
fn are_in_levels(rents: &LevelRents, machines: usize) -> bool
    requires { machines ≤ 4096 }
    ensures { result ≡ true → AreInLevels machines rents.now }
{
    rents.amounts.len() == machines
        && rents.places.len() == machines + 1
        && are_small(rents.amounts.as_slice())
        && are_below(rents.places.as_slice(), rents.classes.len())
        && are_classes(rents.classes.as_slice())
}

// Whether no amount is huge.
fn are_small(amounts: &[u64]) -> bool
    ensures { result ≡ true → (j : ℕ) → slice_index amounts.now j ≤ 2 ^ 40 }
{
    for place in 0..amounts.len() {
        if amounts[place] > MOST_RENT {
            return false;
        }
    }
    true
}

// Checks that there is a class, and that each of these is below the number of classes.
fn are_below(places: &[u32], classes: usize) -> bool
    ensures some { result ≡ true → 0 < classes }
    ensures below { result ≡ true → (j : ℕ) → slice_index places.now j < classes }
{
    for place in 0..places.len() {
        if places[place] as usize >= classes {
            return false;
        }
    }
    classes > 0
}

// Whether each class but the first stands behind its parent, and has a later time than that unless it is the first.
fn are_classes(classes: &[Class]) -> bool
    requires { 0 < length classes.now }
    ensures { result ≡ true → AreClasses classes.now }
{
    for place in 1..classes.len() {
        let class = classes[place];
        let parent = class.parent as usize;
        if parent >= place || (parent > 0 && classes[parent].time >= class.time) {
            return false;
        }
    }
    true
}

// Whether each machine's last task is paid for, and no free slot is worth more than it would cost.
fn machines_suit(case: &Case, rents: &LevelRents, loads: &[u8; MOST_MACHINES]) -> bool
    requires levels { AreInLevels (length case.now.slots) rents.now }
    requires room { (j : ℕ) → j < length case.now.slots → slice_index loads.now j ≤ slice_index case.now.slots j }
    ensures { result ≡ true → (j : ℕ) → j < length case.now.slots
        → SuitsLoad case.now (level_rents rents.now) j (slice_index loads.now j) }
{
    for place in 0..case.machine_count() {
        if !suits_load(case, rents, place, u64::from(loads[place])) {
            return false;
        }
    }
    true
}

// Whether the machine's last task is paid for, and a free slot is worth no more than it would cost.
fn suits_load(case: &Case, rents: &LevelRents, place: usize, load: u64) -> bool
    requires levels { AreInLevels (length case.now.slots) rents.now }
    requires place { place < length case.now.slots }
    requires load { load ≤ slice_index case.now.slots place }
    ensures { result ≡ true → SuitsLoad case.now (level_rents rents.now) place load }
{
    let slots = case.slots(place);
    if load > 0 && !is_paid_for(case, rents, place, load - 1) {
        return false;
    }
    load == slots || is_worth_no_more(case, rents, place, load)
}

// Whether a task behind this number of others is paid for on the machine.
fn is_paid_for(case: &Case, rents: &LevelRents, place: usize, others: u64) -> bool
    requires levels { AreInLevels (length case.now.slots) rents.now }
    requires place { place < length case.now.slots }
    requires others { others ≤ 64 }
    ensures { result ≡ true
        → IsAtMost (slot_by_level case.now (level_rents rents.now) others) (level_rents rents.now (On place)) }
{
    let cost = slot_cost(case.spread(), others);
    let slot = offer_of(rents, cost, case.machine_count(), 0);
    let rent = offer_of(rents, 0, place, 0);
    is_at_most(rents.classes.as_slice(), slot, rent)
}

// Whether a slot behind this number of tasks is worth no more on the machine than it would cost.
fn is_worth_no_more(case: &Case, rents: &LevelRents, place: usize, others: u64) -> bool
    requires levels { AreInLevels (length case.now.slots) rents.now }
    requires place { place < length case.now.slots }
    requires others { others ≤ 64 }
    ensures { result ≡ true
        → IsAtMost (level_rents rents.now (On place)) (slot_by_level case.now (level_rents rents.now) others) }
{
    let cost = slot_cost(case.spread(), others);
    let slot = offer_of(rents, cost, case.machine_count(), 0);
    let rent = offer_of(rents, 0, place, 0);
    is_at_most(rents.classes.as_slice(), rent, slot)
}

// The cost of a place, beside this much, for a choice of this time.
fn offer_of(rents: &LevelRents, more: u64, place: usize, time: u32) -> Offer
    requires levels { AreInLevels (length rents.now.amounts.items) rents.now }
    requires place { place ≤ length rents.now.amounts.items }
    requires more { more ≤ 2 ^ 40 }
    ensures offer { result ≡ place_offer rents.now more place time }
    ensures within { result.class < length rents.now.classes.items }
{
    let amount = rents.amounts.get(place).copied().unwrap_or(0);
    Offer {
        amount: more + amount,
        class: rents.places[place],
        time,
    }
}

// Progress of the scan of the machines that cost all tasks alike: the one of the lowest rent; the place before which
// all are spent, that is, dearer than it before the times of the task; and the time at which the next one is spent.
#[derive(Clone, Copy)]
struct Mark {
    lowest: usize,
    spent: usize,
    since: u64,
}

// State from task to task: the divergences of a choice's classes from those of waiting and of the lowest
// rent.
#[derive(Clone, Copy)]
struct Kept {
    waits: Known,
    lowest: Known,
}

// Whether each task's choice is its cheapest.
fn tasks_suit(case: &Case, rents: &LevelRents, placement: &[Choice], work: &mut Work) -> bool
    requires levels { AreInLevels (length case.now.slots) rents.now }
    requires one_each { length placement.now ≡ length case.now.tasks }
    requires places { (i : ℕ) → i < length placement.now
        → IsPlace (length case.now.slots) (choice_at placement.now i) }
    ensures work { GoesOn work.old work.new }
    ensures suits { result ≡ true → (i : ℕ) → i < length case.now.tasks → (other : ChoiceOf)
        → IsPlace (length case.now.slots) other
        → IsAtMost (paid_by_level case.now (level_rents rents.now) i (choice_at placement.now i))
        (paid_by_level case.now (level_rents rents.now) i other) }
{
    let lowest = lowest_machine(case, rents);
    let mut mark = Mark {
        lowest,
        spent: 0,
        since: spent_since(rents, lowest, 0),
    };
    let mut kept = Kept {
        waits: Known::NOTHING,
        lowest: Known::NOTHING,
    };
    for task in 0..case.task_count() {
        mark = passed(case, rents, mark, time_of(case, task, 0));
        if !kept.suits_task(case, rents, task, placement[task], mark, work) {
            return false;
        }
    }
    true
}

impl Kept {
    // Whether the choice is the task's cheapest.
    fn suits_task(
        &mut self,
        case: &Case,
        rents: &LevelRents,
        task: usize,
        choice: Choice,
        mark: Mark,
        work: &mut Work,
    ) -> bool
        requires levels { AreInLevels (length case.now.slots) rents.now }
        requires task { task < length case.now.tasks }
        requires choice { IsPlace (length case.now.slots) choice }
        requires lowest { 0 < length case.now.slots → mark.lowest < length case.now.slots }
        requires least { (j : ℕ) → j < length case.now.slots → IsLeast rents.now mark.lowest j }
        requires spent { (j : ℕ) → j < mark.spent
            → IsSpent rents.now mark.lowest (task * (length case.now.slots + 2)) j }
        requires waits { IsKnown rents.now.classes.items self.old.waits }
        requires low { IsKnown rents.now.classes.items self.old.lowest }
        ensures waits { IsKnown rents.now.classes.items self.new.waits }
        ensures low { IsKnown rents.now.classes.items self.new.lowest }
        ensures work { GoesOn work.old work.new }
        ensures suits { result ≡ true → (other : ChoiceOf) → IsPlace (length case.now.slots) other
            → IsAtMost (paid_by_level case.now (level_rents rents.now) task choice)
            (paid_by_level case.now (level_rents rents.now) task other) }
    {
        let staying = case.stays(task, choice);
        let chosen = chosen_offer(case, rents, task, choice, staying);
        let waits = offer(case, rents, task, Choice::Wait);
        let classes = rents.classes.as_slice();
        if !self.waits.is_at_most(classes, chosen, waits)
            || !own_suits(case, rents, task, chosen, staying)
            || !preferred_suit(case, rents, task, chosen)
        {
            return false;
        }
        self.others_suit(case, rents, task, chosen, mark, work)
    }

    // Returns whether all other machines cost the task no less than its choice. They cost it alike but for their rents,
    // so most are decided by the lowest one: from a place on by that one at the place's time, before it because they
    // are spent.
    fn others_suit(
        &mut self,
        case: &Case,
        rents: &LevelRents,
        task: usize,
        chosen: Offer,
        mark: Mark,
        work: &mut Work,
    ) -> bool
        requires levels { AreInLevels (length case.now.slots) rents.now }
        requires task { task < length case.now.tasks }
        requires chosen { chosen.class < length rents.now.classes.items }
        requires lowest { 0 < length case.now.slots → mark.lowest < length case.now.slots }
        requires least { (j : ℕ) → j < length case.now.slots → IsLeast rents.now mark.lowest j }
        requires spent { (j : ℕ) → j < mark.spent
            → IsSpent rents.now mark.lowest (task * (length case.now.slots + 2)) j }
        requires waits { IsKnown rents.now.classes.items self.old.waits }
        requires low { IsKnown rents.now.classes.items self.old.lowest }
        ensures waits { IsKnown rents.now.classes.items self.new.waits }
        ensures low { IsKnown rents.now.classes.items self.new.lowest }
        ensures work { GoesOn work.old work.new }
        ensures suits { result ≡ true → (j : ℕ) → j < length case.now.slots
            → task_cost case.now (task_at case.now task) (On j) ≡ wide_cost case.now (task_at case.now task)
            → runs_at (task_at case.now task).home j ≡ false → NoMore case.now rents.now task chosen (On j) }
    {
        if case.machine_count() == 0 {
            return true;
        }
        let classes = rents.classes.as_slice();
        let wide = case.wide_cost(task);
        let begun = time_of(case, task, 0);
        let first = offer_of(rents, wide, mark.lowest, begun + 1);
        if chosen.amount != first.amount {
            return chosen.amount < first.amount;
        }
        // Amounts are equal from here on. The end is a guess: the place from which on the lowest rent shows that no
        // machine costs the task less, as the choice made ranks before the place, or that rent is dearer at a rank
        // before it. Whether it is right is asked below.
        let parting = self.lowest.parting(classes, chosen.class, first.class);
        if is_at_most_parted(classes, parting, chosen, first) {
            return true;
        }
        let from = cheaper_from_parted(classes, parting, chosen.class, first.class);
        let dearer = from.saturating_sub(u64::from(begun));
        let made = u64::from(chosen.time.saturating_sub(begun));
        let end = case.machine_count().min(dearer.min(made) as usize);
        let last = Offer {
            time: begun + 1 + end as u32,
            ..first
        };
        let all = Span {
            from: 0,
            to: case.machine_count(),
            cost: wide,
            begun,
        };
        if is_at_most_parted(classes, parting, chosen, last) {
            each_suits(
                rents,
                chosen,
                Span {
                    from: mark.spent,
                    to: end,
                    ..all
                },
                work,
            )
        } else {
            each_suits(rents, chosen, all, work)
        }
    }
}

// The choice's cost to the task with its rent: none if the task stays. Most tasks stay or prefer no
// machine, and are decided without a look at their preferences. Inlined, since a round calls it for each task.
#[inline(always)]
fn chosen_offer(
    case: &Case,
    rents: &LevelRents,
    task: usize,
    choice: Choice,
    staying: bool,
) -> Offer
    requires levels { AreInLevels (length case.now.slots) rents.now }
    requires task { task < length case.now.tasks }
    requires choice { IsPlace (length case.now.slots) choice }
    requires staying { staying ≡ stays (task_at case.now task).home choice }
    ensures offer { result ≡ place_offer rents.now (task_cost case.now (task_at case.now task) choice)
        (place_of (length rents.now.amounts.items) choice) (time case.now task choice) }
    ensures within { result.class < length rents.now.classes.items }
{
    if let Choice::On(place) = choice {
        if staying {
            return offer_of(rents, 0, place as usize, time_of(case, task, 0));
        }
        if case.preferred(task).is_empty() {
            let wide = case.wide_cost(task);
            return offer_of(
                rents,
                wide,
                place as usize,
                time_of(case, task, place as usize + 1),
            );
        }
    }
    offer(case, rents, task, choice)
}

// Whether the task's own machine, unless its choice is to stay there, costs it no less than its choice.
fn own_suits(case: &Case, rents: &LevelRents, task: usize, chosen: Offer, staying: bool) -> bool
    requires levels { AreInLevels (length case.now.slots) rents.now }
    requires task { task < length case.now.tasks }
    requires chosen { chosen.class < length rents.now.classes.items }
    requires own { staying ≡ true → (j : ℕ) → runs_at (task_at case.now task).home j ≡ true
        → NoMore case.now rents.now task chosen (On j) }
    ensures { result ≡ true → (j : ℕ) → j < length case.now.slots → runs_at (task_at case.now task).home j ≡ true
        → NoMore case.now rents.now task chosen (On j) }
{
    if staying {
        return true;
    }
    match case.home(task) {
        Choice::Wait => true,
        Choice::On(place) => suits(case, rents, task, chosen, place),
    }
}

// Whether the machines that the task prefers cost it no less than its choice.
fn preferred_suit(case: &Case, rents: &LevelRents, task: usize, chosen: Offer) -> bool
    requires levels { AreInLevels (length case.now.slots) rents.now }
    requires task { task < length case.now.tasks }
    requires chosen { chosen.class < length rents.now.classes.items }
    ensures { result ≡ true → (k : ℕ) → k < length (task_at case.now task).preferred
        → NoMore case.now rents.now task chosen (On (slice_index (task_at case.now task).preferred k)) }
{
    for place in case.preferred(task) {
        if !suits(case, rents, task, chosen, *place) {
            return false;
        }
    }
    true
}

// Whether the machine costs the task no less than its choice.
fn suits(case: &Case, rents: &LevelRents, task: usize, chosen: Offer, place: u32) -> bool
    requires levels { AreInLevels (length case.now.slots) rents.now }
    requires task { task < length case.now.tasks }
    requires chosen { chosen.class < length rents.now.classes.items }
    requires place { place < length case.now.slots }
    ensures { result ≡ true → NoMore case.now rents.now task chosen (On place) }
{
    let other = offer(case, rents, task, Choice::On(place));
    is_at_most(rents.classes.as_slice(), chosen, other)
}

// Some places, one after the other, with what a machine there costs a task that neither runs on it nor prefers it, and
// the time of the task's first rank.
#[derive(Clone, Copy)]
struct Span {
    from: usize,
    to: usize,
    cost: u64,
    begun: u32,
}

// Whether each of these machines costs no less than the choice, taken as one that the task neither runs on nor
// prefers. Of its own machine and of those that it prefers this says nothing. Counts a look at each.
fn each_suits(rents: &LevelRents, chosen: Offer, span: Span, work: &mut Work) -> bool
    requires levels { AreInLevels (length rents.now.amounts.items) rents.now }
    requires chosen { chosen.class < length rents.now.classes.items }
    requires span { span.to ≤ length rents.now.amounts.items }
    requires few { span.to ≤ 4096 }
    requires cost { span.cost ≤ 2 ^ 22 }
    requires begun { span.begun ≤ 2 ^ 25 }
    ensures work { GoesOn work.old work.new }
    ensures looks { result ≡ true → work.old.looks + (span.to - span.from) ≤ work.new.looks }
    ensures suits { result ≡ true → (j : ℕ) → span.from ≤ j → j < span.to
        → IsAtMost (offered rents.now.classes.items chosen) (place_levels rents.now span.cost j (span.begun + suc j)) }
{
    let machines = span.to.saturating_sub(span.from) as u32;
    if work.pass(machines) < machines {
        return false;
    }
    let classes = rents.classes.as_slice();
    for place in span.from..span.to {
        let other = offer_of(rents, span.cost, place, span.begun + 1 + place as u32);
        if !is_at_most(classes, chosen, other) {
            return false;
        }
    }
    true
}

// The cost of a choice to the task of this number with its rent.
fn offer(case: &Case, rents: &LevelRents, task: usize, choice: Choice) -> Offer
    requires levels { AreInLevels (length case.now.slots) rents.now }
    requires task { task < length case.now.tasks }
    requires choice { IsPlace (length case.now.slots) choice }
    ensures offer { result ≡ place_offer rents.now (task_cost case.now (task_at case.now task) choice)
        (place_of (length rents.now.amounts.items) choice) (time case.now task choice) }
    ensures within { result.class < length rents.now.classes.items }
{
    let cost = case.cost_of_choice(task, choice);
    let machines = case.machine_count();
    let place = match choice {
        Choice::On(place) => place as usize,
        Choice::Wait => machines,
    };
    offer_of(
        rents,
        cost,
        place,
        time_of(case, task, case.rank_of(task, choice)),
    )
}

// The time of this rank of the task of this number.
fn time_of(case: &Case, task: usize, rank: usize) -> u32
    requires task { task < length case.now.tasks }
    requires rank { rank ≤ length case.now.slots + 1 }
    ensures time { result ≡ task * (length case.now.slots + 2) + rank }
    ensures few { result ≤ 2 ^ 25 }
{
    // No more tasks are counted than a tenant may have.
    prove!(case.task_count() <= 4_096);
    let ranks = case.machine_count() + 2;
    (task * ranks + rank) as u32
}

// The mark once the times before this one are past.
fn passed(case: &Case, rents: &LevelRents, mark: Mark, begun: u32) -> Mark
    requires levels { AreInLevels (length case.now.slots) rents.now }
    requires lowest { mark.lowest ≤ length case.now.slots }
    requires spent { (j : ℕ) → j < mark.spent → IsSpent rents.now mark.lowest begun j }
    requires next { (t : ℕ) → mark.since ≤ t → t < 2 ^ 32 → IsSpent rents.now mark.lowest t mark.spent }
    ensures lowest { result.lowest ≡ mark.lowest }
    ensures spent { (j : ℕ) → j < result.spent → IsSpent rents.now mark.lowest begun j }
    ensures next { (t : ℕ) → result.since ≤ t → t < 2 ^ 32 → IsSpent rents.now mark.lowest t result.spent }
{
    let mut spent = mark.spent;
    let mut since = mark.since;
    while spent < case.machine_count() && since <= u64::from(begun) {
        spent += 1;
        since = spent_since(rents, mark.lowest, spent);
    }
    Mark {
        lowest: mark.lowest,
        spent,
        since,
    }
}

// The time from which on the machine at this place is spent. The value past the last place is not used.
fn spent_since(rents: &LevelRents, lowest: usize, place: usize) -> u64
    requires levels { AreInLevels (length rents.now.amounts.items) rents.now }
    requires lowest { lowest ≤ length rents.now.amounts.items }
    requires place { place ≤ length rents.now.amounts.items }
    ensures { (t : ℕ) → result ≤ t → t < 2 ^ 32 → IsSpent rents.now lowest t place }
{
    let first = offer_of(rents, 0, lowest, 0);
    let other = offer_of(rents, 0, place, 0);
    cheaper_since(rents.classes.as_slice(), first, other)
}

// The machine of the lowest rent, or 0.
fn lowest_machine(case: &Case, rents: &LevelRents) -> usize
    requires levels { AreInLevels (length case.now.slots) rents.now }
    ensures lowest { 0 < length case.now.slots → result < length case.now.slots }
    ensures most { result ≤ length case.now.slots }
    ensures least { (j : ℕ) → j < length case.now.slots → IsLeast rents.now result j }
{
    let mut lowest = 0;
    for place in 0..case.machine_count() {
        lowest = lesser(case, rents, lowest, place);
    }
    lowest
}

// Of two machines one of the lesser rent.
fn lesser(case: &Case, rents: &LevelRents, one: usize, other: usize) -> usize
    requires levels { AreInLevels (length case.now.slots) rents.now }
    requires one { one < length case.now.slots }
    requires other { other < length case.now.slots }
    ensures within { result < length case.now.slots }
    ensures other { IsLeast rents.now result other }
    ensures kept { (j : ℕ) → IsLeast rents.now one j → IsLeast rents.now result j }
{
    let first = offer_of(rents, 0, one, 0);
    let second = offer_of(rents, 0, other, 0);
    if is_at_most(rents.classes.as_slice(), first, second) {
        one
    } else {
        other
    }
}

//! The cost phase: an assignment of least cost, and prices that show that it is one.
ghost use Rattle.firm_levels.specs.Work.{GoesOn};

use crate::column::{Column, Stack};
use crate::index::{Cost, Place, Slot, Task};
use crate::memory::Memory;
use crate::paths::Paths;
use crate::price_phase::{Balance, Movers, Preference, count_slots};
use crate::round::{Round, SLOT_COUNTS};
use firm_levels::Work;

/// How often a span of waiting costs, 2^22 at most with churn, can be halved.
const MAX_HALVINGS: u32 = 23;

/// Tables for finding an assignment of least cost.
#[derive(Drop)]
pub(crate) struct CostPhase {
    movers: Movers,
    paths: Paths,
    unassigned: Stack<Task>,
    // Number of slots with fewer than this many others of their machines filled before them.
    slot_totals: Column<Slot, u32>,
    // Whether the hint was the better price when both were last tried.
    trusts_hint: bool,
}

impl CostPhase {
    /// No tasks and machines, and room for this many of both together.
    pub(crate) fn new(memory: &mut Memory, nodes: usize) -> CostPhase {
        CostPhase {
            movers: Movers::new(memory, nodes),
            paths: Paths::new(memory, nodes),
            unassigned: Stack::new(memory, nodes),
            slot_totals: Column::new(memory, SLOT_COUNTS as usize),
            trusts_hint: false,
        }
    }

    /// Finds an assignment of least cost, if the work that is left allows. May try `hint` as the hub's price.
    pub(crate) fn find(&mut self, round: &mut Round, hint: Option<Cost>, work: &mut Work)
        ensures work { GoesOn work.old work.new }
    {
        self.movers.read(round, work);
        let balance = self.best_balance(round, hint, work);
        let units = self.seat(round, balance, work);
        let deficit = fill_machines(round, balance.price, units, work);
        if self.unassigned.count() == 0 && deficit == 0 {
            return;
        }
        self.paths.clear(round, deficit, work);
        list_tasks(round, work);
        self.paths.assign_rest(round, &mut self.unassigned, work);
        self.paths.fill_deficit(round, work);
    }

    // Runs the price phase at the hint or at the guess, where more tasks are content. The one that was better when both
    // were last tried is tried first; if that clears the market the other is not tried.
    fn best_balance(&mut self, round: &mut Round, hint: Option<Cost>, work: &mut Work) -> Balance
        ensures work { GoesOn work.old work.new }
    {
        let trusts_hint = hint.is_some() && self.trusts_hint;
        let first_price = self.price(round, hint, trusts_hint, work);
        let first = self.movers.run_at(round, first_price, work);
        if hint.is_none() || first.clears(round.tasks()) {
            return first;
        }
        let second_price = self.price(round, hint, !trusts_hint, work);
        if second_price == first_price {
            return first;
        }
        self.movers.exchange(round);
        let second = self.movers.run_at(round, second_price, work);
        let (hinted, guessed) = if trusts_hint {
            (first, second)
        } else {
            (second, first)
        };
        self.trusts_hint = hinted.clears(round.tasks()) || !guessed.is_better(hinted);
        if self.trusts_hint != trusts_hint {
            return second;
        }
        self.movers.exchange(round);
        first
    }

    // The hint, if it is to be tried, or the guess.
    fn price(
        &mut self,
        round: &Round,
        hint: Option<Cost>,
        tries_hint: bool,
        work: &mut Work,
    ) -> Cost
        ensures work { GoesOn work.old work.new }
    {
        match hint {
            Some(price) if tries_hint => price,
            _ => self.guess(round, hint, work),
        }
    }

    // The lowest price that no more tasks prefer to waiting than there are slots that cost no more.
    fn guess(&mut self, round: &Round, hint: Option<Cost>, work: &mut Work) -> Cost
        ensures work { GoesOn work.old work.new }
    {
        count_slot_totals(round, &mut self.slot_totals, work);
        let (mut low, mut high) = self.prices_near(round, hint, work);
        for _ in 0..MAX_HALVINGS {
            if low >= high {
                break;
            }
            let middle = Cost(low.plus(high).0 >> 1);
            if self.is_low(round, middle, work) {
                low = middle.plus(Cost(1));
            } else {
                high = middle;
            }
        }
        low
    }

    // The least and the highest price between which the guess is: 0 and the most that a wait costs or, if a hint lies
    // below that, the last two of some steps away from it, which double until one is beyond the guess.
    fn prices_near(&self, round: &Round, hint: Option<Cost>, work: &mut Work) -> (Cost, Cost)
        ensures work { GoesOn work.old work.new }
    {
        let most = highest(round.wait_costs(work));
        let Some(hint) = hint else {
            return (Cost::ZERO, most);
        };
        if hint >= most {
            return (Cost::ZERO, most);
        }
        let rises = self.is_low(round, hint, work);
        let (mut low, mut high) = if rises {
            (hint.plus(Cost(1)), most)
        } else {
            (Cost::ZERO, hint)
        };
        let mut step = Cost(1);
        for _ in 0..MAX_HALVINGS {
            let price = if rises {
                hint.plus(step)
            } else {
                hint.minus(step)
            };
            if price < low || price >= high {
                break;
            }
            let is_low = self.is_low(round, price, work);
            if is_low {
                low = price.plus(Cost(1));
            } else {
                high = price;
            }
            if is_low != rises {
                break;
            }
            step = step.plus(step);
        }
        (low, high)
    }

    // Whether more tasks prefer this price of the hub to waiting than there are slots that cost no more.
    fn is_low(&self, round: &Round, price: Cost, work: &mut Work) -> bool
        ensures work { GoesOn work.old work.new }
    {
        let slots = Slot(round.slots_at(price).up_to);
        count_above(round.wait_costs(work), price) > self.slot_totals.at(slots)
    }

    // Keeps as many tasks at the hub, and on slots of its price, as there are slots: first those that prefer not to
    // wait. Of those that are indifferent the later ones wait; who else finds no slot is unassigned. Returns how many
    // stay at the hub.
    fn seat(&mut self, round: &mut Round, balance: Balance, work: &mut Work) -> u32
        ensures work { GoesOn work.old work.new }
    {
        let room = balance.slots.cheaper.saturating_add(balance.slots.even);
        let seats = room.saturating_add(balance.movable);
        let mut eager = balance.eager.min(seats);
        let mut indifferent = seats.saturating_sub(eager);
        let mut units = 0u32;
        self.unassigned.clear();
        for task in 0..work.pass(round.tasks()) {
            let task = Task(task);
            match self.movers.preference(task) {
                Preference::Hub if eager > 0 => {
                    eager = eager.saturating_sub(1);
                    units = units.saturating_add(1);
                }
                Preference::Hub => {
                    round.unassign(task);
                    self.unassigned.push(task);
                }
                Preference::HubOrWait if indifferent > 0 => {
                    indifferent = indifferent.saturating_sub(1);
                    units = units.saturating_add(1);
                }
                Preference::HomeOrWait if indifferent > 0 => {
                    indifferent = indifferent.saturating_sub(1);
                }
                Preference::HubOrWait | Preference::HomeOrWait => wait(round, task),
                Preference::FullMachine | Preference::FullMachineOrWait => {
                    self.unassigned.push(task);
                }
                Preference::Settled => {}
            }
        }
        units
    }
}

// Counts the slots by how many others of their machines are filled before them, and adds these counts up.
fn count_slot_totals(round: &Round, totals: &mut Column<Slot, u32>, work: &mut Work)
    ensures work { GoesOn work.old work.new }
{
    for count in 0..SLOT_COUNTS {
        totals.set(Slot(count), 0);
    }
    for machine in 0..work.pass(round.machines()) {
        totals.add(Slot(round.slots(Place(machine))), 1);
    }
    let mut machines = round.machines();
    let mut slots = 0u32;
    for count in 0..SLOT_COUNTS {
        machines = machines.saturating_sub(totals.at(Slot(count)));
        totals.set(Slot(count), slots);
        slots = slots.saturating_add(machines);
    }
}

// Lists each task at its place.
fn list_tasks(round: &mut Round, work: &mut Work)
    ensures work { GoesOn work.old work.new }
{
    round.clear_lists(work);
    for task in 0..work.pass(round.tasks()) {
        if let Some(place) = round.place_of(Task(task)) {
            round.list(Task(task), place);
        }
    }
}

// The highest of these costs, 0 if there are none.
fn highest(costs: &[Cost]) -> Cost {
    let mut highest = Cost::ZERO;
    for cost in costs {
        highest = highest.max(*cost);
    }
    highest
}

// Counts those that cost more than a price. The count wraps round, which lets several be added at once.
fn count_above(costs: &[Cost], price: Cost) -> u32 {
    let mut above = 0u32;
    for cost in costs {
        above = above.wrapping_add(u32::from(cost.0 > price.0));
    }
    above
}

// Has a task that is at the hub or on its own machine wait.
fn wait(round: &mut Round, task: Task) {
    let row = round.row(task);
    if let Some(home) = row.home()
        && round.takes(task, row.arcs.from)
    {
        round.drop_load(home);
    }
    round.assign(task, row.wait_arc());
}

// Sends the units at the hub to the machines of its price: to slots that cost less, and the units left to slots of just
// that price. Returns how many units are missing, which are counted as there.
fn fill_machines(round: &mut Round, price: Cost, units: u32, work: &mut Work) -> u32
    ensures work { GoesOn work.old work.new }
{
    let needs = count_slots(round, price, work).cheaper;
    let mut spare = units.saturating_sub(needs);
    let at_price = round.slots_at(price);
    for machine in 0..work.pass(round.machines()) {
        let machine = Place(machine);
        if round.price(machine) == price {
            let slots = at_price.among(round.slots(machine));
            let load = round.load(machine);
            let needs = slots.below.saturating_sub(load);
            let more = slots.up_to.saturating_sub(load.max(slots.below)).min(spare);
            spare = spare.saturating_sub(more);
            round.add_units(machine, needs.saturating_add(more));
        }
    }
    needs.saturating_sub(units)
}

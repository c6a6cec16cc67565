//! The price phase: what the tasks do at one price of the hub.
//!
//! This is an auction in which prices fall. Each task that runs starts on its own machine, tasks that prefer machines
//! bid for the cheapest of them, and each machine asks the most that leaves no slot to the hub. A machine lowers its
//! price to keep a task that would leave it, and lets the task go where no slot is worth that price.
ghost use Rattle.firm_levels.specs.Work.{GoesOn};

use crate::column::{Column, Stack};
use crate::index::{ArcId, Cost, Place, Task};
use crate::memory::Memory;
use crate::round::{Arcs, Assignment, FULL, Round, TaskRow};
use firm_levels::Work;
use std::mem;

/// How often prices fall at most; then the tasks that prefer machines are unassigned.
const MAX_PASSES: u32 = 64;

/// A price leaves many tasks without a slot if it leaves more than one in this many.
const MANY: u32 = 32;

/// Pulling a unit to the hub takes as long as augmenting for this many tasks, or longer.
const PULL: u32 = 2;

/// The most machines that a task prefers.
const MAX_PREFERRED: u32 = 4;

/// A task's preference at the hub's price.
#[derive(Clone, Copy, Default)]
pub(crate) enum Preference {
    /// It is at the hub, and prefers it to waiting.
    Hub,
    /// It is at the hub, and is indifferent to waiting.
    HubOrWait,
    /// It is on its own machine, pays the hub's price, and is indifferent to waiting.
    HomeOrWait,
    /// It prefers machines without room to the hub and to waiting.
    FullMachine,
    /// It prefers machines without room to the hub, and is indifferent to waiting.
    FullMachineOrWait,
    /// It stays where it is.
    #[default]
    Settled,
}

/// Slots that are left on the machines of a price.
#[derive(Clone, Copy, Default)]
pub(crate) struct FreeSlots {
    /// Those that cost less than the price.
    pub(crate) cheaper: u32,
    /// Those that cost just the price.
    pub(crate) even: u32,
}

/// Supply and demand at a price of the hub.
#[derive(Clone, Copy, Default)]
pub(crate) struct Balance {
    pub(crate) price: Cost,
    pub(crate) slots: FreeSlots,
    /// Tasks that prefer the hub.
    pub(crate) eager: u32,
    /// Tasks at the hub that are indifferent to waiting.
    pub(crate) indifferent: u32,
    /// Tasks on their own machines, at the hub's price, that are indifferent to waiting.
    pub(crate) movable: u32,
    /// Tasks that prefer machines without room.
    pub(crate) displaced: u32,
}

impl Balance {
    // Slots that cost less than the price and that no task wants.
    fn deficit(&self) -> u32 {
        let wanted = self.eager.saturating_add(self.indifferent);
        self.slots.cheaper.saturating_sub(wanted)
    }

    // Tasks that prefer the hub and find no slot.
    fn excess(&self) -> u32 {
        let room = self.slots.cheaper.saturating_add(self.slots.even);
        self.eager.saturating_sub(room.saturating_add(self.movable))
    }

    fn gap(&self) -> u32 {
        self.deficit().max(self.excess())
    }

    #[inline(always)]
    fn count(&mut self, preference: Preference) {
        let counted = match preference {
            Preference::Hub => &mut self.eager,
            Preference::HubOrWait => &mut self.indifferent,
            Preference::HomeOrWait => &mut self.movable,
            Preference::FullMachine => &mut self.displaced,
            Preference::FullMachineOrWait | Preference::Settled => return,
        };
        *counted = counted.saturating_add(1);
    }

    /// Whether the price clears the market, and leaves few of all tasks without a slot.
    pub(crate) fn clears(&self, tasks: u32) -> bool {
        self.gap() == 0 && self.displaced.saturating_mul(MANY) <= tasks
    }

    /// Whether the price is at least as near to clearing the market as another, or leaves fewer searches.
    pub(crate) fn is_better(&self, other: Balance) -> bool {
        self.gap() <= other.gap() || self.searches() < other.searches()
    }

    // About how many searches the price leaves to do, in those that augment for a task.
    fn searches(&self) -> u32 {
        let pulls = self.deficit().saturating_mul(PULL);
        let augmentations = self.excess().saturating_add(self.displaced);
        pulls.saturating_add(augmentations)
    }
}

/// The tasks that may move where prices fall, and what each task prefers at the last price.
#[derive(Drop)]
pub(crate) struct Movers {
    // Tasks that some machine may cost less than others, as they run or prefer some; those that prefer some; and those
    // that prefer some and wait.
    movers: Stack<Task>,
    choosers: Stack<Task>,
    newcomers: Stack<Task>,
    preferences: Column<Task, Preference>,
    // The outcome at another price, set aside.
    other_preferences: Column<Task, Preference>,
    spare: Assignment,
}

impl Movers {
    /// No tasks, and room for this many tasks and machines together.
    pub(crate) fn new(memory: &mut Memory, nodes: usize) -> Movers {
        Movers {
            movers: Stack::new(memory, nodes),
            choosers: Stack::new(memory, nodes),
            newcomers: Stack::new(memory, nodes),
            preferences: Column::new(memory, nodes),
            other_preferences: Column::new(memory, nodes),
            spare: Assignment::new(memory, nodes),
        }
    }

    /// Exchanges the outcome of the last price for the one that was set aside.
    pub(crate) fn exchange(&mut self, round: &mut Round) {
        mem::swap(&mut self.preferences, &mut self.other_preferences);
        round.exchange(&mut self.spare);
    }

    pub(crate) fn read(&mut self, round: &Round, work: &mut Work)
        ensures work { GoesOn work.old work.new }
    {
        self.movers.clear();
        self.choosers.clear();
        self.newcomers.clear();
        for task in 0..work.pass(round.tasks()) {
            let row = round.row(Task(task));
            if row.is_plain() {
                continue;
            }
            self.movers.push(Task(task));
            if row.has_home_only() {
                continue;
            }
            self.choosers.push(Task(task));
            if row.home().is_none() {
                self.newcomers.push(Task(task));
            }
        }
    }

    /// The task's preference at the last price.
    pub(crate) fn preference(&self, task: Task) -> Preference {
        self.preferences.at(task)
    }

    /// Assigns the tasks as they prefer where the hub has this price.
    pub(crate) fn run_at(&mut self, round: &mut Round, price: Cost, work: &mut Work) -> Balance
        ensures work { GoesOn work.old work.new }
    {
        self.begin(round, price, work);
        for count in 1..=MAX_PREFERRED {
            for number in 0..work.pass(self.newcomers.count()) {
                bid(round, self.newcomers.at(number), count);
            }
        }
        self.lower_prices(round, work);
        let mut balance = Balance {
            price,
            ..Balance::default()
        };
        for task in 0..round.tasks() {
            if !work.look() {
                break;
            }
            let preference = choose_place(round, Task(task), price);
            balance.count(preference);
            self.preferences.set(Task(task), preference);
        }
        balance.slots = count_slots(round, price, work);
        balance
    }

    // Assigns each task that runs to its own machine, and no other task.
    fn begin(&self, round: &mut Round, price: Cost, work: &mut Work)
        ensures work { GoesOn work.old work.new }
    {
        round.clear(work);
        round.set_price(round.hub(), price);
        for number in 0..work.pass(self.movers.count()) {
            let task = self.movers.at(number);
            let row = round.row(task);
            if let Some(home) = row.home() {
                round.assign(task, row.arcs.from);
                round.add_load(home);
            }
        }
        for machine in 0..work.pass(round.machines()) {
            let top = top_price(round, Place(machine));
            round.set_price(Place(machine), top);
        }
    }

    // Lowers prices until no task on a machine prefers to leave.
    fn lower_prices(&self, round: &mut Round, work: &mut Work)
        ensures work { GoesOn work.old work.new }
    {
        let hub_price = round.price(round.hub());
        let mut falls = false;
        for number in 0..self.movers.count() {
            if !work.look() {
                return;
            }
            let task = self.movers.at(number);
            if !is_content(round, task, hub_price) {
                falls = leaves_or_stays(round, task) || falls;
            }
        }
        for _ in 0..MAX_PASSES {
            if !falls {
                return;
            }
            // A task that prefers no machine is content after one pass.
            falls = false;
            for number in 0..self.choosers.count() {
                if !work.look() {
                    return;
                }
                falls = leaves_or_stays(round, self.choosers.at(number)) || falls;
            }
        }
        if falls {
            unassign_all(round, work);
        }
    }
}

// The highest price of a machine that leaves no slot of it to a unit from the hub.
fn top_price(round: &Round, machine: Place) -> Cost {
    if round.is_full(machine) {
        FULL
    } else {
        let hub_price = round.price(round.hub());
        hub_price.max(round.next_slot_cost(machine))
    }
}

// Assigns a task that prefers this many machines to the cheapest of them, the least demanded of several, if that costs
// no more than any machine does.
fn bid(round: &mut Round, task: Task, count: u32) {
    let row = round.row(task);
    let preferred = row.preferred_arcs();
    if preferred.count() != count {
        return;
    }
    let best = round.cheapest(row.arcs, None);
    if best.arc.is_none_or(|arc| arc.0 >= preferred.to.0) {
        return;
    }
    let Some(arc) = least_demanded(round, preferred, best.charge) else {
        return;
    };
    let machine = round.arc(arc).place;
    round.assign(task, arc);
    round.add_load(machine);
    let top = top_price(round, machine);
    round.set_price(machine, top);
}

// Of the arcs with this charge the one to the machine with room that fewest tasks prefer.
fn least_demanded(round: &Round, arcs: Arcs, charge: Cost) -> Option<ArcId> {
    let mut best = None;
    let mut fewest = u32::MAX;
    for number in arcs.from.0..arcs.to.0 {
        let arc = round.arc(ArcId(number));
        let demand = round.demand(arc.place);
        if round.charge(arc) == charge && demand < fewest && round.has_room(arc.place) {
            best = Some(ArcId(number));
            fewest = demand;
        }
    }
    best
}

// Whether a task stays by its row alone: only its own machine costs it less than others, and no other place is
// cheaper.
#[inline(always)]
fn is_content(round: &Round, task: Task, hub_price: Cost) -> bool {
    let row = round.row(task);
    let wide = row.away.plus(hub_price);
    match row.home() {
        Some(home) => row.has_home_only() && round.price(home) <= wide.min(row.wait),
        None => false,
    }
}

// Whether a task on a machine prefers to leave. Then the machine's price falls to what keeps the task or, where no slot
// is worth that, the task is unassigned.
fn leaves_or_stays(round: &mut Round, task: Task) -> bool {
    let Some(taken) = round.assigned(task) else {
        return false;
    };
    let arc = round.arc(taken);
    if !round.is_machine(arc.place) {
        return false;
    }
    let other = charge_elsewhere(round, task, taken);
    if round.charge(arc) <= other {
        return false;
    }
    let hub_price = round.price(round.hub());
    let floor = hub_price.max(round.last_slot_cost(arc.place));
    if other >= arc.cost.plus(floor) {
        round.set_price(arc.place, other.minus(arc.cost));
    } else {
        round.unassign(task);
        round.drop_load(arc.place);
        let top = top_price(round, arc.place);
        let price = round.price(arc.place).min(top);
        round.set_price(arc.place, price);
    }
    true
}

// The least charge of the task's arcs but this one.
#[inline(always)]
fn charge_elsewhere(round: &Round, task: Task, taken: ArcId) -> Cost {
    let row = round.row(task);
    // Most tasks have an arc to no machine but this one.
    if row.machine_arcs().count() == 1 {
        let wide = round.charge(round.arc(row.hub_arc()));
        wide.min(round.arc(row.wait_arc()).cost)
    } else {
        round.cheapest(row.arcs, Some(taken)).charge
    }
}

// Unassigns all tasks on machines.
fn unassign_all(round: &mut Round, work: &mut Work)
    ensures work { GoesOn work.old work.new }
{
    let hub_price = round.price(round.hub());
    round.clear(work);
    for machine in 0..work.pass(round.machines()) {
        round.set_price(Place(machine), hub_price);
    }
}

// Assigns an unassigned task to its cheapest arc, unless that leads to machines without room; returns what the task
// prefers at the hub's price.
#[inline(always)]
fn choose_place(round: &mut Round, task: Task, price: Cost) -> Preference {
    let row = round.row(task);
    let is_assigned = round.assigned(task).is_some();
    if !is_assigned && row.is_plain() {
        return choose_for_plain(round, &row, task, price);
    }
    let preference = if is_assigned {
        Preference::Settled
    } else {
        choose_for_near(round, &row, task)
    };
    if is_indifferent_at_home(round, &row, task, price) {
        Preference::HomeOrWait
    } else {
        preference
    }
}

// Whether the task is on its own machine, pays the hub's price, and is indifferent to waiting.
#[inline(always)]
fn is_indifferent_at_home(round: &Round, row: &TaskRow, task: Task, price: Cost) -> bool {
    match row.home() {
        Some(home) => {
            round.price(home) == price && row.wait == price && round.takes(task, row.arcs.from)
        }
        None => false,
    }
}

// Assigns a task to which all machines cost the same.
#[inline(always)]
fn choose_for_plain(round: &mut Round, row: &TaskRow, task: Task, price: Cost) -> Preference {
    let wide = row.away.plus(price);
    if row.wait < wide {
        round.assign(task, row.wait_arc());
        return Preference::Settled;
    }
    round.assign(task, row.hub_arc());
    if row.wait > wide {
        Preference::Hub
    } else {
        Preference::HubOrWait
    }
}

// Assigns a task that some machines may cost less than others.
fn choose_for_near(round: &mut Round, row: &TaskRow, task: Task) -> Preference {
    let hub_arc = row.hub_arc();
    let best = round.cheapest(row.arcs, None);
    if let Some(arc) = best.arc
        && arc.0 > hub_arc.0
    {
        round.assign(task, arc);
        return Preference::Settled;
    }
    if let Some(arc) = least_demanded(round, row.machine_arcs(), best.charge) {
        round.assign(task, arc);
        round.add_load(round.arc(arc).place);
        return Preference::Settled;
    }
    let prefers_not_to_wait = row.wait > best.charge;
    let is_at_hub = round.charge(round.arc(hub_arc)) == best.charge;
    if is_at_hub {
        round.assign(task, hub_arc);
    }
    match (is_at_hub, prefers_not_to_wait) {
        (true, true) => Preference::Hub,
        (true, false) => Preference::HubOrWait,
        (false, true) => Preference::FullMachine,
        (false, false) => Preference::FullMachineOrWait,
    }
}

/// Counts the slots that are left on machines of this price.
pub(crate) fn count_slots(round: &Round, price: Cost, work: &mut Work) -> FreeSlots
    ensures work { GoesOn work.old work.new }
{
    let mut cheaper = 0u32;
    let mut even = 0u32;
    let at_price = round.slots_at(price);
    for machine in 0..work.pass(round.machines()) {
        let machine = Place(machine);
        if round.price(machine) == price {
            let slots = at_price.among(round.slots(machine));
            let load = round.load(machine);
            cheaper = cheaper.saturating_add(slots.below.saturating_sub(load));
            even = even.saturating_add(slots.up_to.saturating_sub(load.max(slots.below)));
        }
    }
    FreeSlots { cheaper, even }
}

//! The state of a round, as a transportation problem: tasks, places that take them, an assignment and prices.
//!
//! Places are the machines, then the *hub*, over which a task goes to any machine at one cost, then the *outside*,
//! where tasks wait. A task's arcs lie one after the other: to its own machine if it runs, to the machines that it
//! prefers in order of their numbers, to the hub, and last to the outside. An arc's *charge* is its cost and the price
//! of its place, and an arc is *tight* if its charge is that of the arc to which its task is assigned. A *unit* of flow
//! leads from the hub to a machine for each task there that came over the hub.
ghost use Rattle.firm_levels.specs.Work.{GoesOn};

use crate::column::Column;
use crate::index::{ArcId, Cost, Optional, Place, Slot, Span, Task};
use crate::memory::Memory;
use firm_levels::Work;
use std::mem;

mod reading;

/// The price of a full machine until a task on it prefers to leave: no task pays it.
pub(crate) const FULL: Cost = Cost(1 << 30);

/// The most slots of a machine.
const MAX_SLOTS: u32 = 64;

/// Number of counts of a machine's slots: the most slots, or fewer, or none.
pub(crate) const SLOT_COUNTS: u32 = MAX_SLOTS + 1;

const SLOT_HALVINGS: u32 = 6;

/// An arc from a task to a place.
#[derive(Clone, Copy, Default)]
pub(crate) struct Arc {
    pub(crate) task: Task,
    pub(crate) place: Place,
    pub(crate) cost: Cost,
}

pub(crate) type Arcs = Span<ArcId>;

/// A task's arcs, the machine that it runs on, if any, and its costs of any other machine and of waiting.
#[derive(Clone, Copy, Default)]
pub(crate) struct TaskRow {
    pub(crate) arcs: Arcs,
    home: Optional<Place>,
    pub(crate) away: Cost,
    pub(crate) wait: Cost,
}

impl TaskRow {
    pub(crate) fn home(&self) -> Option<Place> {
        self.home.get()
    }

    /// Whether all machines cost the task the same: it does not run, and prefers none.
    pub(crate) fn is_plain(&self) -> bool {
        self.arcs.count() == 2
    }

    /// Whether only its own machine costs the task less than others: it runs, and prefers no other.
    pub(crate) fn has_home_only(&self) -> bool {
        self.arcs.count() == 3 && !self.home.is_none()
    }

    /// The task's arc to its own machine.
    #[inline(always)]
    pub(crate) fn home_arc(&self) -> Option<ArcId> {
        if self.home.is_none() {
            None
        } else {
            Some(self.arcs.from)
        }
    }

    /// The task's arcs to machines that it prefers and does not run on.
    #[inline(always)]
    pub(crate) fn preferred_arcs(&self) -> Arcs {
        let from = if self.home.is_none() {
            self.arcs.from
        } else {
            self.arcs.from.next()
        };
        let to = self.hub_arc();
        Arcs { from, to }
    }

    pub(crate) fn machine_arcs(&self) -> Arcs {
        let to = self.hub_arc();
        Arcs { to, ..self.arcs }
    }

    pub(crate) fn hub_arc(&self) -> ArcId {
        ArcId(self.arcs.to.0.saturating_sub(2))
    }

    /// The task's arc to the outside.
    pub(crate) fn wait_arc(&self) -> ArcId {
        ArcId(self.arcs.to.0.saturating_sub(1))
    }
}

/// The least charge of some arcs, and an arc that has it, if any has a finite one.
#[derive(Clone, Copy)]
pub(crate) struct Offer {
    pub(crate) arc: Option<ArcId>,
    pub(crate) charge: Cost,
}

/// Number of slots of a machine that cost less than a price, and that cost no more.
#[derive(Clone, Copy)]
pub(crate) struct SlotsAt {
    pub(crate) below: u32,
    pub(crate) up_to: u32,
}

impl SlotsAt {
    #[inline(always)]
    pub(crate) fn among(self, slots: u32) -> SlotsAt {
        SlotsAt {
            below: self.below.min(slots),
            up_to: self.up_to.min(slots),
        }
    }
}

/// A step of a path: a task that is on its way goes over the arc, or, where there is none, a unit between a machine
/// and the hub or the outside. A task that is not assigned comes from nowhere.
#[derive(Clone, Copy)]
pub(crate) struct Step {
    pub(crate) from: Option<Place>,
    pub(crate) to: Place,
    pub(crate) arc: Option<ArcId>,
}

impl Step {
    #[inline(always)]
    pub(crate) fn unit(from: Place, to: Place) -> Step {
        Step {
            from: Some(from),
            to,
            arc: None,
        }
    }
}

/// The place at which a task is listed, and the tasks before and after it in that list.
#[derive(Clone, Copy, Default)]
struct Listing {
    place: Place,
    next: Optional<Task>,
    previous: Optional<Task>,
}

/// The tables of a round.
#[derive(Drop)]
pub(crate) struct Round {
    // The instance.
    tasks: u32,
    machines: u32,
    arcs: Column<ArcId, Arc>,
    arc_count: u32,
    // One row a task, as most questions about it read several of these numbers.
    rows: Column<Task, TaskRow>,
    // Each task's cost of waiting, once more, as a guess of the hub's price reads nothing else.
    wait_costs: Column<Task, Cost>,
    slots: Column<Place, u32>,
    // Number of tasks that prefer each machine.
    demands: Column<Place, u32>,
    // Later slots of a machine cost no less than earlier ones.
    slot_costs: Column<Slot, Cost>,
    now: Assignment,
    // Number of units on each machine, and how many of them may no longer leave.
    units: Column<Place, u32>,
    fixed: Column<Place, u32>,
    // The tasks at each place that may move, in lists.
    heads: Column<Place, Optional<Task>>,
    listings: Column<Task, Listing>,
}

/// The arc to which each task is assigned, if any, the price of each place, and the number of tasks on each machine.
#[derive(Drop)]
pub(crate) struct Assignment {
    assigned: Column<Task, Optional<ArcId>>,
    prices: Column<Place, Cost>,
    loads: Column<Place, u32>,
}

impl Assignment {
    /// No tasks and machines, and room for this many of both together.
    pub(crate) fn new(memory: &mut Memory, nodes: usize) -> Assignment {
        Assignment {
            assigned: Column::new(memory, nodes),
            prices: Column::new(memory, nodes),
            loads: Column::new(memory, nodes),
        }
    }
}

impl Round {
    pub(crate) fn tasks(&self) -> u32 {
        self.tasks
    }

    pub(crate) fn machines(&self) -> u32 {
        self.machines
    }

    pub(crate) fn hub(&self) -> Place {
        Place(self.machines)
    }

    pub(crate) fn outside(&self) -> Place {
        Place(self.machines.saturating_add(1))
    }

    pub(crate) fn places(&self) -> u32 {
        self.machines.saturating_add(2)
    }

    pub(crate) fn is_machine(&self, place: Place) -> bool {
        place.0 < self.machines
    }

    pub(crate) fn slots(&self, machine: Place) -> u32 {
        self.slots.at(machine)
    }

    pub(crate) fn demand(&self, machine: Place) -> u32 {
        self.demands.at(machine)
    }

    /// The costs of waiting of all tasks, for a pass over them; none if too few looks are left.
    pub(crate) fn wait_costs(&self, work: &mut Work) -> &[Cost]
        ensures work { GoesOn work.old work.new }
    {
        self.wait_costs.first(work.pass(self.tasks))
    }

    pub(crate) fn arc(&self, arc: ArcId) -> Arc {
        self.arcs.at(arc)
    }

    pub(crate) fn arc_count(&self) -> u32 {
        self.arc_count
    }

    pub(crate) fn row(&self, task: Task) -> TaskRow {
        self.rows.at(task)
    }

    pub(crate) fn arcs_of(&self, task: Task) -> Arcs {
        self.rows.at(task).arcs
    }

    pub(crate) fn arcs_in(&self, arcs: Arcs) -> &[Arc] {
        self.arcs.within(arcs)
    }

    /// Whether one of these arcs leads to the place.
    pub(crate) fn lead_to(&self, arcs: Arcs, place: Place) -> bool {
        for arc in self.arcs_in(arcs) {
            if arc.place == place {
                return true;
            }
        }
        false
    }

    /// The slots of a machine with the most slots that cost less than a price, and that cost no more.
    #[inline(always)]
    pub(crate) fn slots_at(&self, price: Cost) -> SlotsAt {
        SlotsAt {
            below: self.slots_below(price),
            up_to: self.slots_below(price.plus(Cost(1))),
        }
    }

    fn slots_below(&self, price: Cost) -> u32 {
        let mut below = 0u32;
        for halving in 0..=SLOT_HALVINGS {
            let more = below.saturating_add(MAX_SLOTS >> halving);
            if more <= MAX_SLOTS && self.slot_costs.at(Slot(more.saturating_sub(1))) < price {
                below = more;
            }
        }
        below
    }

    pub(crate) fn assigned(&self, task: Task) -> Option<ArcId> {
        self.now.assigned.at(task).get()
    }

    pub(crate) fn takes(&self, task: Task, arc: ArcId) -> bool {
        self.assigned(task) == Some(arc)
    }

    pub(crate) fn assign(&mut self, task: Task, arc: ArcId) {
        self.now.assigned.set(task, Optional::some(arc));
    }

    pub(crate) fn unassign(&mut self, task: Task) {
        self.now.assigned.set(task, Optional::NONE);
    }

    #[inline(always)]
    pub(crate) fn place_of(&self, task: Task) -> Option<Place> {
        match self.assigned(task) {
            Some(arc) => Some(self.arc(arc).place),
            None => None,
        }
    }

    pub(crate) fn price(&self, place: Place) -> Cost {
        self.now.prices.at(place)
    }

    pub(crate) fn set_price(&mut self, place: Place, price: Cost) {
        self.now.prices.set(place, price);
    }

    pub(crate) fn has_hub_price(&self, machine: Place) -> bool {
        self.price(machine) == self.price(self.hub())
    }

    pub(crate) fn load(&self, machine: Place) -> u32 {
        self.now.loads.at(machine)
    }

    pub(crate) fn is_full(&self, machine: Place) -> bool {
        self.now.loads.at(machine) >= self.slots.at(machine)
    }

    pub(crate) fn add_load(&mut self, machine: Place) {
        self.now.loads.add(machine, 1);
    }

    pub(crate) fn drop_load(&mut self, machine: Place) {
        self.now.loads.subtract(machine, 1);
    }

    pub(crate) fn has_unit(&self, machine: Place) -> bool {
        self.units.at(machine) > 0
    }

    /// Sends this many more units to a machine.
    pub(crate) fn add_units(&mut self, machine: Place, units: u32) {
        self.units.add(machine, units);
        self.now.loads.add(machine, units);
    }

    /// Whether a unit on the machine may go back to the hub.
    pub(crate) fn has_loose_unit(&self, machine: Place) -> bool {
        self.units.at(machine) > self.fixed.at(machine)
    }

    /// Fixes a unit on a machine, and says whether all its slots are then taken by fixed units.
    pub(crate) fn fix_unit(&mut self, machine: Place) -> bool {
        self.fixed.add(machine, 1);
        self.fixed.at(machine) == self.slots.at(machine)
    }

    pub(crate) fn charge(&self, arc: Arc) -> Cost {
        arc.cost.plus(self.now.prices.at(arc.place))
    }

    /// The charge of the arc that the task is assigned to, infinite if it is not assigned.
    #[inline(always)]
    pub(crate) fn charge_of(&self, task: Task) -> Cost {
        match self.assigned(task) {
            Some(arc) => self.charge(self.arc(arc)),
            None => Cost::INFINITE,
        }
    }

    pub(crate) fn is_tight(&self, arc: ArcId) -> bool {
        let arc = self.arc(arc);
        self.charge(arc) == self.charge_of(arc.task)
    }

    /// Whether the row alone tells that only one of the task's arcs is tight. The caller reads the hub's price once for
    /// all tasks.
    #[inline(always)]
    pub(crate) fn has_one_tight_arc(&self, task: Task, row: &TaskRow, hub_price: Cost) -> bool {
        let wide = row.away.plus(hub_price);
        let wait = row.wait;
        if row.is_plain() {
            return wide != wait;
        }
        let Some(home) = row.home() else {
            return false;
        };
        if !row.has_home_only() {
            return false;
        }
        let own = self.price(home);
        let is_home = self.takes(task, row.arcs.from);
        own != wide && own != wait && (is_home || wide != wait)
    }

    /// The cheapest of some arcs, the first of several, without one of them.
    #[inline(always)]
    pub(crate) fn cheapest(&self, arcs: Arcs, but: Option<ArcId>) -> Offer {
        let mut best = Offer {
            arc: None,
            charge: Cost::INFINITE,
        };
        let mut id = arcs.from;
        for arc in self.arcs_in(arcs) {
            let charge = self.charge(*arc);
            if charge < best.charge && Some(id) != but {
                let arc = Some(id);
                best = Offer { arc, charge };
            }
            id = id.next();
        }
        best
    }

    pub(crate) fn least_charge(&self, task: Task) -> Cost {
        self.cheapest(self.arcs_of(task), None).charge
    }

    /// The cost of one more task as a load on the machine, which isn't full.
    pub(crate) fn next_slot_cost(&self, machine: Place) -> Cost {
        self.slot_costs.at(Slot(self.now.loads.at(machine)))
    }

    /// The cost of the last task on the machine as a load.
    pub(crate) fn last_slot_cost(&self, machine: Place) -> Cost {
        let last = self.now.loads.at(machine).saturating_sub(1);
        self.slot_costs.at(Slot(last))
    }

    /// Whether one more task would be worth its slot at the machine's price.
    pub(crate) fn has_room(&self, machine: Place) -> bool {
        !self.is_full(machine) && self.next_slot_cost(machine) <= self.now.prices.at(machine)
    }

    /// Whether the machine's last task is worth no more than its slot.
    pub(crate) fn can_shed(&self, machine: Place) -> bool {
        self.now.loads.at(machine) > 0
            && self.last_slot_cost(machine) >= self.now.prices.at(machine)
    }

    /// Exchanges the assignment for one that was set aside.
    pub(crate) fn exchange(&mut self, spare: &mut Assignment) {
        mem::swap(&mut self.now, spare);
    }

    /// Unassigns each task, and empties each machine.
    pub(crate) fn clear(&mut self, work: &mut Work)
        ensures work { GoesOn work.old work.new }
    {
        self.now.assigned.reset(self.tasks, Optional::NONE, work);
        self.now.loads.reset(self.machines, 0, work);
        self.units.reset(self.machines, 0, work);
        self.fixed.reset(self.machines, 0, work);
        let outside = self.outside();
        self.now.prices.set(outside, Cost::ZERO);
    }

    /// Takes all tasks off the lists.
    pub(crate) fn clear_lists(&mut self, work: &mut Work)
        ensures work { GoesOn work.old work.new }
    {
        let places = self.places();
        self.heads.reset(places, Optional::NONE, work);
    }

    pub(crate) fn first_listed(&self, place: Place) -> Option<Task> {
        self.heads.at(place).get()
    }

    /// The task listed after this one at its place.
    pub(crate) fn next_listed(&self, task: Task) -> Option<Task> {
        self.listings.at(task).next.get()
    }

    pub(crate) fn listed_at(&self, task: Task) -> Place {
        self.listings.at(task).place
    }

    #[inline(always)]
    pub(crate) fn list(&mut self, task: Task, place: Place) {
        let next = self.heads.at(place);
        let previous = Optional::NONE;
        let listing = Listing {
            place,
            next,
            previous,
        };
        self.listings.set(task, listing);
        self.set_previous(next, Optional::some(task));
        self.heads.set(place, Optional::some(task));
    }

    pub(crate) fn unlist(&mut self, task: Task) {
        let listing = self.listings.at(task);
        match listing.previous.get() {
            None => self.heads.set(listing.place, listing.next),
            Some(previous) => {
                if let Some(before) = self.listings.entry(previous) {
                    before.next = listing.next;
                }
            }
        }
        self.set_previous(listing.next, listing.previous);
    }

    #[inline(always)]
    fn set_previous(&mut self, task: Optional<Task>, previous: Optional<Task>) {
        if let Some(task) = task.get() {
            if let Some(listing) = self.listings.entry(task) {
                listing.previous = previous;
            }
        }
    }

    /// Assigns an arc's task to it. The task is listed if it was assigned, and is listed at its new place.
    pub(crate) fn reassign(&mut self, arc: ArcId) {
        let Arc { task, place, .. } = self.arc(arc);
        if self.assigned(task).is_some() {
            self.unlist(task);
        }
        self.assign(task, arc);
        self.list(task, place);
    }

    pub(crate) fn make(&mut self, step: Step) {
        let to = step.to;
        match (step.arc, step.from) {
            (Some(arc), _) => self.reassign(arc),
            (None, Some(from)) if to == self.outside() => self.now.loads.add(from, 1),
            (None, Some(from)) if from == self.outside() => self.now.loads.subtract(to, 1),
            (None, Some(from)) if to == self.hub() => self.units.subtract(from, 1),
            (None, Some(_)) => self.units.add(to, 1),
            (None, None) => {}
        }
    }
}

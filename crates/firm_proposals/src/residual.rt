//! Tight residual arcs, along which tasks and units change places at no cost: those that lead on from a place, and
//! those that lead into it.

ghost use Rattle.firm_levels.specs.Work.{GoesOn};

use crate::column::Column;
use crate::index::{ArcId, Index, Optional, Place, Span, Task, TightId};
use crate::memory::Memory;
use crate::round::{Round, SlotsAt, Step};
use firm_levels::Work;

/// A task's arc, and the place at its other end.
#[derive(Clone, Copy)]
pub(crate) struct Link {
    pub(crate) arc: ArcId,
    pub(crate) at: Place,
}

/// Whether the arcs between a machine and the outside, and between it and the hub, are still to be looked at.
#[derive(Clone, Copy, Default)]
pub(crate) struct UnitArcs {
    pub(crate) outside: bool,
    pub(crate) hub: bool,
}

/// A tight arc of a task that has several.
#[derive(Clone, Copy, Default)]
struct TightArc {
    arc: ArcId,
    task: Task,
    place: Place,
    // The arcs before and after it in the list of its place.
    previous: Optional<TightId>,
    next: Optional<TightId>,
}

type TightArcs = Span<TightId>;

/// How far a walk over the arcs at a place has come: those of units at the hub or the outside, and those of tasks.
#[derive(Clone, Copy, Default)]
pub(crate) struct Walk {
    pub(crate) place: Place,
    /// Number of the hub's or the outside's arcs that are left, each to or from a machine.
    pub(crate) machines: u32,
    // Forward the arcs of a task that are left; backward all from the next one that leads into the place.
    arcs: TightArcs,
}

/// The tight residual arcs of a round. They are read before its first search; without one they aren't needed.
#[derive(Drop)]
pub(crate) struct Residual {
    is_read: bool,
    // The tight arcs of the tasks that have several, one task after the other, and which of them are each task's.
    tight: Column<TightId, TightArc>,
    spans: Column<Task, TightArcs>,
    // The first of those that lead into each place: of tasks that may move and are elsewhere.
    into: Column<Place, Optional<TightId>>,
    // Number of slots of each machine that cost less than its price, and that cost no more.
    cheaper: Column<Place, u32>,
    affordable: Column<Place, u32>,
}

impl Residual {
    /// No arcs, and room for this many tasks and machines together, and this many arcs.
    pub(crate) fn new(memory: &mut Memory, nodes: usize, arcs: usize) -> Residual {
        Residual {
            is_read: false,
            tight: Column::new(memory, arcs),
            spans: Column::new(memory, nodes),
            into: Column::new(memory, nodes),
            cheaper: Column::new(memory, nodes),
            affordable: Column::new(memory, nodes),
        }
    }

    pub(crate) fn clear(&mut self) {
        self.is_read = false;
    }

    pub(crate) fn is_read(&self) -> bool {
        self.is_read
    }

    /// Finds the tight arcs of an assignment of least cost, and lists the tasks from `now` on that may move at their
    /// places. Those before it no longer move.
    pub(crate) fn read(&mut self, round: &mut Round, now: Task, work: &mut Work)
        ensures work { GoesOn work.old work.new }
    {
        self.is_read = true;
        self.read_machines(round, work);
        round.clear_lists(work);
        self.into.reset(round.places(), Optional::NONE, work);
        let hub_price = round.price(round.hub());
        let mut end = TightId(0);
        let tasks = work.pass(round.tasks().saturating_sub(now.0));
        for number in now.0..now.0.saturating_add(tasks) {
            let task = Task(number);
            let row = round.row(task);
            let span = if round.has_one_tight_arc(task, &row, hub_price) {
                TightArcs::default()
            } else {
                self.read_task(round, task, end)
            };
            if !span.is_empty() {
                end = span.to;
            }
            self.spans.set(task, span);
        }
    }

    /// Takes a task that moves no more off the list of its place, if it is on one.
    pub(crate) fn settle(&mut self, round: &mut Round, task: Task) {
        let span = self.spans.at(task);
        if !self.is_read || span.is_empty() {
            return;
        }
        for number in span.from.0..span.to.0 {
            let id = TightId(number);
            if !round.takes(task, self.tight.at(id).arc) {
                self.unlist(id);
            }
        }
        round.unlist(task);
    }

    /// Makes a step of a path.
    pub(crate) fn make(&mut self, round: &mut Round, step: Step) {
        match step.arc {
            Some(arc) => self.reassign(round, arc),
            None => round.make(step),
        }
    }

    /// Assigns an arc's task to it: the arc that the task leaves leads into its place from then on, and this one no
    /// longer.
    pub(crate) fn reassign(&mut self, round: &mut Round, arc: ArcId) {
        let task = round.arc(arc).task;
        let span = self.spans.at(task);
        for number in span.from.0..span.to.0 {
            let id = TightId(number);
            let tight = self.tight.at(id).arc;
            if tight == arc {
                self.unlist(id);
            } else if round.takes(task, tight) {
                self.list(id);
            }
        }
        round.reassign(arc);
    }

    fn read_machines(&mut self, round: &Round, work: &mut Work)
        ensures work { GoesOn work.old work.new }
    {
        let hub_price = round.price(round.hub());
        let at_hub_price = round.slots_at(hub_price);
        // Few prices differ.
        let mut last = hub_price;
        let mut at_last = at_hub_price;
        for number in 0..work.pass(round.machines()) {
            let machine = Place(number);
            let price = round.price(machine);
            if price != hub_price && price != last {
                last = price;
                at_last = round.slots_at(price);
            }
            let at_price = if price == hub_price {
                at_hub_price
            } else {
                at_last
            };
            let SlotsAt { below, up_to } = at_price.among(round.slots(machine));
            self.cheaper.set(machine, below);
            self.affordable.set(machine, up_to);
        }
    }

    // Lists the task's tight arcs from this number on, and the task at its place; none if it has but one.
    fn read_task(&mut self, round: &mut Round, task: Task, from: TightId) -> TightArcs {
        let Some(taken) = round.assigned(task) else {
            return TightArcs::default();
        };
        let charge = round.charge_of(task);
        let arcs = round.arcs_of(task);
        let mut to = from.0;
        let mut id = arcs.from;
        for arc in round.arcs_in(arcs) {
            if round.charge(*arc) == charge {
                let tight = TightArc {
                    arc: id,
                    task,
                    place: arc.place,
                    previous: Optional::NONE,
                    next: Optional::NONE,
                };
                self.tight.set(TightId(to), tight);
                to = to.saturating_add(1);
            }
            id = id.next();
        }
        if to.saturating_sub(from.0) < 2 {
            return TightArcs::default();
        }
        round.list(task, round.arc(taken).place);
        for number in from.0..to {
            if self.tight.at(TightId(number)).arc != taken {
                self.list(TightId(number));
            }
        }
        let to = TightId(to);
        TightArcs { from, to }
    }

    // Lists a tight arc before those into its place that are listed.
    fn list(&mut self, id: TightId) {
        let place = self.tight.at(id).place;
        let next = self.into.at(place);
        if let Some(tight) = self.tight.entry(id) {
            tight.previous = Optional::NONE;
            tight.next = next;
        }
        self.set_previous(next, Optional::some(id));
        self.into.set(place, Optional::some(id));
    }

    // Takes a tight arc off the list of its place.
    fn unlist(&mut self, id: TightId) {
        let tight = self.tight.at(id);
        match tight.previous.get() {
            None => self.into.set(tight.place, tight.next),
            Some(previous) => {
                if let Some(before) = self.tight.entry(previous) {
                    before.next = tight.next;
                }
            }
        }
        self.set_previous(tight.next, tight.previous);
    }

    fn set_previous(&mut self, id: Optional<TightId>, previous: Optional<TightId>) {
        if let Some(id) = id.get() {
            if let Some(tight) = self.tight.entry(id) {
                tight.previous = previous;
            }
        }
    }

    /// Whether the machine can give up a slot at no cost: whether a unit may come to it from the outside.
    pub(crate) fn can_shed(&self, round: &Round, machine: Place) -> bool {
        round.load(machine) > self.cheaper.at(machine)
    }

    /// Whether the machine can take one more task at no cost: whether a unit may go from it to the outside.
    pub(crate) fn can_take(&self, round: &Round, machine: Place) -> bool {
        round.load(machine) < self.affordable.at(machine)
    }

    /// A walk over this many arcs of units, and over the arcs of the tasks at the place.
    #[inline(always)]
    pub(crate) fn walk_forward(&self, round: &Round, place: Place, machines: u32) -> Walk {
        Walk {
            place,
            machines,
            arcs: self.arcs_of(round.first_listed(place)),
        }
    }

    /// A walk over this many arcs of units, and over the arcs of tasks that lead into the place.
    #[inline(always)]
    pub(crate) fn walk_backward(&self, place: Place, machines: u32) -> Walk {
        Walk {
            place,
            machines,
            arcs: chain(self.into.at(place)),
        }
    }

    #[inline(always)]
    fn arcs_of(&self, task: Option<Task>) -> TightArcs {
        match task {
            Some(task) => self.spans.at(task),
            None => TightArcs::default(),
        }
    }

    /// Looks at the next task's arc that leads on from the walk's place.
    #[inline(always)]
    pub(crate) fn look_forward(&self, round: &Round, walk: &mut Walk) -> Link {
        let mut tight = self.tight.at(walk.next());
        // The arc that the task takes leads to where it is.
        if tight.place == walk.place && walk.has_arcs() {
            tight = self.tight.at(walk.next());
        }
        if !walk.has_arcs() {
            walk.arcs = self.arcs_of(round.next_listed(tight.task));
        }
        Link {
            arc: tight.arc,
            at: tight.place,
        }
    }

    /// Looks at the next task's arc that leads into the walk's place.
    #[inline(always)]
    pub(crate) fn look_backward(&self, round: &Round, walk: &mut Walk) -> Link {
        let tight = self.tight.at(walk.arcs.from);
        walk.arcs = chain(tight.next);
        Link {
            arc: tight.arc,
            at: round.listed_at(tight.task),
        }
    }

    /// Whether an arc of a task leads into the place.
    pub(crate) fn has_arc_into(&self, place: Place) -> bool {
        !self.into.at(place).is_none()
    }

    /// Whether the machine can give up a slot or take one more task at no cost.
    pub(crate) fn is_flexible(&self, machine: Place) -> bool {
        self.cheaper.at(machine) < self.affordable.at(machine)
    }
}

impl UnitArcs {
    pub(crate) fn are_none(self) -> bool {
        !self.outside && !self.hub
    }

    /// The place at the other end of the next one: the outside's comes before the hub's.
    #[inline(always)]
    pub(crate) fn next(&mut self, round: &Round) -> Place {
        if self.outside {
            self.outside = false;
            round.outside()
        } else {
            self.hub = false;
            round.hub()
        }
    }
}

impl Walk {
    pub(crate) fn is_done(&self) -> bool {
        !self.has_arcs() && self.machines == 0
    }

    pub(crate) fn has_arcs(&self) -> bool {
        !self.arcs.is_empty()
    }

    // The next of the task's tight arcs.
    fn next(&mut self) -> TightId {
        let next = self.arcs.from;
        self.arcs.from = TightId(next.0.saturating_add(1));
        next
    }
}

// The arcs of a list, from this one on.
fn chain(first: Optional<TightId>) -> TightArcs {
    match first.get() {
        Some(from) => Span {
            from,
            to: TightId::LAST,
        },
        None => Span::default(),
    }
}

//! Augmenting paths: they bring unassigned tasks to a slot or outside, and to the hub the units that it lacks.
ghost use Rattle.firm_levels.specs.Work.{GoesOn};

use crate::column::{Column, Stack};
use crate::heap::DistanceHeap;
use crate::index::{ArcId, Cost, Index, Optional, Place, Task};
use crate::memory::Memory;
use crate::round::{Arcs, Round, SLOT_COUNTS, Step};
use firm_levels::Work;

/// Searches from unassigned tasks, or from the outside, to the outside, or to the hub while it lacks units.
#[derive(Drop)]
pub(crate) struct Paths {
    heap: DistanceHeap,
    // The step by which each place was reached.
    from: Column<Place, Optional<Place>>,
    arcs: Column<Place, Optional<ArcId>>,
    // The last search that visited each place, and how far the last sweep there has come.
    visited: Column<Place, u32>,
    cursors: Column<Place, Cursor>,
    search: u32,
    sweep: u32,
    // The places of a path, while it is sought, and those that a search for a shortest path has settled.
    path: Stack<Place>,
    settled: Stack<Place>,
    // Number of units that the hub lacks.
    deficit: u32,
    // The place where the search ends; it ends at the hub too while that lacks units.
    goal: Place,
    hub: Place,
}

impl Paths {
    /// No places, and room for this many tasks and machines together.
    pub(crate) fn new(memory: &mut Memory, nodes: usize) -> Paths {
        Paths {
            heap: DistanceHeap::new(memory, nodes),
            from: Column::new(memory, nodes),
            arcs: Column::new(memory, nodes),
            visited: Column::new(memory, nodes),
            cursors: Column::new(memory, nodes),
            search: 0,
            sweep: 0,
            path: Stack::new(memory, nodes),
            settled: Stack::new(memory, nodes),
            deficit: 0,
            goal: Place::LAST,
            hub: Place::LAST,
        }
    }

    /// Begins a round whose hub lacks this many units.
    pub(crate) fn clear(&mut self, round: &Round, deficit: u32, work: &mut Work)
        ensures work { GoesOn work.old work.new }
    {
        self.heap.reset(round.places(), work);
        self.visited.reset(round.places(), 0, work);
        self.cursors.reset(round.places(), Cursor::default(), work);
        self.search = 0;
        self.sweep = 0;
        self.deficit = deficit;
        self.hub = round.hub();
    }

    /// Assigns the tasks that are left: in sweeps over tight arcs, and where one finds no path by the shortest path of
    /// all, for which prices rise.
    pub(crate) fn assign_rest(
        &mut self,
        round: &mut Round,
        unassigned: &mut Stack<Task>,
        work: &mut Work,
    )
        ensures work { GoesOn work.old work.new }
    {
        for _ in 0..=round.tasks() {
            let before = unassigned.count();
            self.sweep_tight(round, unassigned, work);
            let left = unassigned.count();
            if left == 0 || work.is_short() {
                return;
            }
            if left == before {
                self.assign_nearest(round, unassigned, work);
            }
        }
    }

    // Assigns the tasks that have a path of tight arcs.
    fn sweep_tight(&mut self, round: &mut Round, unassigned: &mut Stack<Task>, work: &mut Work)
        ensures work { GoesOn work.old work.new }
    {
        if !self.begin_sweep(work) {
            return;
        }
        for number in 0..work.pass(unassigned.count()) {
            let task = unassigned.at(number);
            self.begin(round.outside());
            let charge = round.least_charge(task);
            let from = None;
            self.assign_tight(round, Departure { task, charge, from }, work);
        }
        drop_assigned(unassigned, round, work);
    }

    // Assigns the task that has the shortest path of all, after prices have risen so that its arcs are tight.
    fn assign_nearest(&mut self, round: &mut Round, unassigned: &mut Stack<Task>, work: &mut Work)
        ensures work { GoesOn work.old work.new }
    {
        if !self.begin_shortest(round.outside(), work) {
            return;
        }
        for number in 0..unassigned.count() {
            let task = unassigned.at(number);
            let charge = round.least_charge(task);
            let from = None;
            self.reach_by_arcs(round, Departure { task, charge, from }, work);
        }
        if let Some(end) = self.search_shortest(round, work) {
            self.raise_prices(round, end, work);
            self.augment(round, end, work);
        }
        drop_assigned(unassigned, round, work);
    }

    /// Pulls to the hub what it lacks: first over tight arcs, and where no such path is left by the shortest path, for
    /// which prices fall.
    pub(crate) fn fill_deficit(&mut self, round: &mut Round, work: &mut Work)
        ensures work { GoesOn work.old work.new }
    {
        for _ in 0..=round.tasks() {
            if self.deficit == 0 || work.is_short() || !self.begin_sweep(work) {
                return;
            }
            for machine in 0..work.pass(round.machines()) {
                self.pull_slots(round, Place(machine), work);
            }
            self.pull_tasks(round, work);
            if self.deficit > 0 {
                self.pull_shortest(round, work);
            }
        }
    }

    // Pulls tasks that wait, or others in their stead.
    fn pull_tasks(&mut self, round: &mut Round, work: &mut Work)
        ensures work { GoesOn work.old work.new }
    {
        for number in 0..work.pass(round.tasks()) {
            let task = Task(number);
            if self.deficit > 0 && round.takes(task, round.row(task).wait_arc()) {
                self.begin_at_outside(round);
                let charge = round.charge_of(task);
                let from = Some(round.outside());
                self.assign_tight(round, Departure { task, charge, from }, work);
            }
        }
    }

    // Pulls units off a machine that is indifferent to shedding them.
    fn pull_slots(&mut self, round: &mut Round, machine: Place, work: &mut Work)
        ensures work { GoesOn work.old work.new }
    {
        for _ in 0..SLOT_COUNTS {
            if self.deficit == 0 || self.is_exhausted(machine) || !round.can_shed(machine) {
                return;
            }
            self.begin_at_outside(round);
            self.augment_tight(round, Step::unit(round.outside(), machine), work);
        }
    }

    // Begins a search from the outside to the hub over tight arcs.
    fn begin_at_outside(&mut self, round: &Round) {
        self.begin(round.hub());
        self.visited.set(round.outside(), self.search);
    }

    // Begins a sweep if a search is left, and says whether one is: prices have changed, so what was exhausted may lead
    // on again. A sweep counts as one search, since it looks at no arc of a task at a place twice.
    fn begin_sweep(&mut self, work: &mut Work) -> bool
        ensures work { GoesOn work.old work.new }
    {
        self.sweep = self.sweep.saturating_add(1);
        work.begin_search()
    }

    fn begin(&mut self, goal: Place) {
        self.search = self.search.saturating_add(1);
        self.goal = goal;
        self.path.clear();
    }

    fn is_end(&self, place: Place) -> bool {
        place == self.goal || place == self.hub && self.deficit > 0
    }

    fn is_exhausted(&self, place: Place) -> bool {
        let cursor = self.cursors.at(place);
        cursor.sweep == self.sweep && cursor.is_exhausted
    }

    // Whether a place is new to the search, and a path may lead on from it.
    #[inline(always)]
    fn is_new(&self, place: Place) -> bool {
        self.visited.at(place) != self.search && !self.is_exhausted(place)
    }

    fn reached_by(&mut self, step: Step) {
        self.from.set(step.to, Optional::of(step.from));
        self.arcs.set(step.to, Optional::of(step.arc));
    }

    // Assigns a task to the first of its tight arcs from which a path leads to an end. Its last arcs come first,
    // since the outside and the hub may be ends.
    fn assign_tight(&mut self, round: &mut Round, departure: Departure, work: &mut Work)
        ensures work { GoesOn work.old work.new }
    {
        let arcs = round.arcs_of(departure.task);
        for tried in 0..arcs.count() {
            let Some(step) = self.tight_step(round, departure, arc_from_last(arcs, tried)) else {
                continue;
            };
            if !work.look() || self.augment_tight(round, step, work) {
                return;
            }
        }
    }

    // The step of a task over an arc, if that is tight and leads to a new place.
    #[inline(always)]
    fn tight_step(&self, round: &Round, departure: Departure, id: ArcId) -> Option<Step> {
        let arc = round.arc(id);
        let is_tight = round.charge(arc) == departure.charge;
        if is_tight && self.is_new(arc.place) && !round.takes(departure.task, id) {
            Some(departure.over(id, arc.place))
        } else {
            None
        }
    }

    // Searches on from this step, depth first, augments along the path to the first end, and says whether there is one.
    // The search goes on at each place where the sweep's last one there ended. A place from which it finds no path is
    // exhausted, even if a place before it on the path would lead on: the next sweep finds that.
    fn augment_tight(&mut self, round: &mut Round, first: Step, work: &mut Work) -> bool
        ensures work { GoesOn work.old work.new }
    {
        let mut next = Some(first);
        for _ in 0..work.left().saturating_add(1) {
            match next {
                Some(step) => {
                    self.reached_by(step);
                    if self.is_end(step.to) {
                        self.augment(round, step.to, work);
                        return true;
                    }
                    self.visited.set(step.to, self.search);
                    self.path.push(step.to);
                }
                None => self.step_back(round),
            }
            let count = self.path.count();
            if count == 0 || !work.look() {
                return false;
            }
            let place = self.path.at(count.saturating_sub(1));
            next = self.next_step(round, place, work);
        }
        false
    }

    // Leaves the last place of the path, which is exhausted.
    fn step_back(&mut self, round: &Round) {
        if let Some(place) = self.path.pop() {
            let mut cursor = self.cursor(round, place);
            cursor.is_exhausted = true;
            self.cursors.set(place, cursor);
        }
    }

    // How far the sweep has come at a place.
    #[inline(always)]
    fn cursor(&self, round: &Round, place: Place) -> Cursor {
        let cursor = self.cursors.at(place);
        if cursor.sweep == self.sweep {
            return cursor;
        }
        Cursor {
            sweep: self.sweep,
            task: Optional::of(round.first_listed(place)),
            ..Cursor::default()
        }
    }

    // The next step over a tight arc from this place to a new one, if any.
    fn next_step(&mut self, round: &Round, place: Place, work: &mut Work) -> Option<Step>
        ensures work { GoesOn work.old work.new }
    {
        let hub = round.hub();
        if place == hub {
            let step = self.next_machine(round, work);
            if step.is_some() {
                return step;
            }
        } else if round.is_machine(place) {
            if round.has_room(place) && self.is_new(round.outside()) {
                return Some(Step::unit(place, round.outside()));
            }
            if round.has_unit(place) && round.has_hub_price(place) && self.is_new(hub) {
                return Some(Step::unit(place, hub));
            }
        }
        self.next_task(round, place, work)
    }

    // The step of a unit from the hub to the next machine of its price.
    fn next_machine(&mut self, round: &Round, work: &mut Work) -> Option<Step>
        ensures work { GoesOn work.old work.new }
    {
        let hub = round.hub();
        let mut cursor = self.cursor(round, hub);
        for number in cursor.machine..round.machines() {
            if !work.look() {
                return None;
            }
            let machine = Place(number);
            if round.has_hub_price(machine) && self.is_new(machine) {
                cursor.machine = number;
                self.cursors.set(hub, cursor);
                return Some(Step::unit(hub, machine));
            }
        }
        cursor.machine = round.machines();
        self.cursors.set(hub, cursor);
        None
    }

    // The step of the next task at a place.
    fn next_task(&mut self, round: &Round, place: Place, work: &mut Work) -> Option<Step>
        ensures work { GoesOn work.old work.new }
    {
        let mut cursor = self.cursor(round, place);
        for _ in 0..round.tasks() {
            let task = cursor.task.get()?;
            if !work.look() {
                return None;
            }
            let charge = round.charge_of(task);
            let from = Some(place);
            let step = self.step_of(round, Departure { task, charge, from }, &mut cursor);
            if step.is_some() {
                self.cursors.set(place, cursor);
                return step;
            }
            cursor.task = Optional::of(round.next_listed(task));
            cursor.tried = 0;
        }
        None
    }

    // The step of a task over the next of its arcs that can be taken.
    #[inline(always)]
    fn step_of(&self, round: &Round, departure: Departure, cursor: &mut Cursor) -> Option<Step> {
        let arcs = round.arcs_of(departure.task);
        for number in cursor.tried..arcs.count() {
            let step = self.tight_step(round, departure, arc_from_last(arcs, number));
            if step.is_some() {
                cursor.tried = number.saturating_add(1);
                return step;
            }
        }
        None
    }

    // Moves a place's cursor past the task of this arc, which leaves it.
    fn advance(&mut self, round: &Round, place: Place, arc: ArcId) {
        let next = round.next_listed(round.arc(arc).task);
        if let Some(cursor) = self.cursors.entry(place) {
            cursor.task = Optional::of(next);
            cursor.tried = 0;
        }
    }

    // Makes the steps of the path to this place, the last first.
    fn augment(&mut self, round: &mut Round, end: Place, work: &mut Work)
        ensures work { GoesOn work.old work.new }
    {
        if end == self.hub {
            self.deficit = self.deficit.saturating_sub(1);
        }
        let mut to = end;
        for _ in 0..round.places() {
            let from = self.from.at(to).get();
            let arc = self.arcs.at(to).get();
            if from.is_none() && arc.is_none() || !work.look() {
                return;
            }
            if let Some(place) = from
                && let Some(arc) = arc
            {
                self.advance(round, place, arc);
            }
            round.make(Step { from, to, arc });
            match from {
                Some(place) if place != round.outside() => to = place,
                _ => return,
            }
        }
    }

    // Raises the prices of places nearer than this one by how much nearer they are.
    fn raise_prices(&self, round: &mut Round, end: Place, work: &mut Work)
        ensures work { GoesOn work.old work.new }
    {
        let distance = self.heap.distance(end);
        for number in 0..work.pass(self.settled.count().min(round.places())) {
            let place = self.settled.at(number);
            let rise = distance.minus(self.heap.distance(place));
            round.set_price(place, round.price(place).plus(rise));
        }
    }

    // Pulls a unit from the outside to the hub by the shortest path, for which prices fall until its arcs are tight.
    fn pull_shortest(&mut self, round: &mut Round, work: &mut Work)
        ensures work { GoesOn work.old work.new }
    {
        if !self.begin_shortest(round.hub(), work) {
            return;
        }
        let outside = round.outside();
        self.from.set(outside, Optional::NONE);
        self.arcs.set(outside, Optional::NONE);
        self.heap.decrease(outside, Cost::ZERO);
        if let Some(end) = self.search_shortest(round, work) {
            self.lower_prices(round, end, work);
            self.augment(round, end, work);
        }
    }

    // Lowers the prices of places by their distance, and by no more than that of this one.
    fn lower_prices(&self, round: &mut Round, end: Place, work: &mut Work)
        ensures work { GoesOn work.old work.new }
    {
        let distance = self.heap.distance(end);
        for number in 0..work.pass(round.outside().0) {
            let place = Place(number);
            let fall = distance.min(self.heap.distance(place));
            round.set_price(place, round.price(place).minus(fall));
        }
    }

    // Begins a search for a shortest path to this place if a search is left, and says whether one is.
    fn begin_shortest(&mut self, goal: Place, work: &mut Work) -> bool
        ensures work { GoesOn work.old work.new }
    {
        self.begin(goal);
        self.heap.clear(work);
        self.settled.clear();
        work.begin_search()
    }

    // Settles places, the nearest first, up to an end, which it returns.
    fn search_shortest(&mut self, round: &Round, work: &mut Work) -> Option<Place>
        ensures work { GoesOn work.old work.new }
    {
        for _ in 0..round.places() {
            let place = self.heap.take()?;
            if self.is_end(place) {
                return Some(place);
            }
            self.settled.push(place);
            self.visited.set(place, self.search);
            self.reach_by_unit(round, place, work);
            self.reach_by_task(round, place, work);
        }
        None
    }

    // Reaches a place from another one that is settled, by a step of this reduced cost.
    #[inline(always)]
    fn reach(&mut self, step: Step, reduced: Cost, work: &mut Work)
        ensures work { GoesOn work.old work.new }
    {
        if !work.look() {
            return;
        }
        let near = match step.from {
            Some(place) => self.heap.distance(place),
            None => Cost::ZERO,
        };
        let distance = near.plus(reduced);
        if distance >= self.heap.distance(step.to)
            || distance >= self.heap.distance(self.goal)
            || self.visited.at(step.to) == self.search
        {
            return;
        }
        self.reached_by(step);
        self.heap.decrease(step.to, distance);
    }

    // Reaches the places to which a task's arcs lead.
    #[inline(always)]
    fn reach_by_arcs(&mut self, round: &Round, departure: Departure, work: &mut Work)
        ensures work { GoesOn work.old work.new }
    {
        let arcs = round.arcs_of(departure.task);
        let taken = round.assigned(departure.task);
        for number in arcs.from.0..arcs.to.0 {
            let id = ArcId(number);
            if Some(id) != taken {
                let arc = round.arc(id);
                let reduced = round.charge(arc).minus(departure.charge);
                self.reach(departure.over(id, arc.place), reduced, work);
            }
        }
    }

    // Reaches the places to which a unit may go from this one.
    fn reach_by_unit(&mut self, round: &Round, place: Place, work: &mut Work)
        ensures work { GoesOn work.old work.new }
    {
        let (hub, outside) = (round.hub(), round.outside());
        let price = round.price(place);
        if round.is_machine(place) {
            if !round.is_full(place) {
                let reduced = round.next_slot_cost(place).minus(price);
                self.reach(Step::unit(place, outside), reduced, work);
            }
            if round.has_unit(place) {
                let reduced = round.price(hub).minus(price);
                self.reach(Step::unit(place, hub), reduced, work);
            }
            return;
        }
        for machine in 0..work.pass(round.machines()) {
            let machine = Place(machine);
            let there = round.price(machine);
            if place == hub {
                self.reach(Step::unit(hub, machine), there.minus(price), work);
            } else if round.load(machine) > 0 {
                let reduced = there.minus(round.last_slot_cost(machine));
                self.reach(Step::unit(outside, machine), reduced, work);
            }
        }
    }

    // Reaches the places to which the tasks at this one may go.
    fn reach_by_task(&mut self, round: &Round, place: Place, work: &mut Work)
        ensures work { GoesOn work.old work.new }
    {
        let mut listed = round.first_listed(place);
        for _ in 0..round.tasks() {
            let Some(task) = listed else {
                return;
            };
            let charge = round.charge_of(task);
            let from = Some(place);
            self.reach_by_arcs(round, Departure { task, charge, from }, work);
            listed = round.next_listed(task);
        }
    }
}

/// How far a sweep has come at a place.
#[derive(Clone, Copy, Default)]
struct Cursor {
    // The sweep that looked at the place last, and whether no path led on from it.
    sweep: u32,
    is_exhausted: bool,
    // The first machine to which a unit from the hub may yet go.
    machine: u32,
    // The first task that may yet leave, and the number of its arcs that are tried.
    task: Optional<Task>,
    tried: u32,
}

/// A task that may leave a place, where its arc has this charge.
#[derive(Clone, Copy)]
struct Departure {
    task: Task,
    charge: Cost,
    from: Option<Place>,
}

impl Departure {
    // The step over an arc to this place.
    #[inline(always)]
    fn over(self, arc: ArcId, to: Place) -> Step {
        Step {
            from: self.from,
            to,
            arc: Some(arc),
        }
    }
}

// The arc of this number, counted from the last.
#[inline(always)]
fn arc_from_last(arcs: Arcs, number: u32) -> ArcId {
    ArcId(arcs.to.0.saturating_sub(number.saturating_add(1)))
}

// Drops the tasks that were assigned from the list.
fn drop_assigned(unassigned: &mut Stack<Task>, round: &Round, work: &mut Work)
    ensures work { GoesOn work.old work.new }
{
    let mut kept = 0u32;
    for number in 0..work.pass(unassigned.count()) {
        let task = unassigned.at(number);
        if round.assigned(task).is_none() {
            unassigned.set(kept, task);
            kept = kept.saturating_add(1);
        }
    }
    unassigned.truncate(kept);
}

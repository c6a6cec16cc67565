//! The order phase: the first of the assignments of least cost. Each task in order gets the choice that ranks first
//! among those that the others leave it. A search that fails splits a class of places, which shows later why the choice
//! was not made.
ghost use Rattle.firm_levels.specs.Work.{GoesOn};

use crate::classes::Classes;
use crate::column::Column;
use crate::index::{ArcId, Optional, Place, Task, Time};
use crate::memory::Memory;
use crate::residual::Residual;
use crate::round::{Arcs, Round, Step};
use crate::sides::{Found, Side, View};
use firm_levels::Work;

/// A place from which a unit is to go to another one, for a choice of this time.
#[derive(Clone, Copy)]
struct Transfer {
    from: Place,
    to: Place,
    time: Time,
}

/// The last find of a search from both ends, and whether it is the forward side's.
#[derive(Clone, Copy)]
struct Outcome {
    found: Found,
    is_forward: bool,
}

/// Tables for making an assignment of least cost the first one.
#[derive(Drop)]
pub(crate) struct OrderPhase {
    residual: Residual,
    classes: Classes,
    forward: Side,
    backward: Side,
    // The machine that was chosen for each task, none if it waits.
    chosen: Column<Task, Optional<Place>>,
    search: u32,
    // The first task that may still move.
    now: Task,
    // The first machine to which a unit at the hub may yet go.
    open: Place,
}

impl OrderPhase {
    /// No tasks and machines, and room for this many of both together and for this many arcs.
    pub(crate) fn new(memory: &mut Memory, nodes: usize, arcs: usize) -> OrderPhase {
        OrderPhase {
            residual: Residual::new(memory, nodes, arcs),
            classes: Classes::new(memory, nodes),
            forward: Side::new(memory, nodes, true),
            backward: Side::new(memory, nodes, false),
            chosen: Column::new(memory, nodes),
            search: 0,
            now: Task(0),
            open: Place(0),
        }
    }

    /// The machine that was chosen for a task, none if it waits.
    pub(crate) fn chosen(&self, task: Task) -> Option<Place> {
        self.chosen.at(task).get()
    }

    pub(crate) fn classes(&self) -> &Classes {
        &self.classes
    }

    /// Makes an assignment of least cost the first one, and says whether it was able to.
    pub(crate) fn choose(&mut self, round: &mut Round, work: &mut Work) -> bool
        ensures work { GoesOn work.old work.new }
    {
        self.residual.clear();
        self.classes.clear(round, work);
        self.search = 0;
        self.open = Place(0);
        for task in 0..round.tasks() {
            if !work.look() || !self.choose_for(round, Task(task), work) {
                return false;
            }
        }
        true
    }

    // Chooses for the task that is next, and says whether it was able to.
    fn choose_for(&mut self, round: &mut Round, task: Task, work: &mut Work) -> bool
        ensures work { GoesOn work.old work.new }
    {
        self.now = task;
        let mut found = self.obvious_place(round, task, work);
        if found.is_none() {
            found = self.first_place(round, task, work);
        }
        let Some(place) = found else {
            return false;
        };
        if work.is_short() {
            return false;
        }
        let machine = if round.is_machine(place) {
            Optional::some(place)
        } else {
            Optional::NONE
        };
        self.chosen.set(task, machine);
        self.residual.settle(round, task);
        true
    }

    // The first place that the task can have, if no search is needed: it is on its own machine, or all machines cost it
    // the same, and it prefers to wait or a unit is left for it.
    fn obvious_place(&mut self, round: &mut Round, task: Task, work: &mut Work) -> Option<Place>
        ensures work { GoesOn work.old work.new }
    {
        let row = round.row(task);
        let taken = round.assigned(task)?;
        let home = row.home();
        if home.is_some() && taken == row.arcs.from {
            return home;
        }
        if !row.is_plain() {
            return None;
        }
        let wide = row.away.plus(round.price(round.hub()));
        if taken == row.wait_arc() && wide != row.wait {
            return Some(round.outside());
        }
        let machine = self.first_open(round, work)?;
        if taken != row.hub_arc() || !round.has_loose_unit(machine) {
            return None;
        }
        self.fix_unit(round, machine, time_of(round, task));
        Some(machine)
    }

    // The first place that the task can have, if any.
    fn first_place(&mut self, round: &mut Round, task: Task, work: &mut Work) -> Option<Place>
        ensures work { GoesOn work.old work.new }
    {
        let row = round.row(task);
        let begun = time_of(round, task);
        if let Some(arc) = row.home_arc()
            && self.try_arc(round, arc, begun, work)
        {
            return row.home();
        }
        let machine = self.first_machine(round, task, work);
        if let Some(machine) = machine {
            if round.takes(task, row.hub_arc()) {
                self.fix_unit(round, machine, begun);
            }
            return Some(machine);
        }
        if round.takes(task, row.wait_arc()) {
            Some(round.outside())
        } else {
            None
        }
    }

    // The first machine, without its own, that the task can have.
    fn first_machine(&mut self, round: &mut Round, task: Task, work: &mut Work) -> Option<Place>
        ensures work { GoesOn work.old work.new }
    {
        let row = round.row(task);
        let hub = round.hub();
        let hub_arc = row.hub_arc();
        let mut next = next_tight(round, row.preferred_arcs());
        let mut is_at_hub = round.takes(task, hub_arc);
        // The next machine over the hub; the hub if none is left, or if the task can't be there.
        let mut machine = if is_at_hub || round.is_tight(hub_arc) {
            self.first_open(round, work).unwrap_or(hub)
        } else {
            hub
        };
        let begun = time_of(round, task).after(1);
        for _ in 0..round.arc_count().saturating_add(round.machines()) {
            let preferred = match next {
                Some(arc) => round.arc(arc).place,
                None => hub,
            };
            let place = Place(preferred.0.min(machine.0));
            if place == hub || !work.look() {
                return None;
            }
            let time = begun.after(place.0);
            if let Some(arc) = next
                && place == preferred
            {
                if self.try_arc(round, arc, time, work) {
                    return Some(place);
                }
                let from = arc.next();
                next = next_tight(round, Arcs { from, to: hub_arc });
            } else if round.lead_to(row.machine_arcs(), machine) || !self.is_open(round, machine) {
                machine = next_machine(machine);
            } else if !is_at_hub {
                is_at_hub = self.try_arc(round, hub_arc, time, work);
                if !is_at_hub {
                    machine = hub;
                }
            } else {
                if self.try_unit(round, machine, time, work) {
                    return Some(machine);
                }
                machine = next_machine(machine);
            }
        }
        None
    }

    // The first machine to which a unit at the hub may yet go. Where none may go now none ever will.
    fn first_open(&mut self, round: &Round, work: &mut Work) -> Option<Place>
        ensures work { GoesOn work.old work.new }
    {
        for number in self.open.0..round.machines() {
            let machine = Place(number);
            if self.is_open(round, machine) || !work.look() {
                return Some(machine);
            }
            self.open = next_machine(machine);
        }
        None
    }

    fn is_open(&self, round: &Round, machine: Place) -> bool {
        round.has_loose_unit(machine)
            || round.has_hub_price(machine) && self.classes.are_one(machine, round.hub())
    }

    // Tries to assign an arc's task to it, for a choice of this time.
    fn try_arc(&mut self, round: &mut Round, id: ArcId, time: Time, work: &mut Work) -> bool
        ensures work { GoesOn work.old work.new }
    {
        let arc = round.arc(id);
        if round.takes(arc.task, id) {
            return true;
        }
        let Some(to) = round.place_of(arc.task) else {
            return false;
        };
        let from = arc.place;
        if !round.is_tight(id) || !self.send(round, Transfer { from, to, time }, work) {
            return false;
        }
        self.residual.reassign(round, id);
        true
    }

    // Tries to send a unit from the hub to a machine, for a choice of this time.
    fn try_unit(&mut self, round: &mut Round, machine: Place, time: Time, work: &mut Work) -> bool
        ensures work { GoesOn work.old work.new }
    {
        if round.has_loose_unit(machine) {
            return true;
        }
        let hub = round.hub();
        let transfer = Transfer {
            from: machine,
            to: hub,
            time,
        };
        if !round.has_hub_price(machine) || !self.send(round, transfer, work) {
            return false;
        }
        round.make(Step::unit(hub, machine));
        true
    }

    // Fixes a unit on a machine. Where all its slots are taken by fixed ones nothing leaves it any more: it is dearer
    // from the time on at which the task could wait, after all machines that it could have.
    fn fix_unit(&mut self, round: &mut Round, machine: Place, begun: Time) {
        if round.fix_unit(machine) {
            let time = begun.after(round.outside().0);
            self.classes.split_one(machine, time);
        }
    }

    // Sends a unit from a place to another over tight arcs; where there is no path their class is split.
    fn send(&mut self, round: &mut Round, transfer: Transfer, work: &mut Work) -> bool
        ensures work { GoesOn work.old work.new }
    {
        if !self.classes.are_one(transfer.from, transfer.to) {
            return false;
        }
        self.search = self.search.saturating_add(1);
        if !work.begin_search() {
            return false;
        }
        if !self.residual.is_read() {
            self.read(round, work);
        }
        if self.is_dead_end(round, transfer.from) {
            // A search would see no other place.
            self.classes.split_one(transfer.from, transfer.time);
            return false;
        }
        let Some(met) = self.meet(round, transfer, work) else {
            return false;
        };
        self.forward.make(round, &mut self.residual, met, work);
        self.backward.make(round, &mut self.residual, met, work);
        true
    }

    // Reads the tight arcs of the round.
    fn read(&mut self, round: &mut Round, work: &mut Work)
        ensures work { GoesOn work.old work.new }
    {
        self.residual.read(round, self.now, work);
        self.forward.read(round, &self.residual, work);
        self.backward.read(round, &self.residual, work);
    }

    // Whether this is a machine from which nothing leads on: no task, and no unit to the outside or the hub.
    fn is_dead_end(&self, round: &Round, place: Place) -> bool {
        round.is_machine(place)
            && round.first_listed(place).is_none()
            && !self.residual.can_take(round, place)
            && (!round.has_hub_price(place) || !round.has_loose_unit(place))
    }

    // Searches from both ends, and returns the place where they meet. Where they don't the class is split: what the
    // closed side has seen comes off it.
    fn meet(&mut self, round: &Round, transfer: Transfer, work: &mut Work) -> Option<Place>
        ensures work { GoesOn work.old work.new }
    {
        let view = View {
            round,
            residual: &self.residual,
            classes: &self.classes,
            search: self.search,
            class: self.classes.of(transfer.from),
        };
        let (forward, backward) = (&mut self.forward, &mut self.backward);
        let Outcome { found, is_forward } = look_in_turn(&view, transfer, forward, backward, work);
        match found {
            Found::Met(place) => Some(place),
            Found::Closed if is_forward => {
                let seen = self.forward.seen();
                self.classes.split(seen, transfer.time, true, work);
                None
            }
            Found::Closed => {
                let seen = self.backward.seen();
                self.classes.split(seen, transfer.time, false, work);
                None
            }
            Found::On | Found::Short => None,
        }
    }
}

// Begins at both ends, and looks from them in turn, up to where they meet or one has nothing left to look at.
fn look_in_turn(
    view: &View,
    transfer: Transfer,
    forward: &mut Side,
    backward: &mut Side,
    work: &mut Work,
) -> Outcome
    ensures work { GoesOn work.old work.new }
{
    forward.begin(view, transfer.from);
    backward.begin(view, transfer.to);
    // One turn more than looks are left, so that the search runs out of them.
    for _ in 0..work.left().saturating_add(1) {
        let found = forward.look(view, backward, work);
        if !found.goes_on() {
            let is_forward = true;
            return Outcome { found, is_forward };
        }
        let found = backward.look(view, forward, work);
        if !found.goes_on() {
            let is_forward = false;
            return Outcome { found, is_forward };
        }
    }
    Outcome {
        found: Found::Short,
        is_forward: true,
    }
}

// The first of some arcs of a task that is tight.
fn next_tight(round: &Round, arcs: Arcs) -> Option<ArcId> {
    for number in arcs.from.0..arcs.to.0 {
        if round.is_tight(ArcId(number)) {
            return Some(ArcId(number));
        }
    }
    None
}

// The machine after this one, the hub after the last.
fn next_machine(machine: Place) -> Place {
    Place(machine.0.saturating_add(1))
}

// The time of the task's first choice.
fn time_of(round: &Round, task: Task) -> Time {
    Time(task.0.saturating_mul(round.places()))
}

//! The two sides of a search for a path of tight arcs: forward from its start, and backward from its goal.
ghost use Rattle.firm_levels.specs.Work.{GoesOn};

use crate::classes::Classes;
use crate::column::{Column, Stack};
use crate::index::{ArcId, ClassId, Index, Optional, Place};
use crate::memory::Memory;
use crate::residual::{Link, Residual, UnitArcs, Walk};
use crate::round::{Round, Step};
use firm_levels::Work;

/// How many looks a side has at most before the other side's turn.
const MAX_TURN: u32 = 8;

/// What a search looks at.
#[derive(Clone, Copy)]
pub(crate) struct View<'a> {
    pub(crate) round: &'a Round,
    pub(crate) residual: &'a Residual,
    pub(crate) classes: &'a Classes,
    /// The number of the search, and the class of the places in it.
    pub(crate) search: u32,
    pub(crate) class: ClassId,
}

/// What a look of a side found.
#[derive(Clone, Copy)]
pub(crate) enum Found {
    /// The search goes on.
    On,
    /// Nothing is left to look at.
    Closed,
    /// A place that the other side has seen too.
    Met(Place),
    /// No look is left.
    Short,
}

impl Found {
    pub(crate) fn goes_on(self) -> bool {
        matches!(&self, Found::On)
    }
}

/// Machines that are looked at in turn: each pass over them begins where the last one ended.
#[derive(Drop)]
struct Circle {
    machines: Stack<Place>,
    // The number of the machine with which the pass began, and of the one that is next.
    start: u32,
    next: u32,
}

impl Circle {
    fn new(memory: &mut Memory, machines: usize) -> Circle {
        Circle {
            machines: Stack::new(memory, machines),
            start: 0,
            next: 0,
        }
    }

    fn clear(&mut self) {
        self.machines.clear();
        self.next = 0;
    }

    // Begins with the machine that was taken last; returns how many there are.
    fn begin(&mut self) -> u32 {
        let last = self.next.saturating_sub(1);
        self.start = if last < self.machines.count() {
            last
        } else {
            0
        };
        self.next = self.start;
        self.machines.count()
    }

    // The next machine, if it is of the search's class. Otherwise it is dropped: classes that were split stay so.
    #[inline(always)]
    fn take(&mut self, view: &View) -> Option<Place> {
        if self.next >= self.machines.count() {
            self.next = 0;
        }
        let machine = self.machines.at(self.next);
        self.next = self.next.saturating_add(1);
        if view.classes.of(machine) == view.class {
            Some(machine)
        } else {
            self.drop_last_taken();
            None
        }
    }

    // Drops the machine that was taken last. One that is not yet taken in this pass comes in its place, so that none
    // is passed over or taken twice.
    fn drop_last_taken(&mut self) {
        let mut gap = self.next.saturating_sub(1);
        self.next = gap;
        if gap < self.start {
            self.start = self.start.saturating_sub(1);
            let moved = self.machines.at(self.start);
            self.machines.set(gap, moved);
            gap = self.start;
        }
        if let Some(last) = self.machines.pop() {
            self.machines.set(gap, last);
        }
    }
}

/// The search in which a place was seen last, and the step by which it was; the place where a side begins has none.
/// Searches are counted from 1, so a place that was not seen has 0.
#[derive(Clone, Copy, Default)]
struct Mark {
    search: u32,
    before: Optional<Place>,
    arc: Optional<ArcId>,
}

/// The places that a side has seen, the nearest first. Whether a machine leads to the hub or the outside is looked at
/// as soon as it is seen; the arcs of these two, which are many, come after all others.
#[derive(Drop)]
pub(crate) struct Side {
    is_forward: bool,
    // How many looks it has before the other side's turn.
    turn: u32,
    seen: Stack<Place>,
    marks: Column<Place, Mark>,
    // Whether the hub and the outside were seen in this search.
    saw_hub: bool,
    saw_outside: bool,
    // The machine that was seen last, and its arcs of units that are not looked at.
    last: Place,
    units: UnitArcs,
    // The machines that may lead on, how many of them were entered, and the walk from the last of those.
    near: Stack<Place>,
    entered: u32,
    walk: Walk,
    // The hub and the outside, until they are entered, and the walk from the last of those.
    far: Stack<Place>,
    far_walk: Walk,
    // Whether the next turn there goes to tasks.
    is_tasks_turn: bool,
    // The machines between which and the hub or the outside units may go, without those seen to be of other classes.
    at_hub: Circle,
    at_edge: Circle,
}

impl Side {
    /// No places, and room for this many tasks and machines together.
    pub(crate) fn new(memory: &mut Memory, nodes: usize, is_forward: bool) -> Side {
        Side {
            is_forward,
            turn: 0,
            seen: Stack::new(memory, nodes),
            marks: Column::new(memory, nodes),
            saw_hub: false,
            saw_outside: false,
            last: Place::LAST,
            units: UnitArcs::default(),
            near: Stack::new(memory, nodes),
            entered: 0,
            walk: Walk::default(),
            far: Stack::new(memory, 2),
            far_walk: Walk::default(),
            is_tasks_turn: false,
            at_hub: Circle::new(memory, nodes),
            at_edge: Circle::new(memory, nodes),
        }
    }

    /// Forgets all searches, and reads between which machines and the hub or the outside units may go.
    pub(crate) fn read(&mut self, round: &Round, residual: &Residual, work: &mut Work)
        ensures work { GoesOn work.old work.new }
    {
        self.marks.reset(round.places(), Mark::default(), work);
        self.at_hub.clear();
        self.at_edge.clear();
        let hub_price = round.price(round.hub());
        for number in 0..work.pass(round.machines()) {
            let machine = Place(number);
            if round.price(machine) == hub_price {
                self.at_hub.machines.push(machine);
            }
            if residual.is_flexible(machine) {
                self.at_edge.machines.push(machine);
            }
        }
    }

    /// The places that this search has seen, the one it began with first.
    pub(crate) fn seen(&self) -> &Stack<Place> {
        &self.seen
    }

    /// Begins a search at a place.
    pub(crate) fn begin(&mut self, view: &View, place: Place) {
        self.turn = 0;
        self.seen.clear();
        self.near.clear();
        self.entered = 0;
        self.walk = Walk::default();
        self.far.clear();
        self.far_walk = Walk::default();
        self.is_tasks_turn = false;
        self.units = UnitArcs::default();
        self.saw_hub = false;
        self.saw_outside = false;
        let start = Mark {
            search: view.search,
            ..Mark::default()
        };
        self.marks.set(place, start);
        self.enter(view, place);
        if !view.round.is_machine(place) {
            self.far.clear();
            self.far_walk = self.walk_from(view, place);
        }
    }

    fn has_seen(&self, view: &View, place: Place) -> bool {
        self.marks.at(place).search == view.search
    }

    /// Looks at what comes next, up to a new place that leads on. A turn has twice the looks of the one before, up to
    /// the most.
    #[inline(always)]
    pub(crate) fn look(&mut self, view: &View, other: &Side, work: &mut Work) -> Found
        ensures work { GoesOn work.old work.new }
    {
        self.turn = self.turn.saturating_mul(2).clamp(1, MAX_TURN);
        let found = if !self.units.are_none() {
            self.look_at_unit(view, work)
        } else if !self.walk.is_done() || self.goes_on(view, work) {
            let mut walk = self.walk;
            let found = self.look_along(view, &mut walk, work);
            self.walk = walk;
            found
        } else if !self.far_walk.is_done() {
            let mut walk = self.far_walk;
            let found = self.look_from_afar(view, other, &mut walk, work);
            self.far_walk = walk;
            found
        } else {
            return self.enter_far(view, work);
        };
        if work.is_short() {
            return Found::Short;
        }
        let Some(place) = found else {
            return Found::On;
        };
        if other.has_seen(view, place) {
            return Found::Met(place);
        }
        self.enter(view, place);
        Found::On
    }

    // Looks at an arc of units of the machine that was seen last; returns the place at its other end if that is new.
    fn look_at_unit(&mut self, view: &View, work: &mut Work) -> Option<Place>
        ensures work { GoesOn work.old work.new }
    {
        if !work.look() {
            return None;
        }
        let from = self.last;
        let to = self.units.next(view.round);
        if self.mark_new(view, Step::unit(from, to)) {
            Some(to)
        } else {
            None
        }
    }

    // Enters the next machine that leads on, and says whether there is one.
    fn goes_on(&mut self, view: &View, work: &mut Work) -> bool
        ensures work { GoesOn work.old work.new }
    {
        for next in self.entered..self.near.count() {
            if !work.look() {
                return false;
            }
            self.entered = next.saturating_add(1);
            let place = self.near.at(next);
            self.walk = self.walk_from(view, place);
            if !self.walk.is_done() {
                return true;
            }
        }
        false
    }

    // Enters the hub or the outside, if one is left.
    fn enter_far(&mut self, view: &View, work: &mut Work) -> Found
        ensures work { GoesOn work.old work.new }
    {
        if !work.look() {
            return Found::Short;
        }
        match self.far.pop() {
            Some(place) => {
                self.far_walk = self.walk_from(view, place);
                Found::On
            }
            None => Found::Closed,
        }
    }

    // Looks at the arcs of the hub or the outside, up to a new place that leads on, which it returns. Machines and
    // tasks take turns: where thousands of machines lead nowhere, a task often leads on.
    #[inline(always)]
    fn look_from_afar(
        &mut self,
        view: &View,
        other: &Side,
        walk: &mut Walk,
        work: &mut Work,
    ) -> Option<Place>
        ensures work { GoesOn work.old work.new }
    {
        let is_tasks_turn = self.is_tasks_turn;
        self.is_tasks_turn = !is_tasks_turn;
        if walk.machines == 0 || (is_tasks_turn && walk.has_arcs()) {
            self.look_along(view, walk, work)
        } else {
            self.look_at_machines(view, other, walk, work)
        }
    }

    // Looks at machines between which and the hub or the outside a unit may go, up to a new one that leads on, which it
    // returns.
    #[inline(always)]
    fn look_at_machines(
        &mut self,
        view: &View,
        other: &Side,
        walk: &mut Walk,
        work: &mut Work,
    ) -> Option<Place>
        ensures work { GoesOn work.old work.new }
    {
        let from = walk.place;
        let is_hub = from == view.round.hub();
        for _ in 0..self.turn {
            if walk.machines == 0 || !work.look() {
                return None;
            }
            walk.machines = walk.machines.saturating_sub(1);
            let taken = if is_hub {
                self.at_hub.take(view)
            } else {
                self.at_edge.take(view)
            };
            if let Some(to) = taken
                && self.goes(view, is_hub, to)
                && self.mark_new(view, Step::unit(from, to))
            {
                if other.has_seen(view, to) || self.leads_on(view, to) {
                    return Some(to);
                }
                self.seen.push(to);
            }
        }
        None
    }

    // Whether a unit may go between the hub or the outside and a machine.
    #[inline(always)]
    fn goes(&self, view: &View, is_hub: bool, machine: Place) -> bool {
        match (is_hub, self.is_forward) {
            (true, true) => true,
            (true, false) => view.round.has_loose_unit(machine),
            (false, true) => view.residual.can_shed(view.round, machine),
            (false, false) => view.residual.can_take(view.round, machine),
        }
    }

    // Looks along a walk, up to a new place, which it returns.
    #[inline(always)]
    fn look_along(&mut self, view: &View, walk: &mut Walk, work: &mut Work) -> Option<Place>
        ensures work { GoesOn work.old work.new }
    {
        let from = Some(walk.place);
        for _ in 0..self.turn {
            if !walk.has_arcs() || !work.look() {
                return None;
            }
            let Link { arc, at: to } = if self.is_forward {
                view.residual.look_forward(view.round, walk)
            } else {
                view.residual.look_backward(view.round, walk)
            };
            let arc = Some(arc);
            if self.mark_new(view, Step { from, to, arc }) {
                return Some(to);
            }
        }
        None
    }

    // Marks a place as seen by this step, and says whether it is new: it was not seen, and is of the search's class.
    #[inline(always)]
    fn mark_new(&mut self, view: &View, step: Step) -> bool {
        let is_new = !self.has_seen(view, step.to) && view.classes.of(step.to) == view.class;
        if is_new {
            let mark = Mark {
                search: view.search,
                before: Optional::of(step.from),
                arc: Optional::of(step.arc),
            };
            self.marks.set(step.to, mark);
        }
        is_new
    }

    // Keeps a new place to be entered later, the hub and the outside last.
    #[inline(always)]
    fn enter(&mut self, view: &View, place: Place) {
        self.seen.push(place);
        if view.round.is_machine(place) {
            self.last = place;
            self.units = self.units_of(view, place);
            self.near.push(place);
        } else {
            self.saw_hub = self.saw_hub || place == view.round.hub();
            self.saw_outside = self.saw_outside || place == view.round.outside();
            self.far.push(place);
        }
    }

    // Whether there is anything to look at from a machine.
    #[inline(always)]
    fn leads_on(&self, view: &View, machine: Place) -> bool {
        let has_arcs = if self.is_forward {
            view.round.first_listed(machine).is_some()
        } else {
            view.residual.has_arc_into(machine)
        };
        has_arcs || !self.units_of(view, machine).are_none()
    }

    #[inline(always)]
    fn walk_from(&mut self, view: &View, place: Place) -> Walk {
        let machines = if view.round.is_machine(place) {
            0
        } else if place == view.round.hub() {
            self.at_hub.begin()
        } else {
            self.at_edge.begin()
        };
        if self.is_forward {
            view.residual.walk_forward(view.round, place, machines)
        } else {
            view.residual.walk_backward(place, machines)
        }
    }

    // A machine's arcs with the outside and the hub, without those that were seen.
    #[inline(always)]
    fn units_of(&self, view: &View, machine: Place) -> UnitArcs {
        let outside = !self.saw_outside
            && if self.is_forward {
                view.residual.can_take(view.round, machine)
            } else {
                view.residual.can_shed(view.round, machine)
            };
        let hub = !self.saw_hub
            && view.round.has_hub_price(machine)
            && (!self.is_forward || view.round.has_loose_unit(machine));
        UnitArcs { outside, hub }
    }

    /// Makes the steps between a place and where this side began.
    pub(crate) fn make(
        &self,
        round: &mut Round,
        residual: &mut Residual,
        end: Place,
        work: &mut Work,
    )
        ensures work { GoesOn work.old work.new }
    {
        let mut place = end;
        for _ in 0..round.places() {
            let mark = self.marks.at(place);
            let Some(before) = mark.before.get() else {
                return;
            };
            if !work.look() {
                return;
            }
            let (from, to) = if self.is_forward {
                (before, place)
            } else {
                (place, before)
            };
            let (from, arc) = (Some(from), mark.arc.get());
            residual.make(round, Step { from, to, arc });
            place = before;
        }
    }
}

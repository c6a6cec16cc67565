//! The choice of a round under way: each task takes its first open choice, and is held to it.
ghost use Rattle.std.specs.Prelude.{◌≡◌, ◌+◌, ◌*◌, ◌<◌, ◌≤◌, ◌++◌, ℕ, Bool, List, [], length, true, false, Some, None};
ghost use Rattle.std.specs.Prelude.{IfSome, IfNone, vec_len, vec_capacity};
ghost use Rattle.firm_net.specs.Row.{Row};
ghost use Rattle.firm_net.specs.Net.{IsArc, IsNode, row_at};
ghost use Rattle.firm_paths.specs.Paths.{IsTightCut, IsTightPath};
ghost use Rattle.firm_paths.specs.Visits.{paths_of};
ghost use Rattle.firm_paths.specs.declared.search.Step.{Step as AStep};
ghost use Rattle.firm_rules.specs.ArenaUse.{arena_arcs};
ghost use Rattle.firm_rules.specs.Placement.{runs_at};
ghost use Rattle.firm_graph.specs.View.{flows};
ghost use Rattle.firm_canon.specs.Counts.{HasMadeUpTo};
ghost use Rattle.firm_canon.specs.inner.Graphs.{IsSameGraph};
ghost use Rattle.firm_canon.specs.inner.Keys.{IsArcOf, key_of, machine_of};
ghost use Rattle.firm_canon.specs.inner.Placed.{guests};
ghost use Rattle.firm_canon.specs.inner.Choosing.{HasRoom, IsBare, IsChosen, IsPassed, IsSpent, best};
ghost use Rattle.firm_canon.specs.inner.Turns.{IsClosedAt, IsIdle, Turned};
ghost use Rattle.firm_canon.specs.inner.State.{GoesOn, HasWaysBack, IsReady, IsReadyFor, IsUnchanged};
ghost use Rattle.firm_canon.specs.inner.State.{prefix, price, root, view};
ghost use Rattle.firm_rules.specs.declared.rounds.Choice.TheVariants.{On};
ghost use Rattle.firm_graph.specs.declared.network.Key.TheVariants.{Through, Wide, Stay};

use crate::holds::hold_choice;
use crate::reads::{
    TaskArc, Wishes, arcs_are_counted, flow_on, has_surplus_on, is_home, machine_count,
    preference_for, task_arc, through_arc, wishes_of,
};
use crate::turns::{is_open, is_tight_arc, turn};
use firm_graph::Graph;
use firm_net::{ArcId, NodeId, Way};
use firm_paths::{Prices, Scratch, Step, tight_paths};
use firm_rules::Choice;

/// The graph whose flow turns from choice to choice, and the choices so far, held by lower bounds.
#[derive(Drop)]
pub(crate) struct Choosing<'a> {
    pub(crate) graph: &'a mut Graph,
    pub(crate) prices: &'a Prices,
    pub(crate) scratch: &'a mut Scratch,
    pub(crate) chosen: &'a mut Vec<Choice>,
    /// Whether the ways back of the choice under way were searched for.
    pub(crate) searched: bool,
    /// The machines before this place are spent: the hub sends each as many units as are held, and can send no more.
    pub(crate) spent: u32,
}

impl Choosing<'_> {
    /// One of the next task's arcs.
    fn own_arc(&self, arc: TaskArc) -> ArcId
        requires ready { IsReady self.now }
        requires next { length (prefix self.now) < length (view self.now).case.tasks }
        requires arc { IsArcOf (view self.now).case (length (prefix self.now)) arc }
        ensures value { result ≡ (view self.now).arc (key_of (length (prefix self.now)) arc) }
        ensures there { IsArc self.now.graph.now.net result }
    {
        task_arc(self.graph, self.chosen.len(), arc)
    }

    /// Whether the next task's unit is on this arc.
    fn carries(&self, arc: TaskArc) -> bool
        requires ready { IsReady self.now }
        requires next { length (prefix self.now) < length (view self.now).case.tasks }
        requires arc { IsArcOf (view self.now).case (length (prefix self.now)) arc }
        ensures yes { result ≡ true → flows (view self.now) (key_of (length (prefix self.now)) arc) ≡ 1 }
        ensures no { result ≡ false → flows (view self.now) (key_of (length (prefix self.now)) arc) ≡ 0 }
    {
        let arc = self.own_arc(arc);
        flow_on(self.graph.net(), arc) > 0
    }

    /// Begins a choice: the ways back are searched for on demand.
    fn begin(&mut self)
        requires ready { IsReady self.old }
        ensures goes_on { GoesOn self.old self.new 1 }
        ensures unchanged { IsUnchanged self.old self.new }
        ensures open { self.new.searched ≡ false }
    {
        self.searched = false;
    }

    /// The end of the ways back: the next task or, if its unit is at the hub, the hub.
    fn root(&self, at_hub: bool) -> NodeId
        requires ready { IsReady self.now }
        requires next { length (prefix self.now) < length (view self.now).case.tasks }
        ensures place { result.id.place ≡ root (view self.now) (length (prefix self.now)) at_hub }
        ensures there { IsNode self.now.graph.now.net result }
    {
        if at_hub {
            return self.graph.hub();
        }
        let wide = self.own_arc(TaskArc::Wide);
        let Some(row) = self.graph.net().arc(wide) else {
            unreachable!()
        };
        row.tail()
    }

    /// Searches for the ways back, unless that was done: up to the one from this node, if any.
    fn search_back(&mut self, node: NodeId, at_hub: bool)
        requires ready { IsReady self.old }
        requires next { length (prefix self.old) < length (view self.old).case.tasks }
        requires node { IsNode self.old.graph.now.net node }
        requires ways { HasWaysBack self.old at_hub }
        ensures goes_on { GoesOn self.old self.new 0 }
        ensures unchanged { IsUnchanged self.old self.new }
        ensures path { (steps : List AStep) → paths_of self.new.scratch.now.visits node.id.place ≡ Some steps
            → IsTightPath self.new.graph.now.net (price self.new) node.id.place
            (root (view self.new) (length (prefix self.new)) at_hub) steps }
        ensures cut { paths_of self.new.scratch.now.visits node.id.place ≡ None → (inside : ℕ → Bool)
            × IsTightCut self.new.graph.now.net (price self.new) [] node.id.place
            (root (view self.new) (length (prefix self.new)) at_hub) inside }
        ensures ways { paths_of self.new.scratch.now.visits node.id.place ≡ None → HasWaysBack self.new at_hub }
    {
        if self.searched {
            return;
        }
        arcs_are_counted(self.graph);
        let root = self.root(at_hub);
        tight_paths(
            self.scratch,
            self.graph.net(),
            self.prices,
            root,
            Some(node),
        );
        self.searched = true; // until the next choice begins
    }

    /// Sends one unit more along an arc at its lower bound, and round by a way back and these steps to the arc's tail,
    /// if the arc is open and a way back is left.
    fn go_round(&mut self, arc: ArcId, back: &[Step], at_hub: bool) -> bool
        requires ready { IsReady self.old }
        requires next { length (prefix self.old) < length (view self.old).case.tasks }
        requires there { IsArc self.old.graph.now.net arc }
        requires idle { IsIdle self.old.graph.now.net arc }
        requires ways { HasWaysBack self.old at_hub }
        requires round { (row : Row) (steps : List AStep) → row_at self.old.graph.now.net arc ≡ Some row
            → IsTightPath self.old.graph.now.net (price self.old) row.head.id.place
            (root (view self.old) (length (prefix self.old)) at_hub) steps
            → IsTightPath self.old.graph.now.net (price self.old) row.head.id.place row.tail.id.place
            (steps ++ back.now) }
        ensures goes_on { GoesOn self.old self.new 0 }
        ensures won { result ≡ true
            → Turned self.old.graph.now.net self.new.graph.now.net (price self.old) arc }
        ensures lost { result ≡ false → IsClosedAt self.old.graph.now.net (price self.old)
            (root (view self.old) (length (prefix self.old)) at_hub) arc }
        ensures unchanged { result ≡ false → IsUnchanged self.old self.new }
        ensures ways { result ≡ false → HasWaysBack self.new at_hub }
    {
        if !is_open(self.graph, self.prices, arc) {
            return false;
        }
        let Some(row) = self.graph.net().arc(arc) else {
            unreachable!()
        };
        let head = row.head();
        self.search_back(head, at_hub);
        let Some(steps) = self.scratch.path_from(self.graph.net(), head) else {
            return false;
        };
        turn(self.graph, arc, steps, back);
        true
    }

    /// Sends the next task's unit to one of its arcs, if it is not there, where a way back is left: from the arc's head
    /// to the task, or, if the unit is at the hub, to the hub and from there against the unit.
    fn take(&mut self, arc: TaskArc, at_hub: bool) -> bool
        requires ready { IsReady self.old }
        requires next { length (prefix self.old) < length (view self.old).case.tasks }
        requires arc { IsArcOf (view self.old).case (length (prefix self.old)) arc }
        requires ways { HasWaysBack self.old at_hub }
        ensures goes_on { GoesOn self.old self.new 0 }
        ensures yes { result ≡ true → 1 ≤ flows (view self.new) (key_of (length (prefix self.old)) arc) }
        ensures none { result ≡ false → flows (view self.old) (key_of (length (prefix self.old)) arc) ≡ 0 }
        ensures spent { result ≡ false → IsSpent (view self.old).case (prefix self.old)
            (best (view self.old) (prefix self.old)) (key_of (length (prefix self.old)) arc) }
        ensures bare { result ≡ false → (j : ℕ)
            → machine_of (view self.old).case (length (prefix self.old)) arc ≡ Some j
            → IsBare (view self.old) (prefix self.old) at_hub j }
        ensures unchanged { result ≡ false → IsUnchanged self.old self.new }
        ensures ways { result ≡ false → HasWaysBack self.new at_hub }
    {
        if self.carries(arc) {
            return true;
        }
        let arc = self.own_arc(arc);
        if !at_hub {
            return self.go_round(arc, &[], at_hub);
        }
        let wide = self.own_arc(TaskArc::Wide);
        if !is_tight_arc(self.graph, self.prices, wide) {
            return false;
        }
        let back = Step {
            arc: wide,
            way: Way::Backward,
        };
        self.go_round(arc, &[back], at_hub)
    }

    /// Brings one unit more than there are tasks held to it from the hub to a machine, if it is not there, where a way
    /// back to the hub is left; the next task's unit stays at the hub.
    fn bring(&mut self, machine: u32) -> bool
        requires ready { IsReady self.old }
        requires next { length (prefix self.old) < length (view self.old).case.tasks }
        requires machine { machine < length (view self.old).case.slots }
        requires ways { HasWaysBack self.old true }
        ensures goes_on { GoesOn self.old self.new 0 }
        ensures hub { flows (view self.new) (Wide (length (prefix self.old))) ≡ 1 }
        ensures yes { result ≡ true → guests (view self.old).case (prefix self.old) machine
            < flows (view self.new) (Through machine) }
        ensures spent { result ≡ false → IsSpent (view self.old).case (prefix self.old)
            (best (view self.old) (prefix self.old)) (Through machine) }
        ensures unchanged { result ≡ false → IsUnchanged self.old self.new }
        ensures ways { result ≡ false → HasWaysBack self.new true }
    {
        if machine < self.spent {
            return false;
        }
        let arc = through_arc(self.graph, machine);
        if has_surplus_on(self.graph.net(), arc) {
            return true;
        }
        if self.go_round(arc, &[], true) {
            return true;
        }
        self.pass(machine);
        false
    }

    /// Notes that a machine is spent, if all before it are.
    fn pass(&mut self, machine: u32)
        requires ready { IsReady self.old }
        requires machine { machine < length (view self.old).case.slots }
        requires spent { IsSpent (view self.old).case (prefix self.old)
            (best (view self.old) (prefix self.old)) (Through machine) }
        ensures goes_on { GoesOn self.old self.new 0 }
        ensures same { self.new ≡ record self.old { spent = self.new.spent } }
    {
        if machine == self.spent {
            self.spent = machine.saturating_add(1);
        }
    }

    /// Chooses the next task's own machine, if it runs and is, or could be sent, there.
    fn reach_own(&mut self, wishes: &Wishes, at_hub: bool) -> Option<Choice>
        requires ready { IsReadyFor self.old wishes.now }
        requires ways { HasWaysBack self.old at_hub }
        ensures goes_on { GoesOn self.old self.new 0 }
        ensures some { IfSome result (IsChosen (view self.new) (prefix self.new)) }
        ensures idle { IfNone result (flows (view self.old) (Stay (length (prefix self.old))) ≡ 0) }
        ensures passed { IfNone result ((j : ℕ) → runs_at wishes.now.home j ≡ true
            → IsPassed (view self.old) (prefix self.old) at_hub j) }
        ensures unchanged { IfNone result (IsUnchanged self.old self.new) }
        ensures ways { IfNone result (HasWaysBack self.new at_hub) }
    {
        let Some(own) = wishes.home else {
            return None;
        };
        if !self.take(TaskArc::Stay, at_hub) {
            return None;
        }
        Some(Choice::On(own))
    }

    /// Whether the next task is, or could be sent, to a machine that is not its own: as it prefers it, or else by the
    /// hub, if its unit is there.
    fn reach(&mut self, wishes: &Wishes, machine: u32, at_hub: bool) -> bool
        requires ready { IsReadyFor self.old wishes.now }
        requires ways { HasWaysBack self.old at_hub }
        requires machine { machine < length (view self.old).case.slots }
        requires other { runs_at wishes.now.home machine ≡ false }
        requires apart { at_hub ≡ false → IsSpent (view self.old).case (prefix self.old)
            (best (view self.old) (prefix self.old)) (Wide (length (prefix self.old))) }
        ensures goes_on { GoesOn self.old self.new 0 }
        ensures room { result ≡ true
            → HasRoom (view self.new).case (prefix self.new) (On machine) (flows (view self.new)) }
        ensures passed { result ≡ false → IsPassed (view self.old) (prefix self.old) at_hub machine }
        ensures unchanged { result ≡ false → IsUnchanged self.old self.new }
        ensures ways { result ≡ false → HasWaysBack self.new at_hub }
    {
        match preference_for(&wishes.places, machine) {
            Some(number) => self.take(TaskArc::Prefer(number), at_hub),
            None => at_hub && self.bring(machine),
        }
    }

    /// Finds the first machine that the next task can reach, once its own was passed.
    fn find_machine(&mut self, wishes: &Wishes, at_hub: bool) -> Option<u32>
        requires ready { IsReadyFor self.old wishes.now }
        requires ways { HasWaysBack self.old at_hub }
        requires apart { at_hub ≡ false → IsSpent (view self.old).case (prefix self.old)
            (best (view self.old) (prefix self.old)) (Wide (length (prefix self.old))) }
        requires own { (j : ℕ) → runs_at wishes.now.home j ≡ true
            → IsPassed (view self.old) (prefix self.old) at_hub j }
        ensures goes_on { GoesOn self.old self.new 0 }
        ensures some { IfSome result (λ j. IsChosen (view self.new) (prefix self.new) (On j)) }
        ensures none { IfNone result ((k : ℕ) → k < length (view self.old).case.slots
            → IsPassed (view self.old) (prefix self.old) at_hub k) }
        ensures unchanged { IfNone result (IsUnchanged self.old self.new) }
    {
        for machine in 0..machine_count(self.graph) {
            if !is_home(wishes.home, machine) && self.reach(wishes, machine, at_hub) {
                return Some(machine);
            }
        }
        None
    }

    /// Chooses for the next task, whose unit is not at the hub; `None`, once the unit is there, if its own machine is
    /// out of reach and the hub is not.
    fn choose_apart(&mut self, wishes: &Wishes) -> Option<Choice>
        requires ready { IsReadyFor self.old wishes.now }
        ensures goes_on { GoesOn self.old self.new 1 }
        ensures some { IfSome result (IsChosen (view self.new) (prefix self.new)) }
        ensures none { IfNone result (flows (view self.new) (Wide (length (prefix self.new))) ≡ 1) }
    {
        self.begin();
        if let Some(choice) = self.reach_own(wishes, false) {
            return Some(choice);
        }
        if self.take(TaskArc::Wide, false) {
            return None;
        }
        match self.find_machine(wishes, false) {
            Some(machine) => Some(Choice::On(machine)),
            None => Some(Choice::Wait),
        }
    }

    /// Chooses for the next task, whose unit is at the hub.
    fn choose_at_hub(&mut self, wishes: &Wishes) -> Choice
        requires ready { IsReadyFor self.old wishes.now }
        requires hub { flows (view self.old) (Wide (length (prefix self.old))) ≡ 1 }
        ensures goes_on { GoesOn self.old self.new 1 }
        ensures chosen { IsChosen (view self.new) (prefix self.new) result }
    {
        self.begin();
        if let Some(choice) = self.reach_own(wishes, true) {
            return choice;
        }
        // The hub sends some machine a unit that is not held, and each such machine can be reached.
        let Some(machine) = self.find_machine(wishes, true) else {
            unreachable!()
        };
        Choice::On(machine)
    }

    /// Fixes the next task's first choice that some least placement extends.
    fn choose(&mut self, wishes: &Wishes) -> Choice
        requires ready { IsReadyFor self.old wishes.now }
        ensures goes_on { GoesOn self.old self.new 2 }
        ensures chosen { IsChosen (view self.new) (prefix self.new) result }
    {
        if self.carries(TaskArc::Wide) {
            return self.choose_at_hub(wishes);
        }
        match self.choose_apart(wishes) {
            Some(choice) => choice,
            None => self.choose_at_hub(wishes),
        }
    }

    /// Chooses for the next task, and holds it to the choice.
    fn choose_next(&mut self)
        requires ready { IsReady self.old }
        requires next { length (prefix self.old) < length (view self.old).case.tasks }
        requires room { vec_len self.old.chosen.now < vec_capacity self.old.chosen.now }
        requires idle { self.old.searched ≡ true }
        ensures same { IsSameGraph self.old.graph.now self.new.graph.now }
        ensures graph { self.new.graph.ghost_name ≡ self.old.graph.ghost_name }
        ensures scratch { self.new.scratch.ghost_name ≡ self.old.scratch.ghost_name }
        ensures list { self.new.chosen.ghost_name ≡ self.old.chosen.ghost_name }
        ensures prices { self.new.prices ≡ self.old.prices }
        ensures searched { HasMadeUpTo self.old.scratch.now self.new.scratch.now 2
            (arena_arcs self.old.graph.now.rows) }
        ensures ready { IsReady self.new }
        ensures capacity { vec_capacity self.old.chosen.now ≤ vec_capacity self.new.chosen.now }
        ensures len { vec_len self.new.chosen.now ≡ vec_len self.old.chosen.now + 1 }
        ensures more { length (prefix self.new) ≡ length (prefix self.old) + 1 }
        ensures idle { self.new.searched ≡ true }
    {
        let wishes = wishes_of(self.graph, self.chosen.len());
        let choice = self.choose(&wishes);
        hold_choice(self.graph, self.prices, self.chosen, &wishes, choice);
        self.chosen.push_reserved(choice);
        self.searched = true;
    }

    /// Chooses for all tasks, one after another.
    pub(crate) fn choose_all(&mut self, tasks: usize)
        requires ready { IsReady self.old }
        requires tasks { tasks ≡ length (view self.old).case.tasks }
        requires none { vec_len self.old.chosen.now ≡ 0 }
        requires room { tasks ≤ vec_capacity self.old.chosen.now }
        requires idle { self.old.searched ≡ true }
        ensures same { IsSameGraph self.old.graph.now self.new.graph.now }
        ensures graph { self.new.graph.ghost_name ≡ self.old.graph.ghost_name }
        ensures scratch { self.new.scratch.ghost_name ≡ self.old.scratch.ghost_name }
        ensures list { self.new.chosen.ghost_name ≡ self.old.chosen.ghost_name }
        ensures searched { HasMadeUpTo self.old.scratch.now self.new.scratch.now (2 * tasks)
            (arena_arcs self.old.graph.now.rows) }
        ensures ready { IsReady self.new }
        ensures all { length (prefix self.new) ≡ tasks }
    {
        for task in 0..tasks {
            prove!(self.chosen.len() == task);
            self.choose_next();
        }
    }
}

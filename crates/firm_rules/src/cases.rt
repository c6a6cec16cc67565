//! What a round is about, in numbers: machines and jobs by their places, tasks by their numbers.
ghost use Rattle.std.specs.Prelude.{◌≡◌, ◌+◌, ◌-◌, ◌^◌, ◌<◌, ◌≤◌, true, ℕ, [], ◌∷◌, ◌++◌, length, map, remove, All};
ghost use Rattle.std.specs.Prelude.{IfSome, IfOk, OnOk, OnErr, slice_index, slice_set as set};
ghost use Rattle.std.specs.Prelude.{nat_le};
ghost use Rattle.std.specs.List.{list_all};
ghost use Rattle.std.specs.Option.{option_to_list};
ghost use Rattle.arrayvec.specs.ArrayVec.{array_vec_len};
ghost use Rattle.firm_rules.specs.Book.{opening_rows};
ghost use Rattle.firm_rules.specs.Placement.{is_legal, is_place, leaves, load, numbers, stays};
ghost use Rattle.firm_rules.specs.Placement.{task_at, home_choice, load_cost, placement_cost, rank, task_cost};
ghost use Rattle.firm_rules.specs.Placement.{total, IsPlace};
ghost use Rattle.firm_rules.specs.ChoiceCost.{churn_cost, remote_cost, wait_cost, wide_cost, near};
ghost use Rattle.firm_rules.specs.Round.{case_of, demand_of};
ghost use Rattle.firm_rules.specs.inner.Demands.{seen, Fits, placed, without_job_at, without_machine_at};

use crate::amounts::Slots;
use crate::bounds::Limits;
use crate::demands::{Demand, demand_of, is_remote, leave_job, leave_machine, runs_at};
use crate::placements::{MOST_MACHINES, cost_of_load, loads_of};
use crate::preferences::MOST_PREFERENCES;
use crate::rounds::Choice;
use crate::tables::Rows;
use arrayvec::ArrayVec;
use std::alloc::{AllocError, Allocator, Global};
use std::marker::Model;

/// A task has a machine of its own, and those that it prefers.
const MOST_NEAR: usize = MOST_PREFERENCES + 1;

/// What a round is about: the slots of each machine, what each task brings, and the tenant's costs.
#[derive(Drop)]
pub struct Case<A: Allocator = Global> {
    limits: Limits,
    jobs: usize,
    slots: Vec<u32, A>,
    demands: Vec<Demand, A>,
}

impl<A: Allocator> Model for Case<A> {
    ghost use Rattle.firm_rules.specs.Placement.{Case as RoundCase};

    ghost Value = { RoundCase };

    ghost use Rattle.firm_rules.specs.inner.Demands.{case_seen, CaseFits};

    ghost view = { λ c. case_seen c.limits c.jobs c.slots.items c.demands.items };

    ghost invariant = { λ c. CaseFits (case_seen c.limits c.jobs c.slots.items c.demands.items) };
}

impl<A: Allocator + Copy> Case<A> {
    /// What a round of no rows is about. It takes no memory.
    pub(crate) fn new(alloc: A, limits: Limits) -> Case<A>
        ensures { result ≡ case_of (opening_rows limits) }
    {
        Case {
            limits,
            jobs: 0,
            slots: Vec::new(alloc),
            demands: Vec::new(alloc),
        }
    }
}

impl<A: Allocator> Case<A> {
    /// How many machines there are.
    pub fn machine_count(&self) -> usize
        ensures count { result ≡ length self.now.slots }
        ensures few { result ≤ 4096 }
    {
        self.slots.len()
    }

    /// How many tasks there are.
    pub fn task_count(&self) -> usize
        ensures count { result ≡ length self.now.tasks }
        ensures few { result ≤ 4096 }
    {
        self.demands.len()
    }

    /// How many slots the machine at a place has.
    pub fn slots(&self, place: usize) -> u64
        requires { place < length self.now.slots }
        ensures slots { result ≡ slice_index self.now.slots place }
        ensures most { result ≤ 64 }
    {
        u64::from(self.slots[place])
    }

    /// How much more each further task on a machine costs than the one before.
    pub fn spread(&self) -> u64
        ensures spread { result ≡ self.now.spread }
        ensures most { result ≤ 1000 }
    {
        self.limits.spread()
    }

    /// Where the task of this number runs, as a choice; `Wait` if it waits.
    pub fn home(&self, task: usize) -> Choice
        requires { task < length self.now.tasks }
        ensures home { result ≡ home_choice (task_at self.now task).home }
        ensures place { IsPlace (length self.now.slots) result }
    {
        match self.demand(task).home {
            Some(place) => Choice::On(place),
            None => Choice::Wait,
        }
    }

    /// Whether the choice keeps the task of this number on the machine where it runs. Inlined, since a round calls it
    /// more than once for each task.
    #[inline(always)]
    pub fn stays(&self, task: usize, choice: Choice) -> bool
        requires { task < length self.now.tasks }
        ensures { result ≡ stays (task_at self.now task).home choice }
    {
        match choice {
            Choice::On(place) => runs_at(self.demand(task).home, place),
            Choice::Wait => false,
        }
    }

    /// The place of the job of the task of this number.
    pub fn job(&self, task: usize) -> u32
        requires { task < length self.now.tasks }
        ensures { result ≡ (task_at self.now task).job }
    {
        self.demand(task).job
    }

    /// What a choice costs the task of this number itself.
    pub fn cost_of_choice(&self, task: usize, choice: Choice) -> u64
        requires { task < length self.now.tasks }
        ensures cost { result ≡ task_cost self.now (task_at self.now task) choice }
        ensures most { result ≤ 2 ^ 22 }
    {
        self.rest_of(task, choice) + self.churn_of(task, choice)
    }

    /// Churn, if a choice takes the task of this number from its machine.
    pub fn churn_of(&self, task: usize, choice: Choice) -> u64
        requires { task < length self.now.tasks }
        ensures churn { result ≡ churn_cost self.now (task_at self.now task) choice }
        ensures most { result ≤ 2 ^ 21 }
    {
        let limits = self.limits();
        if leaves_home(self.demand(task).home, choice) {
            limits.churn()
        } else {
            0
        }
    }

    /// What a choice costs the task of this number apart from churn.
    pub fn rest_of(&self, task: usize, choice: Choice) -> u64
        requires { task < length self.now.tasks }
        ensures rest { result ≡ remote_cost self.now (task_at self.now task) choice
            + wait_cost (task_at self.now task) choice }
        ensures most { result ≤ 2 ^ 21 }
    {
        let limits = self.limits();
        let demand = self.demand(task);
        match choice {
            Choice::On(place) if is_remote(demand, place) => limits.remote(),
            Choice::On(_) => 0,
            Choice::Wait => demand.delay,
        }
    }

    /// Whether there is one choice for each task, each a machine or to wait, and no machine has more tasks than slots.
    pub fn is_legal(&self, placement: &[Choice]) -> bool
        ensures { result ≡ is_legal self.now placement.now }
    {
        placement.len() == self.task_count()
            && are_places(placement, self.machine_count())
            && self.has_room(placement)
    }

    /// Whether a placement is legal, and how many tasks it has on each machine if it is: one pass over the choices, for
    /// a caller that wants both. The counts go into the caller's array, which spares a copy; if the answer is false, it
    /// holds those up to the first choice that is not legal.
    pub fn counts_loads(&self, placement: &[Choice], loads: &mut [u8; MOST_MACHINES]) -> bool
        requires { (j : ℕ) → slice_index loads.old j ≡ 0 }
        ensures legal { result ≡ is_legal self.now placement.now }
        ensures loads { result ≡ true → (j : ℕ) → j < length self.now.slots
            → slice_index loads.new j ≡ load placement.now j }
    {
        if placement.len() != self.task_count() {
            return false;
        }
        let slots = self.all_slots();
        for choice in placement {
            if let Choice::On(place) = *choice {
                let at = place as usize;
                if at >= slots.len() || u32::from(loads[at]) >= slots[at] {
                    return false;
                }
                loads[at] += 1;
            }
        }
        true
    }

    /// What a placement of one choice for each task costs.
    pub fn cost_of(&self, placement: &[Choice]) -> u64
        requires { length placement.now ≡ length self.now.tasks }
        ensures cost { result ≡ placement_cost self.now placement.now }
        ensures most { result ≤ 2 ^ 46 }
    {
        let spread = self.spread();
        let machines = self.machine_count();
        let mut loads = [0u16; MOST_MACHINES];
        let mut cost = 0;
        for task in 0..self.task_count() {
            let choice = placement[task];
            cost += self.cost_of_choice(task, choice);
            if let Choice::On(place) = choice {
                let at = place as usize;
                if at < machines {
                    cost += spread * u64::from(loads[at]);
                    loads[at] += 1;
                }
            }
        }
        cost
    }

    /// What the loads of all machines cost. There is one choice for each task.
    pub fn cost_of_loads(&self, placement: &[Choice]) -> u64
        requires { length placement.now ≡ length self.now.tasks }
        ensures cost { result ≡ total (λ j. load_cost self.now.spread (load placement.now j)) (length self.now.slots) }
        ensures most { result ≤ 2 ^ 45 }
    {
        // No more tasks are counted than a tenant may have.
        prove!(self.task_count() <= 4_096);
        let spread = self.spread();
        let loads = loads_of(placement);
        let mut cost = 0;
        for place in 0..self.machine_count() {
            cost += cost_of_load(spread, u64::from(loads[place]));
        }
        cost
    }

    /// How the choice ranks for the task of this number: its own machine, the other machines as they stand, waiting.
    pub fn rank_of(&self, task: usize, choice: Choice) -> usize
        requires task { task < length self.now.tasks }
        requires choice { IsPlace (length self.now.slots) choice }
        ensures rank { result ≡ rank (length self.now.slots) (task_at self.now task).home choice }
        ensures most { result ≤ length self.now.slots + 1 }
    {
        match choice {
            Choice::On(place) if runs_at(self.demand(task).home, place) => 0,
            Choice::On(place) => place as usize + 1,
            Choice::Wait => self.machine_count() + 1,
        }
    }

    // Whether no machine has more tasks than slots.
    fn has_room(&self, placement: &[Choice]) -> bool
        requires { length placement.now ≤ 4096 }
        ensures { result ≡ list_all (λ j. nat_le (load placement.now j) (slice_index self.now.slots j))
            (numbers (length self.now.slots)) }
    {
        let loads = loads_of(placement);
        let mut has_room = true;
        for place in 0..self.machine_count() {
            has_room = has_room && u64::from(loads[place]) <= self.slots(place);
        }
        has_room
    }

    /// What a machine that is neither its own nor preferred costs the task of this number: no machine costs it more.
    pub fn wide_cost(&self, task: usize) -> u64
        requires { task < length self.now.tasks }
        ensures cost { result ≡ wide_cost self.now (task_at self.now task) }
        ensures most { result ≤ 2 ^ 22 }
    {
        let limits = self.limits();
        let demand = self.demand(task);
        let churn = if demand.home.is_some() {
            limits.churn()
        } else {
            0
        };
        let remote = if demand.preferred.is_empty() {
            0
        } else {
            limits.remote()
        };
        churn + remote
    }

    /// The machines that may cost the task of this number less than the others: its own, then those it prefers; its own
    /// may be among these too.
    pub fn near(&self, task: usize) -> ArrayVec<u32, MOST_NEAR>
        requires { task < length self.now.tasks }
        ensures places { result.items ≡ near (task_at self.now task) }
        ensures below { All (λ place. place < length self.now.slots) result.items }
    {
        let demand = self.demand(task);
        let mut near = own_place(demand.home);
        for place in demand.preferred.as_slice() {
            near.push(*place);
        }
        near
    }

    /// The machines that the task of this number prefers. Inlined, since a round calls it once or more for each task.
    #[inline(always)]
    pub fn preferred(&self, task: usize) -> &[u32]
        requires { task < length self.now.tasks }
        ensures places { result.now ≡ (task_at self.now task).preferred }
        ensures below { All (λ place. place < length self.now.slots) result.now }
        ensures few { length result.now ≤ 4 }
    {
        self.demand(task).preferred.as_slice()
    }

    // How many slots each machine has.
    fn all_slots(&self) -> &[u32]
        ensures slots { result.now ≡ self.now.slots }
        ensures few { length result.now ≤ 4096 }
        ensures most { All (λ slots. slots ≤ 64) result.now }
    {
        self.slots.as_slice()
    }

    fn limits(&self) -> Limits
        ensures churn { result.churn ≡ self.now.churn }
        ensures remote { result.remote ≡ self.now.remote }
    {
        self.limits
    }

    fn demand(&self, task: usize) -> &Demand
        requires { task < length self.now.tasks }
        ensures seen { seen result.now ≡ task_at self.now task }
        ensures fits { Fits (length self.now.slots) (seen result.now) }
    {
        &self.demands[task]
    }

    /// Adds a machine of this number of slots last. The error comes only where memory is refused, and changes nothing.
    pub(crate) fn add_machine(&mut self, slots: Slots) -> Result<(), AllocError>
        requires { length self.old.slots < 4096 }
        ensures ok { OnOk result (self.new ≡ record self.old { slots = self.old.slots ++ slots ∷ [] }) }
        ensures err { OnErr result (self.new ≡ self.old) }
    {
        self.slots.push(slots.get())?;
        Ok(())
    }

    /// Adds a job last.
    pub(crate) fn add_job(&mut self)
        requires { self.old.jobs < 4096 }
        ensures { self.new ≡ record self.old { jobs = self.old.jobs + 1 } }
    {
        self.jobs += 1;
    }

    /// Adds a task last. The error comes only where memory is refused, and changes nothing.
    pub(crate) fn add_task(&mut self, demand: Demand) -> Result<(), AllocError>
        requires room { length self.old.tasks < 4096 }
        requires fits { Fits (length self.old.slots) (seen demand) }
        ensures ok { OnOk result (self.new ≡ record self.old { tasks = self.old.tasks ++ seen demand ∷ [] }) }
        ensures err { OnErr result (self.new ≡ self.old) }
    {
        self.demands.push(demand)?;
        Ok(())
    }

    /// Removes the machine at a place: the tasks that ran there wait, and none prefers it any longer.
    pub(crate) fn drop_machine(&mut self, place: usize)
        requires { place < length self.old.slots }
        ensures { self.new ≡ record self.old {
          slots = remove self.old.slots place;
          tasks = map (without_machine_at place) self.old.tasks;
        } }
    {
        leave_machine(&mut self.demands, place as u32);
        self.slots.remove(place);
    }

    /// Removes the job at a place, which has no tasks.
    pub(crate) fn drop_job(&mut self, place: usize)
        requires there { place < self.old.jobs }
        requires few { self.old.jobs ≤ 4096 }
        ensures { self.new ≡ record self.old {
          jobs = self.old.jobs - 1;
          tasks = map (without_job_at place) self.old.tasks;
        } }
    {
        self.jobs -= 1;
        leave_job(&mut self.demands, place as u32);
    }

    /// Removes the task of this number.
    pub(crate) fn drop_task(&mut self, task: usize)
        requires { task < length self.old.tasks }
        ensures { self.new ≡ record self.old { tasks = remove self.old.tasks task } }
    {
        self.demands.remove(task);
    }

    /// Puts the task of this number on the machine at a place, or lets it wait, with this delay.
    pub(crate) fn place(&mut self, task: usize, home: Option<u32>, delay: u64)
        requires there { task < length self.old.tasks }
        requires home { IfSome home (λ place. place < length self.old.slots) }
        requires delay { delay ≤ 2000000 }
        ensures { self.new ≡ record self.old {
          tasks = set self.old.tasks task
              (placed home delay (task_at self.old task));
        } }
    {
        let demand = &mut self.demands[task];
        demand.home = home;
        demand.delay = delay;
    }
}

// Whether each choice is one of this number of machines or to wait.
fn are_places(placement: &[Choice], machines: usize) -> bool
    ensures { result ≡ list_all (is_place machines) placement.now }
{
    placement.iter().all(|choice| match choice {
        Choice::On(place) => (*place as usize) < machines,
        Choice::Wait => true,
    })
}

// A list of the place of the machine that a task runs on, if it runs.
fn own_place(home: Option<u32>) -> ArrayVec<u32, MOST_NEAR>
    ensures items { result.items ≡ option_to_list home }
    ensures few { array_vec_len result ≤ 1 }
    ensures count { array_vec_len result ≡ length (option_to_list home) }
    ensures below { (machines : ℕ) → IfSome home (λ place. place < machines)
        → All (λ place. place < machines) result.items }
{
    let mut own = ArrayVec::new();
    if let Some(place) = home {
        own.push(place);
    }
    own
}

// Whether the choice takes a task that runs at `home`, if it runs, from its machine.
fn leaves_home(home: Option<u32>, choice: Choice) -> bool
    ensures { result ≡ leaves home choice }
{
    match (home, choice) {
        (None, _) => false,
        (Some(own), Choice::On(place)) => own != place,
        (Some(_), Choice::Wait) => true,
    }
}

impl Case {
    /// What a round of these rows is about, by their names, each looked up again: what `Rows::case` keeps, for a caller
    /// that outlives the rows. Fails only if memory is refused.
    pub fn of(alloc: Global, rows: &Rows) -> Result<Case, AllocError>
        ensures { IfOk result (λ case. case ≡ case_of rows.now) }
    {
        let slots = slot_counts(alloc, rows)?;
        let demands = demands_of(alloc, rows)?;
        Ok(Case {
            limits: rows.limits(),
            jobs: rows.job_count(),
            slots,
            demands,
        })
    }
}

// How many slots each machine has.
fn slot_counts(alloc: Global, rows: &Rows) -> Result<Vec<u32>, AllocError>
    ensures slots { IfOk result (λ slots. slots.items ≡ map (λ machine. machine.slots) rows.now.machines) }
    ensures most { IfOk result (λ slots. All (λ n. n ≤ 64) slots.items) }
{
    let mut slots = Vec::with_capacity(alloc, rows.machine_count())?;
    for place in 0..rows.machine_count() {
        let Some(machine) = rows.machine_at(place) else {
            unreachable!()
        };
        slots.push(machine.slots.get())?;
    }
    Ok(slots)
}

// What each task brings to a round.
fn demands_of(alloc: Global, rows: &Rows) -> Result<Vec<Demand>, AllocError>
    ensures seen { IfOk result (λ demands. map seen demands.items ≡ map (demand_of rows.now) rows.now.tasks) }
    ensures fit { IfOk result (λ demands. All (Fits (length rows.now.machines)) (map seen demands.items)) }
{
    rows.limits();
    let mut demands = Vec::with_capacity(alloc, rows.task_count())?;
    for number in 0..rows.task_count() {
        demands.push(demand_of(rows, rows.task_row(number)))?;
    }
    Ok(demands)
}

//! The pool of a tenant: its graph, the costs of its rounds, and the effect of each command on them.
ghost use Rattle.std.specs.Prelude.{◌≡◌, ◌+◌, ◌^◌, ◌<◌, ◌≤◌, ℕ, true, All, IfOk, MatchResult, length};
ghost use Rattle.firm_rules.specs.Placement.{is_legal};
ghost use Rattle.firm_rules.specs.Round.{case_of, round_placement};
ghost use Rattle.firm_rules.specs.SoundBook.{is_cost};
ghost use Rattle.firm_tenant.specs.Counts.{HasCountedWithin};
ghost use Rattle.firm_tenant.specs.Step.{effect, counts_of, is_memory_outcome};
ghost use Rattle.firm_tenant.specs.inner.Outcomes.{outcome_of, plain_or};
ghost use Rattle.firm_tenant.specs.inner.Pools.{book_of, IsMadeFor, IsOpeningPool, IsPoolOf, IsSoundPool, placed_in};
ghost use Rattle.firm_tenant.specs.inner.Pools.{HasBegunOnce, HasCountedFor, HasCountedNothing, allowing};

use crate::proposals::Proposals;
use circular_buffer::HeapCircularBuffer;
use firm_canon::first_best;
use firm_graph::{Graph, GraphRefusal};
use firm_paths::{Prices, Scratch};
use firm_rules::{
    Book, Choice, Command, Limits, MOST_COSTS, Name, NewTask, Outcome, Preferred, RecentCosts,
    Refusal, Rows, Slots, Weight, changes_of, cost_of, legality_is_judged, the_round_is_the_first,
    use_of,
};
use std::alloc::{AllocError, Global};
use std::marker::Model;

/// The rows of a tenant with their net, what proposes and what searches its rounds, and the costs of the last ones.
#[derive(Drop)]
pub(crate) struct Pool {
    graph: Graph,
    proposals: Proposals,
    prices: Prices,
    scratch: Scratch,
    costs: HeapCircularBuffer<i64>,
}

impl Model for Pool {
    ghost use Rattle.std.specs.Prelude.{◌≡◌, ◌^◌, ◌≤◌, true, All};
    ghost use Rattle.firm_rules.specs.SoundBook.{is_cost};
    ghost use Rattle.firm_tenant.specs.inner.Pools.{Pool as PoolRows, IsMadeFor};

    ghost Value = { PoolRows };

    ghost view = { λ p. record {
      rows = p.graph.rows;
      costs = p.costs.items;
      asked = p.graph.asked;
      workspace = record {
        net = p.scratch;
        proposed = record {
          tries = p.proposals.proposer.value.tries;
          looks = p.proposals.work.looks;
          allowed = p.proposals.allowed;
        };
      };
    } };

    ghost invariant = { λ p. (p.costs.capacity ≡ 8) × IsMadeFor p.prices.limits p.graph.rows.limits
        × IsMadeFor p.scratch.limits p.graph.rows.limits × All (λ cost. is_cost cost ≡ true) p.costs.items
        × (p.proposals.work.looks ≤ 2 ^ 26) × (p.proposals.allowed ≤ 2 ^ 26) };
}

impl Pool {
    /// The empty pool of a new tenant, with all the memory of its net and proposals. Fails only if memory is refused.
    pub(crate) fn open(alloc: Global, limits: Limits) -> Result<Pool, AllocError>
        ensures pool { IfOk result (IsOpeningPool limits) }
        ensures counted { IfOk result (λ pool. HasCountedWithin (book_of pool 0) pool.workspace.net) }
    {
        let costs = HeapCircularBuffer::with_capacity(alloc, MOST_COSTS)?;
        let graph = Graph::open(alloc, limits)?;
        Pool::of_graph(alloc, graph, costs)
    }

    /// The pool of a book, with all the memory of its net and proposals. Fails only if memory is refused.
    pub(crate) fn restore(alloc: Global, book: &Book) -> Result<Pool, AllocError>
        ensures pool { IfOk result (IsPoolOf book.now) }
        ensures counts { IfOk result (λ pool. HasCountedNothing pool.workspace) }
    {
        let costs = ring_of(alloc, book.costs())?;
        let graph = Graph::of_rows(alloc, book.rows())?;
        Pool::of_graph(alloc, graph, costs)
    }

    // The pool of a graph, with these costs. Fails only if memory is refused.
    fn of_graph(
        alloc: Global,
        graph: Graph,
        costs: HeapCircularBuffer<i64>,
    ) -> Result<Pool, AllocError>
        requires capacity { costs.capacity ≡ 8 }
        requires costs { All (λ cost. is_cost cost ≡ true) costs.items }
        ensures rows { IfOk result (λ pool. pool.rows ≡ graph.rows) }
        ensures costs { IfOk result (λ pool. pool.costs ≡ costs.items) }
        ensures asked { IfOk result (λ pool. pool.asked ≡ graph.asked) }
        ensures counts { IfOk result (λ pool. HasCountedNothing pool.workspace) }
    {
        let (proposals, prices, scratch) = workspace(alloc, &graph)?;
        Ok(Pool {
            graph,
            proposals,
            prices,
            scratch,
            costs,
        })
    }

    /// Number of costs recorded, 8 at most.
    pub(crate) fn cost_count(&self) -> usize
        ensures value { result ≡ length self.now.costs }
        ensures sound { IsSoundPool self.now }
    {
        self.graph.rows().limits();
        self.costs.len()
    }

    /// The machines, jobs and tasks.
    pub(crate) fn rows(&self) -> &Rows
        ensures { result.now ≡ self.now.rows }
    {
        self.graph.rows()
    }

    /// The workspace of the searches of rounds.
    pub(crate) fn scratch(&self) -> &Scratch
        ensures counts { result.now ≡ self.now.workspace.net }
        ensures limits { result.now.limits ≡ (self.now.rows.limits.nodes, self.now.rows.limits.arcs) }
    {
        &self.scratch
    }

    /// Number of looks that the last round's proposal and its check took.
    pub(crate) fn proposed(&self) -> u64
        ensures looks { result ≡ self.now.workspace.proposed.looks }
        ensures most { result ≤ 2 ^ 26 }
    {
        self.proposals.looks()
    }

    /// Sets how many looks a round's proposal and its check may take, at most 2^26.
    pub(crate) fn allow_proposals(&mut self, looks: u64)
        ensures { self.new ≡ record self.old { workspace = allowing self.old.workspace looks } }
    {
        self.proposals.allow(looks);
    }

    /// Carries out a command that is already counted, and returns its outcome.
    pub(crate) fn answer(&mut self, alloc: Global, command: Command) -> Outcome
        requires asked { self.old.asked < 2 ^ 40 }
        ensures effect { (given : ℕ) → (result, book_of self.new given)
            ≡ effect (book_of self.old given) command (is_memory_outcome result) }
        ensures asked { self.new.asked ≤ self.old.asked + 1 }
        ensures counts { HasCountedFor command self.old self.new }
    {
        match self.obey(alloc, command) {
            Ok(outcome) => outcome,
            Err(refusal) => Outcome::Refused(refusal),
        }
    }

    fn obey(&mut self, alloc: Global, command: Command) -> Result<Outcome, Refusal>
        requires asked { self.old.asked < 2 ^ 40 }
        ensures effect { (given : ℕ) → (outcome_of result, book_of self.new given)
            ≡ effect (book_of self.old given) command (is_memory_outcome (outcome_of result)) }
        ensures asked { self.new.asked ≤ self.old.asked + 1 }
        ensures counts { HasCountedFor command self.old self.new }
    {
        match command {
            Command::AddMachine(name, slots) => self.add_machine(alloc, name, slots),
            Command::AddJob(name, weight) => self.add_job(name, weight),
            Command::AddTask(job, name, preferred) => self.add_task(job, name, preferred),
            Command::Drain(name) => self.drain(name),
            Command::CloseJob(name) => self.close_job(name),
            Command::Done(name) => self.remove_task(name),
            Command::Find(name) => self.find(name),
            Command::Show => Ok(self.counts()),
            Command::Costs => Ok(Outcome::Costs(self.recent_costs())),
            Command::Round => self.round(alloc),
            Command::Faulty(fault) => Err(fault.into()),
        }
    }

    fn add_machine(&mut self, alloc: Global, name: Name, slots: Slots) -> Result<Outcome, Refusal>
        requires asked { self.old.asked < 2 ^ 40 }
        ensures effect { (given : ℕ) → (outcome_of result, book_of self.new given)
            ≡ effect (book_of self.old given) (Command.AddMachine name slots) (is_memory_outcome (outcome_of result)) }
        ensures asked { self.new.asked ≤ self.old.asked + 1 }
        ensures counts { self.new.workspace ≡ self.old.workspace }
    {
        if self.graph.rows().has_machine(name) {
            return Err(Refusal::MachineExists);
        }
        grown(self.graph.add_machine(alloc, name, slots))
    }

    fn add_job(&mut self, name: Name, weight: Weight) -> Result<Outcome, Refusal>
        requires asked { self.old.asked < 2 ^ 40 }
        ensures effect { (given : ℕ) → (outcome_of result, book_of self.new given)
            ≡ effect (book_of self.old given) (Command.AddJob name weight) (is_memory_outcome (outcome_of result)) }
        ensures asked { self.new.asked ≤ self.old.asked + 1 }
        ensures counts { self.new.workspace ≡ self.old.workspace }
    {
        if self.graph.rows().has_job(name) {
            return Err(Refusal::JobExists);
        }
        grown(self.graph.add_job(name, weight))
    }

    fn add_task(&mut self, job: Name, name: Name, preferred: Preferred) -> Result<Outcome, Refusal>
        requires asked { self.old.asked < 2 ^ 40 }
        ensures effect { (given : ℕ) → (outcome_of result, book_of self.new given)
            ≡ effect (book_of self.old given) (Command.AddTask job name preferred)
            (is_memory_outcome (outcome_of result)) }
        ensures asked { self.new.asked ≤ self.old.asked + 1 }
        ensures counts { self.new.workspace ≡ self.old.workspace }
    {
        let rows = self.graph.rows();
        let Some(machines) = rows.machine_places(preferred.as_slice()) else {
            return Err(Refusal::NoSuchMachine);
        };
        let Some(owner) = rows.job_place(job) else {
            return Err(Refusal::NoSuchJob);
        };
        if rows.has_task(name) {
            return Err(Refusal::TaskExists);
        }
        grown(
            self.graph.add_new_task(&NewTask {
                name,
                job,
                preferred,
                owner,
                machines,
            }),
        )
    }

    fn drain(&mut self, name: Name) -> Result<Outcome, Refusal>
        ensures effect { (given : ℕ) → (outcome_of result, book_of self.new given)
            ≡ effect (book_of self.old given) (Command.Drain name) (is_memory_outcome (outcome_of result)) }
        ensures asked { self.new.asked ≡ self.old.asked }
        ensures counts { self.new.workspace ≡ self.old.workspace }
    {
        let Some(place) = self.graph.rows().machine_place(name) else {
            return Err(Refusal::NoSuchMachine);
        };
        Ok(Outcome::Evicted(self.graph.drop_found_machine(name, place)))
    }

    fn close_job(&mut self, name: Name) -> Result<Outcome, Refusal>
        ensures effect { (given : ℕ) → (outcome_of result, book_of self.new given)
            ≡ effect (book_of self.old given) (Command.CloseJob name) (is_memory_outcome (outcome_of result)) }
        ensures asked { self.new.asked ≡ self.old.asked }
        ensures counts { self.new.workspace ≡ self.old.workspace }
    {
        let Some(place) = self.graph.rows().job_place(name) else {
            return Err(Refusal::NoSuchJob);
        };
        if self.graph.rows().has_tasks(name) {
            return Err(Refusal::JobHasTasks);
        }
        self.graph.drop_found_job(name, place);
        Ok(Outcome::Plain)
    }

    fn remove_task(&mut self, name: Name) -> Result<Outcome, Refusal>
        ensures effect { (given : ℕ) → (outcome_of result, book_of self.new given)
            ≡ effect (book_of self.old given) (Command.Done name) (is_memory_outcome (outcome_of result)) }
        ensures asked { self.new.asked ≡ self.old.asked }
        ensures counts { self.new.workspace ≡ self.old.workspace }
    {
        let Some(place) = self.graph.rows().task_place(name) else {
            return Err(Refusal::NoSuchTask);
        };
        self.graph.drop_found_task(name, place);
        Ok(Outcome::Plain)
    }

    // The machine of a task, or the number of rounds that it has waited.
    fn find(&self, name: Name) -> Result<Outcome, Refusal>
        ensures effect { (given : ℕ) → (outcome_of result, book_of self.now given)
            ≡ effect (book_of self.now given) (Command.Find name) (is_memory_outcome (outcome_of result)) }
    {
        let Some(task) = self.graph.rows().task_named(name) else {
            return Err(Refusal::NoSuchTask);
        };
        match task.machine {
            Some(machine) => Ok(Outcome::At(machine)),
            None => Ok(Outcome::Waits(task.waited)),
        }
    }

    // Places the tasks anew: the first of the least placements becomes the tenant's own. Not inlined, so that other
    // commands do not pay for its locals.
    #[inline(never)]
    fn round(&mut self, alloc: Global) -> Result<Outcome, Refusal>
        ensures effect { (given : ℕ) → (outcome_of result, book_of self.new given)
            ≡ effect (book_of self.old given) Command.Round (is_memory_outcome (outcome_of result)) }
        ensures asked { self.new.asked ≡ self.old.asked }
        ensures counts { HasBegunOnce self.old self.new }
    {
        let placement = self.choose(alloc)?;
        Ok(self.place(alloc, &placement)?)
    }

    // The placement of the round: the one that is proposed, if it is shown to be the round's, else the one that is
    // searched for in the net. Afterwards the workspace counts what this took, and all else is unchanged but the net's
    // flow.
    fn choose(&mut self, alloc: Global) -> Result<Vec<Choice>, AllocError>
        ensures same { self.new ≡ record self.old { workspace = self.new.workspace } }
        ensures counts { HasBegunOnce self.old self.new }
        ensures round { IfOk result (λ placement. placement.items ≡ round_placement (case_of self.old.rows)) }
        ensures legal { IfOk result (λ placement. is_legal (case_of self.old.rows) placement.items ≡ true) }
    {
        the_round_is_the_first();
        legality_is_judged();
        self.graph.asked();
        self.scratch.begin();
        let case = self.graph.rows().case();
        if let Some(placement) = self.proposals.first(alloc, case)? {
            return Ok(placement);
        }
        first_best(alloc, &mut self.graph, &mut self.prices, &mut self.scratch)
    }

    // Makes a legal placement the tenant's own. The list of changes gets its memory before anything changes.
    fn place(&mut self, alloc: Global, placement: &[Choice]) -> Result<Outcome, AllocError>
        requires legal { is_legal (case_of self.old.rows) placement.now ≡ true }
        ensures { MatchResult result (λ outcome. (outcome, self.new) ≡ placed_in self.old placement.now)
            (λ _. self.new ≡ self.old) }
    {
        let cost = cost_of(self.graph.rows(), placement);
        let changes = changes_of(alloc, self.graph.rows(), placement)?;
        self.graph.settle(placement);
        self.costs.push_back(cost);
        Ok(Outcome::Round { cost, changes })
    }

    /// The costs of the last rounds.
    pub(crate) fn recent_costs(&self) -> RecentCosts
        ensures { result ≡ self.now.costs }
    {
        // The ring holds no more than the table, so no cost is dropped.
        prove!(self.costs.len() <= MOST_COSTS);
        let mut recent = RecentCosts::new();
        for cost in self.costs.iter() {
            recent.push(*cost);
        }
        recent
    }

    fn counts(&self) -> Outcome
        ensures { result ≡ counts_of self.now.rows }
    {
        let rows = self.graph.rows();
        let limits = rows.limits();
        let used = use_of(rows);
        Outcome::Shown {
            machines: rows.machine_count() as u64,
            jobs: rows.job_count() as u64,
            tasks: rows.task_count() as u64,
            running: rows.running(),
            nodes: used.nodes,
            nodes_limit: limits.nodes(),
            arcs: used.arcs,
            arcs_limit: limits.arcs(),
        }
    }
}

// A ring that holds these costs.
fn ring_of(alloc: Global, costs: RecentCosts) -> Result<HeapCircularBuffer<i64>, AllocError>
    ensures items { IfOk result (λ ring. ring.items ≡ costs) }
    ensures capacity { IfOk result (λ ring. ring.capacity ≡ 8) }
{
    let mut ring = HeapCircularBuffer::with_capacity(alloc, MOST_COSTS)?;
    ring.extend_from_slice(costs.as_slice());
    Ok(ring)
}

// Workspaces of the proposer and of the search for the rounds of a graph.
fn workspace(alloc: Global, graph: &Graph) -> Result<(Proposals, Prices, Scratch), AllocError>
    ensures prices { IfOk result (λ made. IsMadeFor made.1.limits graph.now.rows.limits) }
    ensures scratch { IfOk result (λ made. IsMadeFor made.2.limits graph.now.rows.limits) }
    ensures counts { IfOk result (λ made. (made.2.begins ≡ 0) × (made.2.searches ≡ 0) × (made.2.looks ≡ 0)) }
    ensures proposals { IfOk result (λ made. (made.0.proposer.value.tries ≡ 0) × (made.0.work.looks ≡ 0)
        × (made.0.allowed ≡ 2 ^ 26)) }
{
    let proposals = Proposals::open(alloc, graph.rows().limits())?;
    let prices = Prices::new(alloc, graph.net())?;
    let scratch = Scratch::new(alloc, graph.net())?;
    Ok((proposals, prices, scratch))
}

// The outcome of adding a row.
fn grown(done: Result<(), GraphRefusal>) -> Result<Outcome, Refusal>
    ensures { outcome_of result ≡ plain_or done }
{
    match done {
        Ok(()) => Ok(Outcome::Plain),
        Err(GraphRefusal::Nodes) => Err(Refusal::ArenaNodes),
        Err(GraphRefusal::Arcs) => Err(Refusal::ArenaArcs),
        Err(GraphRefusal::Memory) => Err(Refusal::Memory),
    }
}

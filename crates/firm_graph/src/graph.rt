//! The network of a tenant.
ghost use Rattle.std.specs.Prelude.{◌≡◌, ◌≢◌, ◌+◌, ◌^◌, ◌<◌, ◌≤◌, ◌↔◌, false, true, IfOk, OnOk, OnErr, IsTrue, ℕ};
ghost use Rattle.std.specs.Prelude.{IfSome, IfNone, Some, bytes_eq, position};
ghost use Rattle.std.specs.Prelude.{length, map, pos, slice_index_or};
ghost use Rattle.std.specs.List.{All};
ghost use Rattle.firm_net.specs.Net.{CountsAre, arc_count, without_flow, CanPush, SameOtherRows, row_at, with_row};
ghost use Rattle.firm_net.specs.Net.{with_unit};
ghost use Rattle.firm_paths.specs.Network.{AreValid};
ghost use Rattle.firm_paths.specs.NetArcs.{arcs_of, limits_of};
ghost use Rattle.firm_paths.specs.PriceTable.{price_of};
ghost use Rattle.firm_paths.specs.Workspace.{HasSearched};
ghost use Rattle.firm_flow.specs.NetFlow.{SameButFlow, IsLeastFlow};
ghost use Rattle.firm_flow.specs.Flow.{cost_of, carried};
ghost use Rattle.firm_rules.specs.Book.{opening_rows, machine_names, job_names, task_names, with_machine, with_job};
ghost use Rattle.firm_rules.specs.Book.{with_task, without_machine, without_job, without_task, running_on, has_tasks};
ghost use Rattle.firm_rules.specs.Book.{with_task_placed};
ghost use Rattle.firm_rules.specs.Sound.{HasRoom};
ghost use Rattle.firm_rules.specs.Names.{is_among};
ghost use Rattle.firm_rules.specs.ArenaUse.{arena_nodes, arena_arcs};
ghost use Rattle.firm_rules.specs.Placement.{is_legal};
ghost use Rattle.firm_rules.specs.Round.{case_of, rows_after, IsFound};
ghost use Rattle.firm_graph.specs.Graph.{IsGraph, LackNodes, LackArcs};
ghost use Rattle.firm_graph.specs.Ids.{view_of};
ghost use Rattle.firm_graph.specs.Network.{task_nodes, demand};
ghost use Rattle.firm_graph.specs.View.{Shows, IsAtRest, IsSameCase, CanHold, with_low, spot_of};
ghost use Rattle.firm_graph.specs.declared.network.Node.TheVariants.{Sink, Hub, Machine};
ghost use Rattle.firm_graph.specs.declared.network.Key.TheVariants.{Through, Wide, Stay, Wait, Prefer};

use crate::edits::{
    SlotArcs, away_cost, drop_node, link, link_preferred, link_slots, push_reserved, push_task,
    put_node, unlink, unlink_preferred, unlink_slots,
};
use crate::growth::{grow_jobs, grow_machines, grow_tasks};
use crate::ids::{GraphRefusal, JobParts, MachineIds, Stand, TaskArcs, TaskParts, find_machine};
use crate::moves::{Heads, evict_tasks, forget_machine, home_of, place_task, settle_tasks};
use firm_flow::solve;
use firm_net::{ArcId, Net, NodeId, Way};
use firm_paths::{Prices, Scratch};
use firm_rules::{
    Choice, Limits, Name, NewTask, Preferred, Rows, Slots, Weight, legality_is_judged,
};
use firm_sequence::Sequence;
use std::alloc::{AllocError, Global};
use std::marker::Model;

/// The rows of a tenant, and a net that is kept equal to the network that they make.
pub struct Graph {
    rows: Rows,
    net: Net,
    hub: NodeId,
    sink: NodeId,
    machines: Vec<MachineIds>,
    jobs: Vec<JobParts>,
    tasks: Sequence<TaskParts>,
    sources: Vec<NodeId>,
    asked: u64,
}

impl Drop for Graph {
    // Written out so that who drops a graph proves one call, and not all that it owns.
    fn drop(self) {
        let Self {
            rows,
            net,
            hub: _,
            sink: _,
            machines,
            jobs,
            tasks,
            sources,
            asked: _,
        } = self;
        drop(rows);
        drop(net);
        drop(machines);
        drop(jobs);
        drop(tasks);
        drop(sources);
    }
}

impl Model for Graph {
    ghost use Rattle.firm_graph.specs.Graph.{Graph as Network};

    ghost Value = { Network };

    ghost use Rattle.firm_graph.specs.inner.Inside.{graph_of, IsKept};

    ghost view = { graph_of };

    ghost invariant = { IsKept };
}

impl Graph {
    /// The graph of a tenant that has nothing yet. The error comes for lack of memory alone.
    pub fn open(alloc: Global, limits: Limits) -> Result<Graph, AllocError>
        ensures rows { IfOk result (λ graph. graph.rows ≡ opening_rows limits) }
        ensures asked { IfOk result (λ graph. graph.asked ≡ 0) }
        ensures graph { IfOk result (λ graph. IsGraph graph) }
    {
        let mut net = Net::new(alloc, limits.nodes() as u32, limits.arcs() as u32)?;
        let hub = put_node(&mut net);
        let sink = put_node(&mut net);
        Ok(Graph {
            rows: Rows::new(alloc, limits),
            net,
            hub,
            sink,
            machines: Vec::new(alloc),
            jobs: Vec::new(alloc),
            tasks: Sequence::new(alloc),
            sources: Vec::new(alloc),
            asked: 0,
        })
    }

    /// How many rows were added.
    pub fn asked(&self) -> u64
        ensures value { result ≡ self.now.asked }
        ensures graph { IsGraph self.now }
    {
        self.asked
    }

    /// The rows of the tenant.
    pub fn rows(&self) -> &Rows
        ensures value { result.now ≡ self.now.rows }
        ensures graph { IsGraph self.now }
    {
        &self.rows
    }

    /// The net. It shows the network of the rows, and has as many nodes and arcs as they take.
    pub fn net(&self) -> &Net
        ensures value { result.now ≡ self.now.net }
        ensures graph { IsGraph self.now }
        ensures counts { CountsAre self.now.net (arena_nodes self.now.rows) (arena_arcs self.now.rows) }
        ensures shows { Shows (view_of self.now) }
    {
        &self.net
    }

    /// Adds a job last. `Nodes` exactly where its node does not fit the limits, else `Arcs` exactly where its arc does
    /// not, else `Memory` only where memory is refused. A refusal changes nothing.
    pub fn add_job(&mut self, name: Name, weight: Weight) -> Result<(), GraphRefusal>
        requires new_name { is_among (job_names self.old.rows) name ≡ false }
        requires asked { self.old.asked < 2 ^ 40 }
        ensures ok { OnOk result (self.new.rows ≡ with_job self.old.rows name weight) }
        ensures counted { OnOk result (self.new.asked ≡ self.old.asked + 1) }
        ensures nodes { (result ≡ Err GraphRefusal.Nodes) ↔ LackNodes (with_job self.old.rows name weight) }
        ensures arcs { (result ≡ Err GraphRefusal.Arcs) ↔ LackArcs (with_job self.old.rows name weight) }
        ensures unchanged { OnErr result (self.new ≡ self.old) }
        ensures graph { IsGraph self.new }
    {
        self.find_room(1, 1)?;
        let limits = self.rows.limits();
        let Ok(()) = grow_jobs(&mut self.jobs, &mut self.rows, name, weight) else {
            return Err(GraphRefusal::Memory);
        };
        let node = put_node(&mut self.net);
        let exit = link(&mut self.net, node, self.sink, limits.nodes() as u32, 0);
        push_reserved(&mut self.jobs, JobParts { node, exit });
        self.asked += 1;
        Ok(())
    }

    /// Adds a waiting task of the job last, with the machines that it prefers. `Nodes` exactly where its node does not
    /// fit the limits, else `Arcs` exactly where its arcs do not, three and one for each preference, else `Memory` only
    /// where memory is refused. A refusal changes nothing.
    pub fn add_task(
        &mut self,
        job: Name,
        name: Name,
        preferred: Preferred,
    ) -> Result<(), GraphRefusal>
        requires job_there { is_among (job_names self.old.rows) job ≡ true }
        requires new_name { is_among (task_names self.old.rows) name ≡ false }
        requires machines_there { All (λ machine. is_among (machine_names self.old.rows) machine ≡ true) preferred }
        requires asked { self.old.asked < 2 ^ 40 }
        ensures ok { OnOk result (self.new.rows ≡ with_task self.old.rows job name preferred) }
        ensures counted { OnOk result (self.new.asked ≡ self.old.asked + 1) }
        ensures nodes { (result ≡ Err GraphRefusal.Nodes) ↔ LackNodes (with_task self.old.rows job name preferred) }
        ensures arcs { (result ≡ Err GraphRefusal.Arcs) ↔ LackArcs (with_task self.old.rows job name preferred) }
        ensures unchanged { OnErr result (self.new ≡ self.old) }
        ensures graph { IsGraph self.new }
    {
        let Some(owner) = self.rows.job_place(job) else {
            unreachable!()
        };
        let Some(machines) = self.rows.machine_places(preferred.as_slice()) else {
            unreachable!()
        };
        self.add_new_task(&NewTask {
            name,
            job,
            preferred,
            owner,
            machines,
        })
    }

    /// Adds a waiting task last, as `add_task`, without looking up its job and machines.
    pub fn add_new_task(&mut self, task: &NewTask) -> Result<(), GraphRefusal>
        requires found { IsFound self.old.rows task.now }
        requires job_there { is_among (job_names self.old.rows) task.now.job ≡ true }
        requires new_name { is_among (task_names self.old.rows) task.now.name ≡ false }
        requires machines_there { All (λ machine. is_among (machine_names self.old.rows) machine ≡ true)
            task.now.preferred }
        requires asked { self.old.asked < 2 ^ 40 }
        ensures ok { OnOk result (self.new.rows
            ≡ with_task self.old.rows task.now.job task.now.name task.now.preferred) }
        ensures counted { OnOk result (self.new.asked ≡ self.old.asked + 1) }
        ensures nodes { (result ≡ Err GraphRefusal.Nodes)
            ↔ LackNodes (with_task self.old.rows task.now.job task.now.name task.now.preferred) }
        ensures arcs { (result ≡ Err GraphRefusal.Arcs)
            ↔ LackArcs (with_task self.old.rows task.now.job task.now.name task.now.preferred) }
        ensures unchanged { OnErr result (self.new ≡ self.old) }
        ensures graph { IsGraph self.new }
    {
        let count = task.preferred.len();
        self.find_room(1, 3 + count as u32)?;
        let limits = self.rows.limits();
        let Some(row) = self.rows.job_at(task.owner) else {
            unreachable!()
        };
        let Ok(()) = grow_tasks(&mut self.tasks, &mut self.sources, &mut self.rows, task) else {
            return Err(GraphRefusal::Memory);
        };
        let owner = self.jobs[task.owner].node;
        let node = put_node(&mut self.net);
        // The arc that is linked last comes first in a walk: from most tasks the way on is by the hub.
        let places = task.machines.as_slice();
        let preferred = link_preferred(&mut self.net, node, &self.machines, places);
        let wait = link(&mut self.net, node, owner, 1, row.weight.get());
        let stay = link(&mut self.net, node, self.hub, 0, 0);
        let wide = link(&mut self.net, node, self.hub, 1, away_cost(limits, count));
        let arcs = TaskArcs {
            wide,
            stay,
            wait,
            preferred,
        };
        push_reserved(&mut self.sources, node);
        push_task(&mut self.tasks, TaskParts { node, arcs });
        self.asked += 1;
        Ok(())
    }

    /// Adds a machine last. `Nodes` exactly where its node does not fit the limits, else `Arcs` exactly where its arcs
    /// do not, else `Memory` only where memory is refused. A refusal changes nothing.
    pub fn add_machine(
        &mut self,
        alloc: Global,
        name: Name,
        slots: Slots,
    ) -> Result<(), GraphRefusal>
        requires new_name { is_among (machine_names self.old.rows) name ≡ false }
        requires asked { self.old.asked < 2 ^ 40 }
        ensures ok { OnOk result (self.new.rows ≡ with_machine self.old.rows name slots) }
        ensures counted { OnOk result (self.new.asked ≡ self.old.asked + 1) }
        ensures nodes { (result ≡ Err GraphRefusal.Nodes) ↔ LackNodes (with_machine self.old.rows name slots) }
        ensures arcs { (result ≡ Err GraphRefusal.Arcs) ↔ LackArcs (with_machine self.old.rows name slots) }
        ensures unchanged { OnErr result (self.new ≡ self.old) }
        ensures graph { IsGraph self.new }
    {
        let count = slots.get();
        self.find_room(1, 1 + count)?;
        let limits = self.rows.limits();
        let Ok(mut arcs) = grow_machines(alloc, &mut self.machines, &mut self.rows, name, slots)
        else {
            return Err(GraphRefusal::Memory);
        };
        let node = put_node(&mut self.net);
        let through = link(&mut self.net, self.hub, node, count, 0);
        let ladder = SlotArcs {
            node,
            sink: self.sink,
            spread: limits.spread() as u32,
            count,
        };
        link_slots(&mut self.net, ladder, &mut arcs);
        push_reserved(
            &mut self.machines,
            MachineIds {
                node,
                through,
                slots: arcs,
            },
        );
        self.asked += 1;
        Ok(())
    }

    /// Removes a task, running or waiting.
    pub fn drop_task(&mut self, name: Name)
        requires there { is_among (task_names self.old.rows) name ≡ true }
        ensures rows { self.new.rows ≡ without_task self.old.rows name }
        ensures asked { self.new.asked ≡ self.old.asked }
        ensures graph { IsGraph self.new }
    {
        let Some(place) = self.rows.task_place(name) else {
            unreachable!()
        };
        self.drop_found_task(name, place);
    }

    /// Removes a task that was found at this place.
    pub fn drop_found_task(&mut self, name: Name, place: usize)
        requires found { position (bytes_eq name) (task_names self.old.rows) ≡ Some place }
        ensures rows { self.new.rows ≡ without_task self.old.rows name }
        ensures asked { self.new.asked ≡ self.old.asked }
        ensures graph { IsGraph self.new }
    {
        let parts = self.tasks.remove(place);
        self.sources.remove(place);
        self.rows.remove_task(place);
        unlink(&mut self.net, parts.arcs.wide);
        unlink(&mut self.net, parts.arcs.stay);
        unlink(&mut self.net, parts.arcs.wait);
        unlink_preferred(&mut self.net, parts.arcs.preferred);
        drop_node(&mut self.net, parts.node);
    }

    /// Readies the net for a round: it is the network of the rows, without lower bounds and flow.
    pub fn prepare(&mut self)
        ensures net { self.new ≡ record self.old { net = without_flow self.old.net } }
        ensures rest { IsAtRest (view_of self.new) }
        ensures case { IsSameCase (view_of self.old) (view_of self.new) }
        ensures limits { limits_of self.new.net ≡ limits_of self.old.net }
        ensures graph { IsGraph self.new }
        ensures shows { Shows (view_of self.new) }
    {
        self.net.clear_flow();
    }

    /// Makes the net carry a flow of least cost, one unit from each task to the sink, and gives its cost. One search
    /// for each task sends its unit, in order of submission. Takes no memory.
    pub fn least(&mut self, prices: &mut Prices, scratch: &mut Scratch) -> i64
        requires made_for { (prices.old.limits ≡ limits_of self.old.net)
            × (scratch.old.limits ≡ limits_of self.old.net) }
        ensures same { self.new ≡ record self.old { net = self.new.net } }
        ensures flow { SameButFlow self.old.net self.new.net }
        ensures case { IsSameCase (view_of self.old) (view_of self.new) }
        ensures limits { limits_of self.new.net ≡ limits_of self.old.net }
        ensures prices { prices.new.limits ≡ prices.old.limits }
        ensures scratch { scratch.new.limits ≡ scratch.old.limits }
        ensures counts { (made : ℕ) × (made ≤ length (view_of self.old).case.tasks)
            × HasSearched scratch.old scratch.new made (arc_count self.old.net) }
        ensures lows { All (λ a. a.low ≡ 0) (arcs_of self.new.net) }
        ensures least { IsLeastFlow self.new.net
            (map (spot_of (view_of self.new)) (task_nodes (view_of self.new).case)) (spot_of (view_of self.new) Sink) }
        ensures valid { AreValid (arcs_of self.new.net) (price_of prices.new) }
        ensures cost { result ≡ pos (cost_of (arcs_of self.new.net) carried) }
        ensures graph { IsGraph self.new }
        ensures shows { Shows (view_of self.new) }
    {
        let Ok(cost) = solve(&mut self.net, prices, scratch, &self.sources, self.sink) else {
            unreachable!()
        };
        cost
    }

    /// Moves one unit of flow along an arc, forward or back. False, and nothing changes, exactly where the arc is not
    /// there or has no room.
    pub fn push(&mut self, arc: ArcId, way: Way) -> bool
        ensures allowed { IsTrue result ↔ CanPush way (row_at self.old.net arc) }
        ensures pushes { IsTrue result
            → self.new ≡ record self.old { net = with_row self.old.net arc (with_unit way) } }
        ensures unchanged { result ≡ false → self.new ≡ self.old }
        ensures others { SameOtherRows self.old.net self.new.net arc }
        ensures limits { limits_of self.new.net ≡ limits_of self.old.net }
        ensures graph { IsGraph self.new }
        ensures shows { Shows (view_of self.new) }
    {
        self.net.push(arc, way)
    }

    /// Sets how much must flow along an arc. False, and nothing changes, exactly where the arc is not there or
    /// less flows.
    pub fn hold(&mut self, arc: ArcId, low: u32) -> bool
        ensures allowed { IsTrue result ↔ CanHold low (row_at self.old.net arc) }
        ensures holds { IsTrue result → self.new ≡ record self.old { net = with_row self.old.net arc (with_low low) } }
        ensures unchanged { result ≡ false → self.new ≡ self.old }
        ensures others { SameOtherRows self.old.net self.new.net arc }
        ensures limits { limits_of self.new.net ≡ limits_of self.old.net }
        ensures graph { IsGraph self.new }
        ensures shows { Shows (view_of self.new) }
    {
        let Some(row) = self.net.arc(arc) else {
            return false;
        };
        self.net.set(arc, low, row.cap(), row.cost(), row.flow())
    }

    /// The hub, through which each task can reach each machine.
    pub fn hub(&self) -> NodeId
        ensures value { result ≡ (view_of self.now).node Hub }
        ensures graph { IsGraph self.now }
    {
        self.hub
    }

    /// The sink.
    pub fn sink(&self) -> NodeId
        ensures value { result ≡ (view_of self.now).node Sink }
        ensures graph { IsGraph self.now }
    {
        self.sink
    }

    /// The nodes of the tasks, in order of submission.
    pub fn sources(&self) -> &[NodeId]
        ensures value { result.now ≡ map (view_of self.now).node (task_nodes (view_of self.now).case) }
        ensures graph { IsGraph self.now }
    {
        &self.sources
    }

    /// The arcs of the task at a place.
    pub fn task_arcs(&self, place: usize) -> TaskArcs
        requires { place < length self.now.rows.tasks }
        ensures wide { result.wide ≡ (view_of self.now).arc (Wide place) }
        ensures stay { result.stay ≡ (view_of self.now).arc (Stay place) }
        ensures wait { result.wait ≡ (view_of self.now).arc (Wait place) }
        ensures preferences { length result.preferred ≡ length (demand (view_of self.now).case place).preferred }
        ensures preferred { (k : ℕ) (other : ArcId) → k < length result.preferred
            → slice_index_or result.preferred k other ≡ (view_of self.now).arc (Prefer place k) }
        ensures graph { IsGraph self.now }
    {
        self.tasks.at(place).arcs
    }

    /// The arc from the hub to the machine at a place.
    pub fn hub_arc(&self, place: usize) -> ArcId
        requires { place < length self.now.rows.machines }
        ensures value { result ≡ (view_of self.now).arc (Through place) }
        ensures graph { IsGraph self.now }
    {
        self.machines[place].through
    }

    /// The place of the machine with a node; `None` exactly where no machine has it. It looks at one after another.
    pub fn machine_of(&self, node: NodeId) -> Option<usize>
        ensures some { IfSome result (λ j. (j < length self.now.rows.machines)
            × ((view_of self.now).node (Machine j) ≡ node)) }
        ensures none { IfNone result ((j : ℕ) → j < length self.now.rows.machines
            → (view_of self.now).node (Machine j) ≢ node) }
        ensures graph { IsGraph self.now }
    {
        find_machine(&self.machines, node)
    }

    /// Removes a job that has no tasks.
    pub fn drop_job(&mut self, name: Name)
        requires there { is_among (job_names self.old.rows) name ≡ true }
        requires empty { has_tasks self.old.rows name ≡ false }
        ensures rows { self.new.rows ≡ without_job self.old.rows name }
        ensures asked { self.new.asked ≡ self.old.asked }
        ensures graph { IsGraph self.new }
    {
        let Some(place) = self.rows.job_place(name) else {
            unreachable!()
        };
        self.drop_found_job(name, place);
    }

    /// Removes a job without tasks that was found at this place.
    pub fn drop_found_job(&mut self, name: Name, place: usize)
        requires found { position (bytes_eq name) (job_names self.old.rows) ≡ Some place }
        requires empty { has_tasks self.old.rows name ≡ false }
        ensures rows { self.new.rows ≡ without_job self.old.rows name }
        ensures asked { self.new.asked ≡ self.old.asked }
        ensures graph { IsGraph self.new }
    {
        let parts = self.jobs.remove(place);
        self.rows.close(place);
        unlink(&mut self.net, parts.exit);
        drop_node(&mut self.net, parts.node);
    }

    /// Removes a machine. The tasks that run on it wait again, and how many they are is the answer. No task prefers it
    /// any longer.
    pub fn drop_machine(&mut self, name: Name) -> u32
        requires there { is_among (machine_names self.old.rows) name ≡ true }
        ensures rows { self.new.rows ≡ without_machine self.old.rows name }
        ensures count { result ≡ running_on self.old.rows name }
        ensures asked { self.new.asked ≡ self.old.asked }
        ensures graph { IsGraph self.new }
    {
        let Some(place) = self.rows.machine_place(name) else {
            unreachable!()
        };
        self.drop_found_machine(name, place)
    }

    /// Removes a machine that was found at this place, as `drop_machine`.
    pub fn drop_found_machine(&mut self, name: Name, place: usize) -> u32
        requires found { position (bytes_eq name) (machine_names self.old.rows) ≡ Some place }
        ensures rows { self.new.rows ≡ without_machine self.old.rows name }
        ensures count { result ≡ running_on self.old.rows name }
        ensures asked { self.new.asked ≡ self.old.asked }
        ensures graph { IsGraph self.new }
    {
        forget_machine(&mut self.net, &self.rows, &mut self.tasks, name);
        evict_tasks(&mut self.net, &self.rows, &self.tasks, self.hub, name);
        let evicted = self.rows.drain(place);
        let parts = self.machines.remove(place);
        unlink(&mut self.net, parts.through);
        unlink_slots(&mut self.net, &parts.slots);
        drop_node(&mut self.net, parts.node);
        evicted
    }

    /// Makes the rows those after a round of these choices, one for each task, and moves the tasks' stay arcs. The arcs
    /// of each task cost what they do where it now stands.
    pub fn settle(&mut self, choices: &[Choice])
        requires legal { is_legal (case_of self.old.rows) choices.now ≡ true }
        ensures rows { self.new.rows ≡ rows_after self.old.rows choices.now }
        ensures asked { self.new.asked ≡ self.old.asked }
        ensures graph { IsGraph self.new }
    {
        legality_is_judged();
        let heads = Heads {
            machines: &self.machines,
            hub: self.hub,
        };
        settle_tasks(&mut self.net, &self.rows, &heads, &self.tasks, choices);
        self.rows.settle(choices);
    }

    // Puts the task at a place on the machine of this name, or lets it wait, with what it has waited.
    pub(crate) fn place_task(&mut self, place: usize, machine: Option<Name>, waited: u32)
        requires there { place < length self.old.rows.tasks }
        requires machine_there { IfSome machine (λ name. is_among (machine_names self.old.rows) name ≡ true) }
        requires room { IfSome machine (λ _. HasRoom (with_task_placed self.old.rows place machine waited)) }
        requires waited { waited ≤ self.old.rows.limits.patience }
        requires running { IfSome machine (λ _. waited ≡ 0) }
        ensures rows { self.new.rows ≡ with_task_placed self.old.rows place machine waited }
        ensures asked { self.new.asked ≡ self.old.asked }
        ensures graph { IsGraph self.new }
    {
        // No wait passes the longest patience, so the cost of its arc doesn't wrap.
        prove!(u64::from(waited) <= self.rows.limits().patience());
        let heads = Heads {
            machines: &self.machines,
            hub: self.hub,
        };
        let stand = Stand {
            node: home_of(&self.rows, &heads, machine),
            runs: machine.is_some(),
            waited,
        };
        let parts = self.tasks.at(place);
        place_task(&mut self.net, &self.rows, parts, place, stand);
        self.rows.place_task(place, machine, waited);
    }

    // How many nodes and arcs more the net has room for.
    fn room(&self) -> (u32, u32)
        ensures nodes { result.0 + arena_nodes self.now.rows ≡ self.now.rows.limits.nodes }
        ensures arcs { result.1 + arena_arcs self.now.rows ≡ self.now.rows.limits.arcs }
        ensures graph { IsGraph self.now }
    {
        self.net.room()
    }

    // Whether the net has room for these numbers of further nodes and arcs.
    fn find_room(&self, nodes: u32, arcs: u32) -> Result<(), GraphRefusal>
        requires nodes { nodes ≤ 1 }
        requires arcs { arcs ≤ 65 }
        ensures graph { IsGraph self.now }
        ensures fits { OnOk result ((arena_nodes self.now.rows + nodes ≤ self.now.rows.limits.nodes)
            × (arena_arcs self.now.rows + arcs ≤ self.now.rows.limits.arcs)) }
        ensures nodes { (result ≡ Err GraphRefusal.Nodes)
            ↔ (self.now.rows.limits.nodes < arena_nodes self.now.rows + nodes) }
        ensures arcs { (result ≡ Err GraphRefusal.Arcs)
            ↔ (arena_nodes self.now.rows + nodes ≤ self.now.rows.limits.nodes)
            × (self.now.rows.limits.arcs < arena_arcs self.now.rows + arcs) }
        ensures memory { result ≡ Err GraphRefusal.Memory → ⊥ }
    {
        let (free_nodes, free_arcs) = self.room();
        if free_nodes < nodes {
            return Err(GraphRefusal::Nodes);
        }
        if free_arcs < arcs {
            return Err(GraphRefusal::Arcs);
        }
        Ok(())
    }
}

//! Reads of a graph by the places of its case.
ghost use Rattle.std.specs.Prelude.{◌≡◌, ◌≢◌, ◌<◌, ◌≤◌, ◌==◌, ℕ, true, false, length, Some, IfSome, IfNone};
ghost use Rattle.std.specs.List.{position};
ghost use Rattle.firm_net.specs.Row.{Row};
ghost use Rattle.firm_net.specs.Net.{IsArc, IsNode, row_at, arc_count};
ghost use Rattle.firm_rules.specs.ArenaUse.{arena_arcs};
ghost use Rattle.firm_rules.specs.Placement.{runs_at};
ghost use Rattle.firm_graph.specs.Network.{demand, preferred_at};
ghost use Rattle.firm_graph.specs.View.{flow_of_row, low_of_row};
ghost use Rattle.firm_graph.specs.Ids.{view_of};
ghost use Rattle.firm_graph.specs.declared.network.Node.TheVariants.{Hub, Machine};
ghost use Rattle.firm_graph.specs.declared.network.Key.TheVariants.{Through};
ghost use Rattle.firm_canon.specs.inner.Keys.{IsArcOf, key_of};

use arrayvec::ArrayVec;
use firm_graph::{Graph, networks_are_counted};
use firm_net::{ArcId, Net, NodeId};
use firm_paths::arcs_are_rows;
use firm_rules::MOST_PREFERENCES;

/// The places of a task's own machine and of those that it prefers, in the order of its row.
#[derive(Drop)]
pub(crate) struct Wishes {
    pub(crate) home: Option<u32>,
    pub(crate) places: ArrayVec<u32, MOST_PREFERENCES>,
}

/// An arc of a task.
#[derive(Clone, Copy)]
pub(crate) enum TaskArc {
    /// To the machine that it runs on.
    Stay,
    /// To the machine of its preference of this number, counted from 0.
    Prefer(usize),
    /// To the hub, by which it reaches the other machines.
    Wide,
    /// To its job, where it waits.
    Wait,
}

/// The net's arcs are those that the rows take of the arena.
pub(crate) fn arcs_are_counted(graph: &Graph)
    ensures { arc_count graph.now.net ≡ arena_arcs graph.now.rows }
{
    arcs_are_rows();
    networks_are_counted();
    graph.net();
}

/// Number of tasks.
pub(crate) fn task_count(graph: &Graph) -> usize
    ensures rows { result ≡ length graph.now.rows.tasks }
    ensures case { result ≡ length (view_of graph.now).case.tasks }
{
    graph.rows().task_count()
}

/// Number of machines.
pub(crate) fn machine_count(graph: &Graph) -> u32
    ensures rows { result ≡ length graph.now.rows.machines }
    ensures case { result ≡ length (view_of graph.now).case.slots }
{
    let rows = graph.rows();
    rows.limits();
    rows.machine_count() as u32
}

/// Whether a node is the hub.
fn is_hub(graph: &Graph, node: NodeId) -> bool
    ensures { result ≡ true → node ≡ (view_of graph.now).node Hub }
{
    node == graph.hub()
}

/// The place of the machine to which an arc leads; `None` if it leads to none.
fn machine_behind(graph: &Graph, arc: ArcId) -> Option<u32>
    requires { IsArc graph.now.net arc }
    ensures some { (row : Row) → row_at graph.now.net arc ≡ Some row → IfSome result (λ j.
        (j < length (view_of graph.now).case.slots) × ((view_of graph.now).node (Machine j) ≡ row.head)) }
    ensures none { (row : Row) → row_at graph.now.net arc ≡ Some row → IfNone result ((j : ℕ)
        → j < length (view_of graph.now).case.slots → (view_of graph.now).node (Machine j) ≢ row.head) }
    ensures node { (row : Row) → row_at graph.now.net arc ≡ Some row → IsNode graph.now.net row.head }
{
    let Some(row) = graph.net().arc(arc) else {
        unreachable!()
    };
    // While a task waits its stay arc leads here, and no machine is looked at.
    if is_hub(graph, row.head()) {
        return None;
    }
    graph.rows().limits();
    let Some(place) = graph.machine_of(row.head()) else {
        return None;
    };
    Some(place as u32)
}

/// The place of the machine on which the task at a place runs, if it runs.
fn home_of(graph: &Graph, task: usize) -> Option<u32>
    requires { task < length (view_of graph.now).case.tasks }
    ensures { result ≡ (demand (view_of graph.now).case task).home }
{
    arcs_are_rows();
    graph.net();
    machine_behind(graph, task_arc(graph, task, TaskArc::Stay))
}

/// The place of the machine of the preference of this number, counted from 0, of the task at a place.
fn preferred_place(graph: &Graph, task: usize, number: usize) -> u32
    requires task { task < length (view_of graph.now).case.tasks }
    requires number { number < length (demand (view_of graph.now).case task).preferred }
    ensures { result ≡ preferred_at (view_of graph.now).case task number }
{
    arcs_are_rows();
    graph.net();
    let Some(place) = machine_behind(graph, task_arc(graph, task, TaskArc::Prefer(number))) else {
        unreachable!()
    };
    place
}

/// The places of the machines that the task at a place prefers.
fn places_of(graph: &Graph, task: usize) -> ArrayVec<u32, MOST_PREFERENCES>
    requires { task < length (view_of graph.now).case.tasks }
    ensures { result.items ≡ (demand (view_of graph.now).case task).preferred }
{
    let mut places = ArrayVec::new();
    for number in 0..graph.task_arcs(task).preferred.len() {
        places.push(preferred_place(graph, task, number));
    }
    places
}

/// The machines of the task at a place.
pub(crate) fn wishes_of(graph: &Graph, task: usize) -> Wishes
    requires { task < length (view_of graph.now).case.tasks }
    ensures home { result.home ≡ (demand (view_of graph.now).case task).home }
    ensures places { result.places.items ≡ (demand (view_of graph.now).case task).preferred }
{
    Wishes {
        home: home_of(graph, task),
        places: places_of(graph, task),
    }
}

/// One of the arcs of the task at a place.
pub(crate) fn task_arc(graph: &Graph, task: usize, arc: TaskArc) -> ArcId
    requires task { task < length (view_of graph.now).case.tasks }
    requires arc { IsArcOf (view_of graph.now).case task arc }
    ensures { result ≡ (view_of graph.now).arc (key_of task arc) }
{
    let arcs = graph.task_arcs(task);
    match arc {
        TaskArc::Stay => arcs.stay,
        TaskArc::Prefer(number) => arcs.preferred.at(number),
        TaskArc::Wide => arcs.wide,
        TaskArc::Wait => arcs.wait,
    }
}

/// The arc from the hub to the machine at a place.
pub(crate) fn through_arc(graph: &Graph, machine: u32) -> ArcId
    requires { machine < length (view_of graph.now).case.slots }
    ensures { result ≡ (view_of graph.now).arc (Through machine) }
{
    graph.hub_arc(machine as usize)
}

/// The units on an arc.
pub(crate) fn flow_on(net: &Net, arc: ArcId) -> u32
    requires { IsArc net.now arc }
    ensures { result ≡ flow_of_row (row_at net.now arc) }
{
    let Some(row) = net.arc(arc) else {
        unreachable!()
    };
    row.flow()
}

/// Whether an arc carries more than its lower bound.
pub(crate) fn has_surplus_on(net: &Net, arc: ArcId) -> bool
    requires { IsArc net.now arc }
    ensures yes { result ≡ true → low_of_row (row_at net.now arc) < flow_of_row (row_at net.now arc) }
    ensures no { result ≡ false → flow_of_row (row_at net.now arc) ≤ low_of_row (row_at net.now arc) }
{
    let Some(row) = net.arc(arc) else {
        unreachable!()
    };
    row.low() < row.flow()
}

/// The lower bound of an arc.
pub(crate) fn low_on(net: &Net, arc: ArcId) -> u32
    requires { IsArc net.now arc }
    ensures { result ≡ low_of_row (row_at net.now arc) }
{
    let Some(row) = net.arc(arc) else {
        unreachable!()
    };
    row.low()
}

/// Whether the machine is the task's own.
pub(crate) fn is_home(home: Option<u32>, machine: u32) -> bool
    ensures { result ≡ runs_at home machine }
{
    match home {
        Some(own) => own == machine,
        None => false,
    }
}

/// The number of the preference for the machine, counted from 0.
pub(crate) fn preference_for(places: &[u32], machine: u32) -> Option<usize>
    ensures { result ≡ position (λ place. place == machine) places.now }
{
    places.iter().position(|place| *place == machine)
}

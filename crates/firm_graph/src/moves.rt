//! The arcs of tasks that start, move, or are thrown out of their machine.
ghost use Rattle.std.specs.Prelude.{◌≡◌, ◌≤◌, ◌<◌, ◌+◌, length, slice_index_or, min, List, ℕ, Option, None, Some};
ghost use Rattle.std.specs.Prelude.{if◌then◌else◌, map, All, position, bytes_eq, slice_set, true, IfSome, is_some};
ghost use Rattle.std.specs.List.{AllZip};
ghost use Rattle.firm_rules.specs.Limits.{longest_patience};
ghost use Rattle.firm_rules.specs.Book.{is_on, evicted, machine_names};
ghost use Rattle.firm_rules.specs.Names.{is_among};
ghost use Rattle.firm_rules.specs.Placement.{IsPlace};
ghost use Rattle.firm_rules.specs.Round.{rows_after};
ghost use Rattle.firm_graph.specs.Graph.{Graph as GraphRow, Mirrors, weight_under, home_node};
ghost use Rattle.firm_graph.specs.inner.Steps.{IsPlacing, IsFitting, Stands, moved, refitted, with_task_at, task_at};
ghost use Rattle.firm_graph.specs.inner.Steps.{with_forgetting_at, forgetting_rows, thrown_out_first};

use crate::edits::{away_cost, lead, rate, rate_preferred, unlink};
use crate::ids::{MachineIds, Stand, TaskParts};
use firm_net::{Net, NodeId};
use firm_rules::{Choice, Name, Rows};
use firm_sequence::Sequence;

/// Gives the arcs of the task at a place the ends, capacities and costs of one that stands so.
pub(crate) fn place_task(net: &mut Net, rows: &Rows, parts: &TaskParts, place: usize, stand: Stand)
    requires place { place < length rows.now.tasks }
    requires waited { stand.waited ≤ longest_patience }
    ensures placed { (g : GraphRow) (home : Option (List ℕ)) → IsPlacing g net.old rows.now parts.now place stand home
        → Mirrors (moved g (with_task_at g.rows place home stand.waited) net.new) }
{
    let limits = rows.limits();
    let leaving = where_runs(stand.runs, limits.churn() as u32);
    let away = away_cost(limits, parts.arcs.preferred.len());
    let weight = weight_of(rows, place);
    rate(net, parts.arcs.wide, 1, leaving + away);
    rate(net, parts.arcs.stay, where_runs(stand.runs, 1), 0);
    lead(net, parts.arcs.stay, stand.node);
    rate(net, parts.arcs.wait, 1, weight + stand.waited + leaving);
    rate_preferred(net, &parts.arcs.preferred, leaving);
}

/// Takes the arcs to the machine of a name out of the preferences of all tasks.
pub(crate) fn forget_machine(
    net: &mut Net,
    rows: &Rows,
    tasks: &mut Sequence<TaskParts>,
    name: Name,
)
    requires tasks { length tasks.old.items ≡ length rows.now.tasks }
    requires preferred { AllZip (λ task parts. length parts.arcs.preferred ≡ length task.preferred) rows.now.tasks
        tasks.old.items }
    ensures nodes { map (λ parts. parts.node) tasks.new.items ≡ map (λ parts. parts.node) tasks.old.items }
    ensures forgotten { (g : GraphRow) → Mirrors g → g.net ≡ net.old → g.rows ≡ rows.now → g.tasks ≡ tasks.old.items
        → Mirrors (refitted g (forgetting_rows g.rows name) net.new tasks.new.items) }
{
    for place in 0..tasks.len() {
        let parts = forget_at(net, rows, *tasks.at(place), place, name);
        tasks.set(place, parts);
    }
}

// Takes the arc to the machine of a name, if there is one, out of the preferences of the task at a place.
fn forget_at(
    net: &mut Net,
    rows: &Rows,
    mut parts: TaskParts,
    place: usize,
    name: Name,
) -> TaskParts
    requires place { place < length rows.now.tasks }
    requires preferred { length parts.arcs.preferred ≡ length (task_at rows.now place).preferred }
    ensures node { result.node ≡ parts.node }
    ensures step { (g : GraphRow) → IsFitting g net.old rows.now parts place
        → Mirrors (refitted g (with_forgetting_at g.rows place name) net.new (slice_set g.tasks place result)) }
{
    let Some(task) = rows.task_at(place) else {
        unreachable!()
    };
    let Some(preference) = place_among(task.preferred.as_slice(), name) else {
        return parts;
    };
    unlink(net, parts.arcs.preferred.at(preference));
    parts.arcs.preferred.remove(preference);
    let limits = rows.limits();
    let away = away_cost(limits, parts.arcs.preferred.len());
    let wide = where_runs(task.machine.is_some(), limits.churn() as u32) + away;
    rate(net, parts.arcs.wide, 1, wide);
    parts
}

// The place of a name among others, if it is one of them.
fn place_among(names: &[Name], name: Name) -> Option<usize>
    ensures { result ≡ position (bytes_eq name) names.now }
{
    names.iter().position(|other| name == *other)
}

/// Gives the arcs of the tasks that run on the machine of a name, which no task prefers any longer, those of tasks that
/// wait.
pub(crate) fn evict_tasks(
    net: &mut Net,
    rows: &Rows,
    tasks: &Sequence<TaskParts>,
    hub: NodeId,
    name: Name,
)
    requires tasks { length tasks.now.items ≡ length rows.now.tasks }
    ensures evicted { (g : GraphRow) → Mirrors g → g.net ≡ net.old → g.rows ≡ forgetting_rows rows.now name
        → g.tasks ≡ tasks.now.items → g.hub ≡ hub
        → Mirrors (moved g (record rows.now { tasks = map (evicted name) rows.now.tasks }) net.new) }
{
    for place in 0..tasks.len() {
        evict_task(net, rows, tasks.at(place), place, Eviction { name, hub });
    }
}

// The machine that tasks have to leave, and where their stay arcs lead then.
#[derive(Clone, Copy)]
struct Eviction {
    name: Name,
    hub: NodeId,
}

// Gives the arcs of the task at a place those of one that waits if it runs on the machine that tasks have to leave.
fn evict_task(net: &mut Net, rows: &Rows, parts: &TaskParts, place: usize, from: Eviction)
    requires place { place < length rows.now.tasks }
    ensures step { (g : GraphRow) → Mirrors (moved g (thrown_out_first g.rows from.name place) net.old)
        → g.rows ≡ forgetting_rows rows.now from.name → g.hub ≡ from.hub
        → place < length g.tasks → parts.now ≡ slice_index_or g.tasks place parts.now
        → Mirrors (moved g (thrown_out_first g.rows from.name (place + 1)) net.new) }
{
    if !runs_on(rows, place, from.name) {
        return;
    }
    let stand = Stand {
        node: from.hub,
        runs: false,
        waited: 0,
    };
    place_task(net, rows, parts, place, stand);
}

/// Where a task's stay arc may lead: to the node of its machine, or to the hub while it waits.
#[derive(Clone, Copy)]
pub(crate) struct Heads<'a> {
    pub(crate) machines: &'a [MachineIds],
    pub(crate) hub: NodeId,
}

/// Gives the arcs of all tasks those that go with the choices of a round. Most tasks stay on their machines, and keep
/// all.
pub(crate) fn settle_tasks(
    net: &mut Net,
    rows: &Rows,
    heads: &Heads<'_>,
    tasks: &Sequence<TaskParts>,
    choices: &[Choice],
)
    requires machines { length heads.now.machines.now ≡ length rows.now.machines }
    requires tasks { length tasks.now.items ≡ length rows.now.tasks }
    requires one_each { length choices.now ≡ length rows.now.tasks }
    requires places { All (IsPlace (length rows.now.machines)) choices.now }
    ensures settled { (g : GraphRow) → Mirrors g → g.net ≡ net.old → g.rows ≡ rows.now
        → g.machines ≡ heads.now.machines.now → g.tasks ≡ tasks.now.items → g.hub ≡ heads.now.hub
        → Mirrors (moved g (rows_after g.rows choices.now) net.new) }
{
    rows.limits();
    for (place, choice) in choices.iter().enumerate() {
        if rows.case().stays(place, *choice) {
            continue;
        }
        let stand = stand_of(rows, heads, place, *choice);
        settle_task(net, rows, tasks.at(place), place, stand);
    }
}

// Gives the arcs of the task at a place the ends, capacities and costs of one that stands so after a round. For one
// that goes on waiting its wait alone costs more.
fn settle_task(net: &mut Net, rows: &Rows, parts: &TaskParts, place: usize, stand: Stand)
    requires place { place < length rows.now.tasks }
    requires waited { stand.waited ≤ longest_patience }
    ensures settled { (g : GraphRow) (home : Option (List ℕ))
        → IsPlacing g net.old rows.now parts.now place stand home
        → task_at g.rows place ≡ task_at rows.now place
        → Mirrors (moved g (with_task_at g.rows place home stand.waited) net.new) }
{
    if is_running(rows, place) || stand.runs {
        place_task(net, rows, parts, place, stand);
        return;
    }
    if rows.waited_at(place) == stand.waited {
        return;
    }
    let weight = weight_of(rows, place);
    rate(net, parts.arcs.wait, 1, weight + stand.waited);
}

/// Where the stay arc of a task leads that runs on the machine of this name, or waits.
pub(crate) fn home_of(rows: &Rows, heads: &Heads<'_>, machine: Option<Name>) -> NodeId
    requires machines { length heads.now.machines.now ≡ length rows.now.machines }
    requires there { IfSome machine (λ name. is_among (machine_names rows.now) name ≡ true) }
    ensures { result ≡ home_node (machine_names rows.now) (map (λ parts. parts.node) heads.now.machines.now)
        heads.now.hub machine }
{
    rows.limits();
    let Some(name) = machine else {
        return heads.hub;
    };
    let Some(place) = rows.machine_place(name) else {
        unreachable!()
    };
    let parts = &heads.machines[place];
    parts.node
}

// How the task at a place stands after a round that makes this choice for it.
fn stand_of(rows: &Rows, heads: &Heads<'_>, place: usize, choice: Choice) -> Stand
    requires place { place < length rows.now.tasks }
    requires machines { length heads.now.machines.now ≡ length rows.now.machines }
    requires there { IsPlace (length rows.now.machines) choice }
    ensures waited { result.waited ≤ longest_patience }
    ensures stands { Stands rows.now (map (λ parts. parts.node) heads.now.machines.now) heads.now.hub
        (task_at rows.now place) choice result }
{
    rows.limits();
    match choice {
        Choice::On(machine) => {
            let parts = &heads.machines[machine as usize];
            Stand {
                node: parts.node,
                runs: true,
                waited: 0,
            }
        }
        Choice::Wait => Stand {
            node: heads.hub,
            runs: false,
            waited: rows.next_wait_at(place),
        },
    }
}

// Whether the task at a place runs.
fn is_running(rows: &Rows, place: usize) -> bool
    requires { place < length rows.now.tasks }
    ensures { result ≡ is_some (task_at rows.now place).machine }
{
    match rows.case().home(place) {
        Choice::On(_) => true,
        Choice::Wait => false,
    }
}

// Whether the task at a place runs on the machine of a name.
fn runs_on(rows: &Rows, place: usize, name: Name) -> bool
    requires { place < length rows.now.tasks }
    ensures { result ≡ is_on name (task_at rows.now place).machine }
{
    let Some(task) = rows.task_at(place) else {
        unreachable!()
    };
    match task.machine {
        Some(machine) => name == machine,
        None => false,
    }
}

// The weight of the job of the task at a place.
fn weight_of(rows: &Rows, place: usize) -> u32
    requires { place < length rows.now.tasks }
    ensures value { result ≡ weight_under rows.now.jobs (task_at rows.now place).job }
    ensures most { result ≤ 1000000 }
{
    let owner = rows.case().job(place);
    rows.weight_at(owner) as u32
}

// The amount where a task runs, 0 while it waits.
fn where_runs(runs: bool, amount: u32) -> u32
    ensures { result ≡ (if runs then amount else 0) }
{
    if runs { amount } else { 0 }
}

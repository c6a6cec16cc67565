//! The graph of rows that were built elsewhere: it is opened, and each row is added as it stands.
ghost use Rattle.std.specs.Prelude.{◌≡◌, ◌+◌, ◌<◌, IfOk, OnOk, length};
ghost use Rattle.firm_graph.specs.Graph.{IsGraph};
ghost use Rattle.firm_graph.specs.inner.Restored.{machines_first, jobs_first, tasks_first};

use crate::graph::Graph;
use crate::ids::GraphRefusal;
use firm_rules::Rows;
use std::alloc::{AllocError, Global};

impl Graph {
    /// The graph of these rows, each task where it stands. It takes what `open` takes for their limits, and what each
    /// row takes when it is added. The error comes for lack of memory alone.
    pub fn of_rows(alloc: Global, rows: &Rows) -> Result<Graph, AllocError>
        ensures rows { IfOk result (λ graph. graph.rows ≡ rows.now) }
        ensures asked { IfOk result (λ graph. graph.asked
            ≡ length rows.now.machines + length rows.now.jobs + length rows.now.tasks) }
        ensures graph { IfOk result (λ graph. IsGraph graph) }
    {
        let mut graph = Graph::open(alloc, rows.limits())?;
        match add_rows(alloc, &mut graph, rows) {
            Ok(()) => Ok(graph),
            Err(error) => Err(error),
        }
    }
}

// Adds these rows to the graph of a tenant that has nothing yet.
fn add_rows(alloc: Global, graph: &mut Graph, rows: &Rows) -> Result<(), AllocError>
    requires empty { graph.old.rows ≡ machines_first rows.now 0 }
    requires none { graph.old.asked ≡ 0 }
    ensures rows { OnOk result (graph.new.rows ≡ rows.now) }
    ensures asked { OnOk result (graph.new.asked
        ≡ length rows.now.machines + length rows.now.jobs + length rows.now.tasks) }
    ensures graph { OnOk result (IsGraph graph.new) }
{
    add_machines(alloc, graph, rows)?;
    add_jobs(graph, rows)?;
    add_tasks(graph, rows)
}

fn add_machines(alloc: Global, graph: &mut Graph, rows: &Rows) -> Result<(), AllocError>
    requires empty { graph.old.rows ≡ machines_first rows.now 0 }
    requires none { graph.old.asked ≡ 0 }
    ensures rows { OnOk result (graph.new.rows ≡ jobs_first rows.now 0) }
    ensures asked { OnOk result (graph.new.asked ≡ length rows.now.machines) }
{
    for place in 0..rows.machine_count() {
        add_machine_at(alloc, graph, rows, place)?;
    }
    Ok(())
}

fn add_jobs(graph: &mut Graph, rows: &Rows) -> Result<(), AllocError>
    requires empty { graph.old.rows ≡ jobs_first rows.now 0 }
    requires some { graph.old.asked ≡ length rows.now.machines }
    ensures rows { OnOk result (graph.new.rows ≡ tasks_first rows.now 0) }
    ensures asked { OnOk result (graph.new.asked ≡ length rows.now.machines + length rows.now.jobs) }
{
    for place in 0..rows.job_count() {
        add_job_at(graph, rows, place)?;
    }
    Ok(())
}

fn add_tasks(graph: &mut Graph, rows: &Rows) -> Result<(), AllocError>
    requires empty { graph.old.rows ≡ tasks_first rows.now 0 }
    requires some { graph.old.asked ≡ length rows.now.machines + length rows.now.jobs }
    ensures rows { OnOk result (graph.new.rows ≡ rows.now) }
    ensures asked { OnOk result (graph.new.asked
        ≡ length rows.now.machines + length rows.now.jobs + length rows.now.tasks) }
    ensures graph { OnOk result (IsGraph graph.new) }
{
    for place in 0..rows.task_count() {
        add_task_at(graph, rows, place)?;
    }
    graph.asked();
    Ok(())
}

// Adds the machine at a place behind those before it.
fn add_machine_at(
    alloc: Global,
    graph: &mut Graph,
    rows: &Rows,
    place: usize,
) -> Result<(), AllocError>
    requires place { place < length rows.now.machines }
    requires before { graph.old.rows ≡ machines_first rows.now place }
    requires few { graph.old.asked ≡ place }
    ensures rows { OnOk result (graph.new.rows ≡ machines_first rows.now (place + 1)) }
    ensures asked { OnOk result (graph.new.asked ≡ place + 1) }
{
    rows.limits();
    let Some(machine) = rows.machine_at(place) else {
        unreachable!()
    };
    match graph.add_machine(alloc, machine.name, machine.slots) {
        Ok(()) => Ok(()),
        Err(GraphRefusal::Nodes) => unreachable!(),
        Err(GraphRefusal::Arcs) => unreachable!(),
        Err(GraphRefusal::Memory) => Err(AllocError),
    }
}

// Adds the job at a place behind those before it.
fn add_job_at(graph: &mut Graph, rows: &Rows, place: usize) -> Result<(), AllocError>
    requires place { place < length rows.now.jobs }
    requires before { graph.old.rows ≡ jobs_first rows.now place }
    requires few { graph.old.asked ≡ length rows.now.machines + place }
    ensures rows { OnOk result (graph.new.rows ≡ jobs_first rows.now (place + 1)) }
    ensures asked { OnOk result (graph.new.asked ≡ length rows.now.machines + (place + 1)) }
{
    rows.limits();
    let Some(job) = rows.job_at(place) else {
        unreachable!()
    };
    match graph.add_job(job.name, job.weight) {
        Ok(()) => Ok(()),
        Err(GraphRefusal::Nodes) => unreachable!(),
        Err(GraphRefusal::Arcs) => unreachable!(),
        Err(GraphRefusal::Memory) => Err(AllocError),
    }
}

// Adds the task at a place behind those before it, and lets it stand where it stands.
fn add_task_at(graph: &mut Graph, rows: &Rows, place: usize) -> Result<(), AllocError>
    requires place { place < length rows.now.tasks }
    requires before { graph.old.rows ≡ tasks_first rows.now place }
    requires few { graph.old.asked ≡ length rows.now.machines + length rows.now.jobs + place }
    ensures rows { OnOk result (graph.new.rows ≡ tasks_first rows.now (place + 1)) }
    ensures asked { OnOk result (graph.new.asked
        ≡ length rows.now.machines + length rows.now.jobs + (place + 1)) }
{
    rows.limits();
    let Some(task) = rows.task_at(place) else {
        unreachable!()
    };
    match graph.add_task(task.job, task.name, task.preferred) {
        Ok(()) => {
            graph.place_task(place, task.machine, task.waited);
            Ok(())
        }
        Err(GraphRefusal::Nodes) => unreachable!(),
        Err(GraphRefusal::Arcs) => unreachable!(),
        Err(GraphRefusal::Memory) => Err(AllocError),
    }
}

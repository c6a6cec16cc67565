//! The placement of a round by searches in the net, and what it takes.
ghost use Rattle.std.specs.Prelude.{◌≡◌};
ghost use Rattle.firm_paths.specs.NetArcs.{limits_of};

use super::books::{Workspace, add_job, add_machine, add_task, name, numbered, opened};
use super::expect;
use firm_canon::first_best;
use firm_graph::Graph;
use firm_rules::{Choice, Limits, Preferred};
use std::alloc::Global;
use std::process::Abort;

fn choose_in(
    rt: &impl Abort,
    alloc: Global,
    graph: &mut Graph,
    space: &mut Workspace,
) -> Vec<Choice>
    requires made_for { (space.old.prices.limits ≡ limits_of graph.old.net)
        × (space.old.scratch.limits ≡ limits_of graph.old.net) }
{
    let (prices, scratch) = (&mut space.prices, &mut space.scratch);
    first_best(alloc, graph, prices, scratch).expect(rt, "memory")
}

/// Searches and their looks.
pub type Counts = (u64, u64);

// The placement of a round, and what it took.
fn choose(rt: &impl Abort, alloc: Global, graph: &mut Graph) -> (Vec<Choice>, Counts) {
    let mut space = Workspace::new(rt, alloc, graph.net());
    let placement = choose_in(rt, alloc, graph, &mut space);
    let scratch = &space.scratch;
    let counts = (scratch.searches(), scratch.looks());
    (placement, counts)
}

/// The placement of a round.
pub fn placement_of(rt: &impl Abort, alloc: Global, graph: &mut Graph) -> Vec<Choice> {
    choose(rt, alloc, graph).0
}

/// Machines of two slots and waiting tasks, with names of two digits.
fn add_many(rt: &impl Abort, alloc: Global, graph: &mut Graph, machines: u32, tasks: u32) {
    let job = name(rt, b"j");
    add_job(rt, graph, job, 100);
    for number in 0..machines {
        add_machine(rt, alloc, graph, numbered(rt, number), 2);
    }
    for number in 0..tasks {
        add_task(rt, graph, job, numbered(rt, number), Preferred::new());
    }
}

/// A tenant's nodes and arcs, its machines and tasks, and what its first round takes.
type Counted = ([u64; 2], [u32; 2], Counts);

fn play(rt: &impl Abort, alloc: Global, (room, rows, wanted): &Counted) {
    let [nodes, arcs] = *room;
    let [machines, tasks] = *rows;
    let limits = Limits::check(nodes, arcs, 100, 1, 2, 7).expect(rt, "limits");
    let mut graph = opened(rt, alloc, limits);
    add_many(rt, alloc, &mut graph, machines, tasks);
    expect(rt, choose(rt, alloc, &mut graph).1, *wanted);
}

static COUNTED: [Counted; 2] = [([9, 24], [2, 2], (3, 47)), ([33, 91], [10, 20], (20, 1321))];

#[test]
fn what_searches_take_is_counted(rt: HostRuntime) {
    for counted in &COUNTED {
        play(&rt, rt.alloc(), counted);
    }
}

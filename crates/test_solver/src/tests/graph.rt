//! Worked tenants: their networks arc by arc, all placements of a round in their order, and what slots are worth.
ghost use Rattle.std.specs.Prelude.{◌≡◌, length};

use super::books::{add_job, add_machine, add_task, name, opened, settle};
use super::nets::{Link, TWO_RUNNING_TASKS, TWO_WAITING_TASKS};
use super::{check, expect};
use Choice::{On, Wait};
use Step::{Costs, Job, Machine, Network, NotLegal, Settle, Slots, Sources, Task};
use firm_graph::Graph;
use firm_net::NodeId;
use firm_rents::{Rents, high_rents, lost_by_slot, low_rents, saved_by_slot};
use firm_rules::{Case, Choice, Limits, Preferred, Rows, cost_of, legal, ranks_before};
use std::alloc::Global;
use std::process::Abort;

/// A placement of all tasks, and what it costs.
type Priced = (&'static [Choice], i64);

/// A change of a tenant's rows, or what is seen of them then.
enum Step {
    /// A machine and the number of its slots.
    Machine(&'static [u8], u64),
    /// A job and its weight.
    Job(&'static [u8], u64),
    /// A task's job, its name, and the machines that it prefers.
    Task(&'static [u8], &'static [u8], &'static [&'static [u8]]),
    Settle(&'static [Choice]),
    /// All arcs of the network, in the order in which they were added. Nodes are the sink, the hub, and those of rows.
    Network(&'static [Link]),
    /// The nodes of the tasks, in order of submission.
    Sources(&'static [u32]),
    /// These are legal, each with its cost, and each comes before the next one.
    Costs(&'static [Priced]),
    NotLegal(&'static [Choice]),
    /// By this placement, which costs least: of each machine, what a slot more saves, and what one less costs.
    Slots(&'static [Choice], &'static [(u64, u64)]),
}

fn preferring(rt: &impl Abort, machines: &[&[u8]]) -> Preferred {
    let mut preferred = Preferred::new();
    for bytes in machines {
        check(rt, preferred.len() < 4, "four machines at most");
        preferred.add(name(rt, bytes));
    }
    preferred
}

// The number of a node: the sink is 0, the hub 1, and the others stand at the places of their numbers.
fn number_of(graph: &Graph, node: NodeId) -> Option<u32> {
    if node == graph.sink() {
        Some(0)
    } else if node == graph.hub() {
        Some(1)
    } else {
        graph.net().place(node)
    }
}

fn expect_network(rt: &impl Abort, graph: &Graph, links: &[Link]) {
    let mut place = 0_u32;
    for (tail, head, numbers) in links {
        let (_, row) = graph.net().arc_at(place).expect(rt, "the arc is there");
        let ends = (number_of(graph, row.tail()), number_of(graph, row.head()));
        expect(rt, ends, (Some(*tail), Some(*head)));
        expect(rt, [row.low(), row.cap(), row.cost()] == *numbers, true);
        place = place.wrapping_add(1);
    }
    expect(rt, graph.net().used(), place);
}

fn expect_sources(rt: &impl Abort, graph: &Graph, wanted: &[u32]) {
    let sources = graph.sources();
    expect(rt, sources.len(), wanted.len());
    for (source, node) in sources.iter().zip(wanted) {
        expect(rt, number_of(graph, *source), Some(*node));
    }
}

fn expect_cost(rt: &impl Abort, rows: &Rows, placement: &[Choice], cost: i64) {
    check(rt, legal(rows, placement), "a legal placement");
    expect(rt, cost_of(rows, placement), cost);
}

fn expect_order(rt: &impl Abort, rows: &Rows, one: &[Choice], other: &[Choice], before: bool) {
    check(rt, legal(rows, one), "a legal placement");
    check(rt, legal(rows, other), "another one");
    expect(rt, ranks_before(rows, one, other), before);
}

// Of this one and those listed it comes before just those from this place on.
fn expect_rank(
    rt: &impl Abort,
    rows: &Rows,
    placement: &[Choice],
    place: usize,
    wanted: &[Priced],
) {
    for (other_place, (other, _)) in wanted.iter().enumerate() {
        expect_order(rt, rows, placement, other, place < other_place);
    }
}

fn expect_placements(rt: &impl Abort, rows: &Rows, wanted: &[Priced]) {
    for (place, (placement, cost)) in wanted.iter().enumerate() {
        expect_cost(rt, rows, placement, *cost);
        expect_rank(rt, rows, placement, place, wanted);
    }
}

fn expect_one_each(rt: &impl Abort, case: &Case, rents: &Rents)
    ensures { length rents.now ≡ length case.now.slots }
{
    let machines = case.machine_count();
    check(rt, rents.as_slice().len() == machines, "a rent of each");
}

fn expect_slot(
    rt: &impl Abort,
    case: &Case,
    (low, high): (&Rents, &Rents),
    place: usize,
    wanted: (u64, u64),
) {
    check(rt, place < case.machine_count(), "a machine");
    expect_one_each(rt, case, low);
    expect_one_each(rt, case, high);
    let saved = saved_by_slot(case, low, place);
    expect(rt, (saved, lost_by_slot(case, high, place)), wanted);
}

fn expect_slots(
    rt: &impl Abort,
    alloc: Global,
    case: &Case,
    placement: &[Choice],
    wanted: &[(u64, u64)],
) {
    check(rt, case.is_legal(placement), "a legal placement");
    let low = low_rents(alloc, case, placement).expect(rt, "memory");
    let high = high_rents(alloc, case, placement).expect(rt, "memory");
    for (place, slot) in wanted.iter().enumerate() {
        expect_slot(rt, case, (&low, &high), place, *slot);
    }
}

fn take(rt: &impl Abort, alloc: Global, graph: &mut Graph, step: &Step) {
    match step {
        Machine(bytes, slots) => add_machine(rt, alloc, graph, name(rt, bytes), *slots),
        Job(bytes, weight) => add_job(rt, graph, name(rt, bytes), *weight),
        Task(job, bytes, machines) => {
            let preferred = preferring(rt, machines);
            add_task(rt, graph, name(rt, job), name(rt, bytes), preferred);
        }
        Settle(placement) => settle(rt, graph, placement),
        Network(links) => expect_network(rt, graph, links),
        Sources(wanted) => expect_sources(rt, graph, wanted),
        Costs(wanted) => expect_placements(rt, graph.rows(), wanted),
        NotLegal(placement) => expect(rt, legal(graph.rows(), placement), false),
        Slots(placement, wanted) => {
            expect_slots(rt, alloc, graph.rows().case(), placement, wanted);
        }
    }
}

fn take_all(rt: &impl Abort, alloc: Global, graph: &mut Graph, steps: &[Step]) {
    for step in steps {
        take(rt, alloc, graph, step);
    }
}

/// A tenant's nodes, arcs, spread, churn, remote and patience, and what is done with its rows.
type Worked = ([u64; 6], &'static [Step]);

fn play(rt: &impl Abort, alloc: Global, (numbers, steps): &Worked) {
    let [nodes, arcs, spread, churn, remote, patience] = *numbers;
    let limits = Limits::check(nodes, arcs, 100, spread, churn, remote);
    let limits = limits.expect(rt, "limits").with_patience(patience);
    let mut graph = opened(rt, alloc, limits.expect(rt, "a patience"));
    take_all(rt, alloc, &mut graph, steps);
}

const LONGEST: u64 = 1_000_000;

static PLAYED: [&Worked; 11] = [
    // Two machines of two slots, a job of weight 10, and tasks of it.
    &(
        [9, 24, 1, 2, 7, LONGEST],
        &[
            Machine(b"m1", 2),
            Machine(b"m2", 2),
            Job(b"j", 10),
            Task(b"j", b"a", &[]),
            Task(b"j", b"b", &[]),
            Network(&TWO_WAITING_TASKS),
            Settle(&[On(0), On(1)]),
            Task(b"j", b"c", &[]),
            Network(&TWO_RUNNING_TASKS),
            Sources(&[5, 6, 7]),
        ],
    ),
    // A task that prefers both machines, waits once and then runs on one.
    &(
        [9, 24, 1, 2, 7, LONGEST],
        &[
            Machine(b"m1", 2),
            Machine(b"m2", 1),
            Job(b"j", 10),
            Task(b"j", b"c", &[b"m2", b"m1", b"m2"]),
            Network(&[
                (1, 2, [0, 2, 0]),
                (2, 0, [0, 1, 0]),
                (2, 0, [0, 1, 1]),
                (1, 3, [0, 1, 0]),
                (3, 0, [0, 1, 0]),
                (4, 0, [0, 9, 0]),
                (5, 3, [0, 1, 0]),
                (5, 2, [0, 1, 0]),
                (5, 4, [0, 1, 10]),
                (5, 1, [0, 0, 0]),
                (5, 1, [0, 1, 7]),
            ]),
            Settle(&[Wait]),
            Settle(&[On(1)]),
            Network(&[
                (1, 2, [0, 2, 0]),
                (2, 0, [0, 1, 0]),
                (2, 0, [0, 1, 1]),
                (1, 3, [0, 1, 0]),
                (3, 0, [0, 1, 0]),
                (4, 0, [0, 9, 0]),
                (5, 3, [0, 1, 2]),
                (5, 2, [0, 1, 2]),
                (5, 4, [0, 1, 12]),
                (5, 3, [0, 1, 0]),
                (5, 1, [0, 1, 9]),
            ]),
        ],
    ),
    // The round by hand of docs/PLACEMENT.md.
    &(
        [9, 24, 3, 2, 0, LONGEST],
        &[
            Machine(b"m2", 2),
            Job(b"web", 10),
            Task(b"web", b"web-1", &[]),
            Task(b"web", b"web-3", &[]),
            Settle(&[On(0), On(0)]),
            Machine(b"m1", 2),
            Costs(&[
                (&[On(0), On(0)], 3),
                (&[On(0), On(1)], 2),
                (&[On(0), Wait], 12),
                (&[On(1), On(0)], 2),
                (&[On(1), On(1)], 7),
                (&[On(1), Wait], 14),
                (&[Wait, On(0)], 12),
                (&[Wait, On(1)], 14),
                (&[Wait, Wait], 24),
            ]),
            NotLegal(&[]),
            NotLegal(&[On(0)]),
            NotLegal(&[On(0), On(1), Wait]),
            NotLegal(&[On(0), On(2)]),
            NotLegal(&[On(u32::MAX), Wait]),
        ],
    ),
    // Its other tenant: a task that waits for more preempts.
    &(
        [9, 24, 0, 3, 0, LONGEST],
        &[
            Machine(b"m1", 1),
            Job(b"low", 2),
            Task(b"low", b"l", &[]),
            Settle(&[On(0)]),
            Job(b"high", 20),
            Task(b"high", b"h", &[]),
            Costs(&[
                (&[On(0), Wait], 20),
                (&[Wait, On(0)], 5),
                (&[Wait, Wait], 25),
            ]),
            NotLegal(&[On(0), On(0)]),
        ],
    ),
    // Its tie, and preferences; then both run, and staying is free.
    &(
        [9, 24, 0, 3, 7, LONGEST],
        &[
            Machine(b"m1", 1),
            Machine(b"m2", 1),
            Job(b"j", 20),
            Task(b"j", b"x", &[b"m2"]),
            Task(b"j", b"y", &[b"m2"]),
            Costs(&[
                (&[On(0), On(1)], 7),
                (&[On(0), Wait], 27),
                (&[On(1), On(0)], 7),
                (&[On(1), Wait], 20),
                (&[Wait, On(0)], 27),
                (&[Wait, On(1)], 20),
                (&[Wait, Wait], 40),
            ]),
            Settle(&[On(0), On(1)]),
            Costs(&[
                (&[On(0), On(1)], 0),
                (&[On(0), Wait], 23),
                (&[On(1), On(0)], 13),
                (&[On(1), Wait], 26),
                (&[Wait, On(1)], 23),
                (&[Wait, On(0)], 33),
                (&[Wait, Wait], 46),
            ]),
        ],
    ),
    // Two equal tasks, of which one runs. The other waits longer than the patience, as long, and without one.
    &(
        [9, 24, 0, 2, 0, 2],
        &[
            Machine(b"m1", 1),
            Job(b"j", 1),
            Task(b"j", b"x", &[]),
            Task(b"j", b"y", &[]),
            Settle(&[On(0), Wait]),
            Settle(&[On(0), Wait]),
            Settle(&[On(0), Wait]),
            Costs(&[(&[On(0), Wait], 3), (&[Wait, On(0)], 3), (&[Wait, Wait], 6)]),
        ],
    ),
    &(
        [9, 24, 0, 2, 0, 3],
        &[
            Machine(b"m1", 1),
            Job(b"j", 1),
            Task(b"j", b"x", &[]),
            Task(b"j", b"y", &[]),
            Settle(&[On(0), Wait]),
            Settle(&[On(0), Wait]),
            Settle(&[On(0), Wait]),
            Costs(&[(&[On(0), Wait], 4), (&[Wait, On(0)], 3), (&[Wait, Wait], 7)]),
        ],
    ),
    &(
        [9, 24, 0, 0, 0, 0],
        &[
            Machine(b"m1", 1),
            Job(b"j", 1),
            Task(b"j", b"x", &[]),
            Task(b"j", b"y", &[]),
            Settle(&[On(0), Wait]),
            Settle(&[On(0), Wait]),
            Costs(&[(&[On(0), Wait], 1), (&[Wait, On(0)], 1), (&[Wait, Wait], 2)]),
        ],
    ),
    // Waits that grow to the cost of a load.
    &(
        [9, 24, 10, 20, 0, LONGEST],
        &[
            Machine(b"m1", 2),
            Job(b"j", 1),
            Task(b"j", b"x", &[]),
            Task(b"j", b"y", &[]),
            Costs(&[
                (&[On(0), On(0)], 10),
                (&[On(0), Wait], 1),
                (&[Wait, On(0)], 1),
                (&[Wait, Wait], 2),
            ]),
            Settle(&[On(0), Wait]),
            Settle(&[On(0), Wait]),
            Settle(&[On(0), Wait]),
            Settle(&[On(0), Wait]),
            Settle(&[On(0), Wait]),
            Settle(&[On(0), Wait]),
            Settle(&[On(0), Wait]),
            Settle(&[On(0), Wait]),
            Settle(&[On(0), Wait]),
            Costs(&[
                (&[On(0), On(0)], 10),
                (&[On(0), Wait], 10),
                (&[Wait, On(0)], 21),
                (&[Wait, Wait], 31),
            ]),
        ],
    ),
    // Without churn a move costs nothing, and the own machine ranks first.
    &(
        [9, 24, 10, 0, 0, LONGEST],
        &[
            Machine(b"m1", 2),
            Machine(b"m2", 2),
            Job(b"j", 50),
            Task(b"j", b"p", &[]),
            Task(b"j", b"q", &[]),
            Settle(&[On(1), On(0)]),
            Costs(&[
                (&[On(1), On(0)], 0),
                (&[On(1), On(1)], 10),
                (&[On(0), On(0)], 10),
                (&[On(0), On(1)], 0),
            ]),
        ],
    ),
    // The round by hand of docs/EXPLAIN.md: rents are 9 to 12, and a further task on a machine costs 3.
    &(
        [60, 400, 3, 5, 0, LONGEST],
        &[
            Machine(b"m1", 2),
            Machine(b"m2", 1),
            Job(b"web", 12),
            Job(b"batch", 4),
            Task(b"web", b"w1", &[]),
            Task(b"batch", b"b1", &[]),
            Task(b"batch", b"b2", &[]),
            Settle(&[On(0), On(0), On(1)]),
            Task(b"web", b"w2", &[]),
            Task(b"web", b"w3", &[]),
            NotLegal(&[On(0), On(0), On(0), Wait, Wait]),
            Costs(&[
                (&[On(0), On(0), On(1), Wait, Wait], 27),
                (&[On(0), Wait, Wait, On(0), On(1)], 21),
                (&[On(0), Wait, Wait, On(1), On(0)], 21),
            ]),
            Slots(&[On(0), Wait, Wait, On(0), On(1)], &[(3, 9), (6, 12)]),
        ],
    ),
];

fn play_all(rt: &impl Abort, alloc: Global, tables: &[&Worked]) {
    for worked in tables {
        play(rt, alloc, worked);
    }
}

#[test]
fn worked_tenants(rt: HostRuntime) {
    play_all(&rt, rt.alloc(), &PLAYED);
}

//! Worked nets: what flows through them, what a search looks at, and an arc whose place is used again.
ghost use Rattle.std.specs.Prelude.{◌≡◌, ◌^◌, ◌<◌, IsTrue};
ghost use Rattle.firm_flow.specs.NetFlow.{AreDistinctNodes};
ghost use Rattle.firm_net.specs.Net.{added_of};
ghost use Rattle.firm_paths.specs.NetArcs.{limits_of};

use super::books::Workspace;
use super::{check, expect};
use Step::{Arcs, Counts, Flows, Nodes, Reused, Searched, Solved};
use Way::{Backward, Forward};
use firm_flow::{
    NoWay, balanced_flows, conserved_where_balanced, differ_only_where_tight,
    least_with_valid_prices, none_where_cut_off, round_a_cycle, solve,
};
use firm_net::{ArcId, ArcRefusal, ArcRow, Arcs as Walk, Net, NoNode, NodeId, NodeRefusal, Way};
use firm_paths::{Step as PathStep, arcs_are_rows, searches_add_up, tight_path};
use std::alloc::Global;
use std::process::Abort;

/// An arc's tail and head, then its lower bound, its capacity and its cost. Nodes and arcs are numbered in the order in
/// which they are added.
pub type Link = (u32, u32, [u32; 3]);

/// A call of a net, and the expected state then.
enum Step {
    /// So many nodes are added.
    Nodes(u32),
    /// Arcs are added, which carry their lower bounds.
    Arcs(&'static [Link]),
    /// A least flow from these nodes to node 0, from nothing: its cost.
    Solved(&'static [usize], Result<i64, NoWay>),
    /// The same: its searches, and their looks.
    Counts(&'static [usize], (u64, u64)),
    /// The flow from an arc on, along it and those after it.
    Flows(usize, &'static [u32]),
    /// A search for a path of no cost from a node to node 0, not along these arcs: how often it looks at an arc, and
    /// the path's steps, if there is a path.
    Searched(usize, &'static [usize], u64, Option<&'static [(usize, Way)]>),
    /// An arc between other nodes than node 0 is added, carries a unit and goes, and one like it takes its place.
    Reused(Link),
}

#[derive(Drop)]
struct World {
    net: Net,
    nodes: Vec<NodeId>,
    arcs: Vec<ArcId>,
}

/// The arc at that place of a list.
fn at<T: Copy>(rt: &impl Abort, list: &[T], number: usize) -> T {
    list.get(number).copied().expect(rt, "it was added")
}

fn all_at<T: Copy>(rt: &impl Abort, alloc: Global, list: &[T], numbers: &[usize]) -> Vec<T> {
    let mut found = Vec::new(alloc);
    for number in numbers {
        found.push(at(rt, list, *number)).expect(rt, "memory");
    }
    found
}

fn row(rt: &impl Abort, nodes: &[NodeId], link: &Link, flow: u32) -> ArcRow {
    let (tail, head, [low, cap, cost]) = *link;
    let (tail, head) = (at(rt, nodes, tail as usize), at(rt, nodes, head as usize));
    ArcRow::new(tail, head, low, cap, cost, flow).expect(rt, "the numbers are in range")
}

fn expect_few_added(rt: &impl Abort, net: &Net)
    ensures { added_of net.now < 2 ^ 62 }
{
    assert!(rt; net.added() < 1_000);
}

fn add_nodes(rt: &impl Abort, world: &mut World, count: u32) {
    for _ in 0..count {
        expect_few_added(rt, &world.net);
        let node = world.net.add_node().expect(rt, "there is room");
        world.nodes.push(node).expect(rt, "memory");
    }
}

fn add(rt: &impl Abort, net: &mut Net, row: ArcRow) -> ArcId {
    expect_few_added(rt, net);
    net.add_arc(row).expect(rt, "there is room")
}

fn add_arcs(rt: &impl Abort, world: &mut World, links: &[Link]) {
    for link in links {
        let row = row(rt, &world.nodes, link, link.2[0]);
        let arc = add(rt, &mut world.net, row);
        world.arcs.push(arc).expect(rt, "memory");
    }
}

/// Whether the sources and the sink are nodes of the net, and no two of them the same.
fn are_distinct(net: &Net, sources: &[NodeId], sink: NodeId) -> bool
    ensures { IsTrue result → AreDistinctNodes net.now sources.now sink }
{
    for i in 0..sources.len() {
        let source = sources[i];
        if net.place(source).is_none() || source == sink || sources[..i].contains(&source) {
            return false;
        }
    }
    net.place(sink).is_some()
}

fn solve_in(
    rt: &impl Abort,
    net: &mut Net,
    space: &mut Workspace,
    sources: &[NodeId],
    sink: NodeId,
) -> Result<i64, NoWay>
    requires { (space.old.prices.limits ≡ limits_of net.old) × (space.old.scratch.limits ≡ limits_of net.old) }
{
    check(rt, are_distinct(net, sources, sink), "the nodes differ");
    solve(net, &mut space.prices, &mut space.scratch, sources, sink)
}

// A least flow's cost, the searches that it took, and their looks.
fn solved(
    rt: &impl Abort,
    alloc: Global,
    world: &mut World,
    sources: &[usize],
) -> (Result<i64, NoWay>, (u64, u64)) {
    let sink = at(rt, &world.nodes, 0);
    let sources = all_at(rt, alloc, &world.nodes, sources);
    let mut space = Workspace::new(rt, alloc, &world.net);
    let answer = solve_in(rt, &mut world.net, &mut space, &sources, sink);
    let counts = (space.scratch.searches(), space.scratch.looks());
    (answer, counts)
}

fn expect_flows(rt: &impl Abort, world: &World, first: usize, flows: &[u32]) {
    for (number, flow) in flows.iter().enumerate() {
        let arc = at(rt, &world.arcs, first.saturating_add(number));
        let row = world.net.arc(arc).expect(rt, "the arc is there");
        // The lower bounds are cleared.
        expect(rt, (row.low(), row.flow()), (0, *flow));
    }
}

// The looks of the search for a path: this one, or none.
fn search_in(
    rt: &impl Abort,
    net: &Net,
    space: &mut Workspace,
    asked: (NodeId, NodeId, &[ArcId]),
    wanted: Option<&[PathStep]>,
) -> u64
    requires { (space.old.prices.limits ≡ limits_of net.now) × (space.old.scratch.limits ≡ limits_of net.now) }
{
    let (from, to, barred) = asked;
    check(rt, from != to, "the nodes differ");
    check(rt, net.place(from).is_some(), "the first node is there");
    check(rt, net.place(to).is_some(), "the last node is there");
    let (prices, scratch) = (&space.prices, &mut space.scratch);
    let found = tight_path(scratch, net, prices, from, to, barred);
    expect(rt, found, wanted);
    expect(rt, space.scratch.searches(), 1);
    space.scratch.looks()
}

fn steps_at(
    rt: &impl Abort,
    alloc: Global,
    arcs: &[ArcId],
    steps: &[(usize, Way)],
) -> Vec<PathStep> {
    let mut found = Vec::new(alloc);
    for (number, way) in steps {
        let step = PathStep {
            arc: at(rt, arcs, *number),
            way: *way,
        };
        found.push(step).expect(rt, "memory");
    }
    found
}

fn looks(
    rt: &impl Abort,
    alloc: Global,
    world: &World,
    (from, barred): (usize, &[usize]),
    steps: Option<&[(usize, Way)]>,
) -> u64 {
    let (from, to) = (at(rt, &world.nodes, from), at(rt, &world.nodes, 0));
    let barred = all_at(rt, alloc, &world.arcs, barred);
    let mut space = Workspace::new(rt, alloc, &world.net);
    let asked = (from, to, &barred[..]);
    match steps {
        Some(steps) => {
            let steps = steps_at(rt, alloc, &world.arcs, steps);
            search_in(rt, &world.net, &mut space, asked, Some(&steps))
        }
        None => search_in(rt, &world.net, &mut space, asked, None),
    }
}

// An arc that went answers no more, though the one that has its place might be changed like that.
fn expect_gone(rt: &impl Abort, net: &mut Net, arc: ArcId, head: NodeId) {
    expect(rt, net.arc(arc), None);
    expect(rt, net.remove_arc(arc), None);
    expect(rt, net.set(arc, 0, 1, 1, 0), false);
    expect(rt, net.push(arc, Way::Forward), false);
    expect(rt, net.retarget(arc, head), false);
}

// The third node is at neither end of the arc.
fn reuse(rt: &impl Abort, net: &mut Net, row: ArcRow, full: ArcRow, third: NodeId) {
    let first = add(rt, net, row);
    let used = net.used();
    expect(rt, net.push(first, Way::Forward), true);
    expect(rt, net.remove_arc(first), Some(full));
    let second = add(rt, net, row);
    expect(rt, (net.used(), first == second), (used, false));
    expect_gone(rt, net, first, third);
    expect(rt, net.arc(second), Some(row));
}

fn reuse_like(rt: &impl Abort, world: &mut World, link: &Link) {
    let (row, full) = (
        row(rt, &world.nodes, link, 0),
        row(rt, &world.nodes, link, 1),
    );
    let third = at(rt, &world.nodes, 0);
    reuse(rt, &mut world.net, row, full, third);
}

fn take(rt: &impl Abort, alloc: Global, world: &mut World, step: &Step) {
    match step {
        Nodes(count) => add_nodes(rt, world, *count),
        Arcs(links) => add_arcs(rt, world, links),
        Solved(sources, wanted) => expect(rt, solved(rt, alloc, world, sources).0, *wanted),
        Counts(sources, wanted) => expect(rt, solved(rt, alloc, world, sources).1, *wanted),
        Flows(first, flows) => expect_flows(rt, world, *first, flows),
        Searched(from, barred, wanted, steps) => {
            let found = looks(rt, alloc, world, (*from, barred), *steps);
            expect(rt, found, *wanted);
        }
        Reused(link) => reuse_like(rt, world, link),
    }
}

fn take_all(rt: &impl Abort, alloc: Global, world: &mut World, steps: &[Step]) {
    for step in steps {
        take(rt, alloc, world, step);
    }
}

// Takes the steps with an empty net.
fn play(rt: &impl Abort, alloc: Global, steps: &[Step]) {
    let mut world = World {
        net: Net::new(alloc, 8, 16).expect(rt, "memory"),
        nodes: Vec::new(alloc),
        arcs: Vec::new(alloc),
    };
    take_all(rt, alloc, &mut world, steps);
}

/// The network of two machines of 2 slots, one job of weight 10, and two tasks that wait. Nodes: the sink, the hub, the
/// two machines, the job, the two tasks.
pub const TWO_WAITING_TASKS: [Link; 13] = [
    (1, 2, [0, 2, 0]),
    (2, 0, [0, 1, 0]),
    (2, 0, [0, 1, 1]),
    (1, 3, [0, 2, 0]),
    (3, 0, [0, 1, 0]),
    (3, 0, [0, 1, 1]),
    (4, 0, [0, 9, 0]),
    (5, 4, [0, 1, 10]),
    (5, 1, [0, 0, 0]),
    (5, 1, [0, 1, 0]),
    (6, 4, [0, 1, 10]),
    (6, 1, [0, 0, 0]),
    (6, 1, [0, 1, 0]),
];

/// The same where the two tasks run, one on each machine, and a third waits.
pub const TWO_RUNNING_TASKS: [Link; 16] = [
    (1, 2, [0, 2, 0]),
    (2, 0, [0, 1, 0]),
    (2, 0, [0, 1, 1]),
    (1, 3, [0, 2, 0]),
    (3, 0, [0, 1, 0]),
    (3, 0, [0, 1, 1]),
    (4, 0, [0, 9, 0]),
    (5, 4, [0, 1, 12]),
    (5, 2, [0, 1, 0]),
    (5, 1, [0, 1, 2]),
    (6, 4, [0, 1, 12]),
    (6, 3, [0, 1, 0]),
    (6, 1, [0, 1, 2]),
    (7, 4, [0, 1, 10]),
    (7, 1, [0, 0, 0]),
    (7, 1, [0, 1, 0]),
];

// Each begins with a net of no nodes.
static PLAYED: [&[Step]; 14] = [
    &[
        Nodes(7),
        Arcs(&TWO_WAITING_TASKS),
        Solved(&[5, 6], Ok(0)),
        Solved(&[], Ok(0)),
    ],
    // The running tasks stay, and the third goes by the hub.
    &[
        Nodes(8),
        Arcs(&TWO_RUNNING_TASKS),
        Solved(&[5, 6, 7], Ok(1)),
        Flows(7, &[0, 1, 0, 0, 1, 0, 0, 0, 1]),
        Solved(&[], Ok(0)),
        Flows(0, &[0; 16]),
    ],
    // Two arcs meet at a node, and one of a unit leads on.
    &[
        Nodes(4),
        Arcs(&[(1, 3, [0, 1, 1]), (2, 3, [0, 1, 1]), (3, 0, [0, 1, 1])]),
        Solved(&[1], Ok(2)),
        Flows(0, &[1, 0, 1]),
        // If there is no way for both, none is left half done.
        Solved(&[1, 2], Err(NoWay)),
        Flows(0, &[0, 0, 0]),
        // One look at the source, and three at the node between it and the sink.
        Counts(&[1], (1, 4)),
        // The second search goes from its source to the node between, and back to the first source.
        Counts(&[1, 2], (2, 9)),
    ],
    // No arc enters the sink.
    &[
        Nodes(3),
        Arcs(&[(1, 2, [0, 2, 0]), (0, 2, [0, 2, 0])]),
        Solved(&[1], Err(NoWay)),
    ],
    &[Nodes(3), Solved(&[1, 2], Err(NoWay))],
    &[Nodes(1), Solved(&[], Ok(0))],
    // Alone, node 1 goes by node 3. Node 2 has no other way, so node 1 then goes by node 4.
    &[
        Nodes(5),
        Arcs(&[
            (1, 3, [0, 1, 1]),
            (1, 4, [0, 1, 5]),
            (2, 3, [0, 1, 0]),
            (3, 0, [0, 1, 0]),
            (4, 0, [0, 1, 0]),
        ]),
        Solved(&[1], Ok(1)),
        Solved(&[1, 2], Ok(5)),
        Flows(0, &[0, 1, 1, 1, 1]),
    ],
    // A cycle that costs 0, beside the way.
    &[
        Nodes(4),
        Arcs(&[
            (1, 2, [0, 2, 0]),
            (2, 3, [0, 2, 0]),
            (3, 1, [0, 2, 0]),
            (2, 0, [0, 1, 4]),
        ]),
        Solved(&[1], Ok(4)),
        Solved(&[1, 3], Err(NoWay)),
    ],
    // Two ways of cost 5, and one of 6.
    &[
        Nodes(4),
        Arcs(&[
            (1, 2, [0, 1, 2]),
            (2, 0, [0, 1, 3]),
            (1, 3, [0, 1, 3]),
            (3, 0, [0, 1, 2]),
            (1, 0, [0, 1, 6]),
        ]),
        Solved(&[1], Ok(5)),
        Solved(&[1, 2], Ok(8)),
        Solved(&[1, 2, 3], Ok(11)),
    ],
    // The cheaper of two parallel arcs is filled first.
    &[
        Nodes(3),
        Arcs(&[(1, 0, [0, 1, 9]), (1, 0, [0, 1, 1]), (2, 1, [0, 2, 0])]),
        Solved(&[2], Ok(1)),
        Solved(&[1, 2], Ok(10)),
        Flows(0, &[1, 1, 1]),
    ],
    // With its lower bound kept, the dear arc would carry two units.
    &[
        Nodes(2),
        Arcs(&[(1, 0, [2, 2, 3_000_000]), (1, 0, [1, 4_096, 7])]),
        Solved(&[1], Ok(7)),
        Flows(0, &[0, 1]),
    ],
    // Two ways of no cost, and a direct one that costs. A search goes back from its end.
    &[
        Nodes(5),
        Arcs(&[
            (1, 2, [0, 1, 0]),
            (2, 0, [0, 1, 0]),
            (1, 3, [0, 1, 0]),
            (3, 0, [0, 1, 0]),
            (1, 0, [0, 1, 6]),
        ]),
        // Three arcs at the end, and two at each of the nodes in the middle, though the start was seen from the first.
        Searched(1, &[], 7, Some(&[(2, Forward), (3, Forward)])),
        // A barred arc is looked at, and leads to no node.
        Searched(1, &[0], 7, Some(&[(2, Forward), (3, Forward)])),
        Searched(1, &[2], 7, Some(&[(0, Forward), (1, Forward)])),
        Searched(1, &[1, 3], 3, None),
        Searched(4, &[], 10, None),
    ],
    // A path goes back along an arc that carries a unit.
    &[
        Nodes(3),
        Arcs(&[(1, 2, [0, 1, 0]), (2, 0, [0, 1, 0])]),
        Solved(&[1], Ok(0)),
        Arcs(&[(1, 0, [0, 1, 0])]),
        Searched(2, &[], 4, Some(&[(0, Backward), (2, Forward)])),
    ],
    // The place of an arc that went is used again.
    &[
        Nodes(3),
        Arcs(&[(2, 1, [0, 2, 5])]),
        Reused((1, 2, [0, 2, 5])),
    ],
];

fn play_all(rt: &impl Abort, alloc: Global, tables: &[&[Step]]) {
    for steps in tables {
        play(rt, alloc, steps);
    }
}

#[test]
fn worked_nets(rt: HostRuntime) {
    play_all(&rt, rt.alloc(), &PLAYED);
}

fn add_node(rt: &impl Abort, net: &mut Net) -> Result<NodeId, NoNode> {
    expect_few_added(rt, net);
    net.add_node()
}

// A walk is over this arc alone, or over none.
fn expect_walk(rt: &impl Abort, walk: Walk<'_>, wanted: Option<ArcId>) {
    let mut left = wanted;
    for (arc, _) in walk {
        expect(rt, left, Some(arc));
        left = None;
    }
    expect(rt, left, None);
}

// Two nodes and an arc of a unit between them: there is room for no more.
fn fill(rt: &impl Abort, net: &mut Net) -> (NodeId, NodeId, ArcId) {
    let tail = add_node(rt, net).expect(rt, "there is room");
    let head = add_node(rt, net).expect(rt, "there is room");
    expect(rt, add_node(rt, net), Err(NoNode));
    let row = ArcRow::new(tail, head, 0, 1, 5, 0).expect(rt, "the numbers are in range");
    let arc = add(rt, net, row);
    expect_few_added(rt, net);
    expect(rt, net.add_arc(row), Err(ArcRefusal::NoArc));
    (tail, head, arc)
}

fn push_and_remove(rt: &impl Abort, net: &mut Net, (tail, head, arc): (NodeId, NodeId, ArcId)) {
    expect(rt, net.push(arc, Way::Forward), true);
    expect(rt, net.push(arc, Way::Forward), false);
    expect(rt, net.push(arc, Way::Backward), true);
    expect(rt, net.push(arc, Way::Backward), false);
    expect_walk(rt, net.out_arcs(tail), Some(arc));
    expect_walk(rt, net.in_arcs(head), Some(arc));
    expect(rt, net.remove_arc(arc).is_some(), true);
    expect_walk(rt, net.out_arcs(tail), None);
    expect_walk(rt, net.in_arcs(head), None);
}

#[test]
fn one_arc_between_two_nodes(rt: HostRuntime) {
    let mut net = Net::new(rt.alloc(), 2, 1).expect(&rt, "memory");
    let ends = fill(&rt, &mut net);
    expect(&rt, net.remove_node(ends.0), Err(NodeRefusal::Busy));
    push_and_remove(&rt, &mut net, ends);
    expect(&rt, net.remove_node(ends.0), Ok(()));
    expect(&rt, net.remove_node(ends.0), Err(NodeRefusal::Gone));
}

#[test]
fn the_laws_may_be_called() {
    arcs_are_rows();
    searches_add_up();
    least_with_valid_prices();
    differ_only_where_tight();
    none_where_cut_off();
    balanced_flows::<u32, u64>();
    conserved_where_balanced();
    round_a_cycle();
}

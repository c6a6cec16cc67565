//! Rounds that are proposed, beside the network's.
use super::books::{add_job, add_machine, add_task, numbered, opened, settle};
use super::canon::placement_of;
use super::random::Random;
use super::{check, expect};
use firm_graph::Graph;
use firm_levels::{Allowance, Work};
use firm_proposals::Proposer;
use firm_rents::shows_first;
use firm_rules::{Case, Choice, Limits, Name, Preferred, Rows, use_of};
use std::alloc::Global;
use std::process::Abort;

/// Greatest numbers of a book's machines and tasks.
const MOST_MACHINES: u32 = 8;

const MOST_TASKS: u32 = 24;

/// A book's graph, and what proposes its rounds, in boxes: a proof of a function that owns them follows no field.
#[derive(Drop)]
struct Book {
    graph: Box<Graph>,
    proposer: Box<Proposer>,
}

fn proposer_of(rt: &impl Abort, alloc: Global, limits: Limits) -> Box<Proposer> {
    let proposer = Proposer::new(alloc, limits).expect(rt, "memory");
    Box::new(alloc, proposer).expect(rt, "memory")
}

fn book_of(rt: &impl Abort, alloc: Global, limits: Limits) -> Book {
    Book {
        graph: opened(rt, alloc, limits),
        proposer: proposer_of(rt, alloc, limits),
    }
}

// A proposer that is made for just these rows.
fn fitting(rt: &impl Abort, alloc: Global, rows: &Rows) -> Box<Proposer> {
    let used = use_of(rows);
    let limits = Limits::check(used.nodes, used.arcs, 1, 0, 0, 0).expect(rt, "limits");
    proposer_of(rt, alloc, limits)
}

// Work of which nothing is to be given up.
fn ample() -> Work {
    Work::new(Allowance {
        searches: 1_000_000,
        looks: 1_000_000,
    })
}

// The proposal is the round's placement, and shown to be.
fn expect_shown(rt: &impl Abort, proposer: &Proposer, case: &Case, wanted: &[Choice]) {
    let placement = proposer.placement();
    check(rt, placement == wanted, "the round's placement");
    let is_shown = shows_first(case, proposer.rents(), placement, &mut ample());
    check(rt, is_shown, "a placement that is shown");
}

// Whether a round is proposed with the hub's price of the last one, and shown.
fn is_first(proposer: &mut Proposer, case: &Case, work: &mut Work) -> bool {
    let hint = proposer.hub_price();
    proposer.propose(case, hint, work)
        && shows_first(case, proposer.rents(), proposer.placement(), work)
}

// The round is proposed from the last one, and shown.
fn expect_first(rt: &impl Abort, proposer: &mut Proposer, case: &Case, wanted: &[Choice]) {
    let is_shown = is_first(proposer, case, &mut ample());
    check(rt, is_shown, "a shown proposal");
    expect_shown(rt, proposer, case, wanted);
}

// So it is from nothing, and from its own price of the hub.
fn expect_proposed(rt: &impl Abort, proposer: &mut Proposer, case: &Case, wanted: &[Choice]) {
    let price = proposer.hub_price();
    check(rt, price.is_some(), "the hub has a price");
    expect(rt, proposer.propose(case, None, &mut ample()), true);
    expect_shown(rt, proposer, case, wanted);
    expect(rt, proposer.propose(case, price, &mut ample()), true);
    expect_shown(rt, proposer, case, wanted);
}

// Whether a proposal with this many looks is none; else it is the round's.
fn is_cut_off(
    rt: &impl Abort,
    proposer: &mut Proposer,
    case: &Case,
    looks: u64,
    wanted: &[Choice],
) -> bool {
    let searches = 1_000;
    let mut work = Work::new(Allowance { searches, looks });
    if proposer.propose(case, None, &mut work) {
        expect_shown(rt, proposer, case, wanted);
        return false;
    }
    true
}

// One round of a book, which becomes its own. Says whether a proposal was cut off.
fn compare(rt: &impl Abort, alloc: Global, book: &mut Book, looks: u64) -> bool {
    let wanted = placement_of(rt, alloc, &mut book.graph);
    let rows = book.graph.rows();
    let is_cut_off = is_cut_off(rt, &mut book.proposer, rows.case(), looks, &wanted);
    expect_first(rt, &mut book.proposer, rows.case(), &wanted);
    expect_proposed(rt, &mut book.proposer, rows.case(), &wanted);
    expect_first(rt, &mut fitting(rt, alloc, rows), rows.case(), &wanted);
    settle(rt, &mut book.graph, &wanted);
    is_cut_off
}

// The name of a machine, of those that a book may have.
fn machine(rt: &impl Abort, random: &mut Random) -> Name {
    numbered(rt, random.below(MOST_MACHINES))
}

fn random_preferred(rt: &impl Abort, graph: &Graph, random: &mut Random) -> Preferred {
    let mut preferred = Preferred::new();
    for _ in 0..random.below(5) {
        let machine = machine(rt, random);
        if graph.rows().has_machine(machine) && preferred.len() < 4 {
            preferred.add(machine);
        }
    }
    preferred
}

// Removes some of the tasks and a machine, where they are there.
fn remove_some(rt: &impl Abort, graph: &mut Graph, random: &mut Random) {
    for _ in 0..random.below(6) {
        let task = numbered(rt, random.below(MOST_TASKS));
        if graph.rows().has_task(task) {
            graph.drop_task(task);
        }
    }
    let machine = machine(rt, random);
    if graph.rows().has_machine(machine) {
        graph.drop_machine(machine);
    }
}

// Adds a task that is not there to one of three jobs.
fn add_random_task(rt: &impl Abort, graph: &mut Graph, random: &mut Random) {
    let job = numbered(rt, random.below(3));
    add_job(rt, graph, job, random.one_to(9));
    let preferred = random_preferred(rt, graph, random);
    let task = numbered(rt, random.below(MOST_TASKS));
    add_task(rt, graph, job, task, preferred);
}

// Adds machines and tasks that are not there, after some of those that are have gone.
fn change(rt: &impl Abort, alloc: Global, graph: &mut Graph, random: &mut Random) {
    remove_some(rt, graph, random);
    for _ in 0..random.below(MOST_MACHINES) {
        let machine = machine(rt, random);
        add_machine(rt, alloc, graph, machine, random.one_to(4));
    }
    for _ in 0..random.below(MOST_TASKS) {
        add_random_task(rt, graph, random);
    }
}

// Four rounds of a book. Says how many proposals were cut off.
fn compare_rounds(rt: &impl Abort, alloc: Global, book: &mut Book, random: &mut Random) -> u64 {
    let mut cut_off = 0_u64;
    for _ in 0..4 {
        change(rt, alloc, &mut book.graph, random);
        let looks = u64::from(random.below(2_000));
        let is_cut_off = compare(rt, alloc, book, looks);
        cut_off = cut_off.saturating_add(u64::from(is_cut_off));
    }
    cut_off
}

// Limits of a small spread, churn and remote, at which many placements cost as much.
fn random_limits(rt: &impl Abort, random: &mut Random) -> Limits {
    let spread = u64::from(random.below(4));
    let churn = u64::from(random.below(3));
    let remote = u64::from(random.below(4));
    Limits::check(80, 400, 1_000, spread, churn, remote).expect(rt, "limits")
}

fn compare_new(rt: &impl Abort, alloc: Global, random: &mut Random) -> u64 {
    let limits = random_limits(rt, random);
    let mut book = book_of(rt, alloc, limits);
    compare_rounds(rt, alloc, &mut book, random)
}

#[test]
fn proposals_are_the_rounds_of_the_network(rt: HostRuntime) {
    let mut random = Random::new(2_026);
    let mut cut_off = 0_u64;
    for _ in 0..60 {
        cut_off = cut_off.saturating_add(compare_new(&rt, rt.alloc(), &mut random));
    }
    check(&rt, cut_off > 20, "many are cut off");
}

// Adds a job with one task, both of this number, which prefers two of eight machines.
fn add_alone(rt: &impl Abort, graph: &mut Graph, number: u32, weight: u64) {
    let first = number % 8 * 7;
    let mut preferred = Preferred::new();
    preferred.add(numbered(rt, first % 8));
    preferred.add(numbered(rt, (first + 3) % 8));
    let name = numbered(rt, number);
    add_job(rt, graph, name, weight);
    add_task(rt, graph, name, name, preferred);
}

// Eight full machines: each task is of a job of its own, the later the heavier.
fn fill_machines(rt: &impl Abort, alloc: Global, graph: &mut Graph) {
    for number in 0..8 {
        add_machine(rt, alloc, graph, numbered(rt, number), 3);
    }
    for number in 0..24 {
        add_alone(rt, graph, number, u64::from(number) + 1);
    }
}

fn place_crowd(rt: &impl Abort, alloc: Global, book: &mut Book) {
    fill_machines(rt, alloc, &mut book.graph);
    compare(rt, alloc, book, 0);
    for number in 24..44 {
        add_alone(rt, &mut book.graph, number, 900);
    }
    let mut work = ample();
    let case = book.graph.rows().case();
    expect_no_search(rt, &mut book.proposer, case);
    let is_proposed = is_first(&mut book.proposer, case, &mut work);
    check(rt, is_proposed, "a round is proposed");
    check(rt, work.searches() < 20, "a crowd takes few searches");
}

// If no search is allowed none is made, though some of the tasks have no slot.
fn expect_no_search(rt: &impl Abort, proposer: &mut Proposer, case: &Case) {
    let looks = 1_000_000;
    let mut work = Work::new(Allowance { searches: 0, looks });
    let is_proposed = proposer.propose(case, None, &mut work);
    check(rt, !is_proposed, "a search is refused");
    expect(rt, work.searches(), 0);
    check(rt, work.looks() > 3 * 44, "each task is looked at");
}

// Work of which this much is allowed.
fn allowed(searches: u64, looks: u64) -> Work {
    Work::new(Allowance { searches, looks })
}

/// All that is allowed is made and counted. What is not is refused, and the work is then short.
#[test]
fn work_is_counted_up_to_what_is_allowed(rt: HostRuntime) {
    let mut work = allowed(2, 7);
    check(
        &rt,
        work.begin_search() && work.begin_search(),
        "two searches",
    );
    expect(&rt, work.pass(4), 4);
    check(&rt, work.look() && !work.is_short(), "the last look");
    expect(&rt, work.searches(), 2);
    expect(&rt, work.looks(), 7);
    let mut work = allowed(1, 1);
    expect(&rt, work.pass(2), 0);
    check(&rt, work.is_short() && work.look(), "a pass is refused");
    let mut work = allowed(1, 0);
    check(&rt, !work.look() && work.is_short(), "a look is refused");
    let mut work = allowed(0, 1);
    check(
        &rt,
        !work.begin_search() && work.is_short(),
        "a search is refused",
    );
}

/// Heavier tasks that come to full machines take the places of the lightest, without a search for each.
#[test]
fn a_crowd_is_placed_by_few_searches(rt: HostRuntime) {
    let limits = Limits::check(100, 400, 1_000, 0, 0, 1_000).expect(&rt, "limits");
    let mut book = book_of(&rt, rt.alloc(), limits);
    place_crowd(&rt, rt.alloc(), &mut book);
}

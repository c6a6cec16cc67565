//! Graphs of small books: what is added, removed and settled, and prices and room for searches in their nets.
ghost use Rattle.std.specs.Prelude.{◌≡◌};
ghost use Rattle.firm_paths.specs.NetArcs.{limits_of};

use super::check;
use firm_graph::Graph;
use firm_net::Net;
use firm_paths::{Prices, Scratch};
use firm_rules::{Choice, Limits, Name, Preferred, Slots, Weight, legal};
use std::alloc::Global;
use std::process::Abort;

pub fn name(rt: &impl Abort, bytes: &[u8]) -> Name {
    Name::read(bytes).expect(rt, "a name")
}

/// A name of two digits.
pub fn numbered(rt: &impl Abort, number: u32) -> Name {
    let tens = b'0' + (number / 10 % 10) as u8;
    let ones = b'0' + (number % 10) as u8;
    name(rt, &[tens, ones])
}

/// The graph of an empty book, in a box: the proof of a function that owns it follows no field of it.
pub fn opened(rt: &impl Abort, alloc: Global, limits: Limits) -> Box<Graph> {
    let graph = Graph::open(alloc, limits).expect(rt, "memory");
    Box::new(alloc, graph).expect(rt, "memory")
}

/// Adds a machine that is not there.
pub fn add_machine(rt: &impl Abort, alloc: Global, graph: &mut Graph, name: Name, slots: u64) {
    let slots = Slots::check(slots).expect(rt, "slots");
    if graph.rows().has_machine(name) {
        return;
    }
    check(rt, graph.asked() < 1_000, "few changes were asked for");
    let is_added = graph.add_machine(alloc, name, slots).is_ok();
    check(rt, is_added, "a machine has room");
}

/// Adds a job that is not there.
pub fn add_job(rt: &impl Abort, graph: &mut Graph, name: Name, weight: u64) {
    let weight = Weight::check(weight).expect(rt, "a weight");
    if graph.rows().has_job(name) {
        return;
    }
    check(rt, graph.asked() < 1_000, "few changes were asked for");
    check(rt, graph.add_job(name, weight).is_ok(), "a job has room");
}

/// Adds a task that is not there to a job that is. The machines that it prefers are there.
pub fn add_task(rt: &impl Abort, graph: &mut Graph, job: Name, name: Name, preferred: Preferred) {
    let rows = graph.rows();
    if !rows.has_job(job) || rows.has_task(name) {
        return;
    }
    check(rt, rows.has_machines(preferred.as_slice()), "the machines");
    check(rt, graph.asked() < 1_000, "few changes were asked for");
    let is_added = graph.add_task(job, name, preferred).is_ok();
    check(rt, is_added, "a task has room");
}

/// A placement becomes that of the book.
pub fn settle(rt: &impl Abort, graph: &mut Graph, placement: &[Choice]) {
    check(rt, legal(graph.rows(), placement), "the placement is legal");
    graph.settle(placement);
}

/// Prices of 0 for the nodes of a net, and room for searches in it.
#[derive(Drop)]
pub struct Workspace {
    pub prices: Prices,
    pub scratch: Scratch,
}

impl Workspace {
    pub fn new(rt: &impl Abort, alloc: Global, net: &Net) -> Workspace
        ensures { (result.prices.limits ≡ limits_of net.now) × (result.scratch.limits ≡ limits_of net.now) }
    {
        let prices = Prices::new(alloc, net).expect(rt, "memory");
        let scratch = Scratch::new(alloc, net).expect(rt, "memory");
        Workspace { prices, scratch }
    }
}

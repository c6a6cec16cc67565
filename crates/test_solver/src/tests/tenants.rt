//! The work of a tenant's round: a proposal, or searches after one that was given up.
use super::books::{name, numbered};
use super::canon::Counts;
use super::{check, expect};
use firm_rules::{Command, Limits, Outcome, Preferred, Slots, Weight};
use firm_tenant::Tenant;
use std::alloc::Global;
use std::process::Abort;

// Gives a command that is not refused.
fn give(rt: &impl Abort, alloc: Global, tenant: &mut Tenant, command: Command) {
    let reply = tenant.step(alloc, command);
    let is_refused = matches!(&reply.outcome, Outcome::Refused(_));
    check(rt, !is_refused, "the command is granted");
}

/// Machines of two slots and waiting tasks, with names of two digits.
fn add_many(rt: &impl Abort, alloc: Global, tenant: &mut Tenant, machines: u32, tasks: u32) {
    let job = name(rt, b"j");
    let weight = Weight::check(100).expect(rt, "a weight");
    let slots = Slots::check(2).expect(rt, "slots");
    give(rt, alloc, tenant, Command::AddJob(job, weight));
    for number in 0..machines {
        let machine = numbered(rt, number);
        give(rt, alloc, tenant, Command::AddMachine(machine, slots));
    }
    for number in 0..tasks {
        let task = numbered(rt, number);
        let command = Command::AddTask(job, task, Preferred::new());
        give(rt, alloc, tenant, command);
    }
}

/// A tenant's nodes and arcs, its machines and tasks, the looks that its proposal may take with its check, and what its
/// first round takes: searches and their looks, and the looks of the proposal and its check.
type Counted = ([u64; 2], [u32; 2], u64, Counts, u64);

fn play(rt: &impl Abort, alloc: Global, (room, rows, allowed, wanted, proposed): &Counted) {
    let [nodes, arcs] = *room;
    let [machines, tasks] = *rows;
    let limits = Limits::check(nodes, arcs, 100, 1, 2, 7).expect(rt, "limits");
    let mut tenant = Tenant::admit(alloc, limits).expect(rt, "memory");
    tenant.allow_proposals(*allowed);
    add_many(rt, alloc, &mut tenant, machines, tasks);
    give(rt, alloc, &mut tenant, Command::Round);
    let scratch = tenant.scratch();
    // Of all commands the round alone begins a count.
    expect(rt, scratch.begins(), 1);
    expect(rt, (scratch.searches(), scratch.looks()), *wanted);
    expect(rt, tenant.proposed(), *proposed);
}

// A round is proposed and shown by this many looks, or takes these searches and their looks. A proposal that may read
// its tasks and machines but not their ways counts them and comes to nothing.
static COUNTED: [Counted; 6] = [
    ([9, 24], [2, 2], u64::MAX, (0, 0), 113),
    ([9, 24], [2, 2], 0, (3, 47), 0),
    ([9, 24], [2, 2], 4, (3, 47), 4),
    ([33, 91], [10, 20], u64::MAX, (0, 0), 617),
    ([33, 91], [10, 20], 0, (20, 1321), 0),
    ([33, 91], [10, 20], 39, (20, 1321), 30),
];

#[test]
fn what_a_round_takes_is_counted(rt: HostRuntime) {
    for counted in &COUNTED {
        play(&rt, rt.alloc(), counted);
    }
}

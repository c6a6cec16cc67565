//! Gathering the passes of a queue, and taking the jobs that are left.
ghost use Rattle.std.specs.Prelude.{◌≡◌, ℕ, ◌+◌, ◌<◌, ◌≤◌, [], map, length, All, vec_capacity};
ghost use Rattle.crossbeam_queue.specs.Passes.{view, IsPassOf};
ghost use Rattle.firm_rounds.specs.declared.protocol.Share.{Share};
ghost use Rattle.firm_rules.specs.declared.tickets.Ticket.{Ticket};
ghost use Rattle.firm_rounds.specs.Rounds.{weigh, share, put_by, got_by, is_at, beyond};
ghost use Rattle.firm_rounds.specs.Rule.{FewGot};
ghost use Rattle.firm_rounds.specs.Passes.{spent_put, spent_pop};
ghost use Rattle.firm_rounds.specs.Closed.{job_weight};
ghost use Rattle.firm_rounds.specs.inner.Gathered.{AddsPops, HasAll};

use crate::job::Job;
use crate::passes::{PopPass, PutPass};
use crate::protocol::{Ends, QueueSeat, Ring, Whole};
use std::sync::Wait;

// Moves the shares of these passes to the keeping seat.
fn give_puts(ring: &Ring, keep: &mut QueueSeat, passes: &mut [PutPass])
    requires keep { IsPassOf ring.now keep.old × (0 < length (view keep.old).shares) }
    requires passes { All (λ p. (p.queue.table ≡ ring.now.table.shared.table_id) × (0 < p.queue.all)) passes.old }
    ensures keep { IsPassOf ring.now keep.new × ((view keep.new).all ≡ (view keep.old).all)
        × (0 < length (view keep.new).shares) }
    ensures shares { (f : Share → ℕ) → weigh f (view keep.new).shares ≡ weigh f (view keep.old).shares
        + weigh (λ p. f (share p.place p.put [])) passes.old }
    ensures passes { passes.new ≡ map spent_put passes.old }
{
    for i in 0..passes.len() {
        let pass = &mut passes[i];
        let seat = pass.give(ring);
        ring.absorb::<Whole>(keep, seat);
    }
}

fn give_pops(ring: &Ring, keep: &mut QueueSeat, passes: &mut [PopPass])
    requires keep { IsPassOf ring.now keep.old × (0 < length (view keep.old).shares) }
    requires passes { All (λ p. (p.queue.table ≡ ring.now.table.shared.table_id) × (0 < p.queue.all)) passes.old }
    ensures keep { IsPassOf ring.now keep.new × ((view keep.new).all ≡ (view keep.old).all)
        × (0 < length (view keep.new).shares) }
    ensures shares { AddsPops (view keep.old) (view keep.new) passes.old }
    ensures passes { passes.new ≡ map spent_pop passes.old }
{
    for i in 0..passes.len() {
        let pass = &mut passes[i];
        let seat = pass.give(ring);
        ring.absorb::<Whole>(keep, seat);
    }
}

// A seat with the shares of all these passes.
pub(crate) fn gather(
    ring: &Ring,
    put_count: usize,
    pop_count: usize,
    puts: &mut [PutPass],
    pops: &mut [PopPass],
) -> QueueSeat
    requires puts { (0 < pop_count) × All (λ p. (p.queue.table ≡ ring.now.table.shared.table_id)
        × (p.queue.all ≡ put_count + pop_count)) puts.old }
    requires pops { (0 < length pops.old) × All (λ p. (p.queue.table ≡ ring.now.table.shared.table_id)
        × (p.queue.all ≡ put_count + pop_count)) pops.old }
    ensures seat { IsPassOf ring.now result × ((view result).all ≡ put_count + pop_count) }
    ensures shares { HasAll (view result) puts.old pops.old }
    ensures puts { puts.new ≡ map spent_put puts.old }
    ensures pops { pops.new ≡ map spent_pop pops.old }
{
    let (head, rest) = pops.split_at_mut(1);
    let first = &mut head[0];
    let mut keep = first.give(ring);
    give_puts(ring, &mut keep, puts);
    give_pops(ring, &mut keep, rest);
    keep
}

// Takes the jobs that stand in the queue, front first.
pub(crate) fn drain<R: Wait>(rt: &R, ring: &Ring, keep: QueueSeat, jobs: Vec<Job>) -> Vec<Job>
    requires seat { IsPassOf ring.now keep × ((view keep).all ≤ length (view keep).shares) × (0 < (view keep).all) }
    requires room { (jobs.items ≡ []) × (8 ≤ vec_capacity jobs) }
    ensures balanced { (h : Ticket → ℕ) → weigh (put_by h) (view keep).shares ≡ weigh (got_by h) (view keep).shares
        + job_weight h result.items }
    ensures placed { (place : ℕ) → place < beyond → weigh (is_at place) (view keep).shares ≤ 1 }
    ensures few { FewGot (view keep) }
{
    let mut keep = keep;
    let mut jobs = jobs;
    ring.learn_as::<Ends>(&mut keep);
    for _ in 0..8usize {
        match ring.pop_as::<Ends, R>(rt, &mut keep) {
            Some(parts) => jobs.push_reserved(Job::of_parts(parts)),
            None => return jobs,
        }
    }
    ring.learn_as::<Ends>(&mut keep);
    jobs
}

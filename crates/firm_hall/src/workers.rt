//! The workers of a hall.
ghost use Rattle.std.specs.Prelude.{◌≡◌, ◌++◌, List, length, ◌∷◌, [], ◌<◌, ℕ, false};
ghost use Rattle.firm_rules.specs.declared.tickets.Ticket.{Ticket};
ghost use Rattle.firm_rounds.specs.Passes.{closing_is, spent_pop};
ghost use Rattle.firm_rounds.specs.Rounds.{share};

use crate::halls::Hall;
use firm_rounds::{Closing, Ended, Job, PopPass, Queue};
use firm_rules::Ticket;
use std::alloc::Global;
use std::marker::Model;
use std::sync::Wait;

// Bytes that a worker takes and frees as it starts: enough for a list of 2,000 changes, and below the
// 128 KiB from which glibc maps each block anew, so that the thread's arena keeps the pages.
const WARM_BYTES: usize = 120 * 1_024;

/// A worker's step between taking a round and solving it.
pub trait Gate {
    /// Called by the worker that took this ticket's round, before it solves the round.
    fn pass(&self, ticket: Ticket);
}

/// The gate that does nothing.
pub struct Open;

impl Gate for Open {
    fn pass(&self, _ticket: Ticket) {}
}

/// The right to be one worker of a hall. Contracts see its hall and the tickets it took, in order.
#[derive(Drop)]
pub struct WorkerPass {
    pub(crate) taken: PopPass,
}

impl Model for WorkerPass {
    ghost use Rattle.firm_rounds.specs.Passes.{PopIs};

    ghost Value = { PopIs };

    ghost view = { λ p. p.taken };
}

/// A worker's report. Contracts see its hall and the tickets it took, in order; at run time it has only their number.
#[derive(Drop)]
pub struct Report {
    taken: PopPass,
    // Its worker ended as the bell's rule asks: once the hall was shut, when no round waited.
    ended: Ended,
}

impl Model for Report {
    ghost use Rattle.std.specs.Prelude.{◌≡◌};
    ghost use Rattle.firm_rounds.specs.Passes.{PopIs};

    ghost Value = { PopIs };

    ghost view = { λ r. r.taken };

    ghost invariant = { λ r. r.ended ≡ r.taken.queue.bell };
}

impl Report {
    /// Number of rounds that the worker took. Takes no memory.
    pub fn count(&self) -> u64
        ensures { result ≡ length self.now.got }
    {
        self.taken.count()
    }

    // Hands in the pass.
    pub(crate) fn give(&mut self, closing: &mut Closing)
        requires { self.old.queue ≡ closing.old.id }
        ensures closing { (p : ℕ)
            × (closing.new ≡ closing_is closing.old.id (closing.old.shares ++ share p 0 self.old.got ∷ [])) }
        ensures report { self.new ≡ spent_pop self.old }
    {
        closing.pop_pass(&mut self.taken);
    }

    // Hands in the pass as the first one.
    pub(crate) fn begin(&mut self, queue: Queue) -> Closing
        requires { (self.old.queue ≡ queue.id) × (0 < queue.id.all) }
        ensures closing { (p : ℕ) × (result ≡ closing_is queue.id (share p 0 self.old.got ∷ [])) }
        ensures report { self.new ≡ spent_pop self.old }
    {
        queue.closing(&mut self.taken)
    }
}

/// Solves rounds from the queue, each after passing the gate. Ends once it has read the stop word as set and then found
/// the queue empty. If it finds nothing otherwise, looks again, and after some looks in vain sleeps until it is woken
/// for a round or the hall is shut. The allocator is for the rounds, the lists in their replies, and `warm_up`.
pub fn worker<R: Wait, G: Gate>(
    rt: &R,
    alloc: Global,
    hall: &Hall,
    pass: WorkerPass,
    gate: &G,
) -> Report
    requires { pass.queue ≡ hall.now.id }
    ensures hall { result.queue ≡ hall.now.id }
    ensures tickets { (more : List Ticket) × (result.got ≡ pass.got ++ more) }
{
    warm_up(alloc);
    let WorkerPass { mut taken } = pass;
    let queue = &hall.queue;
    let mut looks = 0;
    for _ in rt.forever() {
        // The bell's rule says when a worker may end, so one that finds the stop word set asks the bell too.
        let is_shut = hall.is_shut() && queue.is_shut(&mut taken);
        match queue.pop(rt, &mut taken) {
            Some(job) => {
                if taken.was_full() {
                    hall.answers.notify_one();
                }
                solve(alloc, hall, job, gate, &taken);
                looks = 0;
            }
            None => {
                if is_shut {
                    if let Some(ended) = queue.ends(&taken) {
                        return Report { taken, ended };
                    }
                }
                looks = queue.rest_or_look(rt, &mut taken, looks);
            }
        }
    }
    unreachable!()
}

// Takes memory and frees it, so that no round waits while this thread gets its arena and first touches its pages. The
// bytes are written for that. A refusal costs only time.
fn warm_up(alloc: Global) {
    let _ = vec![in alloc; 1u8; WARM_BYTES];
}

// Solves the round after the gate, and notifies the clerk. That may take long, so the worker has made the call that it
// owed.
fn solve<G: Gate>(alloc: Global, hall: &Hall, job: Job, gate: &G, taken: &PopPass)
    requires { taken.now.owes_call ≡ false }
{
    let _ = taken;
    gate.pass(job.ticket());
    let answered = job.finish(alloc);
    hall.tell(answered);
}

//! The round queue.
ghost use Rattle.std.specs.Prelude.{◌≡◌, ℕ, ◌+◌, ◌<◌, ◌≤◌, ◌^◌, [], ◌∷◌, ◌++◌, All, IfOk, MatchOption, MatchResult};
ghost use Rattle.std.specs.Prelude.{IfSome, false, length, map, true, vec_capacity};
ghost use Rattle.firm_bell.specs.Steps.{HasCalled, OwesNothing, StandsAt};
ghost use Rattle.firm_bell.specs.declared.rule.Stage.TheVariants.{Putting};
ghost use Rattle.firm_rounds.specs.Rounds.{ticket, share};
ghost use Rattle.firm_rounds.specs.Rule.{WasEmpty};
ghost use Rattle.firm_rounds.specs.Closed.{AsOften};
ghost use Rattle.firm_rounds.specs.Faults.{IsFault};
ghost use Rattle.firm_rounds.specs.Passes.{GoesOn, closing_is, got_none, got_one, new_pops, new_puts, put_is};
ghost use Rattle.firm_rounds.specs.Passes.{spent_pop, spent_put};

use crate::closing::Closing;
use crate::cuts::{PassCounts, cut_pops, cut_puts, grow};
use crate::gathering::{drain, gather};
use crate::job::Job;
use crate::passes::{Ended, PopPass, PutPass};
use crate::protocol::{JobParts, Ring};
use crossbeam_utils::sync::{EventCount, Key};
use firm_bell::{Bell, Caller};
use std::alloc::{AllocError, Global};
use std::hint::spin_loop;
use std::marker::Model;
use std::sync::{Mutex, Wait};

const ROOM: usize = 8;

// The most workers that a bell wakes.
const MOST_WORKERS: usize = 8;

// Number of tries in vain of a put before it sleeps until there is room: a few microseconds.
const TRIES_BEFORE_SLEEP: u32 = 64;

// Room for the jobs that `close` finds.
pub(crate) struct Room {
    jobs: Vec<Job>,
    ghost empty: { jobs.items ≡ [] },
    ghost reserved: { 8 ≤ vec_capacity jobs },
}

/// A queue of at most 8 rounds, which threads share without a lock. Contracts see which queue it is and how many passes
/// it has.
#[derive(Drop)]
pub struct Queue {
    ring: Ring,
    puts: usize,
    pops: usize,
    // Notified whenever a job is got. Puts that find the queue full sleep on it.
    freed: EventCount,
    // Counts the rounds that wait, and wakes the workers.
    bell: Bell,
    // The lock is only there for `Sync`, since a job may not be shared.
    left: Mutex<Room>,
}

/// Why a queue could not be closed, or what it still held.
pub enum QueueFault {
    /// Fewer passes were handed in than the queue has. Everything is given back.
    Missing(Queue, Vec<PutPass>, Vec<PopPass>),
    /// These jobs stood in the queue, front first. The queue has ended.
    Left(Vec<PutPass>, Vec<PopPass>, Vec<Job>),
}

impl Model for Queue {
    ghost use Rattle.std.specs.Prelude.{◌≡◌, ◌+◌, ◌<◌};
    ghost use Rattle.crossbeam_queue.specs.Passes.{ruled_capacity};
    ghost use Rattle.firm_rounds.specs.Passes.{QueueIs};

    ghost Value = { QueueIs };

    ghost view = { λ q. record {
      id = record { table = q.ring.table.shared.table_id; all = q.puts + q.pops; bell = q.bell };
      puts = q.puts;
      pops = q.pops;
    } };

    ghost invariant = { λ q. (ruled_capacity q.ring ≡ 8) × (0 < q.pops) };
}

impl Queue {
    /// A queue with a pass to put jobs for each of `puts` places, at most 64, and `pops` passes to get jobs, at least
    /// one. All its memory is taken here, and want of it is the only error.
    pub fn open(
        alloc: Global,
        puts: usize,
        pops: usize,
    ) -> Result<(Queue, Vec<PutPass>, Vec<PopPass>), AllocError>
        requires { (puts ≤ 64) × (0 < pops) }
        ensures counts { IfOk result (λ r. (r.0.puts ≡ puts) × (r.0.pops ≡ pops)) }
        ensures all { IfOk result (λ r. r.0.id.all ≡ puts + pops) }
        ensures passes { IfOk result (λ r. (r.1.items ≡ new_puts r.0.id puts) × (r.2.items ≡ new_pops r.0.id pops)) }
        ensures of_this { IfOk result (λ r. All (λ p. p.queue ≡ r.0.id) r.1.items
            × All (λ p. p.queue ≡ r.0.id) r.2.items) }
        ensures unused { IfOk result (λ r. All (λ p. p.put ≡ 0) r.1.items) }
    {
        let bell = Bell::open(alloc, pops.min(MOST_WORKERS))?;
        let (ring, mut keep) = Ring::ruled(alloc, ROOM)?;
        grow(&ring, &mut keep, puts);
        grow(&ring, &mut keep, pops - 1);
        let put_passes = cut_puts(alloc, &ring, &bell, &mut keep, puts)?;
        let pop_passes = cut_pops(alloc, &ring, &bell, keep, PassCounts { puts, pops })?;
        let left = Mutex::new(Room {
            jobs: Vec::with_capacity(alloc, ROOM)?,
        });
        let queue = Queue {
            ring,
            puts,
            pops,
            freed: EventCount::new(),
            bell,
            left,
        };
        Ok((queue, put_passes, pop_passes))
    }

    /// Number of passes to put jobs.
    pub fn puts(&self) -> usize
        ensures { result ≡ self.now.puts }
    {
        self.puts
    }

    /// Number of passes to get jobs.
    pub fn pops(&self) -> usize
        ensures { result ≡ self.now.pops }
    {
        self.pops
    }

    /// A caller that has put nothing yet.
    pub fn caller(&self) -> Caller
        ensures called { HasCalled self.now.id.bell 0 result }
        ensures nothing { OwesNothing result }
    {
        self.bell.caller()
    }

    /// Puts the job, whose ticket is the pass's next, at the back, and rings. If the queue is full, tries again, and
    /// after some tries in vain sleeps until there is room. Takes no memory.
    pub fn put<R: Wait>(&self, rt: &R, pass: &mut PutPass, job: Job)
        requires of { pass.old.queue ≡ self.now.id }
        requires next { job.ticket ≡ ticket pass.old.place (pass.old.put + 1) }
        requires room { pass.old.put < 2 ^ 55 }
        ensures { pass.new ≡ put_is pass.old.queue pass.old.place (pass.old.put + 1) }
    {
        let mut caller = self.caller();
        self.put_unrung(rt, pass, job, &mut caller);
        self.ring(&mut caller);
        caller.end();
    }

    /// The same for a caller that puts more before it waits, and rings then: possibly no worker is woken before. The
    /// round is counted once, before it is put.
    pub fn put_unrung<R: Wait>(&self, rt: &R, pass: &mut PutPass, job: Job, caller: &mut Caller)
        requires of { pass.old.queue ≡ self.now.id }
        requires next { job.ticket ≡ ticket pass.old.place (pass.old.put + 1) }
        requires room { pass.old.put < 2 ^ 55 }
        requires caller { HasCalled self.now.id.bell caller.old.me.0.counted caller.old }
        ensures pass { pass.new ≡ put_is pass.old.queue pass.old.place (pass.old.put + 1) }
        ensures caller { HasCalled self.now.id.bell (caller.old.me.0.counted + 1) caller.new }
    {
        let older = self.bell.expect(caller);
        self.push(rt, pass, job, caller);
        self.bell.came(caller, older);
    }

    /// Rings, if the caller has to: wakes a worker for an owed wake while a round waits.
    pub fn ring(&self, caller: &mut Caller)
        requires { HasCalled self.now.id.bell caller.old.me.0.counted caller.old }
        ensures called { HasCalled self.now.id.bell caller.old.me.0.counted caller.new }
        ensures nothing { OwesNothing caller.new }
    {
        self.bell.ring(caller);
    }

    /// Whether the queue has room for one more round. If so, and no other thread puts rounds, a put does not wait.
    pub fn has_room(&self) -> bool {
        self.bell.has_room()
    }

    // Puts the job, which the caller has counted.
    fn push<R: Wait>(&self, rt: &R, pass: &mut PutPass, job: Job, caller: &Caller)
        requires of { pass.old.queue ≡ self.now.id }
        requires next { job.ticket ≡ ticket pass.old.place (pass.old.put + 1) }
        requires room { pass.old.put < 2 ^ 55 }
        requires counted { StandsAt self.now.id.bell Putting caller.now }
        ensures { pass.new ≡ put_is pass.old.queue pass.old.place (pass.old.put + 1) }
    {
        let mut parts = job.into_parts();
        let mut tries = 0u32;
        for _ in rt.forever() {
            match self.try_put(rt, pass, parts, tries, caller) {
                Ok(()) => return,
                Err(back) => parts = back,
            }
            tries = tries.saturating_add(1);
        }
        unreachable!()
    }

    // Tries once, after `tries` tries in vain. If the queue is full, rests and gives the job back.
    //
    // No wake-up is lost: after enough tries in vain a sleep is announced before the try. A pop that the try misses
    // comes after the announcement, so it notifies, and a notification ends the sleep even if it comes before the
    // thread goes to sleep.
    fn try_put<R: Wait>(
        &self,
        rt: &R,
        pass: &mut PutPass,
        parts: JobParts,
        tries: u32,
        caller: &Caller,
    ) -> Result<(), JobParts>
        requires counted { StandsAt self.now.id.bell Putting caller.now }
        requires of { pass.old.queue ≡ self.now.id }
        requires next { parts.ticket ≡ ticket pass.old.place (pass.old.put + 1) }
        requires room { pass.old.put < 2 ^ 55 }
        ensures { MatchResult result
            (λ _. pass.new ≡ put_is pass.old.queue pass.old.place (pass.old.put + 1))
            (λ back. (pass.new ≡ pass.old) × (back.ticket ≡ parts.ticket)) }
    {
        let announced = if tries < TRIES_BEFORE_SLEEP {
            None
        } else {
            Some(self.freed.prepare_wait())
        };
        let tried = pass.try_put(rt, &self.ring, parts, caller);
        rest(rt, announced, tried.is_err());
        tried
    }

    /// The job at the front; `None` only if the queue was empty at one step of the call. Wakes a put that sleeps for
    /// want of room, and another worker, if this one was woken and more rounds wait. Takes no memory.
    pub fn pop<R: Wait>(&self, rt: &R, pass: &mut PopPass) -> Option<Job>
        requires { pass.old.queue ≡ self.now.id }
        ensures { MatchOption result ((pass.new ≡ got_none pass.old) × WasEmpty pass.new.got)
            (λ x. pass.new ≡ got_one x.ticket pass.old) }
    {
        match pass.pop(rt, &self.ring, &self.bell) {
            Some(parts) => {
                self.freed.notify_one();
                Some(Job::of_parts(parts))
            }
            None => None,
        }
    }

    /// Whether the queue is shut. The worker has to look for a round again before it rests or ends.
    pub fn is_shut(&self, pass: &mut PopPass) -> bool
        requires { pass.old.queue ≡ self.now.id }
        ensures same { GoesOn pass.old pass.new }
        ensures knows { result ≡ true → pass.new.knows_shut ≡ true }
    {
        pass.learns_shut(&self.bell)
    }

    /// Called by a worker that found the queue empty, after a number of such looks. Rests until a wake if they were
    /// enough and no round waits. Returns how many there were since the last rest.
    pub fn rest_or_look<R: Wait>(&self, rt: &R, pass: &mut PopPass, looks: u32) -> u32
        requires of { pass.old.queue ≡ self.now.id }
        requires looked { pass.old.found_none ≡ true }
        ensures same { GoesOn pass.old pass.new }
        ensures looks { pass.new.found_none ≡ false }
    {
        pass.rests(rt, &self.bell, looks)
    }

    /// The proof that a worker ended, which knows that the queue is shut and then found it empty: `None` only if a
    /// round waits.
    pub fn ends(&self, pass: &PopPass) -> Option<Ended>
        requires of { pass.now.queue ≡ self.now.id }
        requires knows { pass.now.knows_shut ≡ true }
        requires looked { pass.now.found_none ≡ true }
        ensures { IfSome result (λ ended. ended ≡ self.now.id.bell) }
    {
        let _ = pass;
        Ended::of(&self.bell)
    }

    /// Wakes all workers for good. Each may end once no round waits.
    pub fn shut(&self) {
        self.bell.shut();
    }

    /// Begins to end the queue by taking in one pass. The others are handed in one at a time.
    pub fn closing(self, first: &mut PopPass) -> Closing
        requires { (first.old.queue ≡ self.id) × (0 < self.id.all) }
        ensures closing { (p : ℕ) × (result ≡ closing_is self.id (share p 0 first.old.got ∷ [])) }
        ensures pass { first.new ≡ spent_pop first.old }
    {
        let Queue {
            ring,
            puts: _,
            pops: _,
            freed: _,
            bell,
            left,
        } = self;
        let keep = first.give(&ring);
        Closing {
            ring,
            keep,
            bell,
            left,
        }
    }

    /// Ends the queue, taking in all its passes. `Ok` says that each ticket was got as often as it was put. Takes no
    /// memory.
    pub fn close<R: Wait>(
        self,
        rt: &R,
        puts: Vec<PutPass>,
        pops: Vec<PopPass>,
    ) -> Result<(), QueueFault>
        requires puts { All (λ p. p.queue ≡ self.id) puts.items }
        requires pops { All (λ p. p.queue ≡ self.id) pops.items }
        ensures { MatchResult result (λ _. AsOften puts.items pops.items []) (IsFault self puts.items pops.items) }
    {
        if puts.len() < self.puts || pops.len() < self.pops {
            return Err(QueueFault::Missing(self, puts, pops));
        }
        let mut puts = puts;
        let mut pops = pops;
        let jobs = self.settle(rt, puts.as_mut_slice(), pops.as_mut_slice());
        if jobs.is_empty() {
            jobs.destroy_empty();
            return Ok(());
        }
        Err(QueueFault::Left(puts, pops, jobs))
    }

    // Takes in all passes, and then the jobs that stand in the queue, front first.
    fn settle<R: Wait>(self, rt: &R, puts: &mut [PutPass], pops: &mut [PopPass]) -> Vec<Job>
        requires counts { (self.puts ≤ length puts.old) × (self.pops ≤ length pops.old) }
        requires puts { All (λ p. p.queue ≡ self.id) puts.old }
        requires pops { All (λ p. p.queue ≡ self.id) pops.old }
        ensures often { AsOften puts.old pops.old result.items }
        ensures puts { puts.new ≡ map spent_put puts.old }
        ensures pops { pops.new ≡ map spent_pop pops.old }
    {
        let Queue {
            ring,
            puts: put_count,
            pops: pop_count,
            freed: _,
            bell: _,
            left,
        } = self;
        let keep = gather(&ring, put_count, pop_count, puts, pops);
        drain(rt, &ring, keep, left.into_inner().into_jobs())
    }
}

// If the queue was full, and a sleep was announced, sleeps until a notification.
fn rest<R: Wait>(rt: &R, announced: Option<Key<'_>>, was_full: bool) {
    if !was_full {
        return;
    }
    match announced {
        Some(key) => key.wait(rt),
        None => spin_loop(),
    }
}

impl Room {
    pub(crate) fn into_jobs(self) -> Vec<Job>
        ensures { (result.items ≡ []) × (8 ≤ vec_capacity result) }
    {
        let Self { jobs } = self;
        jobs
    }
}

impl Drop for Room {
    fn drop(self) {
        let Self { jobs } = self;
        jobs.destroy_empty();
    }
}

//! The hall itself: the round queue and the stop word, which desks and workers share.
ghost use Rattle.std.specs.Prelude.{◌≡◌, ◌-◌, ◌≤◌, All, IfOk, length, map};
ghost use Rattle.firm_rounds.specs.Passes.{new_puts, new_pops};
ghost use Rattle.firm_text.specs.Rosters.{most_places};
ghost use Rattle.firm_hall.specs.Desks.{place_is};
ghost use Rattle.firm_hall.specs.Opening.{opening_desks, unused_places};

use crate::desks::Desk;
use crate::empty::EmptyDesk;
use crate::places::Place;
use crate::workers::WorkerPass;
use crossbeam_utils::CachePadded;
use crossbeam_utils::sync::EventCount;
use firm_rounds::{PopPass, PutPass, Queue};
use firm_text::{PLACES, Roster};
use firm_tray::Spent;
use std::alloc::{AllocError, Global};
use std::marker::Model;
use std::sync::Arc;
use std::sync::atomic::{AtomicBool, Ordering};

/// State shared by desks and workers. Contracts see its queue, and its numbers of desks and workers.
pub struct Hall {
    // Workers without a round sleep until its bell wakes them, for a round or for good.
    pub(crate) queue: Queue,
    // Set once the hall is shut. Each worker reads it before each look at the queue, so it shares no cache line.
    stop: CachePadded<AtomicBool>,
    // Notified of each solved round, and of room in a queue that was full. The clerk sleeps on it, for these or for
    // input.
    pub(crate) answers: Arc<EventCount, Global>,
}

impl Drop for Hall {
    // Written out, so that who owns a hall has one call where it is dropped.
    fn drop(self) {
        let Self {
            queue,
            stop: _,
            answers,
        } = self;
        drop(queue);
        drop(answers);
    }
}

impl Model for Hall {
    ghost use Rattle.firm_rounds.specs.Passes.{QueueIs};

    ghost Value = { QueueIs };

    ghost view = { λ h. h.queue };
}

impl Hall {
    /// A hall of 64 places and 1 to 8 workers, with the tenants of the roster admitted: a desk for each row, in order,
    /// a pass for each worker, and an empty desk for each remaining place. Takes all its memory here; fails only if
    /// that is refused.
    pub fn open(
        alloc: Global,
        roster: &Roster,
        workers: usize,
    ) -> Result<(Hall, Vec<Desk>, Vec<WorkerPass>, Vec<EmptyDesk>), AllocError>
        requires { (1 ≤ workers) × (workers ≤ 8) }
        ensures counts { IfOk result (λ r. (r.0.puts ≡ most_places) × (r.0.pops ≡ workers)) }
        ensures desks { IfOk result (λ r. r.1.items ≡ opening_desks r.0.id 0 roster.now.rows) }
        ensures passes { IfOk result (λ r. r.2.items ≡ new_pops r.0.id workers) }
        ensures empty { IfOk result
            (λ r. r.3.items ≡ unused_places r.0.id (length roster.now.rows) (most_places - length roster.now.rows)) }
        ensures of_this { IfOk result
            (λ r. All (λ d. d.queue ≡ r.0.id) r.1.items × All (λ p. p.queue ≡ r.0.id) r.2.items) }
        ensures empty_of_this { IfOk result (λ r. All (λ e. e.queue ≡ r.0.id) r.3.items) }
    {
        // A roster has no more rows than there are places.
        prove!(roster.len() <= PLACES);
        open_hall(alloc, roster, PLACES, workers)
    }

    // A hall of this many places, with a pass for each of them and for each worker. Takes all its memory here; fails
    // only if that is refused.
    pub(crate) fn open_bare(
        alloc: Global,
        places: usize,
        workers: usize,
    ) -> Result<(Hall, Vec<PutPass>, Vec<WorkerPass>), AllocError>
        requires workers { (1 ≤ workers) × (workers ≤ 8) }
        requires places { places ≤ most_places }
        ensures counts { IfOk result (λ r. (r.0.puts ≡ places) × (r.0.pops ≡ workers)) }
        ensures puts { IfOk result (λ r. r.1.items ≡ new_puts r.0.id places) }
        ensures unused { IfOk result (λ r. All (λ p. p.put ≡ 0) r.1.items) }
        ensures passes { IfOk result (λ r. r.2.items ≡ new_pops r.0.id workers) }
        ensures of_this { IfOk result (λ r. All (λ p. p.queue ≡ r.0.id) r.2.items) }
    {
        let answers = Arc::new(alloc, EventCount::new())?;
        let (queue, puts, pops) = Queue::open(alloc, places, workers)?;
        let hall = Hall {
            queue,
            stop: CachePadded::new(AtomicBool::new(false)),
            answers,
        };
        let passes = open_passes(alloc, pops)?;
        Ok((hall, puts, passes))
    }

    /// Tells the workers to end once the queue is empty. Takes no memory.
    pub fn shut(&self) {
        // In this order, so that each worker that is woken finds the stop word set.
        self.stop.store(true, Ordering::SeqCst);
        self.queue.shut();
    }

    // Whether the stop word is set.
    pub(crate) fn is_shut(&self) -> bool {
        self.stop.load(Ordering::SeqCst)
    }

    // Tells the clerk that a round was answered, of which this is the proof.
    pub(crate) fn tell(&self, _answered: Spent) {
        self.answers.notify_one();
    }

    // Numbers of desks and of workers.
    pub(crate) fn counts(&self) -> (usize, usize)
        ensures { (result.0 ≡ self.now.puts) × (result.1 ≡ self.now.pops) }
    {
        (self.queue.puts(), self.queue.pops())
    }

    pub(crate) fn into_queue(self) -> Queue
        ensures { result ≡ self }
    {
        let Self {
            queue,
            stop: _,
            answers: _,
        } = self;
        queue
    }
}

// A hall of this many places; the tenants of the roster have the first ones.
fn open_hall(
    alloc: Global,
    roster: &Roster,
    places: usize,
    workers: usize,
) -> Result<(Hall, Vec<Desk>, Vec<WorkerPass>, Vec<EmptyDesk>), AllocError>
    requires workers { (1 ≤ workers) × (workers ≤ 8) }
    requires places { (length roster.now.rows ≤ places) × (places ≤ most_places) }
    ensures counts { IfOk result (λ r. (r.0.puts ≡ places) × (r.0.pops ≡ workers)) }
    ensures desks { IfOk result (λ r. r.1.items ≡ opening_desks r.0.id 0 roster.now.rows) }
    ensures passes { IfOk result (λ r. r.2.items ≡ new_pops r.0.id workers) }
    ensures empty { IfOk result
        (λ r. r.3.items ≡ unused_places r.0.id (length roster.now.rows) (places - length roster.now.rows)) }
    ensures of_this { IfOk result
        (λ r. All (λ d. d.queue ≡ r.0.id) r.1.items × All (λ p. p.queue ≡ r.0.id) r.2.items) }
    ensures empty_of_this { IfOk result (λ r. All (λ e. e.queue ≡ r.0.id) r.3.items) }
{
    let (hall, puts, passes) = Hall::open_bare(alloc, places, workers)?;
    let (desks, empty) = open_places(alloc, roster, puts)?;
    Ok((hall, desks, passes, empty))
}

// The states of the places of these passes: the tenants of the roster have the first ones. Apart from the hall, which
// each way out of here would drop.
fn open_places(
    alloc: Global,
    roster: &Roster,
    passes: Vec<PutPass>,
) -> Result<(Vec<Desk>, Vec<EmptyDesk>), AllocError>
    requires count { length roster.now.rows ≤ length passes.items }
    requires unused { All (λ p. p.put ≡ 0) passes.items }
    ensures desks { IfOk result (λ r. (id : _) (places : _)
        → length roster.now.rows ≤ places
        → passes.items ≡ new_puts id places
        → r.0.items ≡ opening_desks id 0 roster.now.rows) }
    ensures empty { IfOk result (λ r. (id : _) (places : _)
        → length roster.now.rows ≤ places
        → passes.items ≡ new_puts id places
        → r.1.items ≡ unused_places id (length roster.now.rows) (places - length roster.now.rows)) }
{
    let mut first = passes;
    let rest = first.split_off(roster.len())?;
    let empty = open_empty(alloc, rest)?;
    let desks = open_desks(alloc, roster, first)?;
    Ok((desks, empty))
}

// A desk for each row of the roster, in order.
fn open_desks(alloc: Global, roster: &Roster, passes: Vec<PutPass>) -> Result<Vec<Desk>, AllocError>
    requires count { length passes.items ≡ length roster.now.rows }
    requires unused { All (λ p. p.put ≡ 0) passes.items }
    ensures { IfOk result (λ desks. (id : _)
        → passes.items ≡ new_puts id (length roster.now.rows)
        → desks.items ≡ opening_desks id 0 roster.now.rows) }
{
    let mut desks = Vec::with_capacity(alloc, roster.len())?;
    for pass in passes {
        let (_, limits) = roster.get(desks.len()).unwrap();
        desks.push_reserved(Desk::open(alloc, limits, pass)?);
    }
    Ok(desks)
}

// An empty desk for each place that was never given.
fn open_empty(alloc: Global, passes: Vec<PutPass>) -> Result<Vec<EmptyDesk>, AllocError>
    requires { All (λ p. p.put ≡ 0) passes.items }
    ensures { IfOk result (λ empty. empty.items ≡ map (λ p. place_is p.queue p.place 0 0) passes.items) }
{
    let mut empty = Vec::with_capacity(alloc, passes.len())?;
    for pass in passes {
        empty.push_reserved(EmptyDesk {
            place: Place::given_before(pass, 0),
        });
    }
    Ok(empty)
}

// A worker's pass for each of these passes.
fn open_passes(alloc: Global, passes: Vec<PopPass>) -> Result<Vec<WorkerPass>, AllocError>
    ensures { IfOk result (λ all. all.items ≡ passes.items) }
{
    let mut all = Vec::with_capacity(alloc, passes.len())?;
    for pass in passes {
        all.push_reserved(WorkerPass { taken: pass });
    }
    Ok(all)
}

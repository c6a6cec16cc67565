//! The tenants of a roster as one table, on which one event happens at a time.

ghost use Rattle.std.specs.Prelude.{◌≡◌, ◌≢◌, ℕ, ◌+◌, ◌≤◌, ◌++◌, ◌↔◌, false, IfOk, length};
ghost use Rattle.std.specs.VecDeque.{deque_capacity, deque_len};
ghost use Rattle.std.specs.List.{list_any};
ghost use Rattle.firm_table.specs.Interleaving.{opening_seats, opening_table, event_place, place_held, is_held};
ghost use Rattle.firm_table.specs.Interleaving.{queue_more};
ghost use Rattle.firm_table.specs.Fitting.{IsEventStep, fits};
ghost use Rattle.firm_table.specs.inner.Events.{IsDone};

use crate::events::{Answer, Event};
use crate::seats::Seat;
use firm_rules::Ticket;
use firm_text::{PLACES, Roster};
use std::alloc::{AllocError, Global};
use std::collections::VecDeque;
use std::marker::Model;

/// The 64 places of a service, each empty or with a tenant, the queue of the tenants' rounds, and the workers that
/// solve them.
#[derive(Drop)]
pub struct Table {
    workers: usize,
    seats: Vec<Seat>,
    queue: VecDeque<Ticket>,
}

impl Model for Table {
    ghost use Rattle.std.specs.Prelude.{◌≤◌, length};
    ghost use Rattle.std.specs.VecDeque.{deque_capacity};
    ghost use Rattle.firm_table.specs.Interleaving.{TableState};

    ghost Value = { TableState };

    ghost use Rattle.firm_table.specs.inner.Tables.{IsSound, table_of};

    ghost view = { λ t. table_of t.workers t.seats.items t.queue.items };

    ghost invariant = { λ t. IsSound (table_of t.workers t.seats.items t.queue.items)
        × (length t.seats.items ≤ deque_capacity t.queue) };
}

impl Table {
    /// The tenants of the roster, admitted in its order, all of them home, with 1 to 8 workers and an empty queue; the
    /// other places are empty. All memory that the table itself needs is taken here, and want of memory is the only
    /// error.
    pub fn open(alloc: Global, roster: &Roster, workers: usize) -> Result<Table, AllocError>
        requires some { 1 ≤ workers }
        requires few { workers ≤ 8 }
        ensures { IfOk result (λ table. table ≡ opening_table roster.now.rows workers) }
    {
        let queue = VecDeque::with_capacity(alloc, PLACES)?;
        Ok(Table {
            workers,
            seats: seats_of(alloc, roster)?,
            queue,
        })
    }

    /// Carries out the next event, and answers it: `NotNow` exactly if the event does not fit, which then changes
    /// nothing. Nor does an admission that is refused memory, which is answered `NoMemory`. A place is given at most
    /// 32,768 times, counting a row of the roster as once. The allocator is for the steps of tenants, for the lists in
    /// their replies, and for admitted tenants.
    pub fn event(&mut self, alloc: Global, event: Event) -> Answer
        ensures stepped { IsEventStep self.old event result self.new }
        ensures not_now { (result ≡ Answer.NotNow) ↔ (fits self.old event ≡ false) }
        ensures unchanged { result ≡ Answer.NotNow → self.new ≡ self.old }
        ensures no_memory { result ≡ Answer.NoMemory → self.new ≡ self.old }
    {
        match event {
            Event::Take(worker) => self.take(worker),
            _ => self.happen(alloc, event),
        }
    }

    // Carries out an event that takes no round, at its place; a round that it asks for goes into the queue.
    fn happen(&mut self, alloc: Global, event: Event) -> Answer
        requires { (worker : ℕ) → event ≢ Event.Take worker }
        ensures { IsDone self.old event result self.new }
    {
        let Some(place) = self.place_of(&event) else {
            return Answer::NotNow;
        };
        if self.seats.len() <= place {
            return Answer::NotNow;
        }
        let answer = self.seats[place].happen(alloc, place as u32, event);
        put_queued(&mut self.queue, &answer);
        answer
    }

    // The place of an event, if it has one.
    fn place_of(&self, event: &Event) -> Option<usize>
        ensures { result ≡ event_place self.now event.now }
    {
        match event {
            Event::Post(place, _) => Some(*place),
            Event::Ask(place) => Some(*place),
            Event::Collect(place) => Some(*place),
            Event::Admit(place, _) => Some(*place),
            Event::Retire(place) => Some(*place),
            Event::Answer(worker) => place_held(&self.seats, *worker),
            Event::Take(_) => None,
        }
    }

    // Gives the front of the queue to a worker.
    fn take(&mut self, worker: usize) -> Answer
        ensures { IsDone self.old (Event.Take worker) result self.new }
    {
        if self.workers <= worker {
            return Answer::NotNow;
        }
        if place_held(&self.seats, worker).is_some() {
            return Answer::NotNow;
        }
        let Some(ticket) = self.queue.pop_front() else {
            return Answer::NotNow;
        };
        self.seats[ticket.place as usize].give(worker);
        Answer::Took(ticket)
    }
}

// The seats of a roster's tenants, all of them home, followed by empty ones.
fn seats_of(alloc: Global, roster: &Roster) -> Result<Vec<Seat>, AllocError>
    ensures opening { IfOk result (λ seats. seats.items ≡ opening_seats roster.now.rows) }
    ensures few { IfOk result (λ seats. length seats.items ≤ PLACES) }
{
    // A roster has no more tenants than a service has places.
    prove!(roster.len() <= PLACES);
    let mut seats = Vec::with_capacity(alloc, PLACES)?;
    for place in 0..PLACES {
        seats.push(Seat::first(alloc, roster.get(place))?)?;
    }
    Ok(seats)
}

// Puts the ticket of a requested round at the back of the queue.
fn put_queued(queue: &mut VecDeque<Ticket>, answer: &Answer)
    requires { deque_len queue.old + length (queue_more answer.now) ≤ deque_capacity queue.old }
    ensures items { queue.new.items ≡ queue.old.items ++ queue_more answer.now }
    ensures capacity { deque_capacity queue.new ≡ deque_capacity queue.old }
{
    if let Answer::Queued(ticket) = answer {
        queue.push_back_reserved(*ticket);
    }
}

// The place of the tenant whose round this worker holds.
fn place_held(seats: &[Seat], worker: usize) -> Option<usize>
    ensures { result ≡ place_held worker seats.now }
{
    seats.iter().position(|seat| seat.is_held_by(worker))
}

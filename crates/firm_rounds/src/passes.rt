//! The passes by which jobs are put and got.
ghost use Rattle.std.specs.Prelude.{◌≡◌, ℕ, ◌+◌, ◌<◌, ◌^◌, [], ◌∷◌, length, MatchOption, MatchResult};
ghost use Rattle.std.specs.Prelude.{IfSome, false, true};
ghost use Rattle.crossbeam_queue.specs.Passes.{view, IsPassOf, ruled_capacity};
ghost use Rattle.firm_rounds.specs.Rounds.{ticket, share};
ghost use Rattle.firm_rounds.specs.inner.Seats.{sight, after_pop};
ghost use Rattle.firm_rounds.specs.Rule.{WasEmpty};
ghost use Rattle.firm_rounds.specs.Passes.{GoesOn, got_none, got_one, put_is, spent_put, spent_pop};
ghost use Rattle.firm_bell.specs.Bell.{newcomer};
ghost use Rattle.firm_bell.specs.Steps.{Knows, StandsAt};
ghost use Rattle.firm_bell.specs.declared.rule.Stage.TheVariants.{Putting};

use crate::protocol::{Give, JobParts, Pops, Puts, QueueSeat, Ring};
use firm_bell::{Bell, BellName, Caller, Listener};
use firm_rules::Ticket;
use std::marker::Model;
use std::sync::Wait;

/// The right to put the rounds of one place, numbered from 1 without a gap. Contracts see its place and how many rounds
/// it put.
#[derive(Drop)]
pub struct PutPass {
    place: u32,
    put: u64,
    seat: QueueSeat,
    // The queue's bell.
    bell: BellName,
}

impl Model for PutPass {
    ghost use Rattle.std.specs.Prelude.{◌≡◌, ◌<◌, ◌≤◌, ◌^◌, [], ◌∷◌};
    ghost use Rattle.crossbeam_queue.specs.Passes.{view as sees};
    ghost use Rattle.firm_rounds.specs.Rounds.{share};
    ghost use Rattle.firm_rounds.specs.inner.Seats.{IsShareOf};
    ghost use Rattle.firm_rounds.specs.Passes.{PutIs};

    ghost Value = { PutIs };

    ghost view = { λ p. record {
      queue = record { table = p.seat.table_id; all = (sees p.seat).all; bell = p.bell };
      place = p.place;
      put = p.put;
    } };

    ghost invariant = { λ p. (p.seat.me.1 ≡ []) × (p.place < 64) × (p.put ≤ 2 ^ 55)
        × IsShareOf (share p.place p.put []) (sees p.seat) };
}

/// The right to get rounds. Contracts see the tickets that it got, in order; at run time it keeps only their number.
/// Its worker may rest or end only once it found the queue empty.
#[derive(Drop)]
pub struct PopPass {
    // Number of jobs that it got, and of rounds that its listener took.
    count: u64,
    // Whether the queue was full until the last was got.
    was_full: bool,
    // Whether the last look found nothing, and the worker has not rested since.
    found_none: bool,
    seat: QueueSeat,
    listener: Listener,
}

impl Model for PopPass {
    ghost use Rattle.std.specs.Prelude.{◌≡◌, ◌≤◌, ◌^◌, [], ◌∷◌, length, true};
    ghost use Rattle.crossbeam_queue.specs.Passes.{view as sees};
    ghost use Rattle.firm_bell.specs.declared.rule.Stage.TheVariants.{Awake};
    ghost use Rattle.firm_rounds.specs.Rule.{WasEmpty};
    ghost use Rattle.firm_rounds.specs.Rounds.{share, share_of};
    ghost use Rattle.firm_rounds.specs.inner.Seats.{IsShareOf};
    ghost use Rattle.firm_rounds.specs.Passes.{PopIs};

    ghost Value = { PopIs };

    ghost view = { λ p. record {
      queue = record { table = p.seat.table_id; all = (sees p.seat).all; bell = p.listener.table_id };
      got = (share_of (sees p.seat)).got;
      knows_shut = p.listener.me.0.knows_shut;
      owes_call = p.listener.me.0.owes_call;
      found_none = p.found_none;
    } };

    ghost invariant = { λ p. ((p.seat.me.1 ≡ []) × (p.count ≡ length (share_of (sees p.seat)).got)
        × (p.count ≤ 2 ^ 61)
        × IsShareOf (share (share_of (sees p.seat)).place 0 (share_of (sees p.seat)).got) (sees p.seat))
        × (p.listener.me.0.stage ≡ Awake) × (p.listener.me.0.took ≡ p.count)
        × (p.found_none ≡ true → WasEmpty (share_of (sees p.seat)).got) };
}

impl PutPass {
    pub(crate) fn of(place: u32, seat: QueueSeat, bell: &Bell) -> PutPass
        requires { (place < 64) × (seat.me.1 ≡ []) × (view seat ≡ sight (view seat).all (share place 0 [] ∷ [])) }
        ensures { (result.queue.table ≡ seat.table_id) × (result.queue.all ≡ (view seat).all) × (result.place ≡ place)
            × (result.put ≡ 0) × (result.queue.bell ≡ bell.now) }
    {
        PutPass {
            place,
            put: 0,
            seat,
            bell: bell.name(),
        }
    }

    /// The ticket to put next.
    pub fn next(&self) -> Ticket
        ensures { result ≡ ticket self.now.place (self.now.put + 1) }
    {
        Ticket {
            place: self.place,
            number: self.put + 1,
        }
    }

    /// Puts the job, which the caller has counted, if there is room, or else gives it back.
    pub(crate) fn try_put<R: Wait>(
        &mut self,
        rt: &R,
        ring: &Ring,
        parts: JobParts,
        caller: &Caller,
    ) -> Result<(), JobParts>
        requires counted { StandsAt self.old.queue.bell Putting caller.now }
        requires of { (self.old.queue.table ≡ ring.now.table.shared.table_id) × (0 < self.old.queue.all)
            × (ruled_capacity ring.now ≡ 8) }
        requires next { parts.ticket ≡ ticket self.old.place (self.old.put + 1) }
        requires room { self.old.put < 2 ^ 55 }
        ensures { MatchResult result
            (λ _. self.new ≡ put_is self.old.queue self.old.place (self.old.put + 1))
            (λ back. (self.new ≡ self.old) × (back.ticket ≡ parts.ticket)) }
    {
        let _ = caller;
        match ring.push_as::<Puts, R>(rt, &mut self.seat, parts) {
            Ok(()) => {
                self.put += 1;
                Ok(())
            }
            Err(back) => Err(back),
        }
    }

    /// A seat with its share. The pass is spent.
    pub(crate) fn give(&mut self, ring: &Ring) -> QueueSeat
        requires { (self.old.queue.table ≡ ring.now.table.shared.table_id) × (0 < self.old.queue.all) }
        ensures pass { self.new ≡ spent_put self.old }
        ensures seat { IsPassOf ring.now result × (view result
            ≡ sight self.old.queue.all (share self.old.place self.old.put [] ∷ [])) }
    {
        ring.another::<Give>(&mut self.seat)
    }
}

impl PopPass {
    pub(crate) fn of(seat: QueueSeat, listener: Listener) -> PopPass
        requires seat { (seat.me.1 ≡ []) × ((p : ℕ) × (view seat ≡ sight (view seat).all (share p 0 [] ∷ []))) }
        requires listener { listener.me.0 ≡ newcomer }
        ensures { (result.queue.table ≡ seat.table_id) × (result.queue.all ≡ (view seat).all) × (result.got ≡ [])
            × (result.queue.bell ≡ listener.table_id) × (result.knows_shut ≡ false) × (result.owes_call ≡ false)
            × (result.found_none ≡ false) }
    {
        PopPass {
            count: 0,
            was_full: false,
            found_none: false,
            seat,
            listener,
        }
    }

    pub(crate) fn pop<R: Wait>(&mut self, rt: &R, ring: &Ring, bell: &Bell) -> Option<JobParts>
        requires of { (self.old.queue.table ≡ ring.now.table.shared.table_id) × (0 < self.old.queue.all) }
        requires bell { self.old.queue.bell ≡ bell.now }
        ensures { MatchOption result ((self.new ≡ got_none self.old) × WasEmpty self.new.got)
            (λ x. self.new ≡ got_one x.ticket self.old) }
    {
        let Some(parts) = ring.pop_as::<Pops, R>(rt, &mut self.seat) else {
            self.found_none = true;
            return None;
        };
        self.count += 1;
        self.found_none = false;
        self.was_full = bell.took(&mut self.listener);
        // One wake may stand for several rounds.
        bell.make_owed_call(&mut self.listener);
        Some(parts)
    }

    /// Whether the queue was full until it got its last job.
    pub fn was_full(&self) -> bool {
        self.was_full
    }

    pub(crate) fn learns_shut(&mut self, bell: &Bell) -> bool
        requires { self.old.queue.bell ≡ bell.now }
        ensures same { GoesOn self.old self.new }
        ensures knows { result ≡ true → self.new.knows_shut ≡ true }
        ensures looks { self.new.found_none ≡ false }
    {
        self.found_none = false;
        bell.is_shut(&mut self.listener)
    }

    pub(crate) fn rests<R: Wait>(&mut self, rt: &R, bell: &Bell, looks: u32) -> u32
        requires bell { self.old.queue.bell ≡ bell.now }
        requires looked { self.old.found_none ≡ true }
        ensures same { GoesOn self.old self.new }
        ensures knows { self.new.knows_shut ≡ self.old.knows_shut }
        ensures looks { self.new.found_none ≡ false }
    {
        self.found_none = false;
        bell.rest_or_look(rt, &mut self.listener, looks)
    }

    /// Number of jobs that it got.
    pub fn count(&self) -> u64
        ensures { result ≡ length self.now.got }
    {
        self.count
    }

    /// A seat with its share. The pass is spent.
    pub(crate) fn give(&mut self, ring: &Ring) -> QueueSeat
        requires { (self.old.queue.table ≡ ring.now.table.shared.table_id) × (0 < self.old.queue.all) }
        ensures pass { self.new ≡ spent_pop self.old }
        ensures seat { IsPassOf ring.now result × ((p : ℕ)
            × (view result ≡ sight self.old.queue.all (share p 0 self.old.got ∷ []))) }
    {
        ring.another::<Give>(&mut self.seat)
    }
}

/// Proof that a worker ended: at one step, once the queue was shut, no round waited. Contracts see which bell said so.
#[derive(Drop)]
pub struct Ended {
    listener: Listener,
}

impl Model for Ended {
    ghost use Rattle.std.specs.Prelude.{◌≡◌};
    ghost use Rattle.atomic_table.specs.Seated.{TableId};
    ghost use Rattle.firm_bell.specs.declared.rule.Stage.TheVariants.{Ended as HasEnded};

    ghost Value = { TableId };

    ghost view = { λ e. e.listener.table_id };

    ghost invariant = { λ e. e.listener.me.0.stage ≡ HasEnded };
}

impl Ended {
    /// The proof, if the queue is shut and no round waits.
    pub(crate) fn of(bell: &Bell) -> Option<Ended>
        ensures { IfSome result (λ ended. ended ≡ bell.now) }
    {
        let mut listener = bell.listener();
        if bell.is_shut(&mut listener) && bell.ends(&mut listener) {
            Some(Ended { listener })
        } else {
            None
        }
    }
}

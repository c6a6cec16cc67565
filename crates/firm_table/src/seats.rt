//! A place of the table: its occupant, and how often it was used.

ghost use Rattle.std.specs.Prelude.{◌≡◌, ℕ, Bool, true, false, IfOk};
ghost use Rattle.firm_table.specs.Interleaving.{next_ticket, is_held, taken_by};
ghost use Rattle.firm_table.specs.Interleaving.{posted, asked, solved, collected, admitted, retired, local};
ghost use Rattle.firm_table.specs.Fitting.{asks};
ghost use Rattle.firm_table.specs.inner.Seats.{Becomes};
ghost use Rattle.firm_table.specs.inner.Tables.{first_seat};

use crate::events::{Answer, Event};
use crate::occupants::{Occupant, Part};
use firm_rules::{Command, Limits, Name, Ticket};
use firm_tenant::steps_count_once;
use firm_text::MOST_ADMISSIONS;
use std::alloc::{AllocError, Global};
use std::marker::Model;

// The occupant of a place, how many rounds all its tenants have queued, and how often the place was given.
#[derive(Drop)]
pub(crate) struct Seat {
    occupant: Option<Occupant>,
    rounds: u64,
    admissions: u32,
}

impl Model for Seat {
    ghost use Rattle.firm_table.specs.Interleaving.{Seat as SeatState};

    ghost Value = { SeatState };

    ghost use Rattle.firm_table.specs.inner.Seats.{seat_of, CountsFit};

    ghost view = { λ s. seat_of s.occupant s.rounds s.admissions };

    ghost invariant = { λ s. CountsFit (seat_of s.occupant s.rounds s.admissions) };
}

impl Seat {
    // A place before the first event: given for the first time, to the tenant of the roster's row, which is home, or
    // never, if there is no row.
    pub(crate) fn first(alloc: Global, row: Option<(Name, Limits)>) -> Result<Seat, AllocError>
        ensures { IfOk result (λ seat. seat ≡ first_seat row) }
    {
        let Some((_, limits)) = row else {
            return Ok(Seat {
                occupant: None,
                rounds: 0,
                admissions: 0,
            });
        };
        Ok(Seat {
            occupant: Some(Occupant::admit(alloc, limits)?),
            rounds: 0,
            admissions: 1,
        })
    }

    // Whether this worker solves the tenant's round.
    pub(crate) fn is_held_by(&self, worker: usize) -> bool
        ensures { result ≡ is_held worker self.now.station }
    {
        match &self.occupant {
            Some(occupant) => match occupant.part {
                Part::Held(_, holder) => holder == worker,
                Part::Home | Part::Queued(_) | Part::Answered(_) => false,
            },
            None => false,
        }
    }

    // Carries out an event at this place.
    pub(crate) fn happen(&mut self, alloc: Global, place: u32, event: Event) -> Answer
        ensures { (mark : Bool) × (asks event ≡ true → mark ≡ false)
            × Becomes self.old (local self.old place event mark) result self.new }
    {
        match event {
            Event::Post(_, command) => self.post(alloc, command),
            Event::Ask(_) => self.ask(alloc, place),
            Event::Take(_) => Answer::NotNow,
            Event::Answer(_) => self.solve(alloc),
            Event::Collect(_) => self.collect(),
            Event::Admit(_, limits) => self.admit(alloc, limits),
            Event::Retire(_) => self.retire(),
        }
    }

    // Answers a command that is not a round.
    fn post(&mut self, alloc: Global, command: Command) -> Answer
        ensures { (mark : Bool) × Becomes self.old (posted self.old.station command mark) result self.new }
    {
        // A law: the count of commands does not fall.
        steps_count_once();
        let Some(occupant) = &mut self.occupant else {
            return Answer::NotNow;
        };
        occupant.post(alloc, command)
    }

    // Has a round queued, if life is left for it.
    fn ask(&mut self, alloc: Global, place: u32) -> Answer
        ensures { Becomes self.old (asked self.old.station (next_ticket place self.old) false) result self.new }
    {
        // A law: a tenant without life left stays as it is.
        steps_count_once();
        let Some(occupant) = &mut self.occupant else {
            return Answer::NotNow;
        };
        let number = self.rounds + 1;
        let answer = occupant.ask(alloc, Ticket { place, number });
        if let Answer::Queued(_) = &answer {
            self.rounds = number;
        }
        answer
    }

    // Gives the waiting round to this worker.
    pub(crate) fn give(&mut self, worker: usize)
        ensures { self.new ≡ record self.old { station = taken_by worker self.old.station } }
    {
        if let Some(occupant) = &mut self.occupant {
            if let Part::Queued(ticket) = occupant.part {
                occupant.part = Part::Held(ticket, worker);
            }
        }
    }

    // Solves the round that a worker holds.
    fn solve(&mut self, alloc: Global) -> Answer
        ensures { (mark : Bool) × Becomes self.old (solved self.old.station mark) result self.new }
    {
        // A law: life is left for the round, so the count of commands grows with it.
        steps_count_once();
        let Some(occupant) = &mut self.occupant else {
            return Answer::NotNow;
        };
        occupant.solve(alloc)
    }

    // Brings the tenant home with the reply to its round.
    fn collect(&mut self) -> Answer
        ensures { Becomes self.old (collected self.old.station) result self.new }
    {
        let Some(occupant) = &mut self.occupant else {
            return Answer::NotNow;
        };
        occupant.collect()
    }

    // Gives the place to a new tenant, if it is empty and has an admission left.
    fn admit(&mut self, alloc: Global, limits: Limits) -> Answer
        ensures { (mark : Bool)
            × Becomes self.old (admitted self.old.station self.old.admissions limits mark) result self.new }
    {
        if self.occupant.is_some() || MOST_ADMISSIONS <= self.admissions {
            return Answer::NotNow;
        }
        let Ok(occupant) = Occupant::admit(alloc, limits) else {
            return Answer::NoMemory;
        };
        self.occupant = Some(occupant);
        self.admissions += 1;
        Answer::Admitted
    }

    // Retires the tenant, if it is home.
    fn retire(&mut self) -> Answer
        ensures { Becomes self.old (retired self.old.station) result self.new }
    {
        let Some(occupant) = &self.occupant else {
            return Answer::NotNow;
        };
        if !occupant.is_home() {
            return Answer::NotNow;
        }
        self.occupant = None;
        Answer::Retired
    }
}

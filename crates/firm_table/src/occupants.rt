//! A tenant at a place of the table, and how far its round has come.

ghost use Rattle.std.specs.Prelude.{◌≡◌, ◌≤◌, ◌^◌, Bool, false, IfOk};
ghost use Rattle.firm_rules.specs.Book.{opening_book};
ghost use Rattle.firm_table.specs.Interleaving.{home, is_home, posted, asked, solved, collected};
ghost use Rattle.firm_table.specs.inner.Seats.{station_of};

use crate::events::Answer;
use firm_rules::{Command, Limits, Reply, Ticket};
use firm_tenant::Tenant;
use std::alloc::{AllocError, Global};
use std::mem;

// How far a tenant's round has come.
#[derive(Drop)]
pub(crate) enum Part {
    // No round is on its way.
    Home,
    // It waits in the queue.
    Queued(Ticket),
    // This worker solves it.
    Held(Ticket, usize),
    // It is solved, and the reply waits for the tenant's return.
    Answered(Reply),
}

// A tenant, and how far its round has come.
pub(crate) struct Occupant {
    tenant: Tenant,
    pub(crate) part: Part,
}

impl Drop for Occupant {
    // Written out, so that who drops an occupant has one call for it.
    fn drop(self) {
        let Self { tenant, part } = self;
        drop(tenant);
        drop(part);
    }
}

impl Occupant {
    // A new tenant, which is home and has nothing yet.
    pub(crate) fn admit(alloc: Global, limits: Limits) -> Result<Occupant, AllocError>
        ensures home { IfOk result (λ occupant. station_of occupant ≡ home (opening_book limits)) }
        ensures life { limits.life ≤ 2 ^ 40 }
    {
        // For the second clause: no life has more commands.
        prove!(limits.life() <= 1 << 40);
        Ok(Occupant {
            tenant: Tenant::admit(alloc, limits)?,
            part: Part::Home,
        })
    }

    // Whether the tenant is home.
    pub(crate) fn is_home(&self) -> bool
        ensures { result ≡ is_home (station_of self.now) }
    {
        matches!(self.part, Part::Home)
    }

    // Answers a command that is not a round.
    pub(crate) fn post(&mut self, alloc: Global, command: Command) -> Answer
        ensures { (mark : Bool) × ((result, station_of self.new) ≡ posted (station_of self.old) command mark) }
    {
        let Part::Home = self.part else {
            return Answer::NotNow;
        };
        if let Command::Round = command {
            return Answer::NotNow;
        }
        Answer::Replied(self.tenant.step(alloc, command))
    }

    // Has a round queued under this ticket, if life is left for it.
    pub(crate) fn ask(&mut self, alloc: Global, ticket: Ticket) -> Answer
        ensures { (result, station_of self.new) ≡ asked (station_of self.old) ticket false }
    {
        let Part::Home = self.part else {
            return Answer::NotNow;
        };
        if self.tenant.life_left() == 0 {
            return Answer::Replied(self.tenant.step(alloc, Command::Round));
        }
        self.part = Part::Queued(ticket);
        Answer::Queued(ticket)
    }

    // Solves the round that a worker holds.
    pub(crate) fn solve(&mut self, alloc: Global) -> Answer
        ensures { (mark : Bool) × ((result, station_of self.new) ≡ solved (station_of self.old) mark) }
    {
        let Part::Held(ticket, _) = self.part else {
            return Answer::NotNow;
        };
        let reply = self.tenant.step(alloc, Command::Round);
        self.part = Part::Answered(reply);
        Answer::Solved(ticket)
    }

    // Brings the tenant home with the reply to its round.
    pub(crate) fn collect(&mut self) -> Answer
        ensures { (result, station_of self.new) ≡ collected (station_of self.old) }
    {
        match mem::replace(&mut self.part, Part::Home) {
            Part::Answered(reply) => Answer::Replied(reply),
            part => {
                self.part = part;
                Answer::NotNow
            }
        }
    }
}

//! The desks of a hall: a tenant at home, and one whose round is away.
ghost use Rattle.std.specs.Prelude.{◌≡◌, ◌≢◌, ◌+◌, ◌≤◌, ◌^◌, [], ◌∷◌, ◌++◌, ◌<◌, IfOk, MatchResult, OnOk};
ghost use Rattle.firm_rules.specs.Book.{opening_book};
ghost use Rattle.firm_rules.specs.declared.commands.Command.TheVariants.{Round};
ghost use Rattle.firm_rounds.specs.Passes.{closing_is};
ghost use Rattle.firm_rounds.specs.Rounds.{share};
ghost use Rattle.firm_hall.specs.Desks.{desk_is, place_is, spent_desk, IsLive, IsStep, IsRefused};
ghost use Rattle.firm_hall.specs.Polls.{IsAskedPoll};

use crate::asker::Asker;
use crate::empty::EmptyDesk;
use crate::halls::Hall;
use crate::places::Place;
use firm_rounds::{Closing, Job, PutPass};
use firm_rules::{Command, Limits, Reply};
use firm_tenant::{Tenant, steps_count_once};
use firm_tray::{AskSide, Polled, Solved, Tray};
use std::alloc::{AllocError, Global};
use std::marker::Model;
use std::sync::Wait;

/// A tenant at home, owned by the desk's holder. Contracts see its hall, its place, how many rounds all tenants of the
/// place asked, how often the place was given, and the tenant's book.
pub struct Desk {
    tenant: Tenant,
    pub(crate) place: Place,
}

impl Drop for Desk {
    // Written out, so that who owns a desk has one call where it is dropped.
    fn drop(self) {
        let Self { tenant, place } = self;
        drop(tenant);
        drop(place);
    }
}

impl Model for Desk {
    ghost use Rattle.firm_hall.specs.Desks.{DeskIs, desk_is, IsLive};

    ghost Value = { DeskIs };

    ghost view = { λ d. desk_is d.place.queue d.place.place d.place.put d.place.admissions d.tenant };

    ghost invariant = { λ d. IsLive d.place.put d.place.admissions d.tenant };
}

/// The token for a tenant whose round is away. Contracts see it as the desk that asked, with the book it handed over.
pub struct Asked {
    side: AskSide,
    place: Place,
}

impl Drop for Asked {
    // Written out, as for `Desk`.
    fn drop(self) {
        let Self { side, place } = self;
        drop(side);
        drop(place);
    }
}

impl Model for Asked {
    ghost use Rattle.firm_hall.specs.Desks.{DeskIs, desk_is, IsLiveAway};

    ghost Value = { DeskIs };

    ghost view = { λ a. desk_is a.place.queue a.place.place a.place.put a.place.admissions a.side.book };

    ghost invariant = { λ a. IsLiveAway a.place.put a.place.admissions a.side.book };
}

/// The result of polling a requested round.
#[derive(Drop)]
pub enum AskedPoll {
    /// The desk is back with the round's reply.
    Back(Desk, Reply),
    /// The round is not answered yet.
    Not(Asked),
}

impl Desk {
    // The desk of a tenant just admitted to this place.
    pub(crate) fn at(place: Place, tenant: Tenant) -> Desk
        requires { IsLive place.put place.admissions tenant }
        ensures { result ≡ desk_is place.queue place.place place.put place.admissions tenant }
    {
        Desk { tenant, place }
    }

    // The desk of a tenant admitted with these limits to a place that was never given. Fails only if memory is refused.
    pub(crate) fn open(alloc: Global, limits: Limits, pass: PutPass) -> Result<Desk, AllocError>
        requires { pass.put ≡ 0 }
        ensures { IfOk result (λ desk. desk ≡ desk_is pass.queue pass.place 0 1 (opening_book limits)) }
    {
        // A life is at most 2^40 commands, so ticket numbers never run out.
        prove!(limits.life() <= 1 << 40);
        let tenant = Tenant::admit(alloc, limits)?;
        let place = Place::given_before(pass, 1);
        Ok(Desk { tenant, place })
    }

    /// The tenant's reply to a command that is not a round. Never waits.
    pub fn command(&mut self, alloc: Global, command: Command) -> Reply
        requires { command ≢ Round }
        ensures { IsStep self.old command result self.new }
    {
        // A law: a step counts once.
        steps_count_once();
        self.tenant.step(alloc, command)
    }

    /// Requests the tenant's round, which goes to a worker of the hall. Without life or memory, returns the desk
    /// with that refusal.
    pub fn ask<R: Wait>(self, rt: &R, alloc: Global, hall: &Hall) -> Result<Asked, (Desk, Reply)>
        requires { self.queue ≡ hall.now.id }
        ensures asked { MatchResult result
            (λ asked. asked ≡ desk_is self.queue self.place (self.put + 1) self.admissions self.book)
            (λ back. IsRefused self back.1 back.0) }
        ensures left { OnOk result (self.book.given < self.book.rows.limits.life) }
    {
        let mut asker = Asker::of(hall);
        let asked = self.ask_unrung(rt, alloc, hall, &mut asker);
        asker.ring(hall);
        asker.end();
        asked
    }

    // The same for an asker that asks for more before it waits, and rings then.
    pub(crate) fn ask_unrung<R: Wait>(
        self,
        rt: &R,
        alloc: Global,
        hall: &Hall,
        asker: &mut Asker,
    ) -> Result<Asked, (Desk, Reply)>
        requires of { self.queue ≡ hall.now.id }
        requires asker { asker.old.queue ≡ hall.now.id }
        ensures asker { asker.new.queue ≡ asker.old.queue }
        ensures asked { MatchResult result
            (λ asked. asked ≡ desk_is self.queue self.place (self.put + 1) self.admissions self.book)
            (λ back. IsRefused self back.1 back.0) }
        ensures left { OnOk result (self.book.given < self.book.rows.limits.life) }
    {
        let Desk {
            mut tenant,
            mut place,
        } = self;
        // A law: a step counts once.
        steps_count_once();
        if tenant.life_left() == 0 {
            let reply = tenant.step(alloc, Command::Round);
            return Err((Desk { tenant, place }, reply));
        }
        let (side, answer) = match Tray::open(alloc, &tenant) {
            Ok(sides) => sides,
            Err(error) => {
                let reply = tenant.no_memory(error);
                return Err((Desk { tenant, place }, reply));
            }
        };
        let job = Job::new(place.next(), tenant, answer);
        place.put(rt, hall, job, asker);
        Ok(Asked { side, place })
    }

    /// Retires the tenant from its place and drops all that it had. Its ticket numbers stay with the place. Never
    /// waits, and takes no memory.
    pub fn retire(self) -> EmptyDesk
        ensures { result ≡ place_is self.queue self.place self.put self.admissions }
    {
        let Desk { tenant: _, place } = self;
        EmptyDesk { place }
    }

    // Hands in the pass.
    pub(crate) fn give(&mut self, closing: &mut Closing)
        requires { self.old.queue ≡ closing.old.id }
        ensures closing { closing.new
            ≡ closing_is closing.old.id (closing.old.shares ++ share self.old.place self.old.put [] ∷ []) }
        ensures desk { self.new ≡ spent_desk self.old }
    {
        self.place.give(closing);
    }
}

impl Asked {
    /// Whether the round is answered, as far as one load tells. A `false` may be old when it is read.
    pub(crate) fn is_answered(&self) -> bool {
        self.side.is_answered()
    }

    /// The desk with the round's reply, if the round is answered; otherwise the same token. Never waits, and takes no
    /// memory.
    pub fn poll(self) -> AskedPoll
        ensures { IsAskedPoll self result }
    {
        // A law: a step counts once.
        steps_count_once();
        let Asked { side, place } = self;
        match side.poll() {
            Polled::Back(Solved { tenant, reply }) => AskedPoll::Back(
                Desk { tenant, place },
                reply,
            ),
            Polled::Not(side) => AskedPoll::Not(Asked { side, place }),
        }
    }

    /// Waits for the round; returns the desk with its reply. Takes no memory.
    pub fn wait<R: Wait>(self, rt: &R) -> (Desk, Reply)
        ensures { IsStep self Round result.1 result.0 }
    {
        // A law: a step counts once.
        steps_count_once();
        let Asked { side, place } = self;
        let Solved { tenant, reply } = side.wait(rt);
        (Desk { tenant, place }, reply)
    }
}

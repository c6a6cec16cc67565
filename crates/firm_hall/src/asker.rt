//! The right to ask for rounds, and the clerk's sleep, before which it must have rung.
ghost use Rattle.std.specs.Prelude.{◌≡◌, ◌+◌, ◌<◌, ◌^◌, false};
ghost use Rattle.firm_rounds.specs.Passes.{put_is};
ghost use Rattle.firm_rounds.specs.Rounds.{ticket};

use crate::halls::Hall;
use crossbeam_utils::sync::{EventCount, Key};
use firm_bell::Caller;
use firm_rounds::{Job, PutPass};
use std::marker::Model;
use std::snapshot::Snapshot;
use std::sync::Wait;

/// Asks for rounds, and rings for those for which no worker was woken. It is not `Drop`: it ends once it has rung.
/// Contracts see its hall, and whether it has still to ring.
pub(crate) struct Asker {
    // Only clauses read it.
    hall: Snapshot<Hall>,
    caller: Caller,
}

impl Model for Asker {
    ghost use Rattle.firm_bell.specs.Steps.{HasCalled};
    ghost use Rattle.firm_hall.specs.Desks.{AskerIs};

    ghost Value = { AskerIs };

    ghost view = { λ a. record { queue = a.hall.value.id; owes = a.caller.me.0.owes_ring } };

    ghost invariant = { λ a. HasCalled a.hall.value.id.bell a.caller.me.0.counted a.caller };
}

impl Asker {
    /// An asker that has put nothing yet.
    pub(crate) fn of(hall: &Hall) -> Asker
        ensures { result.queue ≡ hall.now.id }
    {
        Asker {
            hall: Snapshot::of(hall),
            caller: hall.queue.caller(),
        }
    }

    /// Puts the job, whose ticket is the pass's next. Possibly no worker is woken for it until this rings.
    pub(crate) fn put<R: Wait>(&mut self, rt: &R, hall: &Hall, pass: &mut PutPass, job: Job)
        requires hall { self.old.queue ≡ hall.now.id }
        requires of { pass.old.queue ≡ hall.now.id }
        requires next { job.ticket ≡ ticket pass.old.place (pass.old.put + 1) }
        requires room { pass.old.put < 2 ^ 55 }
        ensures hall { self.new.queue ≡ self.old.queue }
        ensures pass { pass.new ≡ put_is pass.old.queue pass.old.place (pass.old.put + 1) }
    {
        hall.queue.put_unrung(rt, pass, job, &mut self.caller);
    }

    /// Rings, if it has to.
    pub(crate) fn ring(&mut self, hall: &Hall)
        requires { self.old.queue ≡ hall.now.id }
        ensures hall { self.new.queue ≡ self.old.queue }
        ensures rung { self.new.owes ≡ false }
    {
        hall.queue.ring(&mut self.caller);
    }

    /// Ends it, once it has rung.
    pub(crate) fn end(self)
        requires { self.owes ≡ false }
    {
        let Asker { hall: _, caller } = self;
        caller.end();
    }
}

/// The clerk's announcement of a sleep. The clerk sleeps by it alone.
#[derive(Drop)]
pub(crate) struct Announced<'h> {
    key: Key<'h>,
}

impl<'h> Announced<'h> {
    pub(crate) fn on(answers: &'h EventCount) -> Announced<'h> {
        Announced {
            key: answers.prepare_wait(),
        }
    }

    /// Sleeps until a notification after the announcement. The asker has rung, so none of its rounds waits unheard.
    pub(crate) fn sleep<R: Wait>(self, rt: &R, asker: &Asker)
        requires { asker.now.owes ≡ false }
    {
        let _ = asker;
        let Announced { key } = self;
        key.wait(rt);
    }
}

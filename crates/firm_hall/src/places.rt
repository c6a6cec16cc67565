//! The places of a hall: what each keeps from one tenant to the next.
ghost use Rattle.std.specs.Prelude.{◌≡◌, ◌+◌, ◌<◌, ◌≤◌, ◌^◌, [], ◌∷◌, ◌++◌, MatchBool};
ghost use Rattle.firm_rounds.specs.Passes.{closing_is};
ghost use Rattle.firm_rounds.specs.Rounds.{ticket, share};
ghost use Rattle.firm_text.specs.Registers.{most_admissions};
ghost use Rattle.firm_hall.specs.Desks.{place_is, spent_place, rounds_of};

use crate::asker::Asker;
use crate::halls::Hall;
use firm_rounds::{Closing, Job, PutPass};
use firm_rules::Ticket;
use firm_text::MOST_ADMISSIONS;
use std::marker::Model;
use std::sync::Wait;

// The pass that asks the rounds of a place, and how often the place was given.
#[derive(Drop)]
pub(crate) struct Place {
    pass: PutPass,
    admissions: u32,
}

impl Model for Place {
    ghost use Rattle.firm_hall.specs.Desks.{PlaceIs, place_is, PlaceCountsFit};

    ghost Value = { PlaceIs };

    ghost view = { λ p. place_is p.pass.queue p.pass.place p.pass.put p.admissions };

    ghost invariant = { λ p. PlaceCountsFit p.pass.put p.admissions };
}

impl Place {
    // A place that was given this often, and where no round was requested yet.
    pub(crate) fn given_before(pass: PutPass, admissions: u32) -> Place
        requires unused { pass.put ≡ 0 }
        requires few { admissions ≤ most_admissions }
        ensures { result ≡ place_is pass.queue pass.place 0 admissions }
    {
        Place { pass, admissions }
    }

    // The place, given once more.
    pub(crate) fn given(self) -> Place
        requires { self.admissions < most_admissions }
        ensures { result ≡ place_is self.queue self.place self.put (self.admissions + 1) }
    {
        let Place { pass, admissions } = self;
        Place {
            pass,
            admissions: admissions + 1,
        }
    }

    // Whether the place was given as often as it may be.
    pub(crate) fn is_worn(&self) -> bool
        ensures { MatchBool result (most_admissions ≤ self.now.admissions) (self.now.admissions < most_admissions) }
    {
        MOST_ADMISSIONS <= self.admissions
    }

    // The ticket of the next round.
    pub(crate) fn next(&self) -> Ticket
        ensures { result ≡ ticket self.now.place (self.now.put + 1) }
    {
        self.pass.next()
    }

    // Number of rounds requested. Each of at most 32,768 tenants requests no more rounds than it is given commands, at
    // most 2^40.
    pub(crate) fn asked(&self) -> u64
        ensures count { result ≡ self.now.put }
        ensures few { result ≤ 2 ^ 55 }
    {
        self.pass.next().number - 1
    }

    // Asks for a round, whose job has the next ticket. If others wait or are being solved, possibly no worker is woken
    // until the asker rings.
    pub(crate) fn put<R: Wait>(&mut self, rt: &R, hall: &Hall, job: Job, asker: &mut Asker)
        requires of { self.old.queue ≡ hall.now.id }
        requires next { job.ticket ≡ ticket self.old.place (self.old.put + 1) }
        requires room { self.old.put < rounds_of self.old.admissions }
        requires asker { asker.old.queue ≡ hall.now.id }
        ensures place { self.new ≡ place_is self.old.queue self.old.place (self.old.put + 1) self.old.admissions }
        ensures asker { asker.new.queue ≡ asker.old.queue }
    {
        asker.put(rt, hall, &mut self.pass, job);
    }

    // Hands in the pass.
    pub(crate) fn give(&mut self, closing: &mut Closing)
        requires { self.old.queue ≡ closing.old.id }
        ensures closing { closing.new
            ≡ closing_is closing.old.id (closing.old.shares ++ share self.old.place self.old.put [] ∷ []) }
        ensures place { self.new ≡ spent_place self.old }
    {
        closing.put_pass(&mut self.pass);
    }
}

//! The state of a tenant's place while the hall serves.
ghost use Rattle.std.specs.Prelude.{◌≡◌, ◌≢◌, ◌+◌, ◌<◌, ◌≤◌, ◌^◌, IsSome, Some, false, true, vec_capacity, vec_len};
ghost use Rattle.firm_rounds.specs.Passes.{QueueId};
ghost use Rattle.firm_hall.specs.inner.DeskStates.{IsAdmitted, IsAway, IsBack, IsFree, IsHome, IsHomeOf, IsRetired};
ghost use Rattle.firm_hall.specs.inner.DeskStates.{IsTakenAt, IsTurned, NoneIsAway, with_waiting};
ghost use Rattle.firm_hall.specs.inner.Ending.{AreOf, IsOf};
ghost use Rattle.firm_hall.specs.inner.Serving.{asked_at};
ghost use Rattle.firm_rules.specs.declared.commands.Command.TheVariants.{Round};

use crate::asker::Asker;
use crate::desks::{Asked, AskedPoll, Desk};
use crate::empty::{AdmitFault, EmptyDesk};
use crate::setting::Setting;
use firm_rules::{Command, Limits, Reply};
use std::alloc::Global;
use std::mem;
use std::sync::Wait;

/// The state of a place.
pub(crate) enum DeskState {
    /// The tenant is at home; possibly commands wait for it.
    Home(Desk, bool),
    /// The tenant's round is away.
    Away(Asked),
    /// No tenant has the place.
    Empty(EmptyDesk),
    /// Nothing, while its desk is taken out to be worked on.
    Gone,
}

impl Drop for DeskState {
    // Written out, so that who puts another state in its place has one call where it is dropped.
    fn drop(self) {
        match self {
            DeskState::Home(desk, _) => drop(desk),
            DeskState::Away(asked) => drop(asked),
            DeskState::Empty(place) => drop(place),
            DeskState::Gone => {}
        }
    }
}

impl DeskState {
    // Whether the place is empty, or its tenant at home with no command waiting.
    pub(crate) fn is_back(&self) -> bool
        ensures { result ≡ true → IsBack self.now }
    {
        match self {
            DeskState::Home(_, waits) => !*waits,
            DeskState::Empty(_) => true,
            DeskState::Away(_) | DeskState::Gone => false,
        }
    }

    // Whether the tenant is at home and commands wait for it.
    pub(crate) fn has_waiting(&self) -> bool
        ensures { result ≡ true → IsHome self.now }
    {
        match self {
            DeskState::Home(_, waits) => *waits,
            _ => false,
        }
    }

    // Whether a round is away from the place.
    pub(crate) fn is_away(&self) -> bool
        ensures { result ≡ true → IsAway self.now }
    {
        match self {
            DeskState::Away(_) => true,
            _ => false,
        }
    }

    // Whether the round that is away is answered, as far as one load tells.
    fn is_answered(&self) -> bool
        requires { IsAway self.now }
    {
        match self {
            DeskState::Away(asked) => asked.is_answered(),
            _ => unreachable!(),
        }
    }

    // Says whether commands wait for the tenant, if it is home.
    pub(crate) fn set_waiting(&mut self, waits: bool)
        ensures { self.new ≡ with_waiting waits self.old }
    {
        if let DeskState::Home(_, now) = self {
            *now = waits;
        }
    }

    // If the round that is away is answered, brings its desk home and returns its reply; otherwise changes nothing.
    pub(crate) fn look(&mut self) -> Option<Reply>
        requires { IsAway self.old }
        ensures turned { IsTurned self.old self.new result }
        ensures home { IsSome result → IsHome self.new }
    {
        // A look in vain is one load, and leaves the token where it stands.
        if !self.is_answered() {
            return None;
        }
        let (desk_state, reply) = mem::replace(self, DeskState::Gone).polled();
        let _gone = mem::replace(self, desk_state);
        reply
    }

    // The same by value, so that a way out has either the place or what was taken from it.
    fn polled(self) -> (DeskState, Option<Reply>)
        requires { IsAway self }
        ensures turned { IsTurned self result.0 result.1 }
        ensures home { IsSome result.1 → IsHome result.0 }
    {
        match self {
            DeskState::Away(asked) => match asked.poll() {
                AskedPoll::Back(desk, reply) => (DeskState::Home(desk, true), Some(reply)),
                AskedPoll::Not(same) => (DeskState::Away(same), None),
            },
            _ => unreachable!(),
        }
    }

    // Gives a command to the desk that is home at this place; returns the reply, unless the command is a round that is
    // then away.
    pub(crate) fn take<R: Wait>(
        &mut self,
        setting: &Setting<'_, R>,
        command: &Command,
        asker: &mut Asker,
    ) -> Option<Reply>
        requires home { IsHomeOf setting.now.hall.now.id self.old }
        requires asker { asker.old.queue ≡ setting.now.hall.now.id }
        ensures taken { IsTakenAt self.old command.now self.new result }
        ensures asker { asker.new.queue ≡ asker.old.queue }
    {
        if *command == Command::Round {
            return self.ask(setting, asker);
        }
        let DeskState::Home(desk, _) = self else {
            unreachable!()
        };
        Some(desk.command(setting.alloc, *command))
    }

    // The same for a command that is not a round, apart so that it is not copied on most lines' way.
    pub(crate) fn tell(&mut self, alloc: Global, command: Command) -> Reply
        requires home { IsHome self.old }
        requires other { command ≢ Round }
        ensures { IsTakenAt self.old command self.new (Some result) }
    {
        let DeskState::Home(desk, _) = self else {
            unreachable!()
        };
        desk.command(alloc, command)
    }

    // The same for a round, out of line so that other commands do not pay for its locals.
    #[inline(never)]
    fn ask<R: Wait>(&mut self, setting: &Setting<'_, R>, asker: &mut Asker) -> Option<Reply>
        requires home { IsHomeOf setting.now.hall.now.id self.old }
        requires asker { asker.old.queue ≡ setting.now.hall.now.id }
        ensures taken { IsTakenAt self.old Round self.new result }
        ensures asker { asker.new.queue ≡ asker.old.queue }
    {
        let (desk_state, reply) = mem::replace(self, DeskState::Gone).asked(setting, asker);
        let _gone = mem::replace(self, desk_state);
        reply
    }

    // The same by value.
    fn asked<R: Wait>(
        self,
        setting: &Setting<'_, R>,
        asker: &mut Asker,
    ) -> (DeskState, Option<Reply>)
        requires home { IsHomeOf setting.now.hall.now.id self }
        requires asker { asker.old.queue ≡ setting.now.hall.now.id }
        ensures taken { IsTakenAt self Round result.0 result.1 }
        ensures asker { asker.new.queue ≡ asker.old.queue }
    {
        match self {
            DeskState::Home(desk, waits) => {
                match desk.ask_unrung(setting.rt, setting.alloc, setting.hall, asker) {
                    Ok(asked) => (DeskState::Away(asked), None),
                    Err((desk, reply)) => (DeskState::Home(desk, waits), Some(reply)),
                }
            }
            _ => unreachable!(),
        }
    }

    // Admits a tenant with these limits to the empty place. Returns `false` only if memory is refused, with the place
    // as it was.
    pub(crate) fn admit(&mut self, alloc: Global, limits: Limits) -> bool
        requires { IsFree self.old }
        ensures { IsAdmitted self.old limits result self.new }
    {
        let (desk_state, came) = mem::replace(self, DeskState::Gone).admitted(alloc, limits);
        let _gone = mem::replace(self, desk_state);
        came
    }

    // The same by value.
    fn admitted(self, alloc: Global, limits: Limits) -> (DeskState, bool)
        requires { IsFree self }
        ensures { IsAdmitted self limits result.1 result.0 }
    {
        match self {
            DeskState::Empty(place) => match place.admit(alloc, limits) {
                Ok(desk) => (DeskState::Home(desk, false), true),
                Err(AdmitFault::Memory(place)) => (DeskState::Empty(place), false),
                Err(AdmitFault::Worn(_)) => unreachable!(),
            },
            _ => unreachable!(),
        }
    }

    // Retires the tenant, which is home, from the place.
    pub(crate) fn retire(&mut self)
        requires { IsHome self.old }
        ensures { IsRetired self.old self.new }
    {
        let desk_state = mem::replace(self, DeskState::Gone).retired();
        let _gone = mem::replace(self, desk_state);
    }

    // The same by value.
    fn retired(self) -> DeskState
        requires { IsHome self }
        ensures { IsRetired self result }
    {
        match self {
            DeskState::Home(desk, _) => DeskState::Empty(desk.retire()),
            _ => unreachable!(),
        }
    }

    // Puts a desk with the others, or an empty one with the empty ones. Returns the number of rounds requested there.
    pub(crate) fn put_away(self, desks: &mut Vec<Desk>, empty: &mut Vec<EmptyDesk>) -> u64
        requires back { NoneIsAway self }
        requires room { vec_len desks.old < vec_capacity desks.old }
        requires empty_room { vec_len empty.old < vec_capacity empty.old }
        ensures of { (id : QueueId) → IsOf id self → AreOf id desks.old.items empty.old.items
            → AreOf id desks.new.items empty.new.items }
        ensures count { vec_len desks.new + vec_len empty.new ≡ (vec_len desks.old + vec_len empty.old) + 1 }
        ensures room { (vec_capacity desks.new ≡ vec_capacity desks.old)
            × (vec_capacity empty.new ≡ vec_capacity empty.old) }
        ensures asked { result ≡ asked_at self }
        ensures few { result ≤ 2 ^ 55 }
    {
        match self {
            DeskState::Home(desk, _) => {
                let rounds = desk.place.asked();
                desks.push_reserved(desk);
                rounds
            }
            DeskState::Empty(empty_desk) => {
                let rounds = empty_desk.place.asked();
                empty.push_reserved(empty_desk);
                rounds
            }
            DeskState::Away(_) | DeskState::Gone => unreachable!(),
        }
    }
}

//! Waiting: until what it waits for has come, the clerk looks at the rounds that are away, writes what it knows, and
//! rests.
ghost use Rattle.std.specs.Prelude.{◌≡◌, ◌<◌, ℕ, Bool, IfErr, List, OnOk, Option, false, true};
ghost use Rattle.std.specs.Option.{ForSome};
ghost use Rattle.firm_text.specs.Rosters.{most_places};
ghost use Rattle.firm_table.specs.Service.{IsWritingFault};
ghost use Rattle.firm_hall.specs.inner.Serving.{Begins, Follows, HasTurn, IsFinished, IsOpen, IsWrittenOut, Passes};
ghost use Rattle.firm_hall.specs.inner.Serving.{ServingIs};

use crate::asker::Announced;
use crate::patience::Looks;
use crate::serving::Serving;
use crate::setting::Setting;
use crossbeam_utils::sync::EventCount;
use firm_table::ServeFault;
use firm_text::{Sink, Source};
use std::alloc::Global;
use std::hint::spin_loop;
use std::sync::{Arc, Wait};

// A look at all places counts as this many at one tray, since it takes as long.
const LOOKS_OF_SEVERAL: u32 = 16;

// After this many looks in vain, some microseconds, a worker is woken for the rounds in the queue if a wake is owed.
const LOOKS_BEFORE_RING: u32 = 256;

/// The event that the clerk waits for.
pub(crate) trait Awaited {
    /// The part that no look changes.
    ghost Kept: { Type 0 };

    /// Its value for this.
    ghost kept: { Self → Self.Kept };

    /// The claim once it has come.
    ghost has_come: { Self.Kept → ServingIs → Type 0 };

    /// Whether it has come. If not, what makes it come notifies `answers` of the hall, or the waker.
    fn look(&mut self, serving: &Serving, waker: Option<&Arc<EventCount, Global>>) -> bool
        requires { IsWrittenOut serving.now }
        ensures come { result ≡ true → has_come (kept self.old) serving.now }
        ensures kept { kept self.new ≡ kept self.old };
}

/// The turn of a line: its answer can be held, and no command waits for the tenant that it retires, if it retires one.
#[derive(Drop)]
pub(crate) struct Turn {
    pub(crate) place: Option<usize>,
    ghost within: { ForSome place (λ at. at < most_places) },
}

/// Input, while answers are held: a read need not wait.
#[derive(Drop)]
pub(crate) struct Input<'r, S> {
    pub(crate) reader: &'r mut S,
}

/// The end: each answer was written.
#[derive(Drop)]
pub(crate) struct End;

impl Turn {
    /// Whether it has come.
    pub(crate) fn is_there(&self, serving: &Serving) -> bool
        ensures { result ≡ true → HasTurn self.now.place serving.now }
    {
        if !serving.held.has_room() {
            return false;
        }
        match self.place {
            None => true,
            Some(place) => serving.desk_states[place].is_back(),
        }
    }
}

impl Awaited for Turn {
    ghost Kept = { Option ℕ };

    ghost kept = { λ turn. turn.place };

    ghost has_come = { HasTurn };

    fn look(&mut self, serving: &Serving, _waker: Option<&Arc<EventCount, Global>>) -> bool {
        self.is_there(serving)
    }
}

impl<S: Source> Awaited for Input<'_, S> {
    // The reader, its remaining bytes, and whether a read has failed.
    ghost Kept = { ℕ × (Option (List ℕ) × Bool) };

    ghost kept = { λ input. (input.reader.ghost_name, (S.left input.reader.now, S.read_failed input.reader.now)) };

    ghost has_come = { λ _ serving. IsWrittenOut serving };

    fn look(&mut self, serving: &Serving, waker: Option<&Arc<EventCount, Global>>) -> bool {
        if serving.held.is_empty() {
            return true;
        }
        self.reader.is_ready(waker)
    }
}

impl Awaited for End {
    ghost Kept = { Unit {0} };

    ghost kept = { λ _. tt };

    ghost has_come = { λ _ serving. IsFinished serving };

    fn look(&mut self, serving: &Serving, _waker: Option<&Arc<EventCount, Global>>) -> bool {
        serving.held.is_empty()
    }
}

impl Serving {
    /// Waits for this. Meanwhile gives each tenant that is back the commands that waited for it, and writes each answer
    /// once it and all before it are known.
    pub(crate) fn wait<R: Wait, W: Sink, A: Awaited>(
        &mut self,
        setting: &Setting<'_, R>,
        writer: &mut W,
        awaited: &mut A,
    ) -> Result<(), ServeFault>
        requires writer { W.write_failed writer.old ≡ false }
        requires open { IsOpen setting.now.hall.now.id self.old }
        ensures told { OnOk result (Passes self.old self.new (W.written writer.old) (W.written writer.new)) }
        ensures come { OnOk result (A.has_come (A.kept awaited.old) self.new) }
        ensures kept { A.kept awaited.new ≡ A.kept awaited.old }
        ensures begins { Begins self.old (W.written writer.old) (W.written writer.new) }
        ensures cause { IfErr result (λ fault. IsWritingFault fault (W.write_failed writer.new)) }
        ensures well { OnOk result (W.write_failed writer.new ≡ false) }
        ensures follows { Follows self.old self.new }
    {
        let hall = setting.hall;
        let answers = &hall.answers;
        let mut looks = 0u32;
        for _ in setting.rt.forever() {
            // Whatever the looks that follow miss comes after the announcement and so ends the sleep.
            let most = self.patience.most_looks(self.unsettled.are_several());
            let announced = if most <= looks {
                Some(Announced::on(answers))
            } else {
                None
            };
            let count = self.held.len();
            let before = Looks {
                in_vain: looks,
                most,
            };
            self.write_out(setting, writer, before)?;
            let waker = announced.is_some().then_some(answers);
            if awaited.look(self, waker) {
                return Ok(());
            }
            // A look after which fewer answers are held was not in vain.
            let is_vain = self.held.len() == count;
            looks = self.rest(setting, announced, looks, is_vain);
        }
        unreachable!()
    }

    // Rests between two looks, if the one before was in vain; sleeps if a sleep was announced. The clerk rests nowhere
    // else, and here each answer that could be written by its order has been written. Returns the number of looks in
    // vain since the last sleep, or the last that was not.
    fn rest<R: Wait>(
        &mut self,
        setting: &Setting<'_, R>,
        announced: Option<Announced<'_>>,
        looks: u32,
        is_vain: bool,
    ) -> u32
        requires written { IsWrittenOut self.old }
        requires open { IsOpen setting.now.hall.now.id self.old }
        ensures { self.new ≡ self.old }
    {
        if !is_vain {
            return 0;
        }
        let Some(announced) = announced else {
            let more = if self.unsettled.are_several() {
                LOOKS_OF_SEVERAL
            } else {
                1
            };
            let next = looks.saturating_add(more);
            if looks / LOOKS_BEFORE_RING < next / LOOKS_BEFORE_RING {
                self.ring(setting.hall);
            }
            spin_loop();
            return next;
        };
        // Wakes a worker for queued rounds before the sleep.
        self.asker.ring(setting.hall);
        announced.sleep(setting.rt, &self.asker);
        0
    }
}

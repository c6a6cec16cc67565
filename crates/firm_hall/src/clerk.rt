//! The hall as a clerk: lines are answered while rounds are away.
ghost use Rattle.std.specs.Prelude.{◌≡◌, ℕ, ◌+◌, ◌≤◌, ◌^◌, All, IfOk, List, Option, [], false, length, vec_capacity};
ghost use Rattle.firm_text.specs.Rosters.{most_places};
ghost use Rattle.firm_table.specs.Openings.{opened};
ghost use Rattle.firm_table.specs.Service.{between};
ghost use Rattle.firm_rounds.specs.Passes.{QueueIs, new_puts};
ghost use Rattle.firm_hall.specs.inner.Ending.{AreOf, Ran};
ghost use Rattle.firm_hall.specs.inner.Serving.{IsFinished, IsOpen, IsReserved, IsWrittenOut, TellsAll};

use crate::asker::Asker;
use crate::desks::Desk;
use crate::empty::EmptyDesk;
use crate::ending::Ended;
use crate::patience::Patience;
use crate::seating::open_states;
use crate::serving::{Serving, place_of};
use crate::setting::Setting;
use crate::unsettled::Unsettled;
use crate::waiting::{End, Input, Turn};
use firm_held::Held;
use firm_rounds::PutPass;
use firm_table::{Clerk, Opening, ServeFault, answers_add_up, serve_lines};
use firm_text::{Heading, Line, PLACES, Sink, Source};
use std::alloc::AllocError;
use std::snapshot::Snapshot;
use std::sync::Wait;

/// A serving hall, and the room reserved for its desks at the end.
pub(crate) struct HallClerk<'h, R: Wait> {
    pub(crate) setting: Setting<'h, R>,
    // With what the service opened.
    pub(crate) opening: Opening<'h>,
    pub(crate) serving: Serving,
    pub(crate) desks: Vec<Desk>,
    pub(crate) empty: Vec<EmptyDesk>,
    ghost desks_room: { IsReserved desks.items (vec_capacity desks) },
    ghost empty_room: { IsReserved empty.items (vec_capacity empty) },
    ghost of_hall: { IsOpen setting.hall.now.id serving },
}

impl<R: Wait> Drop for HallClerk<'_, R> {
    // Written out, so that who owns a clerk has one call where it is dropped.
    fn drop(self) {
        let Self {
            setting,
            opening: _,
            serving,
            desks,
            empty,
        } = self;
        serving.discard(setting.hall);
        drop(desks);
        drop(empty);
    }
}

impl<'h, R: Wait> HallClerk<'h, R> {
    /// The clerk before the first line, with all tenants at home. These are the passes of the hall's places. Takes all
    /// memory of its own here; fails only if that is refused.
    pub(crate) fn open(
        setting: Setting<'h, R>,
        opening: Opening<'h>,
        passes: Vec<PutPass>,
    ) -> Result<HallClerk<'h, R>, AllocError>
        requires passes { passes.items ≡ new_puts setting.hall.now.id most_places }
        requires unused { All (λ p. p.put ≡ 0) passes.items }
        ensures open { IfOk result (λ clerk. IsOpen clerk.setting.hall.now.id clerk.serving) }
        ensures told { IfOk result (λ clerk. (written : Option (List ℕ))
            → TellsAll (opened clerk.opening) clerk.serving [] written written) }
        ensures hall { IfOk result (λ clerk. clerk.setting.hall.now ≡ setting.entry.hall.now) }
        ensures opening { IfOk result (λ clerk. opened clerk.opening ≡ opened opening.entry) }
    {
        // A law: before the first line nothing is claimed.
        answers_add_up();
        let desk_states = open_states(setting.alloc, opening, passes)?;
        let desks = Vec::with_capacity(setting.alloc, PLACES)?;
        let empty = Vec::with_capacity(setting.alloc, PLACES)?;
        let held = Held::open(setting.alloc)?;
        let serving = Serving {
            hall: Snapshot::of(setting.hall),
            asker: Asker::of(setting.hall),
            register: opening.register(),
            desk_states,
            held,
            unsettled: Unsettled::none(),
            patience: Patience::FIRST,
        };
        Ok(HallClerk {
            setting,
            opening,
            serving,
            desks,
            empty,
        })
    }

    /// Serves from the first byte to the last.
    pub(crate) fn serve<S: Source, W: Sink>(
        mut self,
        reader: &mut S,
        writer: &mut W,
        most: u64,
    ) -> Result<Ended, ServeFault>
        requires open { IsOpen self.setting.hall.now.id self.serving }
        requires told { (written : Option (List ℕ))
            → TellsAll (opened self.opening) self.serving [] written written }
        requires most { most ≤ 2 ^ 32 }
        requires reader { S.read_failed reader.old ≡ false }
        requires writer { W.write_failed writer.old ≡ false }
        ensures ran { Ran (opened self.entry.opening) most
            (between S.left S.read_failed reader.old reader.new)
            (between W.written W.write_failed writer.old writer.new) result }
        ensures desks { IfOk result
            (λ ended. AreOf self.entry.setting.hall.now.id ended.desks.items ended.empty.items) }
        ensures places { IfOk result (λ ended. length ended.desks.items + length ended.empty.items ≡ most_places) }
    {
        serve_lines(reader, writer, &mut self, most)?;
        let Self {
            setting,
            opening: _,
            serving,
            desks,
            empty,
        } = self;
        Ok(serving.end(setting.hall, desks, empty))
    }
}

impl<'h, R: Wait> Clerk for HallClerk<'h, R> {
    ghost Kept = { QueueIs };

    ghost kept = { λ clerk. clerk.setting.hall.now };

    ghost opening = { λ clerk. opened clerk.opening };

    ghost is_open = { λ clerk. IsOpen clerk.setting.hall.now.id clerk.serving };

    ghost told = { λ clerk text written now.
        TellsAll (opened clerk.opening) clerk.serving text written now };

    ghost is_written_out = { λ clerk. IsWrittenOut clerk.serving };

    ghost is_finished = { λ clerk. IsFinished clerk.serving };

    fn heading(&self) -> Heading {
        self.opening.heading()
    }

    fn answer<W: Sink>(&mut self, writer: &mut W, line: Line) -> Result<(), ServeFault> {
        // Laws: of one more line.
        answers_add_up();
        let mut turn = Turn {
            place: place_of(&self.serving.register, &line),
        };
        self.serving.take_turn(&self.setting, writer, &mut turn)?;
        self.serving.take_line(&self.setting, line);
        Ok(())
    }

    fn write_out<S: Source, W: Sink>(
        &mut self,
        reader: &mut S,
        writer: &mut W,
    ) -> Result<(), ServeFault> {
        self.serving.ring(self.setting.hall);
        let mut input = Input { reader };
        self.serving.wait(&self.setting, writer, &mut input)
    }

    fn finish<W: Sink>(&mut self, writer: &mut W) -> Result<(), ServeFault> {
        self.serving.wait(&self.setting, writer, &mut End)
    }
}

//! The thread's side: it reads a piece on each request.
use crate::turns::{ASKED, Board, CLOSED, READ, ReturnsReader, SourceSeat, TakesReader};
use crossbeam_utils::sync::EventCount;
use std::alloc::Global;
use std::io::Read;
use std::marker::Model;
use std::sync::{Arc, Mutex, Wait};

/// State shared by the source and its thread.
#[derive(Drop)]
pub(crate) struct Handover<T: Read> {
    pub(crate) board: Board<T>,
    // Notified of the next piece.
    pub(crate) waker: Mutex<Option<Arc<EventCount, Global>>>,
}

/// The side that reads ahead.
#[derive(Drop)]
pub(crate) struct ReadingSide<T: Read> {
    pub(crate) handover: Arc<Handover<T>, Global>,
    pub(crate) seat: SourceSeat<T>,
}

impl<T: Read> Model for ReadingSide<T> {
    ghost use Rattle.std.specs.Prelude.{◌≡◌, None, []};
    ghost use Rattle.std.specs.Arc.{arc_value};
    ghost use Rattle.atomic_table.specs.Seated.{TableId};

    ghost Value = { TableId };

    ghost use Rattle.firm_input.specs.Rule.{sight};
    ghost use Rattle.firm_input.specs.inner.Steps.{IsSeated};
    ghost use Rattle.firm_input.specs.declared.turns.Stage.TheVariants.{Rests};

    ghost view = { λ s. s.seat.table_id };

    ghost invariant = { λ s. IsSeated (arc_value s.handover).board.shared.table_id s.seat.table_id
        × (s.seat.me ≡ (sight Rests None, [])) };
}

impl<T: Read + Drop> ReadingSide<T> {
    /// Reads a piece on each request, until the source is closed.
    pub(crate) fn read_when_asked<R: Wait>(self, rt: &R) {
        let mut side = self;
        for _ in rt.forever() {
            match side.look(rt) {
                ASKED => {}
                CLOSED => return,
                theirs => {
                    let table = &side.handover.board.shared;
                    table.park(rt, 0, (theirs & 0xffff_ffff) as u32);
                }
            }
        }
    }

    // Looks at the word, and reads a piece if requested.
    fn look<R: Wait>(&mut self, rt: &R) -> u64 {
        let table = &self.handover.board.shared;
        let turn = table.load::<TakesReader>(&mut self.seat, 0);
        if turn == ASKED {
            let Some(mut reader) = table.exchange(&mut self.seat, 0, None) else {
                unreachable!();
            };
            reader.read_ahead();
            table.exchange(&mut self.seat, 0, Some(reader));
            table.store::<ReturnsReader>(&mut self.seat, 0, READ);
            // One wake is enough, since only the source sleeps at this word.
            table.wake_one(0);
            self.handover.notify(rt);
        }
        turn
    }
}

impl<T: Read> Handover<T> {
    // Notifies the waker, if any.
    fn notify<R: Wait>(&self, rt: &R) {
        let waker = self.waker.lock(rt).take();
        if let Some(waker) = waker {
            waker.notify_one();
        }
    }
}

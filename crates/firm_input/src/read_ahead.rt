//! A source that knows whether a read would wait: on request, a separate thread reads one piece ahead.

ghost use Rattle.std.specs.Prelude.{◌≡◌, false, [], IfOk, None};
ghost use Rattle.std.specs.Arc.{arc_value};
ghost use Rattle.firm_input.specs.ReadAhead.{source_is};
ghost use Rattle.firm_input.specs.Rule.{sight};
ghost use Rattle.firm_input.specs.inner.Steps.{IsSeated};
ghost use Rattle.firm_input.specs.declared.turns.Stage.TheVariants.{Rests};

use crate::pieces::PieceReader;
use crate::reading_side::{Handover, ReadingSide};
use crate::turns::{
    ASKED, Board, CLOSED, Closes, HOME, Lends, READ, Sides, SourceSeat, TakesBack, TakesSlot,
};
use crossbeam_utils::sync::EventCount;
use firm_text::{Failed, Source};
use std::alloc::{AllocError, Global};
use std::io::Read;
use std::marker::Model;
use std::sync::{Arc, Mutex, Wait};
use std::thread;
use std::thread::{JoinHandle, Threads};

/// A source over a reader. Reads the reader itself, except for the pieces its thread reads ahead.
#[derive(Drop)]
pub struct ReadAhead<'r, R, T: Read> {
    rt: &'r R,
    handover: Arc<Handover<T>, Global>,
    seat: SourceSeat<T>,
    // None while it is lent to the thread.
    reader: Option<PieceReader<T>>,
    // None if it could not be started.
    thread: Option<JoinHandle<()>>,
    has_failed: bool,
}

impl<'r, R, T: Read> Model for ReadAhead<'r, R, T> {
    ghost use Rattle.std.specs.Arc.{arc_value};
    ghost use Rattle.firm_input.specs.ReadAhead.{SourceIs, source_is};
    ghost use Rattle.firm_input.specs.inner.Steps.{IsSeated, StandsAt, left_at};

    ghost Value = { SourceIs };

    ghost view = { λ s. source_is (left_at s.seat.me.0.left s.reader) s.has_failed };

    ghost invariant = { λ s. IsSeated (arc_value s.handover).board.shared.table_id s.seat.table_id
        × StandsAt s.seat.me s.reader };
}

/// A source over the reader, with a thread that sleeps until a read is requested. Fails only if memory is refused; if
/// no thread can be started, the source can't tell whether a read would wait.
pub fn open<'r, R: Threads + Wait + Clone + Drop + Send + 'static, T: Read + Drop + Send + 'static>(
    rt: &'r R,
    alloc: Global,
    inner: T,
) -> Result<ReadAhead<'r, R, T>, AllocError>
    ensures { IfOk result (λ source. source ≡ source_is (T.remaining inner) false) }
{
    let reader = PieceReader::new(alloc, inner)?;
    let (board, mut seat) = Board::vacant(alloc, &[HOME], 1, &reader)?;
    let handover = Arc::new(
        alloc,
        Handover {
            board,
            waker: Mutex::new(None),
        },
    )?;
    let table = &handover.board.shared;
    table.load::<TakesSlot>(&mut seat, 0);
    let resting = table.split_seat::<Sides>(&mut seat);
    let thread = start(rt, &handover, resting);
    Ok(ReadAhead {
        rt,
        handover,
        seat,
        reader: Some(reader),
        thread,
        has_failed: false,
    })
}

// The reading thread, if it could be started.
fn start<R: Threads + Wait + Clone + Drop + Send + 'static, T: Read + Drop + Send + 'static>(
    rt: &R,
    handover: &Arc<Handover<T>, Global>,
    seat: SourceSeat<T>,
) -> Option<JoinHandle<()>>
    requires seated { IsSeated (arc_value handover.now).board.shared.table_id seat.table_id }
    requires rests { seat.me ≡ (sight Rests None, []) }
{
    let handover = Arc::try_clone(handover).ok()?;
    let handle = rt.clone().ok()?;
    let side = ReadingSide { handover, seat };
    thread::spawn(rt, move || side.read_when_asked(&handle)).ok()
}

impl<R, T: Read + Drop> ReadAhead<'_, R, T> {
    // Takes the reader back, if it is lent and the thread has read.
    fn take_back(&mut self)
        ensures { self.new ≡ self.old }
    {
        if self.reader.is_some() {
            return;
        }
        let table = &self.handover.board.shared;
        if table.compare_exchange::<TakesBack>(&mut self.seat, 0, READ, HOME) == READ {
            self.reader = table.exchange(&mut self.seat, 0, None);
        }
    }

    // Lends the reader to the thread, if it is here and nothing is left of a piece.
    fn lend(&mut self)
        ensures { self.new ≡ self.old }
    {
        match &self.reader {
            Some(reader) if !reader.has_piece() => {}
            _ => return,
        }
        let reader = self.reader.take();
        let table = &self.handover.board.shared;
        table.exchange(&mut self.seat, 0, reader);
        table.store::<Lends>(&mut self.seat, 0, ASKED);
        // One wake is enough, since only the thread sleeps at this word.
        table.wake_one(0);
    }
}

impl<R: Threads + Wait, T: Read + Drop> ReadAhead<'_, R, T> {
    /// Ends the thread, unless it is in a read. A thread blocked in a read ends only with the program.
    pub fn close(self) {
        let mut source = self;
        source.take_back();
        let ReadAhead {
            rt,
            handover,
            mut seat,
            reader,
            thread,
            ..
        } = source;
        let (Some(_), Some(thread)) = (reader, thread) else {
            return;
        };
        let table = &handover.board.shared;
        table.store::<Closes>(&mut seat, 0, CLOSED);
        table.wake_one(0);
        thread.join(rt);
    }
}

impl<R: Wait, T: Read + Drop> Source for ReadAhead<'_, R, T> {
    ghost left = { λ source. source.left };

    ghost read_failed = { λ source. source.has_failed };

    // Waits while the thread reads.
    fn read(&mut self, buffer: &mut [u8]) -> Result<usize, Failed> {
        for _ in self.rt.forever() {
            self.take_back();
            if let Some(reader) = &mut self.reader {
                let read = reader.read(buffer);
                self.has_failed |= read.is_err();
                return read;
            }
            self.handover.board.shared.park(self.rt, 0, ASKED as u32);
        }
        unreachable!()
    }

    // Without a waker the caller won't wait, so nothing is read ahead. The waker is stored before the word is read
    // again, and the thread looks for it after its own turn: either this read finds the piece, or the thread finds the
    // waker. Without the thread, a read might wait while the caller owes replies: it is never ready for such a caller.
    fn is_ready(&mut self, waker: Option<&Arc<EventCount, Global>>) -> bool {
        if self.thread.is_none() {
            return false;
        }
        if let Some(waker) = waker {
            let Ok(waker) = Arc::try_clone(waker) else {
                return true;
            };
            *self.handover.waker.lock(self.rt) = Some(waker);
            self.lend();
        }
        self.take_back();
        matches!(&self.reader, Some(reader) if reader.has_piece())
    }
}

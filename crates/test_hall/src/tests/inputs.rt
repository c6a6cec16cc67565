//! A source whose thread reads ahead: when it is ready, how often its reader is read, and that its thread ends with it.

use super::check;
use super::counts::{LOOKS, reaches};
use crossbeam_utils::sync::EventCount;
use firm_text::{Failed, Source};
use std::alloc::Global;
use std::io;
use std::io::{Error, ErrorKind, Read};
use std::process::Abort;
use std::sync::atomic::{AtomicU64, Ordering};
use std::sync::{Arc, Wait};
use std::thread::Threads;

/// State shared by a reader and its test.
#[derive(Drop)]
struct Meter {
    /// A read waits until this is 1.
    go: AtomicU64,
    /// Number of reads.
    reads: AtomicU64,
}

/// The most bytes that a reader gives at once.
const MOST: usize = 10;

/// Gives 10 bytes a read at most, then fails once where it is to, and then has ended.
#[derive(Drop)]
struct Dripping {
    rest: &'static [u8],
    fault: Option<ErrorKind>,
    meter: Arc<Meter, Global>,
}

impl Read for Dripping {
    fn read(&mut self, buffer: &mut [u8]) -> io::Result<usize> {
        reaches(&self.meter.go, 1, LOOKS);
        self.meter.reads.fetch_add(1, Ordering::SeqCst);
        let room = buffer.len().min(MOST);
        let count = self.rest.read(&mut buffer[..room])?;
        if count == 0
            && let Some(kind) = self.fault.take()
        {
            return Err(Error::from(kind));
        }
        Ok(count)
    }
}

/// Sleeps until the source is ready.
fn wait_until_ready<R: Wait, S: Source>(rt: &R, source: &mut S, waker: &Arc<EventCount, Global>) {
    for _ in rt.forever() {
        let announced = waker.prepare_wait();
        if source.is_ready(Some(waker)) {
            return;
        }
        announced.wait(rt);
    }
}

/// Reads to the end or a fault, with a wait before each `waited_each`th read, or none where that is 0. Returns the
/// number of bytes, and the answer after them.
fn read_all<R: Wait, S: Source>(
    rt: &R,
    source: &mut S,
    waker: &Arc<EventCount, Global>,
    waited_each: u64,
) -> (usize, Result<usize, Failed>) {
    let mut bytes = 0usize;
    for turn in 0..1_000u64 {
        if waited_each != 0 && turn % waited_each == 0 {
            wait_until_ready(rt, source, waker);
        }
        match source.read(&mut [0; 7]) {
            Ok(count) if count > 0 => bytes = bytes.saturating_add(count),
            last => return (bytes, last),
        }
    }
    (bytes, Ok(bytes))
}

const TEXT: &[u8] = b"alpha machine m1 2\nalpha job j 10\nalpha task j a\nalpha round\n";

/// The reader's fault at its end, and the source's answer there; n for a wait before each nth read, or 0 for none; and
/// the number of the reader's reads.
type Case = (Option<ErrorKind>, Result<usize, Failed>, u64, u64);

/// Of the 61 bytes a piece has 10 at most, and what goes into the buffer itself 7.
static CASES: [Case; 12] = [
    (None, Ok(0), 0, 10),
    (None, Ok(0), 1, 8),
    (None, Ok(0), 2, 8),
    (None, Ok(0), 3, 8),
    (Some(ErrorKind::Other), Err(Failed), 0, 10),
    (Some(ErrorKind::Other), Err(Failed), 1, 8),
    (Some(ErrorKind::Other), Err(Failed), 2, 8),
    (Some(ErrorKind::Other), Err(Failed), 3, 8),
    (Some(ErrorKind::Interrupted), Err(Failed), 0, 10),
    (Some(ErrorKind::Interrupted), Err(Failed), 1, 8),
    (Some(ErrorKind::Interrupted), Err(Failed), 2, 8),
    (Some(ErrorKind::Interrupted), Err(Failed), 3, 8),
];

/// Reads the first piece of a source whose reader waits to be let go. Expects that it is ready once the piece is there,
/// and until it is read. How many bytes there were.
fn read_first<R: Wait + Abort, S: Source>(
    rt: &R,
    source: &mut S,
    waker: &Arc<EventCount, Global>,
    meter: &Meter,
) -> usize {
    check(rt, !source.is_ready(None), "nobody reads ahead");
    check(rt, !source.is_ready(Some(waker)), "the reader waits");
    meter.go.store(1, Ordering::SeqCst);
    wait_until_ready(rt, source, waker);
    check(rt, source.read(&mut []) == Ok(0), "no room for a byte");
    check(rt, source.is_ready(None), "a piece is there");
    check(
        rt,
        source.read(&mut [0; 20]) == Ok(MOST),
        "the piece is read",
    );
    check(rt, !source.is_ready(None), "nobody reads on");
    MOST
}

/// Expects all bytes and their end from the source, with this many reads of the reader until then, and nothing after
/// it.
fn expect_all<R: Alloc<A = Global> + Abort + Wait, S: Source>(
    rt: &R,
    source: &mut S,
    meter: &Meter,
    case: &Case,
) {
    let waker = Arc::new(rt.alloc(), EventCount::new());
    let waker = &waker.expect(rt, "memory");
    let first = match case.2 {
        0 => 0,
        _ => read_first(rt, source, waker, meter),
    };
    let (rest, last) = read_all(rt, source, waker, case.2);
    check(rt, rest.saturating_add(first) == TEXT.len(), "all bytes");
    check(rt, last == case.1, "the end");
    let reads = meter.reads.load(Ordering::SeqCst);
    check(rt, reads == case.3, "no byte is read twice");
    check(rt, source.read(&mut [0; 7]) == Ok(0), "nothing more");
}

/// The source ends with its thread. When it is asked whether it is ready, its reader waits to be let go at first.
fn play<R: Alloc<A = Global> + Abort + Threads + Wait + Clone + Drop + Send + 'static>(
    rt: &R,
    case: &Case,
) {
    let meter = Meter {
        go: AtomicU64::new((case.2 == 0) as u64),
        reads: AtomicU64::new(0),
    };
    let meter = Arc::new(rt.alloc(), meter).expect(rt, "memory");
    let reader = Dripping {
        rest: TEXT,
        fault: case.0,
        meter: Arc::try_clone(&meter).expect(rt, "memory"),
    };
    let mut source = firm_input::open(rt, rt.alloc(), reader).expect(rt, "memory");
    expect_all(rt, &mut source, &meter, case);
    source.close();
    check(rt, Arc::strong_count(&meter) == 1, "the thread has ended");
}

fn play_all<R: Alloc<A = Global> + Abort + Threads + Wait + Clone + Drop + Send + 'static>(
    rt: &R,
    cases: &[Case],
) {
    for case in cases {
        play(rt, case);
    }
}

#[test]
fn is_ready_once_a_piece_is_there_and_reads_each_byte_once(rt: HostRuntime) {
    play_all(&rt, &CASES);
}

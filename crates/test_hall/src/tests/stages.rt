//! Services of which a gate holds rounds while their input is read and their answers are written: what the gate, the
//! reader and the writer of one share.

ghost use Rattle.std.specs.Prelude.{◌≡◌, ◌≤◌, length, false};

use super::counts::{LOOKS, reaches, rest_awhile};
use crossbeam_utils::sync::EventCount;
use firm_hall::Gate;
use firm_rules::Ticket;
use firm_table::ServeFault;
use firm_text::{Failed, Sink, Source};
use std::alloc::Global;
use std::sync::atomic::{AtomicU64, Ordering};
use std::sync::{Arc, OnceLock};
use std::thread;

/// The bytes that each read asks for.
const READ: usize = 4_096;

/// How often the gate looks for a read that is not to come.
const FEW_LOOKS: u32 = 5_000;

/// A service.
pub struct Scene {
    /// The records of its roster.
    pub records: &'static str,
    pub workers: usize,
    /// The most bytes of input that it takes.
    pub most: u64,
    /// The bytes of the first read, and of those after it.
    pub input: &'static [u8],
    pub more: More,
    /// Of how many tenants, the first ones, rounds are held.
    pub held: u32,
    /// The events that such a round waits for, one after the other.
    pub until: &'static [Until],
    /// Number of lines written, and the text of the first ones. With no line nothing is written.
    pub lines: u64,
    pub text: &'static [u8],
    /// Number of rounds that it reports; 0 after a fault.
    pub rounds: u64,
    /// The fault with which it ends. With a failed write its flush fails.
    pub fault: Option<ServeFault>,
}

/// The text after the first read: one text this many times, and then each of the last ones.
pub struct More {
    pub times: u64,
    pub again: &'static [u8],
    pub last: &'static [&'static [u8]],
    pub comes: Comes,
}

/// When such a read need not wait.
pub enum Comes {
    AtOnce,
    /// Once a line is written for each read before it. The writer notifies nobody.
    Answered,
    /// Once the gate brings it, which notifies the service.
    Brought,
}

/// The event that a held round waits for.
pub enum Until {
    /// This many rounds have come to the gate.
    Come(u64),
    /// So many reads have begun.
    Read(u64),
    /// So many reads have begun, and no other one begins for a while.
    ReadNoMore(u64),
    /// So many lines are written.
    Written(u64),
    /// The service waits for the input, which is then brought.
    Waits,
    /// The service waits for the input once more for each round of the tenant, and another while.
    Asleep,
}

impl Scene {
    /// The bytes of the read after this many.
    fn piece(&self, reads: u64) -> &'static [u8] {
        if reads == 0 {
            return self.input;
        }
        if reads <= self.more.times {
            return self.more.again;
        }
        let behind = reads.saturating_sub(self.more.times).saturating_sub(1);
        self.more.last.get(behind as usize).copied().unwrap_or(b"")
    }
}

/// State shared by the gate, the reader and the writer of a service.
#[derive(Drop)]
pub struct Stage {
    scene: &'static Scene,
    /// Numbers of rounds at the gate, reads begun, lines written, and waits of the service for input, of
    /// which one counts for each read.
    come: AtomicU64,
    reads: AtomicU64,
    pub written: AtomicU64,
    waits: AtomicU64,
    /// Whether the gate brought the input: 1 once it did.
    brought: AtomicU64,
    waker: OnceLock<Arc<EventCount, Global>>,
    /// How often something was not as it should be.
    pub missed: AtomicU64,
}

impl Gate for Stage {
    fn pass(&self, ticket: Ticket) {
        self.come.fetch_add(1, Ordering::SeqCst);
        if ticket.place < self.scene.held {
            for until in self.scene.until {
                self.expect(self.is_met(until, ticket.number));
            }
        }
    }
}

impl Stage {
    pub fn new(scene: &'static Scene) -> Stage {
        Stage {
            scene,
            come: AtomicU64::new(0),
            reads: AtomicU64::new(0),
            written: AtomicU64::new(0),
            waits: AtomicU64::new(0),
            brought: AtomicU64::new(0),
            waker: OnceLock::new(),
            missed: AtomicU64::new(0),
        }
    }

    fn expect(&self, holds: bool) {
        if !holds {
            self.missed.fetch_add(1, Ordering::SeqCst);
        }
    }

    /// Waits for it; whether it came.
    fn is_met(&self, until: &Until, number: u64) -> bool {
        match until {
            Until::Come(rounds) => reaches(&self.come, *rounds, LOOKS),
            Until::Read(reads) => reaches(&self.reads, *reads, LOOKS),
            Until::ReadNoMore(reads) => {
                reaches(&self.reads, *reads, LOOKS)
                    && !reaches(&self.reads, reads.saturating_add(1), FEW_LOOKS)
            }
            Until::Written(lines) => reaches(&self.written, *lines, LOOKS),
            Until::Waits => self.bring(),
            Until::Asleep => {
                let is_met = reaches(&self.waits, number, LOOKS);
                rest_awhile(number);
                is_met
            }
        }
    }

    /// Brings the input, a while after the service began to wait for it. Whether it did.
    fn bring(&self) -> bool {
        let is_met = reaches(&self.waits, 1, LOOKS);
        for _ in 0..1_000 {
            thread::yield_now();
        }
        self.brought.store(1, Ordering::SeqCst);
        if let Some(waker) = self.waker.get() {
            waker.notify_one();
        }
        is_met
    }

    /// Whether a read need not wait.
    fn is_there(&self) -> bool {
        let reads = self.reads.load(Ordering::SeqCst);
        match self.scene.more.comes {
            Comes::AtOnce => true,
            Comes::Answered => reads <= self.written.load(Ordering::SeqCst),
            Comes::Brought => reads == 0 || self.brought.load(Ordering::SeqCst) == 1,
        }
    }

    /// Keeps the first waker that came.
    fn keep(&self, waker: &Arc<EventCount, Global>) {
        if let Ok(waker) = Arc::try_clone(waker) {
            let _ = self.waker.try_set(waker);
        }
    }

    /// The service begins to wait for the input. At most one time counts for each read.
    fn note_wait(&self) {
        let reads = self.reads.load(Ordering::SeqCst);
        if self.waits.load(Ordering::SeqCst) < reads {
            self.waits.fetch_add(1, Ordering::SeqCst);
        }
    }
}

/// Gives the input of the scene.
#[derive(Drop)]
pub struct Reads<'a> {
    pub stage: &'a Stage,
}

impl Source for Reads<'_> {
    ghost read_failed = { λ _. false };

    fn read(&mut self, buffer: &mut [u8]) -> Result<usize, Failed> {
        self.stage.expect(buffer.len() == READ);
        let reads = self.stage.reads.fetch_add(1, Ordering::SeqCst);
        Ok(fill(buffer, self.stage.scene.piece(reads)))
    }

    // The waker is there before the input is looked for, and the gate looks for it after the input.
    fn is_ready(&mut self, waker: Option<&Arc<EventCount, Global>>) -> bool {
        let Some(waker) = waker else {
            return self.stage.is_there();
        };
        self.stage.keep(waker);
        let is_there = self.stage.is_there();
        if !is_there {
            self.stage.note_wait();
        }
        is_there
    }
}

/// Copies the front of the piece, as far as the buffer has room, and gives the count.
fn fill(buffer: &mut [u8], piece: &[u8]) -> usize
    ensures buffer { result ≤ length buffer.old }
    ensures piece { result ≤ length piece.now }
{
    let count = piece.len().min(buffer.len());
    buffer[..count].copy_from_slice(&piece[..count]);
    count
}

/// Counts the lines that are written, and compares the first ones with what is expected.
#[derive(Drop)]
pub struct Writes<'a> {
    pub stage: &'a Stage,
    /// The text that is still to be compared.
    pub rest: &'static [u8],
    pub has_failed: bool,
}

impl Sink for Writes<'_> {
    ghost write_failed = { λ sink. sink.has_failed };

    fn write(&mut self, bytes: &[u8]) -> Result<usize, Failed> {
        self.stage.expect(self.stage.scene.lines != 0);
        let count = bytes.len().min(self.rest.len());
        self.stage.expect(bytes[..count] == self.rest[..count]);
        self.rest = &self.rest[count..];
        for byte in bytes {
            if *byte == b'\n' {
                self.stage.written.fetch_add(1, Ordering::SeqCst);
            }
        }
        Ok(bytes.len())
    }

    fn flush(&mut self) -> Result<(), Failed> {
        if self.stage.scene.fault == Some(ServeFault::Write) {
            self.has_failed = true;
            return Err(Failed);
        }
        Ok(())
    }
}

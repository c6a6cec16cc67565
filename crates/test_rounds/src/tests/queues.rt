//! Tickets that are put and got in order, jobs that are left, and eight threads at one queue.

ghost use Rattle.std.specs.Prelude.{◌≡◌, ◌+◌, ◌<◌, ◌^◌, All, IfErr};
ghost use Rattle.std.specs.Fork.{AcceptsJobs};
ghost use Rattle.std.specs.Thread.{IsSync};

use super::check;
use super::trays::{asked, look};
use Step::{Gets, HasRoom, Misses, Puts, WasFull};
use firm_rounds::{Job, PopPass, PutPass, Queue, QueueFault, finish_all};
use firm_rules::Ticket;
use firm_tray::AskSide;
use std::alloc::Global;
use std::process::Abort;
use std::sync::Wait;
use std::sync::atomic::{AtomicU64, Ordering};
use std::thread;
use std::thread::Threads;

// Puts the next ticket of the pass.
fn ask<R: Abort + Wait>(rt: &R, alloc: Global, queue: &Queue, pass: &mut PutPass) -> AskSide
    requires { (pass.old.queue ≡ queue.now.id) × (pass.old.put < 2 ^ 55) }
    ensures queue { pass.new.queue ≡ pass.old.queue }
    ensures put { pass.new.put ≡ pass.old.put + 1 }
{
    let (tenant, side, answer) = asked(rt, alloc);
    let job = Job::new(pass.next(), tenant, answer);
    queue.put(rt, pass, job);
    side
}

// Gets a job and finishes it.
fn serve<R: Wait>(rt: &R, alloc: Global, queue: &Queue, pass: &mut PopPass) -> Option<Ticket>
    requires { pass.old.queue ≡ queue.now.id }
    ensures { pass.new.queue ≡ pass.old.queue }
{
    let job = queue.pop(rt, pass)?;
    let ticket = job.ticket();
    let _spent = job.finish(alloc);
    Some(ticket)
}

// An event at a queue of two places, with one pass to get.
enum Step {
    // The place puts its next ticket.
    Puts(usize),
    // No ticket is there.
    Misses,
    // This ticket is got. Its round is back then, and not before.
    Gets(Ticket),
    // Whether the queue has room for one more.
    HasRoom(bool),
    // Whether it was full until the last ticket was got.
    WasFull(bool),
}

// Steps in turn, and the tickets left when the queue is closed after them.
struct Script {
    steps: &'static [Step],
    left: &'static [Ticket],
}

const A1: Ticket = Ticket {
    place: 0,
    number: 1,
};

const A2: Ticket = Ticket {
    place: 0,
    number: 2,
};

const A3: Ticket = Ticket {
    place: 0,
    number: 3,
};

const A4: Ticket = Ticket {
    place: 0,
    number: 4,
};

const A5: Ticket = Ticket {
    place: 0,
    number: 5,
};

const B1: Ticket = Ticket {
    place: 1,
    number: 1,
};

const B2: Ticket = Ticket {
    place: 1,
    number: 2,
};

const B3: Ticket = Ticket {
    place: 1,
    number: 3,
};

static SCRIPTS: [Script; 4] = [
    Script {
        steps: &[Puts(0), Puts(1), Gets(A1), Gets(B1), Misses],
        left: &[],
    },
    Script {
        steps: &[Puts(0), Puts(1)],
        left: &[A1, B1],
    },
    Script {
        steps: &[Misses, Puts(1), Puts(0), Puts(0), Gets(B1)],
        left: &[A1, A2],
    },
    // It has room for eight.
    Script {
        steps: &[
            Puts(0),
            Puts(0),
            Puts(1),
            Puts(1),
            Puts(1),
            Puts(0),
            Puts(0),
            HasRoom(true),
            Puts(0),
            HasRoom(false),
            Gets(A1),
            WasFull(true),
            HasRoom(true),
            Gets(A2),
            WasFull(false),
            Gets(B1),
            Gets(B2),
            Gets(B3),
        ],
        left: &[A3, A4, A5],
    },
];

fn ask_at<R: Alloc<A = Global> + Abort + Wait>(
    rt: &R,
    queue: &Queue,
    puts: &mut Vec<PutPass>,
    place: usize,
) -> AskSide
    requires { All (λ p. p.queue ≡ queue.now.id) puts.old.items }
    ensures { All (λ p. p.queue ≡ queue.now.id) puts.new.items }
{
    check(rt, place < puts.len(), "a place");
    let pass = &mut puts[place];
    // `put` asks for a number that is not too large.
    check(rt, pass.next().number < 100, "a number");
    ask(rt, rt.alloc(), queue, pass)
}

fn expect_got<R: Alloc<A = Global> + Abort + Wait>(
    rt: &R,
    queue: &Queue,
    pass: &mut PopPass,
    sides: &mut Vec<AskSide>,
    wanted: Ticket,
)
    requires { pass.old.queue ≡ queue.now.id }
    ensures { pass.new.queue ≡ pass.old.queue }
{
    check(rt, !sides.is_empty(), "a ticket that was put");
    let side = look(sides.remove(0)).err().expect(rt, "no answer");
    let got = serve(rt, rt.alloc(), queue, pass);
    check(rt, got == Some(wanted), "the ticket that is got");
    check(rt, look(side).ok() == Some(true), "the round is back");
}

// Takes the steps; returns the sides of the tickets that were put and not got.
fn take_steps<R: Alloc<A = Global> + Abort + Wait>(
    rt: &R,
    queue: &Queue,
    puts: &mut Vec<PutPass>,
    pass: &mut PopPass,
    steps: &[Step],
) -> Vec<AskSide>
    requires puts { All (λ p. p.queue ≡ queue.now.id) puts.old.items }
    requires pass { pass.old.queue ≡ queue.now.id }
    ensures puts { All (λ p. p.queue ≡ queue.now.id) puts.new.items }
    ensures pass { pass.new.queue ≡ queue.now.id }
{
    let alloc = rt.alloc();
    let mut sides = Vec::new(alloc);
    for step in steps {
        match step {
            Puts(place) => {
                let side = ask_at(rt, queue, puts, *place);
                sides.push(side).expect(rt, "memory");
            }
            Misses => check(rt, serve(rt, alloc, queue, pass).is_none(), "no ticket"),
            Gets(ticket) => expect_got(rt, queue, pass, &mut sides, *ticket),
            HasRoom(wanted) => check(rt, queue.has_room() == *wanted, "room for one more"),
            WasFull(wanted) => check(rt, pass.was_full() == *wanted, "a queue that was full"),
        }
    }
    sides
}

// The tickets of these jobs, which are finished.
fn finish<R: Alloc<A = Global> + Abort>(rt: &R, jobs: Vec<Job>) -> Vec<Ticket> {
    let mut tickets = Vec::new(rt.alloc());
    for job in &jobs {
        tickets.push(job.ticket()).expect(rt, "memory");
    }
    finish_all(rt.alloc(), jobs);
    tickets
}

// The tickets that were left; or, where a pass is missing, the queue with all that was handed in.
fn close<R: Alloc<A = Global> + Abort + Wait>(
    rt: &R,
    queue: Queue,
    puts: Vec<PutPass>,
    pops: Vec<PopPass>,
) -> Result<Vec<Ticket>, (Queue, Vec<PutPass>, Vec<PopPass>)>
    requires puts { All (λ p. p.queue ≡ queue.id) puts.items }
    requires pops { All (λ p. p.queue ≡ queue.id) pops.items }
    ensures { IfErr result (λ back. (back.0 ≡ queue) × (back.1.items ≡ puts.items) × (back.2.items ≡ pops.items)) }
{
    match queue.close(rt, puts, pops) {
        Ok(()) => Ok(Vec::new(rt.alloc())),
        Err(QueueFault::Missing(queue, puts, pops)) => Err((queue, puts, pops)),
        Err(QueueFault::Left(_puts, _pops, jobs)) => Ok(finish(rt, jobs)),
    }
}

// The tickets that were left. The queue closes once neither the last place's pass nor the one to get is missing.
fn left_of<R: Alloc<A = Global> + Abort + Wait>(
    rt: &R,
    queue: Queue,
    puts: Vec<PutPass>,
    pops: Vec<PopPass>,
) -> Vec<Ticket>
    requires puts { All (λ p. p.queue ≡ queue.id) puts.items }
    requires pops { All (λ p. p.queue ≡ queue.id) pops.items }
{
    let mut puts = puts;
    let held = puts.pop().expect(rt, "a pass");
    let back = close(rt, queue, puts, pops);
    let (queue, mut puts, pops) = back.err().expect(rt, "a place's pass is missing");
    puts.push(held).expect(rt, "memory");
    let back = close(rt, queue, puts, Vec::new(rt.alloc()));
    let (queue, puts, _) = back.err().expect(rt, "the pass to get is missing");
    let left = close(rt, queue, puts, pops).ok();
    left.expect(rt, "no pass is missing")
}

fn play<R: Alloc<A = Global> + Abort + Wait>(rt: &R, script: &Script) {
    let (queue, mut puts, mut pops) = Queue::open(rt.alloc(), 2, 1).expect(rt, "memory");
    let pass = &mut pops[0];
    let sides = take_steps(rt, &queue, &mut puts, pass, script.steps);
    let left = left_of(rt, queue, puts, pops);
    check(rt, left.as_slice() == script.left, "the tickets left");
    for side in sides {
        check(
            rt,
            look(side).ok() == Some(true),
            "a round that was left is back",
        );
    }
}

#[test]
fn tickets_are_got_in_order_and_those_left_come_back(rt: HostRuntime) {
    for script in &SCRIPTS {
        play(&rt, script);
    }
}

const PLACES: usize = 4;

const EACH: u64 = 2_500;

// How often a thread looks for a ticket before it gives up.
const MOST_LOOKS: u64 = 1_000_000_000;

// How often each ticket was got, and how many are still to come.
#[derive(Drop)]
struct Tally {
    got: Vec<AtomicU64>,
    left: AtomicU64,
}

fn new_tally(rt: &impl Abort, alloc: Global) -> Tally {
    let count = EACH * PLACES as u64;
    let mut got = Vec::new(alloc);
    for _ in 0..count {
        got.push(AtomicU64::new(0)).expect(rt, "memory");
    }
    Tally {
        got,
        left: AtomicU64::new(count),
    }
}

impl Tally {
    // Notes a ticket that was got. Without one it yields, and says whether none is still to come.
    fn note(&self, got: Option<Ticket>) -> bool {
        let Some(ticket) = got else {
            thread::yield_now();
            return self.left.load(Ordering::SeqCst) == 0;
        };
        let at = u64::from(ticket.place)
            .saturating_mul(EACH)
            .saturating_add(ticket.number);
        if let Some(count) = self.got.get((at as usize).wrapping_sub(1)) {
            count.fetch_add(1, Ordering::SeqCst);
        }
        self.left.fetch_sub(1, Ordering::SeqCst);
        false
    }

    fn has_each_once(&self) -> bool {
        for count in &self.got {
            if count.load(Ordering::SeqCst) != 1 {
                return false;
            }
        }
        true
    }
}

fn put_all<R: Abort + Wait>(rt: &R, alloc: Global, queue: &Queue, pass: PutPass)
    requires { (pass.queue ≡ queue.now.id) × (pass.put ≡ 0) }
{
    let mut pass = pass;
    for _ in 0..EACH {
        let _ask = ask(rt, alloc, queue, &mut pass);
    }
}

fn get_all<R: Wait>(rt: &R, alloc: Global, queue: &Queue, pass: PopPass, tally: &Tally)
    requires { pass.queue ≡ queue.now.id }
{
    let mut pass = pass;
    for _ in 0..MOST_LOOKS {
        let got = serve(rt, alloc, queue, &mut pass);
        if tally.note(got) {
            return;
        }
    }
}

// Does the work of each pass on a separate thread.
fn work_on_threads<R: Abort + Threads + Sync, P: Send + Drop, F: Fn(P) + Sync>(
    rt: &R,
    passes: Vec<P>,
    work: &F,
)
    requires { AcceptsJobs F.Fn work.now passes.items }
{
    let done = thread::map_vec(rt, passes, work);
    check(rt, done.is_ok(), "threads");
}

fn expect_each_once<R: Abort + Threads + Wait + Sync>(rt: &R, alloc: Global) {
    let (queue, puts, pops) = Queue::open(alloc, PLACES, PLACES).expect(rt, "memory");
    let tally = new_tally(rt, alloc);
    let (queue, all) = (&queue, &tally);
    let ((), ()) = thread::join(
        rt,
        move ||
            requires threads { IsSync R.row }
            requires pops { All (λ p. p.queue ≡ queue.now.id) pops.items }
        {
            work_on_threads(
                rt,
                pops,
                &|pass: PopPass|
                    requires { pass.queue ≡ queue.now.id }
                { get_all(rt, alloc, queue, pass, all) },
            )
        },
        move ||
            requires threads { IsSync R.row }
            requires puts { All (λ p. p.queue ≡ queue.now.id) puts.items × All (λ p. p.put ≡ 0) puts.items }
        {
            work_on_threads(
                rt,
                puts,
                &|pass: PutPass|
                    requires { (pass.queue ≡ queue.now.id) × (pass.put ≡ 0) }
                { put_all(rt, alloc, queue, pass) },
            )
        },
    );
    check(rt, tally.has_each_once(), "each ticket is got once");
}

#[test]
fn four_threads_put_and_four_get_each_ticket_once(rt: HostRuntime) {
    expect_each_once(&rt, rt.alloc());
}

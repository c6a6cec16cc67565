//! Desks on threads of their callers.

ghost use Rattle.std.specs.Prelude.{◌≡◌, All};

use super::check;
use super::scenes::{Play, Scene, perform};
use firm_hall::{Desk, Hall};
use firm_rules::{Command, Name, Reply};
use firm_text::{Line, line, reply_text};
use std::alloc::Global;
use std::process::Abort;
use std::sync::Wait;
use std::thread;
use std::thread::Threads;

/// A line, and its reply after the tenant's name and the number.
type Exchange = (&'static [u8], &'static str);

/// The lines that each caller sends in turn, and then again, and how many in all.
#[derive(Clone, Copy)]
pub struct Calls {
    lines: &'static [Exchange],
    count: u64,
}

fn command_of(rt: &impl Abort, text: &[u8]) -> Command {
    let Line::For(_, command) = line(text) else {
        panic!(rt; "a line for a tenant")
    };
    command
}

/// The desk with its reply, for which it waits if the command is a round.
fn answer<R: Wait>(
    rt: &R,
    alloc: Global,
    hall: &Hall,
    desk: Desk,
    command: Command,
) -> (Desk, Reply)
    requires { desk.queue ≡ hall.now.id }
    ensures { result.0.queue ≡ hall.now.id }
{
    let mut desk = desk;
    if command != Command::Round {
        let reply = desk.command(alloc, command);
        return (desk, reply);
    }
    match desk.ask(rt, alloc, hall) {
        Ok(asked) => asked.wait(rt),
        Err(refused) => refused,
    }
}

fn expect_reply(rt: &impl Abort, alloc: Global, reply: &Reply, number: u64, wanted: &str) {
    let name = Name::read(b"t").expect(rt, "a name");
    let wanted = format!(in alloc; "t {number} {wanted}").expect(rt, "memory");
    let text = reply_text(alloc, name, reply).expect(rt, "memory");
    check(rt, text.as_slice() == wanted.as_bytes(), "a reply");
}

/// The desk after its caller's lines.
fn call<R: Alloc<A = Global> + Abort + Wait>(rt: &R, hall: &Hall, desk: Desk, calls: Calls) -> Desk
    requires { desk.queue ≡ hall.now.id }
    ensures { result.queue ≡ hall.now.id }
{
    let (alloc, mut desk) = (rt.alloc(), desk);
    for number in 0..calls.count {
        let at = number as usize % calls.lines.len().max(1);
        let (text, wanted) = calls.lines.get(at).expect(rt, "a line");
        let (same, reply) = answer(rt, alloc, hall, desk, command_of(rt, text));
        desk = same;
        expect_reply(rt, alloc, &reply, number.saturating_add(1), wanted);
    }
    desk
}

/// The desks after their callers' lines, each sent on a separate thread.
pub fn call_all<R: Alloc<A = Global> + Abort + Threads + Wait + Sync>(
    rt: &R,
    hall: &Hall,
    desks: Vec<Desk>,
    calls: Calls,
) -> Vec<Desk>
    requires { All (λ d. d.queue ≡ hall.now.id) desks.items }
    ensures { All (λ d. d.queue ≡ hall.now.id) result.items }
{
    let desks = thread::map_vec(
        rt,
        desks,
        &|desk: Desk| -> Desk
            requires { desk.queue ≡ hall.now.id }
            ensures { result.queue ≡ hall.entry.now.id }
        { call(rt, hall, desk, calls) },
    );
    desks.expect(rt, "memory")
}

/// Number of rounds that each caller hands over.
const ROUNDS: u64 = 250;

const IDLE_ROUNDS: Calls = Calls {
    lines: &[(b"t round", "ok round cost 0")],
    count: ROUNDS,
};

/// Four tenants with room for nothing, and for as many commands as there may be.
const HAND_OVERS: Scene = Scene {
    records: "\
a,2,0,1099511627776,0,0
b,2,0,1099511627776,0,0
c,2,0,1099511627776,0,0
d,2,0,1099511627776,0,0",
    places: 0,
    play: Play::Callers(IDLE_ROUNDS),
    rounds: 4 * ROUNDS,
};

// A wake-up that is lost on the way there or back leaves a caller waiting for ever.
#[test]
fn rounds_of_four_callers_go_to_two_workers_and_come_back(rt: HostRuntime) {
    perform(&rt, 2, HAND_OVERS);
}

/// Twelve such tenants, more than the queue has room for.
const MANY: Scene = Scene {
    records: "\
a,2,0,1099511627776,0,0
b,2,0,1099511627776,0,0
c,2,0,1099511627776,0,0
d,2,0,1099511627776,0,0
e,2,0,1099511627776,0,0
f,2,0,1099511627776,0,0
g,2,0,1099511627776,0,0
h,2,0,1099511627776,0,0
i,2,0,1099511627776,0,0
j,2,0,1099511627776,0,0
k,2,0,1099511627776,0,0
l,2,0,1099511627776,0,0",
    places: 0,
    play: Play::Callers(IDLE_ROUNDS),
    rounds: 12 * ROUNDS,
};

// A caller waits for room in the queue that others fill.
#[test]
fn no_round_is_refused_while_others_fill_the_queue(rt: HostRuntime) {
    perform(&rt, 1, MANY);
}

/// Their replies are those of one tenant alone, on one thread.
const STARTS_AND_PREEMPTS: Scene = Scene {
    records: "a,8,30,100,0,3\nb,8,30,100,0,3\nc,8,30,100,0,3\nd,8,30,100,0,3",
    places: 0,
    play: Play::Callers(Calls {
        lines: &[
            (b"t machine m1 1", "ok"),
            (b"t job low 2", "ok"),
            (b"t task low l", "ok"),
            (b"t round", "ok round cost 0 start l m1"),
            (b"t job high 20", "ok"),
            (b"t task high h", "ok"),
            (b"t round", "ok round cost 5 preempt l m1 start h m1"),
        ],
        count: 7,
    }),
    rounds: 4 * 2,
};

#[test]
fn four_callers_have_tasks_started_and_preempted(rt: HostRuntime) {
    perform(&rt, 2, STARTS_AND_PREEMPTS);
}

const WORN: Scene = Scene {
    records: "t,2,0,1,0,0",
    places: 0,
    play: Play::Callers(Calls {
        lines: &[(b"t round", "ok round cost 0"), (b"t round", "no 1 worn")],
        count: 2,
    }),
    rounds: 1,
};

#[test]
fn a_desk_without_life_left_answers_its_round_itself(rt: HostRuntime) {
    perform(&rt, 1, WORN);
}

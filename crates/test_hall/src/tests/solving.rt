//! When a round is solved: behind its gate, so by the worker that passed it.

ghost use Rattle.std.specs.Prelude.{◌≡◌, All};

use super::check;
use super::gates::Holds;
use super::scenes::{Play, Scene, perform};
use super::turns::{ask_first, wait_back};
use firm_hall::{Desk, Hall};
use firm_rules::{Command, Outcome};
use firm_text::{Line, line};
use std::alloc::Global;
use std::process::Abort;
use std::sync::Wait;
use std::time::{Clock, Duration, Instant};

/// Numbers of the tenant's machines and tasks.
const PAIRS: u64 = 100;

/// Number of timed rounds.
const ROUNDS: u64 = 9;

/// The desk's tenant obeys a line, of these words around a number.
fn obey<R: Alloc<A = Global> + Abort>(
    rt: &R,
    desk: &mut Desk,
    front: &str,
    number: u64,
    behind: &str,
)
    ensures { desk.new.queue ≡ desk.old.queue }
{
    let alloc = rt.alloc();
    let text = format!(in alloc; "{front}{number}{behind}").expect(rt, "memory");
    let Line::For(_, command) = line(text.as_bytes()) else {
        panic!(rt; "a line for a tenant")
    };
    if command != Command::Round {
        let reply = desk.command(alloc, command);
        check(rt, reply.outcome == Outcome::Plain, front);
    }
}

/// The desk's caller adds a job, machines and tasks.
fn add_rows<R: Alloc<A = Global> + Abort>(rt: &R, hall: &Hall, desk: &mut Desk)
    requires { desk.old.queue ≡ hall.now.id }
    ensures { desk.new.queue ≡ hall.now.id }
{
    let _ = hall;
    obey(rt, desk, "a job j", 0, " 90000");
    for number in 0..PAIRS {
        obey(rt, desk, "a machine m", number, " 8");
        obey(rt, desk, "a task j0 t", number, "");
    }
}

fn now<R: Abort + Clock>(rt: &R) -> Instant {
    Instant::now(rt).ok().expect(rt, "the time")
}

/// Time of the first desk's round, from the call that requests it until it comes to the gate, and from the
/// opening of the gate until it is back.
fn time_round<R: Alloc<A = Global> + Abort + Clock + Wait>(
    rt: &R,
    hall: &Hall,
    desks: &mut Vec<Desk>,
    gate: &Holds,
    number: u64,
) -> (Duration, Duration)
    requires { All (λ d. d.queue ≡ hall.now.id) desks.old.items }
    ensures { All (λ d. d.queue ≡ hall.now.id) desks.new.items }
{
    let asked_at = now(rt);
    let asked = ask_first(rt, rt.alloc(), hall, desks);
    gate.expect_come(rt, number);
    let opened_at = now(rt);
    gate.open();
    wait_back(rt, hall, asked, desks);
    let back_at = now(rt);
    (
        opened_at.duration_since(asked_at),
        back_at.duration_since(opened_at),
    )
}

/// Solving takes longer than all else, so it shows on which side of the gate it is done.
pub fn expect_solved_behind<R: Alloc<A = Global> + Abort + Clock + Wait>(
    rt: &R,
    hall: &Hall,
    desks: &mut Vec<Desk>,
    gate: &Holds,
)
    requires { All (λ d. d.queue ≡ hall.now.id) desks.old.items }
    ensures { All (λ d. d.queue ≡ hall.now.id) desks.new.items }
{
    check(rt, !desks.is_empty(), "a desk");
    let desk = &mut desks[0];
    add_rows(rt, hall, desk);
    let (mut before, mut behind) = (Duration::MAX, Duration::MAX);
    for number in 0..ROUNDS {
        let times = time_round(rt, hall, desks, gate, number.saturating_add(1));
        before = before.min(times.0);
        behind = behind.min(times.1);
    }
    check(rt, before < behind, "a round takes longer behind the gate");
}

const TIMED: Scene = Scene {
    records: "a,400,3000,100000,50,400",
    places: 1,
    play: Play::Timed,
    rounds: ROUNDS,
};

#[test]
fn a_round_is_solved_behind_its_gate(rt: HostRuntime) {
    perform(&rt, 1, TIMED);
}

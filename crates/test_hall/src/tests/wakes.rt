//! Workers that are woken while another is held at its gate, and rounds requested just before the hall is shut.

ghost use Rattle.std.specs.Prelude.{◌≡◌, All};

use super::check;
use super::counts::{LOOKS, reaches, rest_awhile};
use super::gates::Holds;
use super::scenes::{Play, Scene, perform};
use super::turns::{ask_first, poll_back, wait_back};
use firm_hall::{Desk, Hall};
use std::alloc::Global;
use std::hint::spin_loop;
use std::process::Abort;
use std::sync::Wait;

/// How often two rounds are put in one go.
const TURNS: u64 = 1_000;

/// One worker is held at the gate with a round; two rounds are put in one go, and come to the gate too.
fn put_two_in_one_go<R: Alloc<A = Global> + Abort + Wait>(
    rt: &R,
    hall: &Hall,
    desks: &mut Vec<Desk>,
    gate: &Holds,
    turn: u64,
)
    requires { All (λ d. d.queue ≡ hall.now.id) desks.old.items }
    ensures { All (λ d. d.queue ≡ hall.now.id) desks.new.items }
{
    let (alloc, come) = (rt.alloc(), turn.saturating_mul(3));
    rest_awhile(turn);
    let held = ask_first(rt, alloc, hall, desks);
    gate.expect_come(rt, come.saturating_add(1));
    rest_awhile(turn / 2);
    let second = ask_first(rt, alloc, hall, desks);
    let third = ask_first(rt, alloc, hall, desks);
    gate.expect_come(rt, come.saturating_add(3));
    gate.open();
    wait_back(rt, hall, held, desks);
    wait_back(rt, hall, second, desks);
    wait_back(rt, hall, third, desks);
}

pub fn put_two_each_turn<R: Alloc<A = Global> + Abort + Wait>(
    rt: &R,
    hall: &Hall,
    desks: &mut Vec<Desk>,
    gate: &Holds,
)
    requires { All (λ d. d.queue ≡ hall.now.id) desks.old.items }
    ensures { All (λ d. d.queue ≡ hall.now.id) desks.new.items }
{
    for turn in 0..TURNS {
        put_two_in_one_go(rt, hall, desks, gate, turn);
    }
}

const TWO_EACH_TURN: Scene = Scene {
    records: "a,2,0,20000,0,0\nb,2,0,20000,0,0\nc,2,0,20000,0,0",
    places: 3,
    play: Play::TwoEachTurn,
    rounds: 3 * TURNS,
};

// A round that waits while a worker sleeps never comes to the gate.
#[test]
fn no_worker_sleeps_while_rounds_wait(rt: HostRuntime) {
    perform(&rt, 3, TWO_EACH_TURN);
}

/// How often a hall is shut behind a round.
const HALLS: u64 = 2_000;

/// Requests the first desk's round once the worker begins, and shuts the hall right after it. The round is answered
/// once the worker has ended.
pub fn ask_and_shut<R: Alloc<A = Global> + Abort + Wait>(
    rt: &R,
    hall: &Hall,
    desks: &mut Vec<Desk>,
    gate: &Holds,
    pause: u64,
)
    requires { All (λ d. d.queue ≡ hall.now.id) desks.old.items }
    ensures { All (λ d. d.queue ≡ hall.now.id) desks.new.items }
{
    check(rt, reaches(&gate.begun, 1, LOOKS), "the worker begins");
    for _ in 0..pause {
        spin_loop();
    }
    let asked = ask_first(rt, rt.alloc(), hall, desks);
    hall.shut();
    check(rt, reaches(&gate.ended, 1, LOOKS), "the worker ends");
    poll_back(rt, hall, asked, desks, 1);
}

#[test]
fn a_round_that_was_asked_before_the_hall_was_shut_is_solved(rt: HostRuntime) {
    for turn in 0..HALLS {
        let scene = Scene {
            records: "t,2,0,1,0,0",
            places: 0,
            play: Play::ShutBehind(turn % 100),
            rounds: 1,
        };
        perform(&rt, 1, scene);
    }
}

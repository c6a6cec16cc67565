//! Desks that ask in turn, and come back after the others.

ghost use Rattle.std.specs.Prelude.{◌≡◌, All};

use super::{check, expect_idle_round};
use firm_hall::{Asked, AskedPoll, Desk, Hall};
use std::alloc::Global;
use std::process::Abort;
use std::sync::Wait;
use std::thread;

/// Takes the first desk off and asks for its round.
pub fn ask_first<R: Abort + Wait>(
    rt: &R,
    alloc: Global,
    hall: &Hall,
    desks: &mut Vec<Desk>,
) -> Asked
    requires { All (λ d. d.queue ≡ hall.now.id) desks.old.items }
    ensures asked { result.queue ≡ hall.now.id }
    ensures rest { All (λ d. d.queue ≡ hall.now.id) desks.new.items }
{
    check(rt, !desks.is_empty(), "a desk");
    let desk = desks.remove(0);
    desk.ask(rt, alloc, hall).ok().expect(rt, "a round")
}

/// The desk that asked is back after the others once its round is answered.
pub fn wait_back<R: Abort + Wait>(rt: &R, hall: &Hall, asked: Asked, desks: &mut Vec<Desk>)
    requires asked { asked.queue ≡ hall.now.id }
    requires desks { All (λ d. d.queue ≡ hall.now.id) desks.old.items }
    ensures { All (λ d. d.queue ≡ hall.now.id) desks.new.items }
{
    let _ = hall;
    let (desk, _reply) = asked.wait(rt);
    desks.push(desk).expect(rt, "memory");
}

/// The desk that asked its first round is back after the others, after this many looks at most.
pub fn poll_back(rt: &impl Abort, hall: &Hall, asked: Asked, desks: &mut Vec<Desk>, looks: u32)
    requires asked { asked.queue ≡ hall.now.id }
    requires desks { All (λ d. d.queue ≡ hall.now.id) desks.old.items }
    ensures { All (λ d. d.queue ≡ hall.now.id) desks.new.items }
{
    let _ = hall;
    let mut asked = asked;
    for _ in 0..looks {
        match asked.poll() {
            AskedPoll::Not(same) => asked = same,
            AskedPoll::Back(desk, reply) => {
                expect_idle_round(rt, &reply, 1);
                desks.push(desk).expect(rt, "memory");
                return;
            }
        }
        thread::yield_now();
    }
    panic!(rt; "the round is not back")
}

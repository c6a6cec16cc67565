//! A round that a gate holds, and another that comes back meanwhile.

ghost use Rattle.std.specs.Prelude.{◌≡◌, All};

use super::counts::LOOKS;
use super::gates::Holds;
use super::scenes::{Play, Scene, perform};
use super::turns::{ask_first, poll_back, wait_back};
use firm_hall::{AskedPoll, Desk, Hall};
use std::alloc::Global;
use std::process::Abort;
use std::sync::Wait;

/// The gate holds the first desk's round, which is not answered before it opens. The second one's comes back meanwhile.
pub fn expect_passed<R: Abort + Wait>(
    rt: &R,
    alloc: Global,
    hall: &Hall,
    desks: &mut Vec<Desk>,
    gate: &Holds,
)
    requires { All (λ d. d.queue ≡ hall.now.id) desks.old.items }
    ensures { All (λ d. d.queue ≡ hall.now.id) desks.new.items }
{
    let held = ask_first(rt, alloc, hall, desks);
    gate.expect_come(rt, 1);
    let other = ask_first(rt, alloc, hall, desks);
    poll_back(rt, hall, other, desks, LOOKS);
    let AskedPoll::Not(held) = held.poll() else {
        panic!(rt; "a round that is held is back")
    };
    gate.open();
    wait_back(rt, hall, held, desks);
}

const TWO: Scene = Scene {
    records: "alpha,9,24,100,1,2\nbeta,8,30,100,0,3",
    places: 1,
    play: Play::Passed,
    rounds: 2,
};

#[test]
fn a_round_passes_another_that_a_gate_holds(rt: HostRuntime) {
    perform(&rt, 2, TWO);
}

//! The source that reads ahead; desks on threads of their callers, and halls that are shut and closed; services whose
//! replies do not wait for a neighbour or for input.
ghost use Rattle.std.specs.Prelude.{IsTrue};

mod callers;
mod counts;
mod gates;
mod held;
mod inputs;
mod rosters;
mod scenes;
mod services;
mod solving;
mod stages;
mod turns;
mod wakes;

use firm_rules::{Outcome, Reply};
use std::process::Abort;

/// Says what does not hold. A call costs less to prove than an `assert!`.
fn check(rt: &impl Abort, holds: bool, what: &str)
    ensures { IsTrue holds }
{
    assert!(rt; holds, "{what}");
}

/// This is the reply to a round that places nothing.
fn expect_idle_round(rt: &impl Abort, reply: &Reply, number: u64) {
    let is_idle = match &reply.outcome {
        Outcome::Round { cost: 0, changes } => changes.as_slice().is_empty(),
        _ => false,
    };
    let is_expected = is_idle && reply.number == number;
    assert!(rt; is_expected, "reply {}", reply.number);
}

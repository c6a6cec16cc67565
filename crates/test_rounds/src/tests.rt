//! Readers and writers; trays and the queue of rounds; events of a table.
ghost use Rattle.std.specs.Prelude.{IsTrue};

mod devices;
mod events;
mod queues;
mod trays;

use std::process::Abort;

/// Says what does not hold. A call costs less to prove than an `assert!`.
fn check(rt: &impl Abort, holds: bool, what: &str)
    ensures { IsTrue holds }
{
    assert!(rt; holds, "{what}");
}

//! Worked cases from the arena to the choice of a round, and random rounds proposed beside those that are searched.
ghost use Rattle.std.specs.Prelude.{IsTrue};

mod arena;
mod books;
mod canon;
mod graph;
mod names;
mod nets;
mod proposals;
mod random;
mod tenants;

use std::process::Abort;

/// Ends the test where this does not hold.
fn check(rt: &impl Abort, holds: bool, what: &str)
    ensures { IsTrue holds }
{
    assert!(rt; holds, "{what}");
}

/// The expected answer, so that no test has a branch.
fn expect<T: Copy + PartialEq>(rt: &impl Abort, found: T, wanted: T) {
    assert!(rt; found == wanted);
}

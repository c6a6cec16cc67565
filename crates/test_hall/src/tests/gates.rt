//! A gate that holds rounds of desks.

use super::check;
use super::counts::{LOOKS, reaches};
use firm_hall::Gate;
use firm_rules::Ticket;
use std::process::Abort;
use std::sync::atomic::{AtomicU64, Ordering};

/// Holds rounds of the first places: the first of each until the gate was opened once, the second until it was opened
/// twice, and so on. It also counts the workers that begin and end.
#[derive(Drop)]
pub struct Holds {
    places: u32,
    come: AtomicU64,
    opened: AtomicU64,
    /// Number of rounds that went on though the gate was not opened for them.
    missed: AtomicU64,
    pub begun: AtomicU64,
    pub ended: AtomicU64,
}

impl Gate for Holds {
    fn pass(&self, ticket: Ticket) {
        if ticket.place < self.places {
            self.come.fetch_add(1, Ordering::SeqCst);
            if !reaches(&self.opened, ticket.number, LOOKS) {
                self.missed.fetch_add(1, Ordering::SeqCst);
            }
        }
    }
}

impl Holds {
    /// A gate for this many places.
    pub fn new(places: u32) -> Holds {
        Holds {
            places,
            come: AtomicU64::new(0),
            opened: AtomicU64::new(0),
            missed: AtomicU64::new(0),
            begun: AtomicU64::new(0),
            ended: AtomicU64::new(0),
        }
    }

    /// This many rounds come to the gate in all, and are held there.
    pub fn expect_come(&self, rt: &impl Abort, rounds: u64) {
        let have_come = reaches(&self.come, rounds, LOOKS);
        let are_held = self.missed.load(Ordering::SeqCst) == 0;
        check(
            rt,
            have_come && are_held,
            "the rounds that come and are held",
        );
    }

    /// Opens the gate once more.
    pub fn open(&self) {
        self.opened.fetch_add(1, Ordering::SeqCst);
    }
}
